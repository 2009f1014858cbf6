// A set of a check's members as a mask.
ghost use Rattle.std.specs.Prelude.{◌≡◌, ◌/◌, ◌%◌, ◌^◌, ◌<◌, eqb};

// Whether member k is in the set.
pub(crate) fn holds(mask: u32, k: usize) -> bool
    requires { k < 32 }
    ensures { result ≡ eqb (mask / 2 ^ k % 2) 1 }
{
    (mask >> (k as u32)) % 2 == 1
}
