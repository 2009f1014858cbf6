// Zeros in a buffer.
ghost use Rattle.std.specs.Prelude.{◌≡◌, length};
ghost use Rattle.rules.specs.Buffers.{zeros};

// All numbers become zero: the library's fill, under the name that DECISIONS 28 and the decoder's proof have.
pub fn clear(xs: &mut [i32])
    ensures { xs.new ≡ zeros (length xs.old) }
{
    xs.fill(0);
}
