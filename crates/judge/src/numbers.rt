// The 16-bit and 32-bit numbers of a certificate.
ghost use Rattle.std.specs.Prelude.{◌≡◌, ◌+◌, ◌<◌, length};
ghost use Rattle.rules.specs.Bytes.{u16_limit, u16_at, u32_at};

use file_numbers::{u16_of, u32_of};

// The number at byte `at`.
pub(crate) fn u16_at(bytes: &[u8], at: usize) -> usize
    requires { at + 1 < length bytes.now }
    ensures { (result ≡ u16_at bytes.now at) × (result < u16_limit) }
{
    u16_of(bytes[at], bytes[at + 1])
}

pub(crate) fn u32_at(bytes: &[u8], at: usize) -> u32
    requires { at + 3 < length bytes.now }
    ensures { result ≡ u32_at bytes.now at }
{
    u32_of(bytes[at], bytes[at + 1], bytes[at + 2], bytes[at + 3])
}
