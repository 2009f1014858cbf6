// The 16-bit numbers of a file, and the test of a range.
ghost use Rattle.std.specs.Prelude.{◌≡◌, ◌+◌, ◌<◌, length};
ghost use Rattle.rules.specs.Bytes.{u16_limit, u16_at};
ghost use Rattle.rules.specs.CodeFile.{in_range};

use file_numbers::u16_of;

// The number at byte `at`. The judge has one too, since what crosses a crate has no `requires`.
#[tactic(auto, unfolding(rules::specs::Bytes::u16_at))]
pub(crate) fn u16_at(code: &[u8], at: usize) -> usize
    requires { at + 1 < length code.now }
    ensures { (result ≡ u16_at code.now at) × (result < u16_limit) }
{
    u16_of(code[at], code[at + 1])
}

// x is from lo to hi.
#[tactic(auto, unfolding(rules::specs::CodeFile::in_range))]
pub fn in_range(lo: usize, hi: usize, x: usize) -> bool
    ensures { result ≡ in_range lo hi x }
{
    lo <= x && x <= hi
}
