// What is judged: a frame, a word and a certificate that the code's table has no refusal for.
ghost use Rattle.std.specs.Prelude.{◌≤◌};
ghost use Rattle.rules.specs.Limits.{max_bits};
ghost use Rattle.judge.specs.Rows.{Unrefused};

use super::entries::Certificate;
use table::loaded::Loaded;

// `few` is what `Loaded::bits` says, at hand where the table itself is not read.
#[derive(Clone, Copy)]
pub(crate) struct Claim<'a> {
    pub(crate) table: &'a Loaded<'a>,
    pub(crate) frame: &'a [i16],
    pub(crate) word: &'a [u8],
    pub(crate) certificate: &'a Certificate<'a>,
    ghost few: { table.now.bits ≤ max_bits },
    ghost unrefused: { Unrefused table.now frame.now word.now certificate.now },
}
