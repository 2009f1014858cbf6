// The judge of document 01, "Certificates": a code file, a frame, a word and anybody's certificate,
// any bytes and numbers, judged; and the judge's two parts, the syndrome and the agreement.
#![tactic(auto)]

mod bound;
mod checks;
mod claim;
mod entries;
mod numbers;
mod stages;

ghost use Rattle.std.specs.Prelude.{◌≡◌};
ghost use Rattle.rules.specs.Judge as rule;
ghost use Rattle.judge.specs.Reply.{verdict_of, parity_of, agreed_of};

use limits::refusals::Refusal;
use stages::{agreement_table, judge_table, syndrome_table};
use table::loaded::Room;

// The judge's answer to what is not refused: the first broken check, certified, or the gap. Certified
// with a mark, `sole`: every reduced number differs from 0.
#[derive(Clone, Copy, Debug, PartialEq, Eq)]
pub enum Verdict {
    Broken(usize),
    Certified { sole: bool },
    Gap(i64),
}

// Judges a word and a certificate. What the answer is worth stands in proofs/Certified: `certified⇔`,
// `certified-best`, `certified-sole` for the mark, `gap-positive`.
pub fn judge(
    code: &[u8],
    frame: &[i16],
    word: &[u8],
    certificate: &[u8],
) -> Result<Verdict, Refusal>
    ensures { verdict_of result ≡ rule.judge code.now frame.now word.now certificate.now }
{
    let mut room = Room::new();
    let table = room.load(code)?;
    judge_table(&table, frame, word, certificate)
}

// The first check that a word breaks, or `None` where it meets all.
pub fn syndrome(code: &[u8], word: &[u8]) -> Result<Option<usize>, Refusal>
    ensures { parity_of result ≡ rule.syndrome code.now word.now }
{
    let mut room = Room::new();
    let table = room.load(code)?;
    syndrome_table(&table, word)
}

// "The sum of the frame's numbers, added where the bit is 0 and subtracted where it is 1."
pub fn agreement(code: &[u8], frame: &[i16], word: &[u8]) -> Result<i64, Refusal>
    ensures { agreed_of result ≡ rule.agreement_of code.now frame.now word.now }
{
    let sizes = table::check(code)?;
    agreement_table(sizes.bits, frame, word)
}
