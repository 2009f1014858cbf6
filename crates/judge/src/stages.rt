// The judge's answer on a table that was loaded: all refusals, then the first broken check, then the
// gap.
ghost use Rattle.std.specs.Prelude.{◌≡◌, ◌≤◌, length};
ghost use Rattle.std.proofs.Math.Option.{none};
ghost use Rattle.rules.specs.Limits.{max_bits};
ghost use Rattle.rules.specs.Judge.{weigh};
ghost use Rattle.limits.specs.Numbers.{refusal_of};
ghost use Rattle.inputs.specs.Refusals.{frame_refusal, word_refusal, or_else};
ghost use Rattle.judge.specs.Claims.{gap_in, sole_in, verdict_in};
ghost use Rattle.judge.specs.Reply.{ruled, verdict_of, parity_of, agreed_of};
ghost use Rattle.judge.specs.Stages.{judge_on, syndrome_on, agreement_on};

use super::Verdict;
use super::bound::{gap_of, none_zero};
use super::checks::first_broken;
use super::claim::Claim;
use super::entries::{Certificate, entries_refusal};
use limits::MAX_BITS;
use limits::refusals::Refusal;
use table::loaded::Loaded;

// "8, 9, 15", of a frame and a word for n bits.
pub(crate) fn inputs_refusal(n: usize, frame: &[i16], word: &[u8]) -> Result<(), Refusal>
    ensures { refusal_of result ≡ or_else (frame_refusal n frame.now) (word_refusal n word.now) }
{
    inputs::frame(frame, n)?;
    inputs::word(word, n)
}

// "Certified for gap 0, else the gap": certified with its mark. The slice is for the reduced numbers.
pub(crate) fn weighed(reduced: &mut [i64], claim: &Claim) -> Verdict
    requires { length reduced.old ≡ claim.now.table.now.bits }
    ensures { ruled result ≡ weigh none (gap_in claim.now) (sole_in claim.now) }
{
    let gap = gap_of(reduced, claim);
    if gap == 0 {
        return Verdict::Certified {
            sole: none_zero(reduced),
        };
    }
    Verdict::Gap(gap)
}

// "The checker answers the first broken check; if none, certified for gap 0, else the gap."
pub(crate) fn verdict(claim: &Claim) -> Verdict
    ensures { ruled result ≡ verdict_in claim.now }
{
    match first_broken(claim.table, claim.word) {
        Some(j) => Verdict::Broken(j),
        None => {
            let mut reduced = [0i64; MAX_BITS];
            weighed(&mut reduced[..claim.table.bits()], claim)
        }
    }
}

// "8, 9, 15, 10, 11, entry by entry 12, 13, 14", then the verdict.
pub(crate) fn judge_table(
    table: &Loaded,
    frame: &[i16],
    word: &[u8],
    certificate: &[u8],
) -> Result<Verdict, Refusal>
    ensures { verdict_of result ≡ judge_on table.now frame.now word.now certificate.now }
{
    inputs_refusal(table.bits(), frame, word)?;
    let certificate = Certificate::read(certificate)?;
    entries_refusal(table, &certificate)?;
    Ok(verdict(&Claim {
        table,
        frame,
        word,
        certificate: &certificate,
    }))
}

pub(crate) fn syndrome_table(table: &Loaded, word: &[u8]) -> Result<Option<usize>, Refusal>
    ensures { parity_of result ≡ syndrome_on table.now word.now }
{
    let bits = table.bits();
    inputs::word(word, bits)?;
    Ok(first_broken(table, word))
}

pub(crate) fn agreement_table(n: usize, frame: &[i16], word: &[u8]) -> Result<i64, Refusal>
    requires { n ≤ max_bits }
    ensures { agreed_of result ≡ agreement_on n frame.now word.now }
{
    inputs_refusal(n, frame, word)?;
    Ok(inputs::agreement(frame, word))
}
