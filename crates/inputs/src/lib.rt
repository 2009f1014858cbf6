// What is handed in beside the code file: frame, word and point, each accepted or refused. And the
// agreement of a word with a frame.
#![tactic(auto)]

ghost use Rattle.std.specs.Prelude.{◌≡◌, ◌&&◌};
ghost use Rattle.std.specs.List.{list_all};
ghost use Rattle.std.specs.Ordering.{partial_le};
ghost use Rattle.integers.specs.Linear.{Within};
ghost use Rattle.limits.specs.Numbers.{refusal_of};
ghost use Rattle.rules.specs.Input.{each_bit, bit_of_byte};
ghost use Rattle.rules.specs.Limits.{frame_size};
ghost use Rattle.rules.specs.Parity.{turn};
ghost use Rattle.inputs.specs.Refusals.{frame_refusal, word_refusal, point_refusal};
ghost use Rattle.inputs.specs.Agreed.{agreed, agreement_limit};

use limits::refusals::Refusal;
use limits::{FRAME_LIMIT, MAX_BITS, UNIT};

// "A frame is n signed 16-bit numbers l, from −8,191 to 8,191", or refusal 8 or 9.
#[tactic(auto, unfolding(crate::specs::Refusals::frame_refusal))]
pub fn frame(l: &[i16], n: usize) -> Result<(), Refusal>
    ensures { refusal_of result ≡ frame_refusal n l.now }
{
    if l.len() != n {
        return Err(Refusal::FrameLength);
    }
    if !all_between(l, -FRAME_LIMIT, FRAME_LIMIT) {
        return Err(Refusal::FrameRange);
    }
    Ok(())
}

// "A word is n bytes, each 0 or 1", or refusal 15.
#[tactic(auto, unfolding(crate::specs::Refusals::word_refusal))]
pub fn word(w: &[u8], n: usize) -> Result<(), Refusal>
    ensures { refusal_of result ≡ word_refusal n w.now }
{
    if w.len() != n || !bytes_right(w) {
        return Err(Refusal::WordWrong);
    }
    Ok(())
}

// "n spins from −U to U", or refusal 16.
pub fn point(s: &[i32], n: usize) -> Result<(), Refusal>
    ensures { refusal_of result ≡ point_refusal n s.now }
{
    if s.len() != n || !all_between(s, -UNIT, UNIT) {
        return Err(Refusal::PointWrong);
    }
    Ok(())
}

// The agreement of a word with a frame: of the bits that both have, MAX_BITS at the most. Nothing is
// refused here: a caller has tested both, or a call has.
pub fn agreement(frame: &[i16], word: &[u8]) -> i64
    ensures { (result ≡ agreed frame.now word.now) × Within agreement_limit result }
{
    let n = frame.len().min(word.len()).min(MAX_BITS);
    let mut total = 0;
    for (x, byte) in frame[..n].iter().zip(&word[..n]) {
        total += turned(*byte, *x);
    }
    total
}

// Whether each number is one from `low` to `high`.
fn all_between<T: PartialOrd + Copy>(xs: &[T], low: T, high: T) -> bool
    ensures { result ≡ list_all (λ x. partial_le T.partial_cmp low x && partial_le T.partial_cmp x high) xs.now }
{
    xs.iter().all(|x| low <= *x && *x <= high)
}

// Whether each byte is 0 or 1. The loop goes to the end, so that it can be done in wide steps.
#[tactic(auto, using(crate::proofs::EachLaws::each_bit_is))]
fn bytes_right(w: &[u8]) -> bool
    ensures { result ≡ each_bit w.now }
{
    let mut right = true;
    for byte in w {
        right &= *byte <= 1;
    }
    right
}

// A frame number under a word's bit: "added where the bit is 0 and subtracted where it is 1".
fn turned(byte: u8, x: i16) -> i64
    ensures { (result ≡ turn (bit_of_byte byte) x) × Within frame_size result }
{
    let x = i64::from(x);
    if byte == 1 { -x } else { x }
}
