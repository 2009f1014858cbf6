// What a half-done run holds, and the tests of refusal 43.
ghost use Rattle.std.specs.Prelude.{◌≡◌, length};
ghost use Rattle.integers.specs.Sum.{AllWithin};
ghost use Rattle.rules.specs.Limits.{unit, offset_limit};
ghost use Rattle.rules.specs.Step.{minus};
ghost use Rattle.rules.specs.Round.{sums_of};
ghost use Rattle.rules.specs.Scatter.{scatter};
ghost use Rattle.rules.specs.Input.{each_within};
ghost use Rattle.rules.specs.Run.{limited, same, sound};
ghost use Rattle.run.specs.Sums.{EdgesFit};

use super::Record;
use limits::{MAX_BITS, OFFSET_PER_ROUND};
use std::marker::Model;

// The members of a code's edges, a copy and an offset for each, and a sum for each bit. A clause sees
// them as lists.
#[derive(Drop)]
pub(crate) struct HalfDone<'a> {
    pub(crate) members: &'a [u16],
    pub(crate) copies: &'a [i32],
    pub(crate) offsets: &'a [i32],
    pub(crate) sums: &'a [i32],
}

impl<'a> Model for HalfDone<'a> {
    ghost use Rattle.run.specs.Sums.{Carried, Held, held_as};

    ghost Value = { Held };

    ghost view = { λ s. held_as s.members.now s.copies.now s.offsets.now s.sums.now };

    ghost invariant = { λ s. Carried s.members.now s.copies.now s.offsets.now s.sums.now };
}

// Each number is from -limit to limit.
fn all_within(xs: &[i32], limit: u32) -> bool
    ensures { result ≡ each_within limit xs.now }
{
    xs.iter().all(|x| x.unsigned_abs() <= limit)
}

impl<'a> HalfDone<'a> {
    // Whether 43 leaves it alone, of a running run: the limits, "and 43 a sum that isn't true".
    #[tactic(auto, unfolding(rules::specs::Run::sound))]
    pub(crate) fn is_sound(&self, rounds: u32) -> bool
        ensures { result ≡ sound (length self.now.sums) self.now.members rounds self.now.state self.now.sums }
    {
        self.is_limited(rounds) && self.are_sums_true()
    }

    // "43 rounds done above 1,024, or 1,024 in a running run, a copy outside -U..U, or an offset
    // beyond 8,192 x rounds done", of a running run.
    #[tactic(auto, using(std::proofs::lemmas::Bool::Decides::nat_tests), unfolding(rules::specs::Run::limited))]
    fn is_limited(&self, rounds: u32) -> bool
        ensures { result ≡ limited rounds self.now.state }
    {
        rounds < Record::ROUND_LIMIT
            && all_within(self.copies, Record::UNIT as u32)
            && all_within(self.offsets, OFFSET_PER_ROUND * rounds)
    }

    // Each sum is the one that its bit's edges have.
    fn are_sums_true(&self) -> bool
        requires { AllWithin unit self.now.state.copies × AllWithin offset_limit self.now.state.offsets }
        ensures { result ≡ same self.now.sums (sums_of (length self.now.sums) self.now.members self.now.state) }
    {
        let mut room = [0i32; MAX_BITS];
        let found = &mut room[..self.sums.len()];
        self.add_edges(found);
        self.sums == found
    }

    // "The sum of z - y over its edges": one edge after the other, added at its member.
    fn add_edges(&self, sums: &mut [i32])
        requires { EdgesFit self.now.members self.now.state.copies self.now.state.offsets sums.old }
        ensures { sums.new ≡ scatter self.now.members (minus self.now.state.copies self.now.state.offsets) sums.old }
    {
        for (e, m) in self.members.iter().enumerate() {
            sums[*m as usize] += self.copies[e] - self.offsets[e];
        }
    }
}
