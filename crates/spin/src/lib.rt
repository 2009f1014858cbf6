// A bit's spin from its total, and whether all spins are decided (document 01, "One round", steps 1
// and 4).
#![tactic(auto)]

pub mod totals;

ghost use Rattle.std.specs.Prelude.{◌≡◌, neg_ℤ, nat_abs};
ghost use Rattle.integers.specs.Clip.{clip_z};
ghost use Rattle.rules.specs.Limits.{unit};
ghost use Rattle.rules.specs.Step.{clips};
ghost use Rattle.rules.specs.Round as rule;
ghost use Rattle.spin.specs.Spin.{Degree, Remainder, lacks, no_zero};

use limits::UNIT;

// 1 if a remainder is half of d or more above 0, else 0.
fn half_above(r: i32, d: i32) -> i32
    requires { Remainder r d }
    ensures { result ≡ lacks r d }
{
    i32::from(d <= r + r)
}

// 1 if it is half of d or more below 0, else 0.
fn half_below(r: i32, d: i32) -> i32
    requires { Remainder r d }
    ensures { result ≡ lacks (neg_ℤ r) d }
{
    i32::from(r + r <= -d)
}

// "Divided by its number of edges", nearest, halves away from zero: the quotient toward zero and
// what it lacks. Two tests without a branch each; one that ended early would be mispredicted.
fn divided(total: i32, d: i32) -> i32
    requires { Degree d }
    ensures { result ≡ rule.divided total (nat_abs d) }
{
    let q = total / d;
    let r = total % d;
    q + half_above(r, d) - half_below(r, d)
}

// A bit's total over its number of edges. A bit of a table has an edge; of one that had none it would
// be 0.
pub fn quotient_of(total: i32, degree: u16) -> i32
    ensures { result ≡ rule.divided total degree }
{
    if degree == 0 {
        return 0;
    }
    divided(total, i32::from(degree))
}

// "Clipped to -U..U."
pub fn clip(x: i32) -> i32
    ensures { result ≡ clip_z unit x }
{
    x.clamp(-UNIT, UNIT)
}

// Each spin clipped: in a pass of its own, which tests several at once. Clipped where they are
// divided, they would be waited for and the tests mispredicted.
pub fn clip_all(spins: &mut [i32])
    ensures { spins.new ≡ clips unit spins.old }
{
    for spin in spins.iter_mut() {
        *spin = clip(*spin);
    }
}

// "A zero spin means no candidate." Without an early end, so that several spins are tested at once.
pub fn all_decided(spins: &[i32]) -> bool
    ensures { result ≡ no_zero spins.now }
{
    let mut all = true;
    for spin in spins {
        all &= *spin != 0;
    }
    all
}
