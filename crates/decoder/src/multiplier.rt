// The least multiplier of a cut, found from above on the heights that the cut search leaves. With F the
// sum of the lifted heights above 0 and k their number, b falls by (F - 2U) / k until that is 0. All is added
// in 32 bits: the functions that the search calls ask that the sums which they form are below 2^31 in size
// (multiplier_search/specs/Sums), and the heights of a cut see to it (multiplier_search/proofs/ClimbLaws).
ghost use Rattle.std.specs.Prelude.{◌≡◌, ◌≤◌, pos, ◌-ℤ◌, length};
ghost use Rattle.rules.specs.Limits.{max_degree};
ghost use Rattle.multiplier_search.specs.Lifted.{packed, sum_at, count_at, sum_z, first_step, fall_at, AllUpTo, Rising, LeastAt, reach};
ghost use Rattle.multiplier_search.specs.Sums.{AllNarrow, partials, first_sums, share_sums, slope_sums, fall_sums};

use limits::{RIGHT_SIDE, UNIT};

// The sum of the heights above 0, and their number.
#[derive(Clone, Copy, Debug, PartialEq, Eq)]
pub struct Slope {
    pub sum: u32,
    pub count: u32,
}

// One member above 0, in the upper bits of a number that has a sum in the lower ones.
const ONE: u32 = 0x10_0000;

// A member's share of that number: ONE and its height lifted by b, or nothing where that is not above 0.
fn share(h: i32, b: u32) -> u32
    requires { AllNarrow (share_sums b h) }
    ensures { result ≡ packed b h }
{
    let up = b as i32;
    if -up < h { ONE + (up + h) as u32 } else { 0 }
}

// At most 32 members of at most 2U: the sum stays below ONE.
fn slope_at(heights: &[i32], b: u32) -> Slope
    requires { (length heights.now ≤ max_degree) × AllUpTo (pos reach -ℤ pos b) heights.now × AllNarrow (slope_sums heights.now b) }
    ensures { (result.sum ≡ sum_at heights.now b) × (result.count ≡ count_at heights.now b) }
{
    let mut both: u32 = 0;
    for &h in heights {
        both += share(h, b);
    }
    Slope {
        sum: both % ONE,
        count: both / ONE,
    }
}

// How far b can fall at once.
fn fall(heights: &[i32], b: u32) -> u32
    requires { (length heights.now ≤ max_degree) × AllUpTo (pos reach -ℤ pos b) heights.now × (reach ≤ sum_at heights.now b) × AllNarrow (fall_sums heights.now b) }
    ensures { result ≡ fall_at heights.now b }
{
    let slope = slope_at(heights, b);
    (slope.sum - RIGHT_SIDE) / slope.count
}

fn sum_of(heights: &[i32]) -> i32
    requires { AllNarrow (partials (pos 0) heights.now) }
    ensures { result ≡ sum_z heights.now }
{
    let mut sum: i32 = 0;
    for h in heights {
        sum += h;
    }
    sum
}

// A step that is enough: the lesser of the one that lifts all heights to 2U together and the one that
// lifts the greatest alone. Mostly it is the least already.
fn first_step(heights: &[i32], top: i32) -> u32
    requires { Rising heights.now top × AllNarrow (first_sums heights.now top) }
    ensures { result ≡ first_step heights.now top }
{
    let d = heights.len() as u32;
    let together = (2 * UNIT - sum_of(heights)) as u32;
    let alone = (2 * UNIT - top) as u32;
    // Rounded up. div_ceil would test the remainder too.
    let level = (together + (d - 1)) / d;
    level.min(alone)
}

// The least step at which V's inequality is met.
pub(crate) fn least_multiplier(heights: &[i32], top: i32) -> u32
    requires { Rising heights.now top }
    ensures { LeastAt heights.now result }
{
    let mut b = first_step(heights, top);
    // A loop: how often b falls is not known beforehand.
    loop {
        let d = fall(heights, b);
        if d == 0 {
            return b;
        }
        b -= d;
    }
}
