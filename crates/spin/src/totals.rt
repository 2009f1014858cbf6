// Totals of bits that have one degree, divided: a division by a known number takes several totals at once.
ghost use Rattle.std.specs.Prelude.{◌≡◌};
ghost use Rattle.spin.specs.Totals.{all_are, common_degree, quotients};

use super::quotient_of;
use limits::common::{DEGREE_2, DEGREE_3, DEGREE_4};

// Whether each degree is d. Without an early end, so that several degrees are tested at once.
fn all_are(degrees: &[u16], d: u16) -> bool
    ensures { result ≡ all_are d degrees.now }
{
    let mut all = true;
    for degree in degrees {
        all &= *degree == d;
    }
    all
}

// The degree that all bits have, or 0 if they differ: no Option, as specs/Totals defines it so, and no bit of
// a table has degree 0.
pub fn common_degree(degrees: &[u16]) -> u16
    ensures { result ≡ common_degree degrees.now }
{
    match degrees.first() {
        Some(&d) if all_are(degrees, d) => d,
        _ => 0,
    }
}

// Each total over d, in its place.
fn divide_by(totals: &mut [i32], d: u16)
    ensures { totals.new ≡ quotients d totals.old }
{
    for total in totals.iter_mut() {
        *total = quotient_of(*total, d);
    }
}

// The same, with the common degrees by themselves: dividing by a known number takes several totals at once.
pub fn divide_all(totals: &mut [i32], d: u16)
    ensures { totals.new ≡ quotients d totals.old }
{
    match d {
        DEGREE_2 => divide_by(totals, DEGREE_2),
        DEGREE_3 => divide_by(totals, DEGREE_3),
        DEGREE_4 => divide_by(totals, DEGREE_4),
        _ => divide_by(totals, d),
    }
}
