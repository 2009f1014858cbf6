// Each bit's total divided by its number of edges (document 01, "One round", step 1), block by block: bits of
// one degree mostly stand together, and those of a block are divided at once.
ghost use Rattle.std.specs.Prelude.{◌≡◌, ◌≤◌, length};
ghost use Rattle.decoder.specs.Spins.{quotients_over};

use spin::quotient_of;
use spin::totals::{common_degree, divide_all};

// The bits of a block.
const BLOCK: usize = 16;

// Each total over its own bit's degree. By index: of what a `zip` over `iter_mut` writes a proof knows nothing.
fn divide_each(degrees: &[u16], totals: &mut [i32])
    requires { length totals.old ≡ length degrees.now }
    ensures { totals.new ≡ quotients_over degrees.now totals.old }
{
    for (i, total) in totals.iter_mut().enumerate() {
        *total = quotient_of(*total, degrees[i]);
    }
}

// The same, at once where all have one degree.
fn divide_part(degrees: &[u16], totals: &mut [i32])
    requires { length totals.old ≡ length degrees.now }
    ensures { totals.new ≡ quotients_over degrees.now totals.old }
{
    let d = common_degree(degrees);
    if d == 0 {
        divide_each(degrees, totals);
    } else {
        divide_all(totals, d);
    }
}

// The same, with a whole block by itself, since a call of known length is compiled for it (docs/DECISIONS.md 68).
fn divide_block(degrees: &[u16], totals: &mut [i32])
    requires { length totals.old ≡ length degrees.now }
    ensures { totals.new ≡ quotients_over degrees.now totals.old }
{
    if totals.len() == BLOCK {
        divide_part(&degrees[..BLOCK], &mut totals[..BLOCK]);
    } else {
        divide_part(degrees, totals);
    }
}

// All totals, in their places. By index: the contract of `chunks_mut` says nothing of what the slice ends as.
pub(crate) fn divide_totals(degrees: &[u16], totals: &mut [i32])
    requires { length totals.old ≤ length degrees.now }
    ensures { totals.new ≡ quotients_over degrees.now totals.old }
{
    let n = totals.len();
    for k in 0..n.div_ceil(BLOCK) {
        let a = k * BLOCK;
        let e = n.min(a + BLOCK);
        divide_block(&degrees[a..e], &mut totals[a..e]);
    }
}
