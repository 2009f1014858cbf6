// The spins of a round (document 01, "One round", step 1).
ghost use Rattle.std.specs.Prelude.{◌≡◌, length};
ghost use Rattle.integers.specs.Sum.{AllWithin};
ghost use Rattle.rules.specs.Limits.{frame_limit, sum_limit};
ghost use Rattle.decoder.specs.Spins.{SpinsFit, totals_of, Spun};

use super::divide::divide_totals;
use run::clear::clear;
use spin::clip_all;

// "Each bit's total is its frame number plus the sum of z - y over its edges": in the spin's place. By
// index: of what a `zip` over `iter_mut` writes a proof knows nothing.
pub(crate) fn add_frame(frame: &[i16], sums: &[i32], spins: &mut [i32])
    requires { (length frame.now ≡ length spins.old) × (length sums.now ≡ length spins.old) × AllWithin frame_limit frame.now × AllWithin sum_limit sums.now }
    ensures { spins.new ≡ totals_of frame.now sums.now }
{
    for (i, spin) in spins.iter_mut().enumerate() {
        *spin = frame[i] as i32 + sums[i];
    }
}

// The spins of all bits. The sums are read, and zeroed for what the pass over the checks adds to them.
pub(crate) fn find_spins(frame: &[i16], degrees: &[u16], sums: &mut [i32], spins: &mut [i32])
    requires { SpinsFit (length spins.old) frame.now degrees.now sums.old }
    ensures { Spun (length spins.old) frame.now degrees.now sums.old spins.new sums.new }
{
    add_frame(frame, sums, spins);
    clear(sums);
    divide_totals(degrees, spins);
    clip_all(spins);
}
