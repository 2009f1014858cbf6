// The rounds of a call.
ghost use Rattle.decoder.specs.Rounds.{Given, Steady, rounds_from};
ghost use Rattle.decoder.specs.Lent.{loop_in, LoopBecomes};

use super::round::do_round;
use run::{Record, Status};
use table::loaded::Loaded;

// At most `wanted` rounds of a running run, on buffers of exactly the stated lengths.
pub(crate) fn run_rounds(
    frame: &[i16],
    table: &Loaded,
    degrees: &[u16],
    run: Record,
    wanted: u32,
    spins: &mut [i32],
    copies: &mut [i32],
    offsets: &mut [i32],
    sums: &mut [i32],
    multipliers: &mut [u32],
    masks: &mut [u32],
    depths: &mut [u32],
) -> Record
    requires given { Given table.now frame.now degrees.now }
    requires ready { Steady table.now (loop_in run spins.old copies.old offsets.old sums.old multipliers.old masks.old depths.old) }
    ensures { LoopBecomes (rounds_from wanted frame.now table.now) run result spins copies offsets sums multipliers masks depths }
{
    let mut at = run;
    for _ in 0..wanted {
        at = do_round(
            frame,
            table,
            degrees,
            at,
            spins,
            copies,
            offsets,
            sums,
            multipliers,
            masks,
            depths,
        );
        if at.status != Status::Running {
            return at;
        }
    }
    at
}
