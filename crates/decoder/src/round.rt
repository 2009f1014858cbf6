// One round of a run (document 01, "One round").
ghost use Rattle.std.specs.Prelude.{◌≡◌};
ghost use Rattle.run.specs.Ending.{found_of};
ghost use Rattle.decoder.specs.Closing.{GapFits};
ghost use Rattle.decoder.specs.Found.{found};
ghost use Rattle.decoder.specs.Rounds.{Given, Steady, rounds_from};
ghost use Rattle.decoder.specs.Lent.{loop_in, LoopBecomes};

use super::candidate::meets_checks;
use super::gap::gap_of;
use super::pass::pass;
use super::spins::find_spins;
use run::Record;
use run::ending::record_after;
use table::loaded::Loaded;

// Step 4: the candidate of the spins, held to the checks and to this round's multipliers.
pub(crate) fn find_word(
    frame: &[i16],
    table: &Loaded,
    spins: &[i32],
    multipliers: &[u32],
    masks: &[u32],
) -> Option<i64>
    requires { GapFits table.now frame.now spins.now multipliers.now masks.now }
    ensures { found_of result ≡ found frame.now table.now.checks spins.now multipliers.now masks.now }
{
    if meets_checks(table, spins) {
        Some(gap_of(frame, table, spins, multipliers, masks))
    } else {
        None
    }
}

// The next round of a running run, on buffers of exactly the stated lengths.
pub(crate) fn do_round(
    frame: &[i16],
    table: &Loaded,
    degrees: &[u16],
    run: Record,
    spins: &mut [i32],
    copies: &mut [i32],
    offsets: &mut [i32],
    sums: &mut [i32],
    multipliers: &mut [u32],
    masks: &mut [u32],
    depths: &mut [u32],
) -> Record
    requires given { Given table.now frame.now degrees.now }
    requires ready { Steady table.now (loop_in run spins.old copies.old offsets.old sums.old multipliers.old masks.old depths.old) }
    ensures { LoopBecomes (rounds_from 1 frame.now table.now) run result spins copies offsets sums multipliers masks depths }
{
    // What a table holds is known where it is read: here only the proof asks for it.
    let _ = &table.bits;
    find_spins(frame, degrees, sums, spins);
    pass(
        table,
        spins,
        copies,
        offsets,
        sums,
        multipliers,
        masks,
        depths,
    );
    let gap = find_word(frame, table, spins, multipliers, masks);
    record_after(run, gap)
}
