// An admitted call: its rounds, and what it writes once they have certified a word.
ghost use Rattle.rules.specs.Buffers.{lent};
ghost use Rattle.rules.specs.Run.{iterate};
ghost use Rattle.run.specs.Reply.{status_of};
ghost use Rattle.run.specs.Slices.{slices};
ghost use Rattle.decoder.specs.Finished.{finished, FinishFits, front_table, PartsFit};
ghost use Rattle.decoder.specs.Lent.{run_in, RunBecomes, EndBecomes};

use super::degrees::count_degrees;
use super::iterate::run_rounds;
use run::{Record, Status};
use table::Sizes;
use table::loaded::Loaded;
use writing::{write_certificate, write_word};

// "Certified writes word and certificate; other endings don't touch them": from the spins,
// multipliers and masks of the round that ended the run.
pub(crate) fn finish(
    status: Status,
    spins: &[i32],
    multipliers: &[u32],
    masks: &[u32],
    word: &mut [u8],
    certificate: &mut [u8],
)
    requires { FinishFits spins.now multipliers.now masks.now word.old certificate.old }
    ensures { EndBecomes (finished (status_of status) spins.now multipliers.now masks.now) word certificate }
{
    if status == Status::Certified {
        // There is room for both, so neither is refused.
        write_word(spins, word).unwrap();
        write_certificate(multipliers, masks, certificate).unwrap();
    }
}

// At most `wanted` rounds of a running run on buffers that are long enough, with a table of these sizes
// in front of starts and members. The degrees of the bits are worked out once for all rounds.
pub(crate) fn perform(
    frame: &[i16],
    starts: &[u16],
    members: &[u16],
    sizes: Sizes,
    run: Record,
    wanted: u32,
    spins: &mut [i32],
    copies: &mut [i32],
    offsets: &mut [i32],
    sums: &mut [i32],
    multipliers: &mut [u32],
    masks: &mut [u32],
    depths: &mut [u32],
    word: &mut [u8],
    certificate: &mut [u8],
) -> Record
    requires { PartsFit sizes.bits sizes.checks sizes.edges frame.now starts.now members.now
        (run_in run (lent spins.old copies.old offsets.old sums.old multipliers.old masks.old depths.old word.old certificate.old)) }
    ensures { RunBecomes (iterate (front_table sizes.bits sizes.checks sizes.edges starts.now members.now) frame.now wanted)
        run result (slices spins copies offsets sums multipliers masks depths word certificate) }
{
    let Sizes {
        bits,
        checks,
        edges,
    } = sizes;
    let members = &members[..edges];
    let degrees = count_degrees(members);
    let table = Loaded {
        bits,
        starts: &starts[..=checks],
        members,
    };
    let after = run_rounds(
        frame,
        &table,
        &degrees,
        run,
        wanted,
        &mut spins[..bits],
        &mut copies[..edges],
        &mut offsets[..edges],
        &mut sums[..bits],
        &mut multipliers[..checks],
        &mut masks[..checks],
        &mut depths[..checks],
    );
    finish(
        after.status,
        &spins[..bits],
        &multipliers[..checks],
        &masks[..checks],
        word,
        certificate,
    );
    after
}
