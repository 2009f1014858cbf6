// A call for rounds (document 01, "One round").
#![tactic(auto)]

mod candidate;
mod degrees;
mod divide;
mod gap;
mod iterate;
mod mask;
mod multiplier;
mod pass;
mod perform;
mod round;
mod spins;
mod step;

ghost use Rattle.rules.specs.Run as rule;
ghost use Rattle.run.specs.Slices.{slices};
ghost use Rattle.decoder.specs.Lent.{CallBecomes};

use limits::refusals::Refusal;
use limits::{MAX_CHECKS, MAX_EDGES};
use perform::perform;
use run::{Lent, Record, Status};

// A call's answer, how the run stands or why it was refused, and the run's record after it.
#[derive(Clone, Copy, Debug, PartialEq, Eq)]
pub struct Called {
    pub outcome: Result<Status, Refusal>,
    pub run: Record,
}

// Does at most `wanted` rounds of a run, on any code file, frame, record and lent buffers. The buffers come one by
// one, here and below, as C lends them: of a part of a slice in a struct's field the check does not know what is
// left of it, and demand 3 (proofs/Demand3) speaks of these parameters.
pub fn rounds(
    code: &[u8],
    frame: &[i16],
    run: Record,
    wanted: u32,
    spins: &mut [i32],
    copies: &mut [i32],
    offsets: &mut [i32],
    sums: &mut [i32],
    multipliers: &mut [u32],
    masks: &mut [u32],
    depths: &mut [u32],
    word: &mut [u8],
    certificate: &mut [u8],
) -> Called
    ensures { CallBecomes (rule.call code.now frame.now wanted) run result (slices spins copies offsets sums multipliers masks depths word certificate) }
{
    let mut starts = [0u16; MAX_CHECKS + 1];
    let mut members = [0u16; MAX_EDGES];
    let lent = Lent {
        spins: spins.len(),
        multipliers: multipliers.len(),
        masks: masks.len(),
        depths: depths.len(),
        word: word.len(),
        certificate: certificate.len(),
    };
    let admitted = run::admit(
        code,
        frame,
        run,
        wanted,
        lent,
        copies,
        offsets,
        sums,
        &mut starts,
        &mut members,
    );
    match admitted {
        Err(refusal) => Called {
            outcome: Err(refusal),
            run,
        },
        Ok(sizes) => {
            let after = perform(
                frame,
                &starts,
                &members,
                sizes,
                run,
                wanted,
                spins,
                copies,
                offsets,
                sums,
                multipliers,
                masks,
                depths,
                word,
                certificate,
            );
            Called {
                outcome: Ok(after.status),
                run: after,
            }
        }
    }
}
