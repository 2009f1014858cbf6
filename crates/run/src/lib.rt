// How a run stands: its record, its start, and the refusals of a call for rounds (document 01,
// "Turned down because of how the run stands").
#![tactic(auto)]

pub mod clear;
pub mod ending;
mod half_done;
mod refusals;

ghost use Rattle.std.specs.Prelude.{◌≡◌};
ghost use Rattle.rules.specs.Run as rule;
ghost use Rattle.run.specs.Reply.{progress_of};
ghost use Rattle.run.specs.Started.{StartBecomes};
ghost use Rattle.run.specs.Admitted.{admission_lent, AdmitBecomes};

use half_done::HalfDone;
use limits::refusals::Refusal;
use refusals::refuse_short;
use std::fmt;
use table::Sizes;

// "whether the run is running, certified or spent"
#[derive(Clone, Copy, Debug, PartialEq, Eq)]
pub enum Status {
    Running,
    Certified,
    Spent,
}

// The word of document 01.
impl fmt::Display for Status {
    fn fmt<W: fmt::Write>(&self, f: &mut fmt::Formatter<W>) -> fmt::Result {
        f.write_str(match self {
            Status::Running => "running",
            Status::Certified => "certified",
            Status::Spent => "spent",
        })
    }
}

// "The run's record holds the rounds done and whether the run is running, certified or spent"
#[derive(Clone, Copy, Debug, PartialEq, Eq)]
pub struct Record {
    pub rounds: u32,
    pub status: Status,
}

impl Record {
    // "A run has at most 1,024 rounds"
    pub const ROUND_LIMIT: u32 = limits::ROUND_LIMIT;

    // U: spin +U is bit 0, spin -U is bit 1
    pub const UNIT: i32 = limits::UNIT;

    // "a start gives 0 and running"
    pub fn fresh() -> Self
        ensures { progress_of result ≡ rule.fresh }
    {
        Record {
            rounds: 0,
            status: Status::Running,
        }
    }
}

// Starts a run on any code file and lent buffers: "Starting a run zeroes the first E copies and
// offsets", and the first n sums. The record of a fresh run, or the refusal, which changes nothing.
pub fn start(
    code: &[u8],
    copies: &mut [i32],
    offsets: &mut [i32],
    sums: &mut [i32],
) -> Result<Record, Refusal>
    ensures { StartBecomes (rule.start code.now) result copies offsets sums }
{
    let sizes = table::check(code)?;
    if copies.len() < sizes.edges || offsets.len() < sizes.edges || sums.len() < sizes.bits {
        return Err(Refusal::BufferShort);
    }
    copies[..sizes.edges].fill(0);
    offsets[..sizes.edges].fill(0);
    sums[..sizes.bits].fill(0);
    Ok(Record::fresh())
}

// The lengths of the lent buffers that admitting a call does not read.
#[derive(Clone, Copy, Debug, PartialEq, Eq)]
pub struct Lent {
    pub spins: usize,
    pub multipliers: usize,
    pub masks: usize,
    pub depths: usize,
    pub word: usize,
    pub certificate: usize,
}

// Admits a call for rounds or refuses it, on any code file, frame, record and lent buffers: n, m and
// E of the table, or the refusal. Of an accepted code file the m + 1 starts and the E members are left
// at the front of the two slices, 41 where one of them is too short.
pub fn admit(
    code: &[u8],
    frame: &[i16],
    run: Record,
    wanted: u32,
    lent: Lent,
    copies: &[i32],
    offsets: &[i32],
    sums: &[i32],
    starts: &mut [u16],
    members: &mut [u16],
) -> Result<Sizes, Refusal>
    ensures { AdmitBecomes
        (admission_lent code.now frame.now wanted lent (progress_of run) copies.now offsets.now sums.now)
        result starts members }
{
    let sizes = table::load(code, starts, members)?;
    inputs::frame(frame, sizes.bits)?;
    if Record::ROUND_LIMIT < wanted {
        return Err(Refusal::AskedTooMuch);
    }
    refuse_short(sizes, lent, copies, offsets, sums)?;
    let half_done = HalfDone {
        members: &members[..sizes.edges],
        copies: &copies[..sizes.edges],
        offsets: &offsets[..sizes.edges],
        sums: &sums[..sizes.bits],
    };
    if run.status != Status::Running {
        return Err(Refusal::RunEnded);
    }
    if !half_done.is_sound(run.rounds) {
        return Err(Refusal::RunDamaged);
    }
    Ok(sizes)
}
