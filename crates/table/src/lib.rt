// The code file of document 01: checked, or refused with the document's number, and loaded into
// starts and members.
#![tactic(auto)]

mod bodies;
mod contents;
mod degrees;
mod fill;
pub mod loaded;
pub mod numbers;
mod stages;

ghost use Rattle.std.specs.Prelude.{◌≡◌};
ghost use Rattle.rules.specs.CodeFile.{code_file_reply};
ghost use Rattle.rules.specs.Report.{announced};
ghost use Rattle.table.specs.Reply.{numbered};
ghost use Rattle.table.specs.Loaded.{loaded};

use bodies::Members;
use contents::{Contents, contents_end};
use fill::{write_members, write_starts};
use limits::refusals::Refusal;
use limits::{MAX_BITS, MAX_CHECKS, MAX_EDGES};
use numbers::{in_range, u16_at};
use stages::check_contents;

// A table's n, m and E.
#[derive(Clone, Copy, Debug, PartialEq, Eq)]
pub struct Sizes {
    pub bits: usize,
    pub checks: usize,
    pub edges: usize,
}

// Checks a code file, any bytes.
#[tactic(auto, using(crate::proofs::StageLaws::check_steps))]
pub fn check(code: &[u8]) -> Result<Sizes, Refusal>
    ensures { numbered result ≡ code_file_reply code.now }
{
    if code.len() < 4 {
        return Err(Refusal::HeaderShort);
    }
    let n = u16_at(code, 0);
    let m = u16_at(code, 2);
    if !in_range(1, MAX_BITS, n) || !in_range(1, MAX_CHECKS, m) {
        return Err(Refusal::SizeRange);
    }
    if code.len() < contents_end(m) {
        return Err(Refusal::LengthWrong);
    }
    check_contents(&Contents { code, checks: m }, n)
}

// How long the code file is that begins with these bytes, as far as they tell: what to read next.
#[tactic(auto, using(crate::proofs::AnnouncedLaws::announced_cases))]
pub fn announced(bytes: &[u8]) -> usize
    ensures { result ≡ announced bytes.now }
{
    if bytes.len() < 4 {
        return 4;
    }
    let checks = u16_at(bytes, 2);
    if MAX_CHECKS < checks {
        return 4;
    }
    let bodies = contents_end(checks);
    if bytes.len() < bodies {
        return bodies;
    }
    let edges = (Contents {
        code: bytes,
        checks,
    })
    .total_count();
    if MAX_EDGES < edges {
        return bodies;
    }
    bodies + 2 * edges
}

// Checks a code file and leaves its m + 1 starts, E the last, and its E members at the front of the
// two slices. 41 where one of them is too short; a refusal changes nothing.
pub fn load(code: &[u8], starts: &mut [u16], members: &mut [u16]) -> Result<Sizes, Refusal>
    ensures { (record { reply = numbered result; starts = starts.new; members = members.new })
        ≡ loaded code.now starts.old members.old }
{
    let sizes = check(code)?;
    if starts.len() <= sizes.checks {
        return Err(Refusal::BufferShort);
    }
    if members.len() < sizes.edges {
        return Err(Refusal::BufferShort);
    }
    let entries = Contents {
        code,
        checks: sizes.checks,
    };
    write_starts(&entries, starts);
    let edges = Members {
        code,
        at: entries.end(),
        count: sizes.edges,
    };
    write_members(&edges, members);
    Ok(sizes)
}
