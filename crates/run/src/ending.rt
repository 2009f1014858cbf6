// What a round leaves of the run's record (document 01, "One round", step 4).
ghost use Rattle.std.specs.Prelude.{◌≡◌};
ghost use Rattle.run.specs.Reply.{status_of, progress_of};
ghost use Rattle.run.specs.Ending.{found_of, closing, counted, status_by, record_by};

use super::{Record, Status};

// One round more: "a run has at most 1,024 rounds".
fn count(rounds: u32) -> u32
    ensures { result ≡ counted rounds }
{
    if rounds < Record::ROUND_LIMIT {
        rounds + 1
    } else {
        rounds
    }
}

// How the run stands after so many rounds, the last of which has found a candidate that meets all
// checks, of this gap, or none: "Gap 0 ends the run as certified."
fn status_after(rounds: u32, gap: Option<i64>) -> Status
    ensures { status_of result ≡ status_by (closing (found_of gap)) rounds }
{
    match gap {
        Some(0) => Status::Certified,
        _ if Record::ROUND_LIMIT <= rounds => Status::Spent,
        _ => Status::Running,
    }
}

// The run's record after a round, from the gap of its candidate if that meets all checks.
pub fn record_after(run: Record, gap: Option<i64>) -> Record
    ensures { progress_of result ≡ record_by (found_of gap) (progress_of run) }
{
    let rounds = count(run.rounds);
    let status = status_after(rounds, gap);
    Record { rounds, status }
}
