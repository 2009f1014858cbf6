// The run's record and answers as numbers.
ghost use Rattle.std.specs.Prelude.{◌≡◌};
ghost use Rattle.rules.specs.Refusal.{reply_of};
ghost use Rattle.rules.specs.Run.{status_number, status_values, progress_values};
ghost use Rattle.run.specs.Reply.{status_of, progress_of, started_of};
ghost use Rattle.decoder.specs.Reply.{outcome_of};
ghost use Rattle.jugnayap.specs.Numbers.{run_numbers, started_from, progress_at, called_from};

use super::{JugnayapCalled, JugnayapRun};
use decoder::Called;
use limits::refusals::Refusal;
use run::{Record, Status};

// A status as c/jugnayap.h has it.
const RUNNING: u32 = 0;

const CERTIFIED: u32 = 1;

const SPENT: u32 = 2;

fn status_number(status: Status) -> u32
    ensures { result ≡ status_number (status_of status) }
{
    match status {
        Status::Running => RUNNING,
        Status::Certified => CERTIFIED,
        Status::Spent => SPENT,
    }
}

fn run_numbers(done: Record) -> JugnayapRun
    ensures { result ≡ run_numbers (progress_of done) }
{
    JugnayapRun {
        rounds: done.rounds,
        status: status_number(done.status),
    }
}

// No call accepts a running run with all rounds done: it stands for a record of unknown status.
pub(crate) fn record_of(run: JugnayapRun) -> Record
    ensures { progress_of result ≡ progress_at run }
{
    let rounds = run.rounds;
    match run.status {
        RUNNING => Record {
            rounds,
            status: Status::Running,
        },
        CERTIFIED => Record {
            rounds,
            status: Status::Certified,
        },
        SPENT => Record {
            rounds,
            status: Status::Spent,
        },
        _ => Record {
            rounds: Record::ROUND_LIMIT,
            status: Status::Running,
        },
    }
}

pub(crate) fn started_numbers(started: Result<Record, Refusal>) -> JugnayapCalled
    ensures { result ≡ started_from (reply_of progress_values (started_of started)) }
{
    match started {
        Ok(done) => JugnayapCalled {
            number: 0,
            run: run_numbers(done),
        },
        Err(refusal) => JugnayapCalled {
            number: u32::from(refusal.number()),
            run: JugnayapRun {
                rounds: 0,
                status: RUNNING,
            },
        },
    }
}

fn refusal_number(outcome: Result<Status, Refusal>) -> u32
    ensures { result ≡ (reply_of status_values (outcome_of outcome)).number }
{
    match outcome {
        Ok(_) => 0,
        Err(refusal) => u32::from(refusal.number()),
    }
}

// A call's answer, and the record after it: one of unknown status is given back as handed in.
pub(crate) fn called_numbers(run: JugnayapRun, called: Called) -> JugnayapCalled
    ensures { result ≡ called_from run (outcome_of called.outcome) (progress_of called.run) }
{
    let number = refusal_number(called.outcome);
    if SPENT < run.status {
        return JugnayapCalled { number, run };
    }
    JugnayapCalled {
        number,
        run: run_numbers(called.run),
    }
}
