// A call's line.
use decoder::Called;
use limits::refusals::Refusal;
use run::Record;
use std::io;

// The record of the run after a start: `before` where it is refused.
pub(crate) fn print_started(
    rt: &impl Print,
    answer: Result<Record, Refusal>,
    before: Record,
) -> io::Result<Record> {
    match answer {
        Ok(run) => {
            print!(rt; "start started")?;
            Ok(run)
        }
        Err(refusal) => {
            print!(rt; "start refused {refusal}")?;
            Ok(before)
        }
    }
}

// The record of the run after the call.
pub(crate) fn print_called(rt: &impl Print, called: Called) -> io::Result<Record> {
    match called.outcome {
        Ok(status) => print!(rt; "rounds {status}")?,
        Err(refusal) => print!(rt; "rounds refused {refusal}")?,
    }
    Ok(called.run)
}

// The rest of the line of a start or of a call for rounds.
pub(crate) fn print_state(rt: &impl Print, run: Record, checksum: u64) -> io::Result<()> {
    println!(rt; " {} {} | {checksum}", run.rounds, run.status)
}
