// Plays the reference's script of starts and calls for rounds. One record of the run and its
// buffers go on from call to call; a call is lent the first so many elements of each. Standard input
// holds records, an operation (one byte) and its fields:
//
//     0 set     the rounds done and the status; the element that fills each buffer
//     1 code    a length, at most 30,000, and a code file
//     2 frame   a count, at most 2,100, and frame numbers
//     3 start   how many copies, offsets and sums are lent
//     4 rounds  the rounds wanted, and how many elements of each buffer are lent
//     5 put     1 for copies, 2 for offsets or 3 for sums; an index and an element
//
// A start and a call for rounds get a line: the answer, the record of the run and a checksum of all
// whole buffers. A code file or a frame that is not whole is empty. The end of the input, an
// operation that is none of these or fields that are cut short end the program.
#![tactic(auto)]

mod buffers;
mod checksum;
mod command;
mod print;

use buffers::{BITS, Buffers, CERTIFICATE, CHECKS, EDGES};
use command::{Command, Operation, next};
use print::{print_called, print_started, print_state};
use std::io::{self, Read};
use stream::CODE_LIMIT;

// Plays the script from a set to the next one or to the end. What a start or a call leaves is printed before
// the next record is read. A loop has to end: no input uses the count up.
fn play<R: Read>(
    rt: &impl Print,
    input: &mut R,
    set: Command,
    code: &mut [u8],
    frame: &mut [i16],
) -> io::Result<Command> {
    let fill = set.fill();
    let mut buffers = Buffers {
        spins: [0; BITS],
        copies: [0; EDGES],
        offsets: [0; EDGES],
        sums: [0; BITS],
        multipliers: [0; CHECKS],
        masks: [0; CHECKS],
        depths: [0; CHECKS],
        word: [0; BITS],
        certificate: [0; CERTIFICATE],
    };
    buffers.fill(fill);
    let mut run = fill.run;
    let mut command = next(input, set, code, frame)?;
    for _ in 0..u64::MAX {
        match command.operation {
            Operation::Set | Operation::End => break,
            Operation::Code | Operation::Frame => {}
            Operation::Put => buffers.put(command),
            Operation::Start => {
                let size = code.len().min(command.code);
                let started = run::start(
                    &code[..size],
                    &mut buffers.copies[..command.lent(0, EDGES)],
                    &mut buffers.offsets[..command.lent(4, EDGES)],
                    &mut buffers.sums[..command.lent(8, BITS)],
                );
                run = print_started(rt, started, run)?;
            }
            Operation::Rounds => {
                let parts = command.parts(code.len(), frame.len());
                let called = decoder::rounds(
                    &code[..parts.code],
                    &frame[..parts.frame],
                    run,
                    parts.wanted,
                    &mut buffers.spins[..parts.spins],
                    &mut buffers.copies[..parts.copies],
                    &mut buffers.offsets[..parts.offsets],
                    &mut buffers.sums[..parts.sums],
                    &mut buffers.multipliers[..parts.multipliers],
                    &mut buffers.masks[..parts.masks],
                    &mut buffers.depths[..parts.depths],
                    &mut buffers.word[..parts.word],
                    &mut buffers.certificate[..parts.certificate],
                );
                run = print_called(rt, called)?;
            }
        }
        if matches!(command.operation, Operation::Start | Operation::Rounds) {
            print_state(rt, run, buffers.checksum())?;
        }
        command = next(input, command, code, frame)?;
    }
    Ok(command)
}

fn main(rt: HostRuntime) -> io::Result<()> {
    let mut input = rt.reader();
    let mut code = [0u8; CODE_LIMIT];
    let mut frame = [0i16; BITS];
    let mut command = Command::first();
    for _ in 0..u64::MAX {
        if command.operation == Operation::End {
            break;
        }
        command = play(&rt, &mut input, command, &mut code, &mut frame)?;
    }
    Ok(())
}
