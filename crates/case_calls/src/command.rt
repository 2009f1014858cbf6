// A record of the script: its operation, its fields, and what the script gave before.
ghost use Rattle.std.specs.Prelude.{◌+◌, ◌≤◌, length};
ghost use Rattle.case_calls.specs.Rooms.{InRooms};

use super::buffers::{BITS, CERTIFICATE, CHECKS, EDGES};
use run::{Record, Status};
use std::io::{self, Read};
use stream::{i32_of, read_full, read_i16_part, read_part};

// Room for the fields of any record.
pub(crate) const FIELDS_LIMIT: usize = 64;

#[derive(Clone, Copy, Debug, PartialEq, Eq)]
pub(crate) enum Operation {
    Set,
    Code,
    Frame,
    Start,
    Rounds,
    Put,

    // The script's end; or an operation that is none of these, or fields that are cut short.
    End,
}

impl From<u8> for Operation {
    fn from(number: u8) -> Operation {
        match number {
            0 => Operation::Set,
            1 => Operation::Code,
            2 => Operation::Frame,
            3 => Operation::Start,
            4 => Operation::Rounds,
            5 => Operation::Put,
            _ => Operation::End,
        }
    }
}

impl Operation {
    // How many bytes of fields it has. A code file and a frame have their lengths with them.
    fn fields(self) -> usize
        ensures { result ≤ 64 }
    {
        match self {
            Operation::Set => 35,
            Operation::Start => 12,
            Operation::Rounds => 40,
            Operation::Put => 9,
            Operation::Code | Operation::Frame | Operation::End => 0,
        }
    }
}

// How much of the code file and of the frame is there goes on from record to record.
#[derive(Clone, Copy)]
pub(crate) struct Command {
    pub operation: Operation,
    pub fields: [u8; FIELDS_LIMIT],
    pub code: usize,
    pub frame: usize,
}

// A set: the record of the run, and the element that fills each buffer.
#[derive(Clone, Copy)]
pub(crate) struct Fill {
    pub run: Record,
    pub spin: i32,
    pub copy: i32,
    pub offset: i32,
    pub sum: i32,
    pub multiplier: u32,
    pub mask: u32,
    pub depth: u32,
    pub word: u8,
    pub certificate: u8,
}

// A call for rounds: the rounds wanted, and how much of each input and buffer is lent.
#[derive(Clone, Copy)]
pub(crate) struct Parts {
    pub wanted: u32,
    pub code: usize,
    pub frame: usize,
    pub spins: usize,
    pub copies: usize,
    pub offsets: usize,
    pub sums: usize,
    pub multipliers: usize,
    pub masks: usize,
    pub depths: usize,
    pub word: usize,
    pub certificate: usize,
}

impl Command {
    // A set of zeros, and no code file and no frame yet.
    pub(crate) fn first() -> Command {
        Command {
            operation: Operation::Set,
            fields: [0; FIELDS_LIMIT],
            code: 0,
            frame: 0,
        }
    }

    pub(crate) fn number(self, at: usize) -> u32
        requires { at + 4 ≤ 64 }
    {
        let f = self.fields;
        u32::from_le_bytes([f[at], f[at + 1], f[at + 2], f[at + 3]])
    }

    pub(crate) fn signed(self, at: usize) -> i32
        requires { at + 4 ≤ 64 }
    {
        i32_of(self.number(at))
    }

    // How many elements are lent: never more than there are.
    pub(crate) fn lent(self, at: usize, room: usize) -> usize
        requires { at + 4 ≤ 64 }
        ensures { result ≤ room }
    {
        room.min(self.number(at) as usize)
    }

    pub(crate) fn fill(self) -> Fill {
        Fill {
            run: Record {
                rounds: self.number(0),
                status: status_of(self.fields[4]),
            },
            spin: self.signed(5),
            copy: self.signed(9),
            offset: self.signed(13),
            sum: self.signed(17),
            multiplier: self.number(21),
            mask: self.number(25),
            depth: self.number(29),
            word: self.fields[33],
            certificate: self.fields[34],
        }
    }

    pub(crate) fn parts(self, code: usize, frame: usize) -> Parts
        ensures { (result.code ≤ code) × (result.frame ≤ frame) × InRooms result }
    {
        Parts {
            wanted: self.number(0),
            code: code.min(self.code),
            frame: frame.min(self.frame),
            spins: self.lent(4, BITS),
            copies: self.lent(8, EDGES),
            offsets: self.lent(12, EDGES),
            sums: self.lent(16, BITS),
            multipliers: self.lent(20, CHECKS),
            masks: self.lent(24, CHECKS),
            depths: self.lent(28, CHECKS),
            word: self.lent(32, BITS),
            certificate: self.lent(36, CERTIFICATE),
        }
    }
}

fn status_of(number: u8) -> Status {
    match number {
        0 => Status::Running,
        1 => Status::Certified,
        _ => Status::Spent,
    }
}

// Whether so many fields are there.
fn read_fields<R: Read>(input: &mut R, fields: &mut [u8], size: usize) -> io::Result<bool>
    requires { size ≤ length fields.old }
{
    Ok(read_full(input, &mut fields[..size])? == size)
}

fn read_operation<R: Read>(input: &mut R, fields: &mut [u8]) -> io::Result<Operation>
    requires { 64 ≤ length fields.old }
{
    if !read_fields(input, fields, 1)? {
        return Ok(Operation::End);
    }
    let operation = Operation::from(fields[0]);
    if !read_fields(input, fields, operation.fields())? {
        return Ok(Operation::End);
    }
    Ok(operation)
}

// The next record.
pub(crate) fn next<R: Read>(
    input: &mut R,
    before: Command,
    code: &mut [u8],
    frame: &mut [i16],
) -> io::Result<Command> {
    let mut command = before;
    command.operation = read_operation(input, &mut command.fields)?;
    match command.operation {
        Operation::Code => command.code = read_part(input, code)?.whole(),
        Operation::Frame => command.frame = read_i16_part(input, frame)?.whole(),
        _ => {}
    }
    Ok(command)
}
