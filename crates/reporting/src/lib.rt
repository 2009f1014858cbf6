// The frame report (document 01, "The frame report"): how long the code file on the input is and
// the line of a frame, as functions; and the program, which reads and prints and no more.
#![tactic(auto)]

pub mod code;

ghost use Rattle.std.specs.Prelude.{◌≡◌, ◌≤◌, length};
ghost use Rattle.rules.specs.Limits.{max_bits};
ghost use Rattle.rules.specs.Bytes.{u16_at};
ghost use Rattle.rules.specs.Report.{certified_line, frame_line};
ghost use Rattle.inputs.specs.Agreed.{agreed};
ghost use Rattle.reporting.specs.View.{line_of};
ghost use Rattle.reporting.specs.Ran.{lent_with, ran_as, fresh_ran};

use code::{FILE_LIMIT, read_code};
use decoder::Called;
use file_numbers::u16_of;
use limits::refusals::Refusal;
use limits::{MAX_BITS, MAX_CHECKS, MAX_EDGES};
use run::{Record, Status};
use std::fmt;
use std::io::{self, Read};
use table::Sizes;

// "certificate 4 + 10m"
const CERTIFICATE_LIMIT: usize = 4 + 10 * MAX_CHECKS;

// What is said of a frame that is not refused: the rounds and how the run stands. "After certified: rounds,
// agreement, cuts."
#[derive(Clone, Copy, Debug, PartialEq, Eq)]
pub enum Line {
    Running(u32),
    Certified {
        rounds: u32,
        agreement: i64,
        cuts: usize,
    },
    Spent(u32),
}

impl fmt::Display for Line {
    fn fmt<W: fmt::Write>(&self, f: &mut fmt::Formatter<W>) -> fmt::Result {
        match self {
            Line::Running(rounds) => write!(f, "running {rounds}"),
            Line::Certified {
                rounds,
                agreement,
                cuts,
            } => write!(f, "certified {rounds} {agreement} {cuts}"),
            Line::Spent(rounds) => write!(f, "spent {rounds}"),
        }
    }
}

// "each frame gets a fresh run of 1,024 rounds"
fn decode(code: &[u8], frame: &[i16], word: &mut [u8], certificate: &mut [u8]) -> Called
    ensures { ran_as result word.new certificate.new ≡ fresh_ran code.now frame.now (lent_with word.old certificate.old) }
{
    let mut spins = [0i32; MAX_BITS];
    let mut copies = [0i32; MAX_EDGES];
    let mut offsets = [0i32; MAX_EDGES];
    let mut sums = [0i32; MAX_BITS];
    let mut multipliers = [0u32; MAX_CHECKS];
    let mut masks = [0u32; MAX_CHECKS];
    let mut depths = [0u32; MAX_CHECKS];
    match run::start(code, &mut copies, &mut offsets, &mut sums) {
        Err(refusal) => Called {
            outcome: Err(refusal),
            run: Record::fresh(),
        },
        Ok(run) => decoder::rounds(
            code,
            frame,
            run,
            Record::ROUND_LIMIT,
            &mut spins,
            &mut copies,
            &mut offsets,
            &mut sums,
            &mut multipliers,
            &mut masks,
            &mut depths,
            word,
            certificate,
        ),
    }
}

// The cuts are the certificate's q.
fn certified_line(frame: &[i16], rounds: u32, word: &[u8], certificate: &[u8]) -> Line
    requires { 4 ≤ length certificate.now }
    ensures { line_of (Ok result) ≡ certified_line rounds (agreed frame.now word.now) (u16_at certificate.now 0) }
{
    Line::Certified {
        rounds,
        agreement: inputs::agreement(frame, word),
        cuts: u16_of(certificate[0], certificate[1]),
    }
}

// The line of a frame, any numbers, on a code file, any bytes.
pub fn frame_line(code: &[u8], frame: &[i16]) -> Result<Line, Refusal>
    ensures { line_of result ≡ frame_line code.now frame.now }
{
    let mut word = [0u8; MAX_BITS];
    let mut certificate = [0u8; CERTIFICATE_LIMIT];
    let called = decode(code, frame, &mut word, &mut certificate);
    let rounds = called.run.rounds;
    let status = called.outcome?;
    Ok(match status {
        Status::Running => Line::Running(rounds),
        Status::Certified => {
            let bits = frame.len();
            certified_line(frame, rounds, &word[..bits], &certificate)
        }
        Status::Spent => Line::Spent(rounds),
    })
}

// A short last frame goes on as it is: the decoder refuses it. No input uses the count up.
fn report_frames<R: Read>(
    rt: &impl Print,
    input: &mut R,
    code: &[u8],
    frame: &mut [i16],
) -> io::Result<()> {
    for k in 0..u64::MAX {
        let got = stream::read_i16(input, frame)?;
        if got == 0 {
            break;
        }
        let count = got / 2;
        match frame_line(code, &frame[..count]) {
            Ok(line) => println!(rt; "frame {k} {line}")?,
            Err(refusal) => println!(rt; "frame {k} refused {refusal}")?,
        }
    }
    Ok(())
}

fn report_code<R: Read>(rt: &impl Print, input: &mut R, code: &[u8], sizes: Sizes) -> io::Result<()>
    requires { sizes.bits ≤ max_bits }
{
    let Sizes {
        bits,
        checks,
        edges,
    } = sizes;
    let mut frame = [0i16; MAX_BITS];
    println!(rt; "bits {bits} checks {checks} edges {edges}")?;
    report_frames(rt, input, code, &mut frame[..bits])
}

// "A bad code file prints refused N alone."
fn report<R: Read>(rt: &impl Print, input: &mut R, code: &[u8]) -> io::Result<()> {
    match table::check(code) {
        Ok(sizes) => report_code(rt, input, code, sizes),
        Err(refusal) => println!(rt; "refused {refusal}"),
    }
}

// The whole report, from the input to the output: no contract can speak of either.
pub fn report_input(rt: &(impl Input + Print)) -> io::Result<()> {
    let mut input = rt.reader();
    let mut file = [0u8; FILE_LIMIT];
    let size = read_code(&mut input, &mut file)?;
    report(rt, &mut input, &file[..size])
}
