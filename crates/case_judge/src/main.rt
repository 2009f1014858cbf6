// Runs words and certificates through judge::judge, judge::syndrome and judge::agreement. Standard
// input holds records: a 32-bit length and a code file, a 32-bit count and as many signed 16-bit
// frame numbers, a 32-bit length and a word, a 32-bit length and a certificate. Each gets a line of
// three answers: `refused K`, `broken C`, `certified`, `certified sole` or `gap G`; `refused K`,
// `broken C` or `met`; `refused K` or the agreement. The end of the input, a longer record or one
// that is cut short ends the program.
#![tactic(auto)]

use judge::Verdict;
use limits::MAX_BITS;
use limits::refusals::Refusal;
use std::io::{self, Read};
use stream::{CODE_LIMIT, NUMBERS_AT_ONCE, Part, read_i16_part, read_part};

const WORD_LIMIT: usize = 2 * MAX_BITS;

const CERTIFICATE_LIMIT: usize = 50000;

fn print_verdict(rt: &impl Print, answer: Result<Verdict, Refusal>) -> io::Result<()> {
    match answer {
        Ok(Verdict::Broken(check)) => print!(rt; "broken {check}"),
        Ok(Verdict::Certified { sole: false }) => print!(rt; "certified"),
        Ok(Verdict::Certified { sole: true }) => print!(rt; "certified sole"),
        Ok(Verdict::Gap(gap)) => print!(rt; "gap {gap}"),
        Err(refusal) => print!(rt; "refused {refusal}"),
    }
}

fn print_parity(rt: &impl Print, answer: Result<Option<usize>, Refusal>) -> io::Result<()> {
    match answer {
        Ok(None) => print!(rt; "met"),
        Ok(Some(check)) => print!(rt; "broken {check}"),
        Err(refusal) => print!(rt; "refused {refusal}"),
    }
}

fn print_agreed(rt: &impl Print, answer: Result<i64, Refusal>) -> io::Result<()> {
    match answer {
        Ok(agreement) => print!(rt; "{agreement}"),
        Err(refusal) => print!(rt; "refused {refusal}"),
    }
}

fn print_answers(
    rt: &impl Print,
    code: &[u8],
    frame: &[i16],
    word: &[u8],
    certificate: &[u8],
) -> io::Result<()> {
    print_verdict(rt, judge::judge(code, frame, word, certificate))?;
    print!(rt; " ; ")?;
    print_parity(rt, judge::syndrome(code, word))?;
    print!(rt; " ; ")?;
    print_agreed(rt, judge::agreement(code, frame, word))?;
    println!(rt)
}

// The rest of a record, part by part: false where it is not whole.
fn with_word<R: Read>(
    rt: &impl Print,
    input: &mut R,
    code: &[u8],
    frame: &[i16],
    word: &[u8],
) -> io::Result<bool> {
    let mut certificate = [0u8; CERTIFICATE_LIMIT];
    let Part::Whole(size) = read_part(input, &mut certificate)? else {
        return Ok(false);
    };
    print_answers(rt, code, frame, word, &certificate[..size])?;
    Ok(true)
}

fn with_frame<R: Read>(
    rt: &impl Print,
    input: &mut R,
    code: &[u8],
    frame: &[i16],
) -> io::Result<bool> {
    let mut word = [0u8; WORD_LIMIT];
    let Part::Whole(size) = read_part(input, &mut word)? else {
        return Ok(false);
    };
    with_word(rt, input, code, frame, &word[..size])
}

fn with_code<R: Read>(rt: &impl Print, input: &mut R, code: &[u8]) -> io::Result<bool> {
    let mut frame = [0i16; NUMBERS_AT_ONCE];
    let Part::Whole(count) = read_i16_part(input, &mut frame)? else {
        return Ok(false);
    };
    with_frame(rt, input, code, &frame[..count])
}

fn one_record<R: Read>(rt: &impl Print, input: &mut R) -> io::Result<bool> {
    let mut code = [0u8; CODE_LIMIT];
    let Part::Whole(size) = read_part(input, &mut code)? else {
        return Ok(false);
    };
    with_code(rt, input, &code[..size])
}

// The budget is a number that no input uses up.
fn main(rt: HostRuntime) -> io::Result<()> {
    let mut input = rt.reader();
    for _ in 0..u64::MAX {
        if !one_record(&rt, &mut input)? {
            break;
        }
    }
    Ok(())
}
