// Runs cut searches through cut::search. Standard input holds records: a 32-bit length L, at most
// 30,000, and L bytes, a code file; a 32-bit count N, at most 4,096, and N signed 32-bit spins; a
// 32-bit check number. Each gets a line, `mask M depth D`, `none` or `refused K`. The end of the input, a
// longer record or one that is cut short ends the program.
#![tactic(auto)]

use cut::Violation;
use std::io::{self, Read};
use stream::{CODE_LIMIT, NUMBERS_AT_ONCE, Part, read_i32_part, read_part, read_u32};

fn print_answer(rt: &impl Print, code: &[u8], spins: &[i32], check: usize) -> io::Result<()> {
    match cut::search(code, spins, check) {
        Ok(Some(Violation { mask, depth })) => println!(rt; "mask {mask} depth {depth}"),
        Ok(None) => println!(rt; "none"),
        Err(refusal) => println!(rt; "refused {refusal}"),
    }
}

// The rest of a record, part by part: false where it is not whole.
fn with_spins<R: Read>(
    rt: &impl Print,
    input: &mut R,
    code: &[u8],
    spins: &[i32],
) -> io::Result<bool> {
    let Some(check) = read_u32(input)? else {
        return Ok(false);
    };
    print_answer(rt, code, spins, check as usize)?;
    Ok(true)
}

fn with_code<R: Read>(rt: &impl Print, input: &mut R, code: &[u8]) -> io::Result<bool> {
    let mut spins = [0i32; NUMBERS_AT_ONCE];
    let Part::Whole(count) = read_i32_part(input, &mut spins)? else {
        return Ok(false);
    };
    with_spins(rt, input, code, &spins[..count])
}

fn one_record<R: Read>(rt: &impl Print, input: &mut R) -> io::Result<bool> {
    let mut code = [0u8; CODE_LIMIT];
    let Part::Whole(size) = read_part(input, &mut code)? else {
        return Ok(false);
    };
    with_code(rt, input, &code[..size])
}

// The budget is a number that no input uses up.
fn main(rt: HostRuntime) -> io::Result<()> {
    let mut input = rt.reader();
    for _ in 0..u64::MAX {
        if !one_record(&rt, &mut input)? {
            break;
        }
    }
    Ok(())
}
