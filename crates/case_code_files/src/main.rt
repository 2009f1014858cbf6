// Runs code files through table::check. Standard input holds records: a 32-bit length L, at most
// 30,000, and L bytes, a code file. Each gets a line, `bits N checks M edges E` or `refused K`. The
// end of the input, a longer record or one that is cut short ends the program.
#![tactic(auto)]

use std::io::{self, Read};
use stream::{CODE_LIMIT, Part, read_part};
use table::Sizes;

fn print_answer(rt: &impl Print, code: &[u8]) -> io::Result<()> {
    match table::check(code) {
        Ok(
            Sizes {
                bits,
                checks,
                edges,
            },
        ) => println!(rt; "bits {bits} checks {checks} edges {edges}"),
        Err(refusal) => println!(rt; "refused {refusal}"),
    }
}

// One record: false where it is not whole.
fn one_record<R: Read>(rt: &impl Print, input: &mut R) -> io::Result<bool> {
    let mut file = [0u8; CODE_LIMIT];
    let Part::Whole(size) = read_part(input, &mut file)? else {
        return Ok(false);
    };
    print_answer(rt, &file[..size])?;
    Ok(true)
}

// The budget is a number that no input uses up.
fn main(rt: HostRuntime) -> io::Result<()> {
    let mut input = rt.reader();
    for _ in 0..u64::MAX {
        if !one_record(&rt, &mut input)? {
            break;
        }
    }
    Ok(())
}
