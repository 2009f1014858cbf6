// The frame report of standard input, once more: the gate runs a program on one input, and here that is the
// reference's large code.
#![tactic(auto)]

use std::io;

fn main(rt: HostRuntime) -> io::Result<()> {
    reporting::report_input(&rt)
}
