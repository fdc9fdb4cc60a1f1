// Judges a certificate file from standard input, and prints one line.
#![tactic(auto)]

use judgement::verdict_line;
use reader::read_input;
use std::io;

fn main(rt: HostRuntime) -> io::Result<()> {
    let heap = rt.alloc();
    let input = read_input(heap, rt.stdin())?;
    let line = verdict_line(heap, input.as_slice())?;
    print!(rt; "{line}")
}
