// Judges the files of a table and prints the verdict on each under its name. A line of standard input is a case.
#![tactic(auto)]

ghost use Rattle.std.specs.Prelude.{◌≡◌, IfOk, string_bytes};
ghost use Rattle.checktable.specs.Lines.{case_line};

mod fault;
mod token;

use fault::CaseFault;
use std::alloc::{AllocError, Global};
use std::io;
use std::io::{BufRead, BufReader};

// The line for a case.
fn line(heap: Global, case: &str) -> Result<String, AllocError>
    ensures { IfOk result (λ line. string_bytes line ≡ case_line case.now) }
{
    let Some((name, tokens)) = case.split_once(':') else {
        return format!(in heap; "{case}: MALFORMED");
    };
    match token::file(heap, tokens) {
        Ok(file) => {
            let verdict = judgement::verdict_on(heap, file.as_slice())?;
            format!(in heap; "{name}: {verdict}")
        }
        Err(CaseFault::Malformed) => format!(in heap; "{name}: MALFORMED"),
        Err(CaseFault::NoMemory(error)) => Err(error),
    }
}

fn main(rt: HostRuntime) -> io::Result<()> {
    let heap = rt.alloc();
    for case in BufReader::new(heap, rt.stdin())?.lines(heap) {
        let line = line(heap, case?.as_str())?;
        println!(rt; "{line}")?;
    }
    Ok(())
}
