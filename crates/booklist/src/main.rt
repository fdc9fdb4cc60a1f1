// Lists the records of a file from standard input, and how its reading ends.
#![tactic(auto)]

mod line;

use line::{EndingLine, RecordLine};
use reader::{Listing, read_input};
use std::io;

fn main(rt: HostRuntime) -> io::Result<()> {
    let heap = rt.alloc();
    let input = read_input(heap, rt.stdin())?;
    let listing = Listing::of(heap, input.as_slice())?;
    for placed in listing.records.iter() {
        let line = RecordLine {
            offset: placed.offset,
            fields: placed.record.fields(),
        };
        println!(rt; "{line}")?;
    }
    let last = EndingLine {
        ending: listing.ending,
    };
    println!(rt; "{last}")
}
