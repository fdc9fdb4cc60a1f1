// Works through one certificate on a book, from the file of its sheet to the number that it gives, and prints each step.
#![tactic(auto)]

mod example;
mod shown;
mod walk;

use example::{FILE, sheet_of_file};
use sheet::Sheet;
use shown::Refusal;
use std::io;
use walk::{Walk, at_zero};
use zone::DifferenceZone;

// The sheet with its edges.
fn print_sheet(rt: &HostRuntime, sheet: &Sheet) -> io::Result<()> {
    let clocks = sheet.clocks();
    let locations = sheet.location_count();
    let start = sheet.start();
    println!(rt; "sheet clocks={clocks} locations={locations} start={start}")?;
    for (i, edge) in sheet.edges().iter().enumerate() {
        let source = edge.source();
        let target = edge.target();
        let atoms = edge.guard().len();
        println!(rt; "edge {i} source={source} target={target} guard-atoms={atoms}")?;
    }
    Ok(())
}

// Puts both nodes, examines them and concludes.
fn establish(rt: &HostRuntime, walk: &mut Walk, zone: &DifferenceZone) -> io::Result<()> {
    walk.put(rt, 0, 0, 1, zone)?;
    walk.put(rt, 1, 1, 1, zone)?;
    walk.examine(rt, 0)?;
    walk.examine(rt, 1)?;
    walk.conclude(rt)
}

// Strikes the second node, which leaves the first without its mark, and puts it back.
fn revise(rt: &HostRuntime, walk: &mut Walk, zone: &DifferenceZone) -> io::Result<()> {
    walk.strike(rt, 1)?;
    walk.conclude(rt)?;
    walk.put(rt, 1, 1, 1, zone)?;
    walk.examine(rt, 0)?;
    walk.examine(rt, 1)?;
    walk.conclude(rt)
}

fn main(rt: HostRuntime) -> io::Result<()> {
    let sheet = match sheet_of_file(rt.alloc(), &FILE) {
        Ok(sheet) => sheet,
        Err(fault) => return rt.println(Refusal::from(fault)),
    };
    let zone = match at_zero() {
        Ok(zone) => zone,
        Err(fault) => return rt.println(Refusal::from(fault)),
    };
    print_sheet(&rt, &sheet)?;
    let mut walk = Walk::open(rt.alloc(), sheet)?;
    establish(&rt, &mut walk, &zone)?;
    revise(&rt, &mut walk, &zone)
}
