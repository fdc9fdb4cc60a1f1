// What drafts take and refuse, and the sheets that they are sealed to.
use crate::{
    draft_of_file, each_meets, example, number, ready_ground_of, sheet_of, take_all, take_times,
};
use sheet::{Atom, Draft, Relation, Sheet};
use std::alloc::Global;
use std::process::Abort;
use std::test::Fail;

// A file with the records of the example, and a book after them.
const FILE: &[u8; 48] =
    b"\x01\x01\x02\x00\x02\x01\x03\x00\x01\x01\x05\x00\x04\x00\x01\x01\x05\x01\x03\x02\x00\x06\
      \x10\x00\x01\x11\x00\x00\x01\x00\x12\x01\x00\x00\x00\x00\x11\x01\x01\x01\x00\x12\x01\x00\x00\x00\x00\x1f";

fn check_locations(rt: &impl Abort, sheet: &Sheet) {
    assert_eq!(rt; sheet.clocks(), 1);
    assert_eq!(rt; sheet.start(), 0);
    assert_eq!(rt; sheet.location_count(), 2);
    assert!(rt; !sheet.is_accepting(0));
    assert!(rt; sheet.is_accepting(1));
    assert!(rt; !sheet.is_accepting(2));
    let atom = sheet.limit(0).first().copied();
    assert_eq!(rt;
        atom,
        Some(Atom {
            clock: 1,
            relation: Relation::AtMost,
            constant: 5,
        })
    );
    assert_eq!(rt; sheet.limit(0).len(), 1);
    assert_eq!(rt; sheet.limit(1).len(), 0);
    assert_eq!(rt; sheet.limit(2).len(), 0);
}

fn check_edge(rt: &impl Abort, sheet: &Sheet) -> Result<(), Fail> {
    assert_eq!(rt; sheet.edges().len(), 1);
    let edge = sheet.edges().first().ok_or("no edge")?;
    assert_eq!(rt; edge.source(), 0);
    assert_eq!(rt; edge.target(), 1);
    assert_eq!(rt; edge.resets().len(), 1);
    assert_eq!(rt; edge.resets().first().copied(), Some(1));
    assert_eq!(rt; edge.guard().len(), 1);
    let atom = edge.guard().first().copied();
    assert_eq!(rt;
        atom,
        Some(Atom {
            clock: 1,
            relation: Relation::AtLeast,
            constant: 2,
        })
    );
    Ok(())
}

fn check_example(rt: &impl Abort, sheet: &Sheet) -> Result<(), Fail> {
    check_locations(rt, sheet);
    check_edge(rt, sheet)
}

#[test]
fn sheet_of_records(rt: HostRuntime) -> Result<(), Fail> {
    check_example(&rt, &example(rt.alloc())?)
}

#[test]
fn sheet_of_a_file(rt: HostRuntime) -> Result<(), Fail> {
    check_example(&rt, &draft_of_file(rt.alloc(), FILE)?.seal())
}

// The ground and the layer of the refusal of a file.
fn refusal_of_file(heap: Global, bytes: &[u8]) -> (u8, char) {
    match draft_of_file(heap, bytes) {
        Ok(_) => (0, '-'),
        Err(fault) => match (fault.ground(), fault.layer()) {
            (Ok(reason), Ok(layer)) => (u8::from(reason), char::from(layer)),
            _ => (255, '-'),
        },
    }
}

#[test]
fn refusals_of_files(rt: HostRuntime) {
    assert_eq!(rt; refusal_of_file(rt.alloc(), &[0x07]), (1, 'F'));
    assert_eq!(rt; refusal_of_file(rt.alloc(), &[0x01, 1, 2]), (2, 'F'));
    assert_eq!(rt; refusal_of_file(rt.alloc(), &[0x02, 0]), (3, 'F'));
    assert_eq!(rt; refusal_of_file(rt.alloc(), &[0x01, 0, 1, 0]), (4, 'S'));
    assert_eq!(rt; refusal_of_file(rt.alloc(), FILE), (0, '-'));
}

#[test]
fn places(rt: HostRuntime) {
    let heap = rt.alloc();
    assert!(rt; each_meets(heap, &[], &[[0x02, 0]], 3));
    assert!(rt; each_meets(heap, &[], &[[0x03, 0, 1, 1, 0, 0]], 3));
    assert!(rt; each_meets(heap, &[], &[[0x04, 0, 0, 0]], 3));
    assert!(rt; each_meets(heap, &[], &[[0x05, 1, 1, 0, 0]], 3));
    assert!(rt; each_meets(heap, &[0x01, 1, 1, 0], &[[0x01, 0, 1, 0]], 3));
    assert!(rt; each_meets(heap, &[0x01, 1, 1, 0], &[[0x05, 0, 1, 0, 0]], 3));
    assert!(rt;
        each_meets(
            heap,
            &[0x01, 1, 1, 0, 0x04, 0, 0, 0],
            &[[0x05, 1, 1, 0, 0]],
            0,
        )
    );
}

#[test]
fn book_records(rt: HostRuntime) {
    let heap = rt.alloc();
    assert!(rt; each_meets(heap, &[0x01, 1, 1, 0], &[[0x06], [0x1f]], 3));
    assert!(rt; each_meets(heap, &[0x01, 1, 1, 0], &[[0x10, 0, 0]], 3));
    assert!(rt; each_meets(heap, &[0x01, 1, 1, 0], &[[0x11, 0, 0, 0, 0]], 3));
    assert!(rt; each_meets(heap, &[0x01, 1, 1, 0], &[[0x12, 1, 0, 0, 0, 0]], 3));
}

#[test]
fn heads(rt: HostRuntime) {
    let heap = rt.alloc();
    let outside = [
        [0x01, 0, 1, 0],
        [0x01, 7, 1, 0],
        [0x01, 1, 0, 0],
        [0x01, 1, 33, 0],
        [0x01, 1, 32, 32],
    ];
    assert!(rt; each_meets(heap, &[], &outside, 4));
    assert!(rt; each_meets(heap, &[], &[[0x01, 1, 1, 0], [0x01, 6, 32, 31]], 0));
    assert!(rt; each_meets(heap, &[0x01, 6, 32, 31], &[[0x02, 32], [0x02, 255]], 4));
    assert!(rt;
        each_meets(
            heap,
            &[0x01, 6, 32, 31, 0x02, 31],
            &[[0x02, 0], [0x02, 31]],
            0,
        )
    );
}

#[test]
fn limits(rt: HostRuntime) {
    let heap = rt.alloc();
    let outside = [
        [0x03, 3, 1, 1, 0, 0],
        [0x03, 2, 0, 1, 0, 0],
        [0x03, 2, 3, 1, 0, 0],
        [0x03, 2, 2, 5, 0, 0],
        [0x03, 2, 2, 4, 0x11, 0x27],
        [0x03, 2, 2, 4, 0, 0x80],
    ];
    assert!(rt; each_meets(heap, &[0x01, 2, 3, 0], &outside, 4));
    assert!(rt;
        each_meets(
            heap,
            &[0x01, 2, 3, 0],
            &[[0x03, 2, 2, 4, 0x10, 0x27], [0x03, 0, 1, 0, 0, 0]],
            0,
        )
    );
}

#[test]
fn guards(rt: HostRuntime) {
    let heap = rt.alloc();
    let outside = [
        [0x05, 0, 1, 0, 0],
        [0x05, 3, 1, 0, 0],
        [0x05, 2, 5, 0, 0],
        [0x05, 2, 2, 0x11, 0x27],
    ];
    assert!(rt; each_meets(heap, &[0x01, 2, 1, 0, 0x04, 0, 0, 0], &outside, 4));
    assert!(rt;
        each_meets(
            heap,
            &[0x01, 2, 1, 0, 0x04, 0, 0, 0],
            &[[0x05, 2, 2, 0x10, 0x27], [0x05, 1, 0, 0, 0]],
            0,
        )
    );
}

#[test]
fn edges(rt: HostRuntime) -> Result<(), Fail> {
    let heap = rt.alloc();
    let outside = [
        [0x04, 2, 0, 0],
        [0x04, 0, 2, 0],
        [0x04, 0, 0, 0x40],
        [0x04, 0, 0, 0x80],
    ];
    assert!(rt; each_meets(heap, &[0x01, 6, 2, 0], &outside, 4));
    assert!(rt; each_meets(heap, &[0x01, 1, 2, 0], &[[0x04, 0, 0, 2]], 4));
    let sheet = sheet_of(heap, &[0x01, 6, 2, 0, 0x04, 1, 0, 0x21])?;
    let edge = sheet.edges().first().ok_or("no edge")?;
    assert_eq!(rt; edge.source(), 1);
    assert_eq!(rt; edge.target(), 0);
    assert_eq!(rt; edge.resets().len(), 2);
    assert_eq!(rt; edge.resets().first().copied(), Some(1));
    assert_eq!(rt; edge.resets().last().copied(), Some(6));
    Ok(())
}

// An accepting record and a limit record between an edge and its guards do not end the latest edge.
#[test]
fn latest_edge(rt: HostRuntime) -> Result<(), Fail> {
    let mut draft = Draft::new(rt.alloc());
    take_all(
        &mut draft,
        &[0x01, 1, 1, 0, 0x04, 0, 0, 0, 0x05, 1, 1, 7, 0],
    )?;
    take_all(&mut draft, &[0x04, 0, 0, 1, 0x02, 0, 0x03, 0, 1, 1, 9, 0])?;
    take_times(&mut draft, 2, &[0x05, 1, 1, 8, 0])?;
    let sheet = draft.seal();
    let first = sheet.edges().first().ok_or("no first edge")?;
    assert_eq!(rt; first.guard().len(), 1);
    let last = sheet.edges().last().ok_or("no last edge")?;
    assert_eq!(rt; last.guard().len(), 2);
    let atom = last.guard().first().copied();
    assert_eq!(rt;
        atom,
        Some(Atom {
            clock: 1,
            relation: Relation::AtMost,
            constant: 8,
        })
    );
    Ok(())
}

#[test]
fn most_edges(rt: HostRuntime) -> Result<(), Fail> {
    let mut draft = Draft::new(rt.alloc());
    take_all(&mut draft, &[0x01, 1, 1, 0])?;
    take_times(&mut draft, 128, &[0x04, 0, 0, 0])?;
    assert_eq!(rt; number(take_all(&mut draft, &[0x04, 0, 0, 0])), 5);
    assert_eq!(rt; number(take_all(&mut draft, &[0x04, 1, 0, 0])), 4);
    assert_eq!(rt; draft.seal().edges().len(), 128);
    Ok(())
}

#[test]
fn most_limit_atoms(rt: HostRuntime) -> Result<(), Fail> {
    let mut draft = Draft::new(rt.alloc());
    take_all(&mut draft, &[0x01, 1, 2, 0, 0x03, 1, 1, 2, 0, 0])?;
    take_times(&mut draft, 63, &[0x03, 0, 1, 2, 0, 0])?;
    assert_eq!(rt; number(take_all(&mut draft, &[0x03, 1, 1, 1, 0, 0])), 5);
    assert_eq!(rt; number(take_all(&mut draft, &[0x03, 2, 1, 1, 0, 0])), 4);
    assert_eq!(rt; draft.seal().limit(0).len(), 63);
    Ok(())
}

#[test]
fn most_guard_atoms(rt: HostRuntime) -> Result<(), Fail> {
    let mut draft = Draft::new(rt.alloc());
    take_all(
        &mut draft,
        &[
            0x01, 1, 1, 0, 0x04, 0, 0, 0, 0x05, 1, 2, 0, 0, 0x04, 0, 0, 0,
        ],
    )?;
    take_times(&mut draft, 255, &[0x05, 1, 2, 0, 0])?;
    assert_eq!(rt; number(take_all(&mut draft, &[0x05, 1, 1, 0, 0])), 5);
    assert_eq!(rt; number(take_all(&mut draft, &[0x05, 2, 1, 0, 0])), 4);
    let sheet = draft.seal();
    let edge = sheet.edges().last().ok_or("no edge")?;
    assert_eq!(rt; edge.guard().len(), 255);
    Ok(())
}

// The ground where the start location has the limit `x RELATION constant`.
fn start_ground(heap: Global, relation: u8, constant: u8) -> u8 {
    ready_ground_of(
        heap,
        &[
            0x01, 1, 2, 1, 0x03, 0, 1, 4, 0, 0, 0x03, 1, 1, relation, constant, 0,
        ],
    )
}

// Whether each of some constants makes a limit by this relation that gives this ground.
fn starts(heap: Global, relation: u8, constants: &[u8], ground: u8) -> bool {
    for constant in constants {
        if start_ground(heap, relation, *constant) != ground {
            return false;
        }
    }
    true
}

#[test]
fn start_limits(rt: HostRuntime) {
    let heap = rt.alloc();
    assert!(rt; starts(heap, 0, &[0], 6) && starts(heap, 0, &[1, 9], 0));
    assert!(rt; starts(heap, 1, &[0, 1], 0));
    assert!(rt; starts(heap, 2, &[0], 0) && starts(heap, 2, &[1], 6));
    assert!(rt; starts(heap, 3, &[0], 0) && starts(heap, 3, &[1], 6));
    assert!(rt; starts(heap, 4, &[0, 1], 6));
    assert_eq!(rt; ready_ground_of(heap, &[]), 3);
}

fn check_blank(rt: &impl Abort, sheet: &Sheet) {
    assert_eq!(rt; sheet.clocks(), 1);
    assert_eq!(rt; sheet.start(), 0);
    assert_eq!(rt; sheet.location_count(), 0);
    assert_eq!(rt; sheet.edges().len(), 0);
    assert!(rt; !sheet.is_accepting(0));
    assert_eq!(rt; sheet.limit(0).len(), 0);
}

#[test]
fn blank_sheets(rt: HostRuntime) -> Result<(), Fail> {
    check_blank(&rt, &sheet_of(rt.alloc(), &[])?);
    check_blank(
        &rt,
        &sheet_of(
            rt.alloc(),
            &[0x01, 2, 2, 1, 0x04, 0, 1, 3, 0x03, 1, 2, 4, 0, 0],
        )?,
    );
    Ok(())
}
