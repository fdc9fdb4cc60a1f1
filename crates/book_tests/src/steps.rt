// Sheets, places and answers, as the tests use them.
use book::{BookFault, Place};
use reader::{Reader, Record};
use sheet::{Draft, Sheet, SheetFault};
use std::alloc::{AllocError, Global};
use zone::{Constraint, Zone, ZoneFault};

// One location and no edge.
pub const POINT: &[u8; 5] = b"\x01\x01\x01\x00\x06";

// An accepting start with an edge to itself.
pub const LOOP: &[u8; 11] = b"\x01\x01\x01\x00\x02\x00\x04\x00\x00\x00\x06";

// An edge from 0 to 1, and one from 1 to 2.
pub const CHAIN: &[u8; 13] = b"\x01\x01\x03\x00\x04\x00\x01\x00\x04\x01\x02\x00\x06";

// Two clocks, and an edge from the start to itself that sets clock 2 to zero.
pub const PAIR: &[u8; 9] = b"\x01\x02\x01\x00\x04\x00\x00\x02\x06";

// An edge to an accepting location after 2 to 5, which sets the clock to zero.
pub const EXAMPLE: &[u8; 22] =
    b"\x01\x01\x02\x00\x02\x01\x03\x00\x01\x01\x05\x00\x04\x00\x01\x01\x05\x01\x03\x02\x00\x06";

// The sheet of these records.
pub(crate) fn sheet_of(heap: Global, bytes: &[u8]) -> Result<Sheet, SheetFault> {
    let mut draft = Draft::new(heap);
    let mut reader = Reader::new(bytes);
    // A file has fewer records than bytes.
    for _ in 0..bytes.len() {
        match reader.next()? {
            None | Some(Record::SheetEnd) => break,
            Some(record) => draft.take(record)?,
        }
    }
    draft.ready()?;
    Ok(draft.seal())
}

// A place with a node that leans on place 0, as no call leaves it on a new book.
pub(crate) fn used<Z: Zone>() -> Place<Z::Row> {
    Place {
        standing: true,
        marked: true,
        leans: only(0),
        location: 0,
        number: 9,
        zone: Z::whole(1).row(),
    }
}

// So many places that were used before.
pub(crate) fn used_places<Z: Zone>(
    heap: Global,
    count: usize,
) -> Result<Vec<Place<Z::Row>>, AllocError> {
    vec![in heap; used::<Z>(); count]
}

// The places as they are now.
pub(crate) fn copy_of<R: Copy>(
    heap: Global,
    places: &[Place<R>],
) -> Result<Vec<Place<R>>, AllocError> {
    places.iter().copied().collect(heap)
}

// Leans on one place alone.
pub(crate) fn only(place: usize) -> [bool; 64] {
    let mut leans = [false; 64];
    if let Some(lean) = leans.get_mut(place) {
        *lean = true;
    }
    leans
}

// The zone x_i − x_j ≤ constant of one clock.
pub(crate) fn at_most<Z: Zone>(i: u8, j: u8, constant: i32) -> Result<Z, ZoneFault> {
    let strict = false;
    Z::whole(1).constrain(Constraint {
        i,
        j,
        strict,
        constant,
    })
}

// The number of an answer's ground, 0 for none.
pub(crate) fn number(answer: Result<(), BookFault>) -> u8 {
    match answer {
        Ok(()) => 0,
        Err(fault) => u8::from(fault.ground()),
    }
}

// The number of an answer's ground, with the place and the edge that it names.
pub(crate) fn refusal(answer: Result<(), BookFault>) -> (u8, Option<u8>, Option<usize>) {
    match answer {
        Ok(()) => (0, None, None),
        Err(fault) => (u8::from(fault.ground()), fault.place(), fault.edge()),
    }
}

// The number of a refused conclusion's ground, with the place that it names.
pub(crate) fn open_end(answer: Result<u64, BookFault>) -> (u8, Option<u8>) {
    match answer {
        Ok(_) => (0, None),
        Err(fault) => (u8::from(fault.ground()), fault.place()),
    }
}

// Whether two places hold the same.
pub(crate) fn same_place<Z: Zone>(a: &Place<Z::Row>, b: &Place<Z::Row>) -> bool {
    let one = Z::from_row(&a.zone);
    let other = Z::from_row(&b.zone);
    a.standing == b.standing
        && a.marked == b.marked
        && a.leans == b.leans
        && a.location == b.location
        && a.number == b.number
        && one.is_within(&other)
        && other.is_within(&one)
}

// Whether two rows of places hold the same.
pub(crate) fn same_places<Z: Zone>(a: &[Place<Z::Row>], b: &[Place<Z::Row>]) -> bool {
    for (one, other) in a.iter().zip(b.iter()) {
        if !same_place::<Z>(one, other) {
            return false;
        }
    }
    a.len() == b.len()
}

// Whether the node in a place is marked and leans on exactly these places.
pub(crate) fn leans_on<R: Copy>(places: &[Place<R>], place: usize, leans: [bool; 64]) -> bool {
    match places.get(place) {
        Some(node) => node.standing && node.marked && node.leans == leans,
        None => false,
    }
}

// Whether the node in a place stands without mark and leans.
pub(crate) fn is_bare<R: Copy>(places: &[Place<R>], place: usize) -> bool {
    match places.get(place) {
        Some(node) => node.standing && !node.marked && node.leans == [false; 64],
        None => false,
    }
}
