// What a strike clears, and what it refuses.
use crate::steps::{
    CHAIN, copy_of, is_bare, leans_on, number, only, refusal, same_places, sheet_of, used_places,
};
use book::{Book, Emptiness, PLACES, Place, Question};
use std::alloc::Global;
use std::process::Abort;
use std::test::Fail;
use zone::{BoxZone, DifferenceZone, Zone};

// Puts a whole node at each location of the chain, and marks each.
fn fill<Z: Zone, Q: Question>(rt: &impl Abort, book: &Book<Z, Q>, places: &mut [Place<Z::Row>]) {
    for i in 0..3u8 {
        assert_eq!(rt; number(book.put(places, i, i, 0, &Z::whole(1))), 0);
    }
    for i in 0..3u8 {
        assert_eq!(rt; number(book.examine(places, i)), 0);
    }
    assert!(rt; leans_on(places, 0, only(1)));
    assert!(rt; leans_on(places, 1, only(2)));
    assert!(rt; leans_on(places, 2, [false; 64]));
}

fn what_is_cleared<Z: Zone>(rt: &impl Abort, heap: Global) -> Result<(), Fail> {
    let mut row = used_places::<Z>(heap, PLACES)?;
    let places = row.as_mut_slice();
    let book = Book::<Z, Emptiness>::open(sheet_of(heap, CHAIN)?, Emptiness, places);
    fill(rt, &book, places);
    assert_eq!(rt; number(book.strike(places, 2)), 0);
    assert!(rt; leans_on(places, 0, only(1)));
    assert!(rt; is_bare(places, 1));
    assert_eq!(rt; number(book.examine(places, 2)), 8);
    assert_eq!(rt; refusal(book.examine(places, 1)), (13, Some(1), Some(1)));
    Ok(())
}

#[test]
fn strike_clears_those_that_lean_on_it_and_no_other(rt: HostRuntime) -> Result<(), Fail> {
    what_is_cleared::<DifferenceZone>(&rt, rt.alloc())?;
    what_is_cleared::<BoxZone>(&rt, rt.alloc())
}

#[test]
fn a_vacant_place_is_not_struck(rt: HostRuntime) -> Result<(), Fail> {
    let heap = rt.alloc();
    let mut row = used_places::<DifferenceZone>(heap, PLACES)?;
    let places = row.as_mut_slice();
    let sheet = sheet_of(heap, CHAIN)?;
    let book = Book::<DifferenceZone, Emptiness>::open(sheet, Emptiness, places);
    fill(&rt, &book, places);
    let before = copy_of(heap, places)?;
    assert_eq!(rt; refusal(book.strike(places, 3)), (8, None, None));
    assert_eq!(rt; refusal(book.strike(places, 64)), (4, None, None));
    assert!(rt; same_places::<DifferenceZone>(before.as_slice(), places));
    Ok(())
}
