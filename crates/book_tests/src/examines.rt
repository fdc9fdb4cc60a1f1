// Which nodes are granted their mark.
use crate::steps::{
    CHAIN, LOOP, at_most, is_bare, leans_on, number, only, refusal, sheet_of, used_places,
};
use book::{Book, Emptiness, PLACES, Unreachability};
use std::alloc::Global;
use std::process::Abort;
use std::test::Fail;
use zone::{BoxZone, DifferenceZone, Zone};

fn an_accepting_loop<Z: Zone>(rt: &impl Abort, heap: Global) -> Result<(), Fail> {
    let mut row = used_places::<Z>(heap, PLACES)?;
    let places = row.as_mut_slice();
    let book = Book::<Z, Emptiness>::open(sheet_of(heap, LOOP)?, Emptiness, places);
    assert_eq!(rt; number(book.put(places, 0, 0, 7, &Z::whole(1))), 0);
    assert_eq!(rt; number(book.put(places, 1, 0, 6, &Z::whole(1))), 0);
    assert_eq!(rt; number(book.examine(places, 0)), 0);
    assert!(rt; leans_on(places, 0, only(1)));
    assert_eq!(rt; refusal(book.examine(places, 1)), (13, Some(1), Some(0)));
    assert!(rt; is_bare(places, 1));
    Ok(())
}

#[test]
fn numbers_fall_along_an_accepting_loop(rt: HostRuntime) -> Result<(), Fail> {
    an_accepting_loop::<DifferenceZone>(&rt, rt.alloc())?;
    an_accepting_loop::<BoxZone>(&rt, rt.alloc())
}

fn two_halves<Z: Zone>(rt: &impl Abort, heap: Global) -> Result<(), Fail> {
    let mut row = used_places::<Z>(heap, PLACES)?;
    let places = row.as_mut_slice();
    let book = Book::<Z, Emptiness>::open(sheet_of(heap, CHAIN)?, Emptiness, places);
    assert_eq!(rt; number(book.put(places, 0, 0, 0, &Z::whole(1))), 0);
    assert_eq!(rt;
        number(book.put(places, 1, 1, 0, &at_most::<Z>(1, 0, 2)?)),
        0
    );
    assert_eq!(rt;
        number(book.put(places, 2, 1, 0, &at_most::<Z>(0, 1, -2)?)),
        0
    );
    assert_eq!(rt; refusal(book.examine(places, 0)), (13, Some(0), Some(0)));
    assert_eq!(rt; number(book.put(places, 3, 1, 0, &Z::whole(1))), 0);
    assert_eq!(rt; number(book.examine(places, 0)), 0);
    assert!(rt; leans_on(places, 0, only(3)));
    Ok(())
}

#[test]
fn two_nodes_do_not_cover_together(rt: HostRuntime) -> Result<(), Fail> {
    two_halves::<DifferenceZone>(&rt, rt.alloc())?;
    two_halves::<BoxZone>(&rt, rt.alloc())
}

#[test]
fn a_node_with_too_high_a_number_is_no_cover(rt: HostRuntime) -> Result<(), Fail> {
    let heap = rt.alloc();
    let whole = DifferenceZone::whole(1);
    let mut row = used_places::<DifferenceZone>(heap, PLACES)?;
    let places = row.as_mut_slice();
    let sheet = sheet_of(heap, CHAIN)?;
    let book = Book::<DifferenceZone, Emptiness>::open(sheet, Emptiness, places);
    assert_eq!(rt; number(book.put(places, 0, 0, 4, &whole)), 0);
    assert_eq!(rt; number(book.put(places, 1, 1, 5, &whole)), 0);
    assert_eq!(rt; refusal(book.examine(places, 0)), (13, Some(0), Some(0)));
    assert_eq!(rt; number(book.put(places, 2, 1, 4, &whole)), 0);
    assert_eq!(rt; number(book.examine(places, 0)), 0);
    assert!(rt; leans_on(places, 0, only(2)));
    Ok(())
}

#[test]
fn a_vacant_place_is_not_examined(rt: HostRuntime) -> Result<(), Fail> {
    let heap = rt.alloc();
    let mut row = used_places::<DifferenceZone>(heap, PLACES)?;
    let places = row.as_mut_slice();
    let sheet = sheet_of(heap, CHAIN)?;
    let book = Book::<DifferenceZone, Emptiness>::open(sheet, Emptiness, places);
    assert_eq!(rt; refusal(book.examine(places, 0)), (8, None, None));
    assert_eq!(rt; refusal(book.examine(places, 64)), (4, None, None));
    Ok(())
}

#[test]
fn an_accepting_node_is_not_admitted_under_unreachability(rt: HostRuntime) -> Result<(), Fail> {
    let heap = rt.alloc();
    let mut row = used_places::<DifferenceZone>(heap, PLACES)?;
    let places = row.as_mut_slice();
    let sheet = sheet_of(heap, LOOP)?;
    let book = Book::<DifferenceZone, Unreachability>::open(sheet, Unreachability, places);
    assert_eq!(rt;
        number(book.put(places, 5, 0, 7, &DifferenceZone::whole(1))),
        0
    );
    assert_eq!(rt; refusal(book.examine(places, 5)), (12, Some(5), None));
    Ok(())
}
