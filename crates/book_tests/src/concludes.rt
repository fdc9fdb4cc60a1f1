// What a book concludes.
use crate::steps::{
    CHAIN, EXAMPLE, POINT, at_most, leans_on, number, only, open_end, sheet_of, used_places,
};
use book::{Book, Emptiness, PLACES};
use std::alloc::Global;
use std::process::Abort;
use std::test::Fail;
use zone::{BoxZone, DifferenceZone, Zone};

fn a_certificate<Z: Zone>(rt: &impl Abort, heap: Global) -> Result<(), Fail> {
    let zero = at_most::<Z>(1, 0, 0)?;
    let mut row = used_places::<Z>(heap, PLACES)?;
    let places = row.as_mut_slice();
    let book = Book::<Z, Emptiness>::open(sheet_of(heap, EXAMPLE)?, Emptiness, places);
    assert_eq!(rt; open_end(book.conclude(places)), (15, None));
    assert_eq!(rt; number(book.put(places, 0, 0, 1, &zero)), 0);
    assert_eq!(rt; number(book.put(places, 1, 1, 1, &zero)), 0);
    assert_eq!(rt; open_end(book.conclude(places)), (16, Some(0)));
    assert_eq!(rt; number(book.examine(places, 0)), 0);
    assert_eq!(rt; number(book.examine(places, 1)), 0);
    assert!(rt; leans_on(places, 0, only(1)));
    assert!(rt; leans_on(places, 1, [false; 64]));
    assert_eq!(rt; book.conclude(places).ok(), Some(1));
    Ok(())
}

#[test]
fn a_certificate_is_granted_over_either_kind(rt: HostRuntime) -> Result<(), Fail> {
    a_certificate::<DifferenceZone>(&rt, rt.alloc())?;
    a_certificate::<BoxZone>(&rt, rt.alloc())
}

#[test]
fn the_lowest_node_without_a_mark_is_named(rt: HostRuntime) -> Result<(), Fail> {
    let heap = rt.alloc();
    let whole = DifferenceZone::whole(1);
    let mut row = used_places::<DifferenceZone>(heap, PLACES)?;
    let places = row.as_mut_slice();
    let sheet = sheet_of(heap, CHAIN)?;
    let book = Book::<DifferenceZone, Emptiness>::open(sheet, Emptiness, places);
    assert_eq!(rt; number(book.put(places, 3, 2, 0, &whole)), 0);
    assert_eq!(rt; open_end(book.conclude(places)), (15, None));
    assert_eq!(rt; number(book.put(places, 5, 0, 0, &whole)), 0);
    assert_eq!(rt; open_end(book.conclude(places)), (16, Some(3)));
    assert_eq!(rt; number(book.examine(places, 3)), 0);
    assert_eq!(rt; open_end(book.conclude(places)), (16, Some(5)));
    Ok(())
}

#[test]
fn the_least_left_of_the_nodes_that_cover_the_start_counts(rt: HostRuntime) -> Result<(), Fail> {
    let heap = rt.alloc();
    let mut row = used_places::<DifferenceZone>(heap, PLACES)?;
    let places = row.as_mut_slice();
    let sheet = sheet_of(heap, POINT)?;
    let book = Book::<DifferenceZone, Emptiness>::open(sheet, Emptiness, places);
    let later = at_most::<DifferenceZone>(0, 1, -1)?;
    assert_eq!(rt;
        number(book.put(places, 0, 0, 9, &DifferenceZone::whole(1))),
        0
    );
    assert_eq!(rt;
        number(book.put(places, 1, 0, 4, &DifferenceZone::whole(1))),
        0
    );
    assert_eq!(rt; number(book.put(places, 2, 0, 2, &later)), 0);
    for i in 0..3u8 {
        assert_eq!(rt; number(book.examine(places, i)), 0);
    }
    assert_eq!(rt; book.conclude(places).ok(), Some(4));
    Ok(())
}
