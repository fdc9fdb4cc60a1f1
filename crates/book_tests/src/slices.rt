// Slices of other lengths than 64.
use crate::steps::{POINT, number, open_end, same_place, sheet_of, used, used_places};
use book::{Book, Emptiness};
use std::alloc::Global;
use std::process::Abort;
use std::test::Fail;
use zone::{BoxZone, DifferenceZone, Zone};

// A slice of this length has the places below `end`.
fn has_places<Z: Zone>(rt: &impl Abort, heap: Global, len: usize, end: u8) -> Result<(), Fail> {
    let whole = Z::whole(1);
    let mut row = used_places::<Z>(heap, len)?;
    let places = row.as_mut_slice();
    let book = Book::<Z, Emptiness>::open(sheet_of(heap, POINT)?, Emptiness, places);
    assert_eq!(rt; open_end(book.conclude(places)), (15, None));
    for i in 0..end {
        assert_eq!(rt; number(book.put(places, i, 0, 3, &whole)), 0);
        assert_eq!(rt; number(book.examine(places, i)), 0);
    }
    assert_eq!(rt; number(book.put(places, end, 0, 3, &whole)), 4);
    assert_eq!(rt; number(book.examine(places, end)), 4);
    assert_eq!(rt; number(book.strike(places, end)), 4);
    let visits = if end > 0 { Some(3) } else { None };
    assert_eq!(rt; book.conclude(places).ok(), visits);
    Ok(())
}

#[test]
fn a_book_has_as_many_places_as_its_slice_up_to_64(rt: HostRuntime) -> Result<(), Fail> {
    has_places::<DifferenceZone>(&rt, rt.alloc(), 0, 0)?;
    has_places::<DifferenceZone>(&rt, rt.alloc(), 1, 1)?;
    has_places::<BoxZone>(&rt, rt.alloc(), 64, 64)?;
    has_places::<BoxZone>(&rt, rt.alloc(), 65, 64)
}

fn one_place_more<Z: Zone>(rt: &impl Abort, heap: Global) -> Result<(), Fail> {
    let whole = Z::whole(1);
    let mut row = used_places::<Z>(heap, 65)?;
    let places = row.as_mut_slice();
    let book = Book::<Z, Emptiness>::open(sheet_of(heap, POINT)?, Emptiness, places);
    assert_eq!(rt; number(book.put(places, 0, 0, 3, &whole)), 0);
    assert_eq!(rt; number(book.examine(places, 0)), 0);
    assert_eq!(rt; number(book.strike(places, 0)), 0);
    assert_eq!(rt; number(book.put(places, 64, 0, 3, &whole)), 4);
    assert_eq!(rt; number(book.examine(places, 64)), 4);
    assert_eq!(rt; number(book.strike(places, 64)), 4);
    assert_eq!(rt; open_end(book.conclude(places)), (15, None));
    let first = places.get(0).ok_or("no place 0")?;
    assert!(rt; !first.standing);
    let last = places.get(64).ok_or("no place 64")?;
    assert!(rt; same_place::<Z>(last, &used::<Z>()));
    Ok(())
}

#[test]
fn the_65th_place_stays_untouched(rt: HostRuntime) -> Result<(), Fail> {
    one_place_more::<DifferenceZone>(&rt, rt.alloc())?;
    one_place_more::<BoxZone>(&rt, rt.alloc())
}
