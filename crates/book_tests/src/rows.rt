// Places that are altered from outside.
use crate::steps::{
    CHAIN, LOOP, PAIR, leans_on, number, only, open_end, refusal, sheet_of, used_places,
};
use book::{Book, Emptiness, PLACES};
use std::test::Fail;
use zone::{Bound, DifferenceZone, Zone};

#[test]
fn a_row_of_no_zone_leads_nowhere(rt: HostRuntime) -> Result<(), Fail> {
    let heap = rt.alloc();
    let mut row = used_places::<DifferenceZone>(heap, PLACES)?;
    let places = row.as_mut_slice();
    let sheet = sheet_of(heap, LOOP)?;
    let book = Book::<DifferenceZone, Emptiness>::open(sheet, Emptiness, places);
    assert_eq!(rt;
        number(book.put(places, 0, 0, 7, &DifferenceZone::whole(1))),
        0
    );
    assert_eq!(rt; open_end(book.conclude(places)), (16, Some(0)));
    let node = places.get_mut(0).ok_or("no place 0")?;
    node.zone.bounds[1] = Bound::AtMost(1);
    let zone = DifferenceZone::from_row(&node.zone);
    assert!(rt; zone.is_empty() && zone.clocks() == 1);
    assert_eq!(rt; number(book.examine(places, 0)), 0);
    assert!(rt; leans_on(places, 0, [false; 64]));
    assert_eq!(rt; open_end(book.conclude(places)), (15, None));
    Ok(())
}

#[test]
fn a_row_of_no_zone_lacks_the_second_clock(rt: HostRuntime) -> Result<(), Fail> {
    let heap = rt.alloc();
    let mut row = used_places::<DifferenceZone>(heap, PLACES)?;
    let places = row.as_mut_slice();
    let sheet = sheet_of(heap, PAIR)?;
    let book = Book::<DifferenceZone, Emptiness>::open(sheet, Emptiness, places);
    assert_eq!(rt;
        number(book.put(places, 0, 0, 7, &DifferenceZone::whole(2))),
        0
    );
    assert_eq!(rt; number(book.examine(places, 0)), 0);
    let node = places.get_mut(0).ok_or("no place 0")?;
    node.zone.clocks = 9;
    assert_eq!(rt; refusal(book.examine(places, 0)), (4, None, None));
    Ok(())
}

#[test]
fn a_marked_node_that_lost_its_cover_is_told_apart(rt: HostRuntime) -> Result<(), Fail> {
    let heap = rt.alloc();
    let whole = DifferenceZone::whole(1);
    let mut row = used_places::<DifferenceZone>(heap, PLACES)?;
    let places = row.as_mut_slice();
    let sheet = sheet_of(heap, CHAIN)?;
    let book = Book::<DifferenceZone, Emptiness>::open(sheet, Emptiness, places);
    assert_eq!(rt; number(book.put(places, 0, 0, 4, &whole)), 0);
    assert_eq!(rt; number(book.put(places, 1, 1, 4, &whole)), 0);
    assert_eq!(rt; number(book.examine(places, 0)), 0);
    places.get_mut(1).ok_or("no place 1")?.number = 5;
    assert_eq!(rt; refusal(book.examine(places, 0)), (14, Some(0), Some(0)));
    assert!(rt; leans_on(places, 0, only(1)));
    Ok(())
}
