// What put refuses, in its order, and that a refusal changes no place.
use crate::steps::{CHAIN, at_most, copy_of, number, refusal, same_places, sheet_of, used_places};
use book::{Book, Emptiness, PLACES};
use std::alloc::Global;
use std::process::Abort;
use std::test::Fail;
use zone::{BoxZone, DifferenceZone, Zone};

fn refusals_in_order<Z: Zone>(rt: &impl Abort, heap: Global) -> Result<(), Fail> {
    let whole = Z::whole(1);
    let none = at_most::<Z>(1, 0, -1)?;
    let mut row = used_places::<Z>(heap, PLACES)?;
    let places = row.as_mut_slice();
    let book = Book::<Z, Emptiness>::open(sheet_of(heap, CHAIN)?, Emptiness, places);
    assert_eq!(rt; number(book.put(places, 3, 0, 1, &whole)), 0);
    let before = copy_of(heap, places)?;
    assert_eq!(rt;
        refusal(book.put(places, 64, 0, 1, &whole)),
        (4, None, None)
    );
    assert_eq!(rt;
        refusal(book.put(places, 255, 0, 1, &none)),
        (4, None, None)
    );
    assert_eq!(rt; refusal(book.put(places, 3, 3, 1, &whole)), (4, None, None));
    assert_eq!(rt;
        refusal(book.put(places, 3, 2, 1, &Z::whole(2))),
        (4, None, None)
    );
    assert_eq!(rt;
        refusal(book.put(places, 3, 2, 1, &none)),
        (7, Some(3), None)
    );
    assert_eq!(rt;
        refusal(book.put(places, 4, 2, 1, &none)),
        (11, Some(4), None)
    );
    assert!(rt; same_places::<Z>(before.as_slice(), places));
    assert_eq!(rt; number(book.put(places, 4, 2, 1, &whole)), 0);
    assert!(rt; !same_places::<Z>(before.as_slice(), places));
    Ok(())
}

#[test]
fn put_refuses_in_order_and_changes_nothing(rt: HostRuntime) -> Result<(), Fail> {
    refusals_in_order::<DifferenceZone>(&rt, rt.alloc())?;
    refusals_in_order::<BoxZone>(&rt, rt.alloc())
}
