// Zones as plain data.
use crate::steps::{at_most, origin, same};
use std::process::Abort;
use std::test::Fail;
use zone::{Bound, BoxZone, DifferenceZone, Zone};

fn rows_give_zones_again<Z: Zone>(rt: &impl Abort) -> Result<(), Fail> {
    let later = at_most(&origin::<Z>()?.elapse(), 0, 1, -2)?;
    assert!(rt; same(&Z::from_row(&later.row()), &later));
    let none = at_most(&Z::whole(2), 1, 0, -1)?;
    let back = Z::from_row(&none.row());
    assert!(rt; back.is_empty());
    assert!(rt; back.clocks() == 2);
    assert!(rt; same(&Z::from_row(&Z::whole(6).row()), &Z::whole(6)));
    Ok(())
}

#[test]
fn a_row_gives_its_zone_again(rt: HostRuntime) -> Result<(), Fail> {
    rows_give_zones_again::<DifferenceZone>(&rt)?;
    rows_give_zones_again::<BoxZone>(&rt)
}

fn is_void<Z: Zone>(zone: &Z) -> bool {
    zone.is_empty() && zone.clocks() == 1
}

#[test]
fn difference_rows_of_no_zone(rt: HostRuntime) {
    let row = DifferenceZone::whole(2).row();
    assert!(rt; !DifferenceZone::from_row(&row).is_empty());
    let mut none = row;
    none.clocks = 0;
    assert!(rt; is_void(&DifferenceZone::from_row(&none)));
    none.clocks = 7;
    assert!(rt; is_void(&DifferenceZone::from_row(&none)));
    let mut negative = row;
    negative.bounds[1] = Bound::AtMost(1);
    assert!(rt; is_void(&DifferenceZone::from_row(&negative)));
    let mut diagonal = row;
    diagonal.bounds[8] = Bound::Below(0);
    assert!(rt; is_void(&DifferenceZone::from_row(&diagonal)));
    let mut outside = row;
    outside.bounds[48] = Bound::AtMost(0);
    assert!(rt; is_void(&DifferenceZone::from_row(&outside)));
    let mut blank = row;
    blank.empty = true;
    assert!(rt; is_void(&DifferenceZone::from_row(&blank)));
}

#[test]
fn difference_rows_that_are_not_closed(rt: HostRuntime) -> Result<(), Fail> {
    let row = at_most(&DifferenceZone::whole(2), 1, 0, 3)?.row();
    let mut open = row;
    open.bounds[8 + 1] = Bound::AtMost(4);
    assert!(rt; is_void(&DifferenceZone::from_row(&open)));
    let mut wide = DifferenceZone::whole(1).row();
    wide.bounds[7] = Bound::AtMost(1_000_000);
    assert!(rt; !DifferenceZone::from_row(&wide).is_empty());
    wide.bounds[7] = Bound::AtMost(1_000_001);
    assert!(rt; is_void(&DifferenceZone::from_row(&wide)));
    Ok(())
}

#[test]
fn box_rows_of_no_zone(rt: HostRuntime) {
    let row = BoxZone::whole(2).row();
    let mut none = row;
    none.clocks = 0;
    assert!(rt; is_void(&BoxZone::from_row(&none)));
    none.clocks = 7;
    assert!(rt; is_void(&BoxZone::from_row(&none)));
    let mut negative = row;
    negative.ranges[1].lower = Bound::AtMost(1);
    assert!(rt; is_void(&BoxZone::from_row(&negative)));
    let mut floorless = row;
    floorless.ranges[0].lower = Bound::Free;
    assert!(rt; is_void(&BoxZone::from_row(&floorless)));
    let mut outside = row;
    outside.ranges[2].upper = Bound::AtMost(5);
    assert!(rt; is_void(&BoxZone::from_row(&outside)));
    let mut wide = row;
    wide.ranges[0].upper = Bound::AtMost(10_000);
    assert!(rt; !BoxZone::from_row(&wide).is_empty());
    wide.ranges[0].upper = Bound::AtMost(10_001);
    assert!(rt; is_void(&BoxZone::from_row(&wide)));
}
