// What the calls make of zones.
use crate::steps::{at_most, below, origin, refusal, same};
use std::process::Abort;
use std::test::Fail;
use zone::{BoxZone, DifferenceZone, Zone, ZoneFault};

// From x1 = x2 = 0, time, and then x1 ≥ 2 and x2 ≤ 1.
fn apart<Z: Zone>() -> Result<Z, ZoneFault> {
    let late = at_most(&origin::<Z>()?.elapse(), 0, 1, -2)?;
    at_most(&late, 2, 0, 1)
}

#[test]
fn differences_are_kept_by_one_kind(rt: HostRuntime) -> Result<(), Fail> {
    assert!(rt; apart::<DifferenceZone>()?.is_empty());
    assert!(rt; !apart::<BoxZone>()?.is_empty());
    Ok(())
}

fn whole_zones<Z: Zone>(rt: &impl Abort) {
    for n in 1..7u8 {
        let zone = Z::whole(n);
        assert!(rt; zone.clocks() == n);
        assert!(rt; !zone.is_empty());
        assert!(rt; zone.holds_zero());
        assert!(rt; same(&zone, &zone.elapse()));
    }
    assert!(rt; Z::whole(0).is_empty());
    assert!(rt; Z::whole(0).clocks() == 1);
    assert!(rt; Z::whole(7).is_empty());
    assert!(rt; Z::whole(7).clocks() == 1);
}

#[test]
fn whole_zones_of_either_kind(rt: HostRuntime) {
    whole_zones::<DifferenceZone>(&rt);
    whole_zones::<BoxZone>(&rt);
}

fn ends_that_meet<Z: Zone>(rt: &impl Abort) -> Result<(), Fail> {
    let floor = at_most(&Z::whole(1), 0, 1, -3)?;
    assert!(rt; !at_most(&floor, 1, 0, 3)?.is_empty());
    assert!(rt; below(&floor, 1, 0, 3)?.is_empty());
    assert!(rt; at_most(&floor, 1, 0, 2)?.is_empty());
    Ok(())
}

fn ends_that_are_strict<Z: Zone>(rt: &impl Abort) -> Result<(), Fail> {
    let above = below(&Z::whole(1), 0, 1, -3)?;
    assert!(rt; at_most(&above, 1, 0, 3)?.is_empty());
    assert!(rt; !below(&above, 1, 0, 4)?.is_empty());
    let floor = at_most(&Z::whole(1), 0, 1, -3)?;
    assert!(rt; above.is_within(&floor));
    assert!(rt; !floor.is_within(&above));
    Ok(())
}

fn ends_at_zero<Z: Zone>(rt: &impl Abort) -> Result<(), Fail> {
    let positive = below(&Z::whole(1), 0, 1, 0)?;
    assert!(rt; !positive.holds_zero());
    assert!(rt; !positive.is_empty());
    assert!(rt; at_most(&Z::whole(1), 1, 0, 0)?.holds_zero());
    assert!(rt; below(&Z::whole(1), 1, 0, 0)?.is_empty());
    assert!(rt; at_most(&Z::whole(1), 1, 0, -1)?.is_empty());
    assert!(rt; same(&at_most(&Z::whole(1), 0, 1, 5)?, &Z::whole(1)));
    Ok(())
}

#[test]
fn ends_of_difference_zones(rt: HostRuntime) -> Result<(), Fail> {
    ends_that_meet::<DifferenceZone>(&rt)?;
    ends_that_are_strict::<DifferenceZone>(&rt)?;
    ends_at_zero::<DifferenceZone>(&rt)
}

#[test]
fn ends_of_boxes(rt: HostRuntime) -> Result<(), Fail> {
    ends_that_meet::<BoxZone>(&rt)?;
    ends_that_are_strict::<BoxZone>(&rt)?;
    ends_at_zero::<BoxZone>(&rt)
}

fn time_and_zeros<Z: Zone>(rt: &impl Abort) -> Result<(), Fail> {
    let later = origin::<Z>()?.elapse();
    assert!(rt; later.holds_zero());
    assert!(rt; !below(&later, 0, 1, -9_999)?.is_empty());
    let waited = at_most(&later, 0, 1, -2)?;
    assert!(rt; !waited.holds_zero());
    let again = waited.reset(1)?;
    assert!(rt; at_most(&again, 0, 1, -1)?.is_empty());
    assert!(rt; !at_most(&again, 1, 0, 0)?.is_empty());
    assert!(rt; again.clocks() == 2);
    Ok(())
}

#[test]
fn time_and_zeros_of_either_kind(rt: HostRuntime) -> Result<(), Fail> {
    time_and_zeros::<DifferenceZone>(&rt)?;
    time_and_zeros::<BoxZone>(&rt)
}

fn within_other_counts<Z: Zone>(rt: &impl Abort) -> Result<(), Fail> {
    let none = at_most(&Z::whole(2), 1, 0, -1)?;
    assert!(rt; none.is_within(&Z::whole(2)));
    assert!(rt; none.is_within(&none));
    assert!(rt; !Z::whole(2).is_within(&none));
    assert!(rt; !none.is_within(&Z::whole(3)));
    assert!(rt; !Z::whole(2).is_within(&Z::whole(3)));
    assert!(rt; !Z::whole(3).is_within(&Z::whole(2)));
    Ok(())
}

#[test]
fn within_at_other_clock_counts(rt: HostRuntime) -> Result<(), Fail> {
    within_other_counts::<DifferenceZone>(&rt)?;
    within_other_counts::<BoxZone>(&rt)
}

fn empty_stays<Z: Zone>(rt: &impl Abort) -> Result<(), Fail> {
    let none = at_most(&Z::whole(2), 1, 0, -1)?;
    assert!(rt; none.elapse().is_empty());
    assert!(rt; none.reset(1)?.is_empty());
    assert!(rt; at_most(&none, 2, 0, 5)?.is_empty());
    assert_eq!(rt; refusal(none.reset(3)), Some(ZoneFault::OutOfRange));
    assert_eq!(rt;
        refusal(at_most(&none, 3, 0, 5)),
        Some(ZoneFault::OutOfRange)
    );
    Ok(())
}

#[test]
fn an_empty_zone_stays_empty(rt: HostRuntime) -> Result<(), Fail> {
    empty_stays::<DifferenceZone>(&rt)?;
    empty_stays::<BoxZone>(&rt)
}
