// What the calls refuse.
use crate::steps::{at_most, origin, refusal, same};
use std::process::Abort;
use std::test::Fail;
use zone::{BoxZone, DifferenceZone, Zone, ZoneFault};

fn constants<Z: Zone>(rt: &impl Abort) {
    let zone = Z::whole(2);
    assert_eq!(rt; refusal(at_most(&zone, 1, 0, 10_000)), None);
    assert_eq!(rt;
        refusal(at_most(&zone, 1, 0, 10_001)),
        Some(ZoneFault::OutOfRange)
    );
    assert_eq!(rt; refusal(at_most(&zone, 0, 1, -10_000)), None);
    assert_eq!(rt;
        refusal(at_most(&zone, 0, 1, -10_001)),
        Some(ZoneFault::OutOfRange)
    );
}

fn clocks<Z: Zone>(rt: &impl Abort) {
    let zone = Z::whole(2);
    assert_eq!(rt;
        refusal(at_most(&zone, 1, 1, 0)),
        Some(ZoneFault::OutOfRange)
    );
    assert_eq!(rt;
        refusal(at_most(&zone, 0, 0, 0)),
        Some(ZoneFault::OutOfRange)
    );
    assert_eq!(rt; refusal(at_most(&zone, 2, 0, 0)), None);
    assert_eq!(rt;
        refusal(at_most(&zone, 3, 0, 0)),
        Some(ZoneFault::OutOfRange)
    );
    assert_eq!(rt;
        refusal(at_most(&zone, 0, 3, 0)),
        Some(ZoneFault::OutOfRange)
    );
}

fn zeros<Z: Zone>(rt: &impl Abort) {
    let zone = Z::whole(2);
    assert_eq!(rt; refusal(zone.reset(0)), Some(ZoneFault::OutOfRange));
    assert_eq!(rt; refusal(zone.reset(1)), None);
    assert_eq!(rt; refusal(zone.reset(2)), None);
    assert_eq!(rt; refusal(zone.reset(3)), Some(ZoneFault::OutOfRange));
}

#[test]
fn ranges_of_difference_zones(rt: HostRuntime) {
    constants::<DifferenceZone>(&rt);
    clocks::<DifferenceZone>(&rt);
    zeros::<DifferenceZone>(&rt);
}

#[test]
fn ranges_of_boxes(rt: HostRuntime) {
    constants::<BoxZone>(&rt);
    clocks::<BoxZone>(&rt);
    zeros::<BoxZone>(&rt);
}

#[test]
fn differences_of_clocks(rt: HostRuntime) -> Result<(), Fail> {
    assert!(rt; DifferenceZone::holds_differences());
    assert!(rt; !BoxZone::holds_differences());
    assert_eq!(rt; refusal(at_most(&DifferenceZone::whole(2), 1, 2, 5)), None);
    assert_eq!(rt;
        refusal(at_most(&BoxZone::whole(2), 1, 2, 5)),
        Some(ZoneFault::NoDifferences)
    );
    assert_eq!(rt;
        refusal(at_most(&BoxZone::whole(2), 1, 2, 10_001)),
        Some(ZoneFault::OutOfRange)
    );
    assert_eq!(rt;
        refusal(at_most(&BoxZone::whole(2), 1, 1, 5)),
        Some(ZoneFault::OutOfRange)
    );
    let none = at_most(&BoxZone::whole(2), 1, 0, -1)?;
    assert_eq!(rt;
        refusal(at_most(&none, 1, 2, 5)),
        Some(ZoneFault::NoDifferences)
    );
    Ok(())
}

// Clock 1 at 10,000 times the turns at least, and clock 2 at 0.
fn driven<Z: Zone>(turns: u8) -> Result<Z, ZoneFault> {
    let mut zone = origin::<Z>()?;
    for _ in 0..turns {
        zone = at_most(&zone.elapse(), 0, 2, -10_000)?.reset(2)?;
    }
    Ok(zone)
}

#[test]
fn a_bound_beyond_a_million(rt: HostRuntime) -> Result<(), Fail> {
    let widest = driven::<DifferenceZone>(100)?;
    assert!(rt; !widest.is_empty());
    let waited = widest.elapse();
    assert_eq!(rt;
        refusal(at_most(&waited, 0, 2, -10_000)),
        Some(ZoneFault::TooWide)
    );
    assert_eq!(rt;
        refusal(at_most(&waited, 0, 2, -1)),
        Some(ZoneFault::TooWide)
    );
    assert!(rt; same(&waited, &widest.elapse()));
    assert_eq!(rt; refusal(at_most(&waited, 0, 2, 0)), None);
    assert_eq!(rt;
        refusal(driven::<DifferenceZone>(101)),
        Some(ZoneFault::TooWide)
    );
    assert_eq!(rt; refusal(driven::<BoxZone>(101)), None);
    Ok(())
}
