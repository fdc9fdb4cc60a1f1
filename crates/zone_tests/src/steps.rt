// Short forms of the calls that the tests make.
use zone::{Constraint, Zone, ZoneFault};

fn bounded<Z: Zone>(zone: &Z, i: u8, j: u8, strict: bool, constant: i32) -> Result<Z, ZoneFault> {
    zone.constrain(Constraint {
        i,
        j,
        strict,
        constant,
    })
}

// x_i − x_j ≤ constant.
pub(crate) fn at_most<Z: Zone>(zone: &Z, i: u8, j: u8, constant: i32) -> Result<Z, ZoneFault> {
    bounded(zone, i, j, false, constant)
}

// x_i − x_j < constant.
pub(crate) fn below<Z: Zone>(zone: &Z, i: u8, j: u8, constant: i32) -> Result<Z, ZoneFault> {
    bounded(zone, i, j, true, constant)
}

// The zone of two clocks at 0.
pub(crate) fn origin<Z: Zone>() -> Result<Z, ZoneFault> {
    at_most(&at_most(&Z::whole(2), 1, 0, 0)?, 2, 0, 0)
}

pub(crate) fn refusal<Z: Zone>(res: Result<Z, ZoneFault>) -> Option<ZoneFault> {
    res.err()
}

// Whether each zone lies in the other.
pub(crate) fn same<Z: Zone>(a: &Z, b: &Z) -> bool {
    a.is_within(b) && b.is_within(a)
}
