// Boxes: a range for each clock.
ghost use Rattle.std.specs.Prelude.{◌≡◌, true};
ghost use Rattle.zone.specs.BoxRows.{proper};

mod kind;
mod range;
mod row;
mod rows;

pub use range::Range;
pub use row::BoxRow;

// A lower and an upper bound for each clock. A type beside `DifferenceZone`, since a generic one over checked rows would need a trait of rows as long as the lines that the two share.
#[derive(Clone, Copy)]
pub struct BoxZone {
    row: BoxRow,
    ghost fitting: { proper row ≡ true },
}
