// Difference-bound matrices.
ghost use Rattle.std.specs.Prelude.{◌≡◌, true};
ghost use Rattle.zone.specs.DifferenceRows.{proper};

mod bounds;
mod kind;
mod row;
mod rows;

pub use row::DifferenceRow;

// A closed matrix of bounds, or the empty zone of so many clocks.
#[derive(Clone, Copy)]
pub struct DifferenceZone {
    row: DifferenceRow,
    ghost fitting: { proper row ≡ true },
}
