// A difference zone as plain data.
use crate::bound::Bound;

// Entry (i, j), the bound of x_i − x_j, stands at 7 · i + j. An empty row means no valuation, and each of its bounds is free. The mark stands beside the bounds, not in their place: a caller may hand over a row that is marked empty and has bounds all the same, and that is the row of no zone.
#[derive(Clone, Copy)]
pub struct DifferenceRow {
    pub clocks: u8,
    pub empty: bool,
    pub bounds: [Bound; 49],
}
