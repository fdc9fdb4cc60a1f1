// A bound on the difference of two clocks.

// x_i − x_j ≤ constant, or < where it is strict; x_0 is always 0.
#[derive(Clone, Copy, PartialEq, Eq, Debug)]
pub struct Constraint {
    pub i: u8,
    pub j: u8,
    pub strict: bool,
    pub constant: i32,
}
