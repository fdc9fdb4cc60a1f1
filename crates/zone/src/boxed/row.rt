// A box as plain data.
use super::range::Range;

// The range of clock x stands at x − 1.
#[derive(Clone, Copy)]
pub struct BoxRow {
    pub clocks: u8,
    pub ranges: [Range; 6],
}
