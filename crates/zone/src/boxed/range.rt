// The range of one clock.
ghost use Rattle.std.specs.Prelude.{◌≡◌, ◌≤◌};
ghost use Rattle.zone.specs.Bounds.{size, bound_of};
ghost use Rattle.zone.specs.Ranges.{inhabited, contains, has_zero, fits, elapsed as elapsed_of, tightened as tightened_of, reset as reset_of};

use crate::bound::Bound;
use crate::constraint::Constraint;

// No constant of a range is further from 0.
const LIMIT: u32 = 10_000;

// `lower` is the bound of 0 − x, and `upper` that of x − 0.
#[derive(Clone, Copy, PartialEq, Eq)]
pub struct Range {
    pub lower: Bound,
    pub upper: Bound,
}

impl Range {
    // 0 and above.
    pub(super) const WHOLE: Range = Range {
        lower: Bound::AtMost(0),
        upper: Bound::Free,
    };

    // 0 alone.
    pub(super) const ZERO: Range = Range {
        lower: Bound::AtMost(0),
        upper: Bound::AtMost(0),
    };

    // Below 0.
    pub(super) const NONE: Range = Range {
        lower: Bound::AtMost(0),
        upper: Bound::Below(0),
    };

    // Whether some time lies in the range.
    pub(super) fn is_inhabited(self) -> bool
        requires { (size self.lower ≤ 10000) × (size self.upper ≤ 10000) }
        ensures { result ≡ inhabited self }
    {
        Bound::ZERO.implies(self.lower.plus(self.upper))
    }

    pub(super) fn is_within(self, other: Range) -> bool
        ensures { result ≡ contains other self }
    {
        self.lower.implies(other.lower) && self.upper.implies(other.upper)
    }

    pub(super) fn has_zero(self) -> bool
        ensures { result ≡ has_zero self }
    {
        Bound::ZERO.implies(self.lower) && Bound::ZERO.implies(self.upper)
    }

    // Whether a box of so many clocks can have this range at place k.
    pub(super) fn fits(self, clocks: u8, k: usize) -> bool
        ensures { result ≡ fits clocks k self }
    {
        if k < usize::from(clocks) {
            self.lower.implies(Bound::ZERO)
                && self.lower.is_within(LIMIT)
                && self.upper.is_within(LIMIT)
        } else {
            self == Range::WHOLE
        }
    }

    pub(super) fn elapsed(self) -> Range
        ensures { result ≡ elapsed_of self }
    {
        Range {
            upper: Bound::Free,
            ..self
        }
    }

    // The range of clock x, after a clock is set to zero.
    pub(super) fn reset(self, clock: u8, x: usize) -> Range
        ensures { result ≡ reset_of clock x self }
    {
        if usize::from(clock) == x {
            Range::ZERO
        } else {
            self
        }
    }

    // The range of clock x, under a constraint with clock 0.
    pub(super) fn tightened(self, constraint: Constraint, x: usize) -> Range
        ensures { result ≡ tightened_of constraint.i constraint.j (bound_of constraint) x self }
    {
        let bound = Bound::from(constraint);
        let lower = if usize::from(constraint.j) == x {
            self.lower.tighter(bound)
        } else {
            self.lower
        };
        let upper = if usize::from(constraint.i) == x {
            self.upper.tighter(bound)
        } else {
            self.upper
        };
        Range { lower, upper }
    }
}
