// Bounds on the difference of two clocks: their order and their sum.
ghost use Rattle.std.specs.Prelude.{◌≡◌, ◌≤◌, nat_le};
ghost use Rattle.zone.specs.Bounds.{implies, tighter as tighter_of, plus as plus_of, size, bound_of};

use crate::constraint::Constraint;

// x − y is free, at most a constant, or below it.
#[derive(Clone, Copy, PartialEq, Eq, Debug)]
pub enum Bound {
    Free,
    AtMost(i32),
    Below(i32),
}

impl Bound {
    pub(crate) const ZERO: Bound = Bound::AtMost(0);

    // Whether this bound is at least as tight as the other.
    // Not `Ord`: its impls with their laws would be longer than this match, and less would mean tighter.
    pub(crate) fn implies(self, other: Bound) -> bool
        ensures { result ≡ implies self other }
    {
        match (self, other) {
            (_, Bound::Free) => true,
            (Bound::Free, _) => false,
            (Bound::AtMost(c), Bound::Below(d)) => c < d,
            (Bound::AtMost(c), Bound::AtMost(d)) => c <= d,
            (Bound::Below(c), Bound::AtMost(d)) => c <= d,
            (Bound::Below(c), Bound::Below(d)) => c <= d,
        }
    }

    // The tighter of the two; not `min`, which `Ord` would bring.
    pub(crate) fn tighter(self, other: Bound) -> Bound
        ensures { result ≡ tighter_of self other }
    {
        if self.implies(other) { self } else { other }
    }

    // The bound of x − z from those of x − y and y − z.
    pub(crate) fn plus(self, other: Bound) -> Bound
        requires { (size self ≤ 1000000000) × (size other ≤ 1000000000) }
        ensures { result ≡ plus_of self other }
    {
        match (self, other) {
            (Bound::Free, _) | (_, Bound::Free) => Bound::Free,
            (Bound::AtMost(c), Bound::AtMost(d)) => Bound::AtMost(c + d),
            (Bound::AtMost(c), Bound::Below(d)) => Bound::Below(c + d),
            (Bound::Below(c), Bound::AtMost(d)) => Bound::Below(c + d),
            (Bound::Below(c), Bound::Below(d)) => Bound::Below(c + d),
        }
    }

    // Whether the constant lies within the limit either way.
    pub(crate) fn is_within(self, limit: u32) -> bool
        ensures { result ≡ nat_le (size self) limit }
    {
        match self {
            Bound::Free => true,
            // One arm for both variants gets no proof.
            Bound::AtMost(c) => c.unsigned_abs() <= limit,
            Bound::Below(c) => c.unsigned_abs() <= limit,
        }
    }
}

// The bound that a constraint sets.
impl From<Constraint> for Bound {
    ghost from_gives = { λ c b. b ≡ bound_of c };

    fn from(constraint: Constraint) -> Bound {
        if constraint.strict {
            Bound::Below(constraint.constant)
        } else {
            Bound::AtMost(constraint.constant)
        }
    }
}
