// The interface of a zone kind: its calls, what a zone means, and the laws that tie the two.
ghost use Rattle.std.specs.Prelude.{◌≡◌};
ghost use Rattle.zone.specs.Calls.{Calls};
ghost use Rattle.zone.specs.Laws.{Laws};

use crate::constraint::Constraint;
use crate::fault::ZoneFault;

pub trait Zone: Copy {
    // The zone as plain data, so that it can lie in a caller's memory.
    type Row: Copy;

    // Whether the kind holds bounds on the difference of two clocks.
    const DIFFERENCES: bool;

    ghost calls: { Calls Self Self.Row };

    // The constant, as a call of each kind. Not provided over a law of the constant: each kind would owe that law besides.
    fn holds_differences() -> bool
        ensures { result ≡ calls.differences };

    // Every valuation of so many clocks.
    fn whole(clocks: u8) -> Self
        ensures { result ≡ calls.whole clocks };

    fn clocks(&self) -> u8
        ensures { result ≡ calls.clocks self.now };

    // The valuations that meet the constraint.
    fn constrain(&self, constraint: Constraint) -> Result<Self, ZoneFault>
        ensures { result ≡ calls.constrained self.now constraint };

    // The valuations after any wait.
    fn elapse(&self) -> Self
        ensures { result ≡ calls.elapsed self.now };

    // The valuations with one clock set to zero.
    fn reset(&self, clock: u8) -> Result<Self, ZoneFault>
        ensures { result ≡ calls.reset self.now clock };

    fn is_empty(&self) -> bool
        ensures { result ≡ calls.empty self.now };

    fn is_within(&self, other: &Self) -> bool
        ensures { result ≡ calls.within self.now other.now };

    // Whether the valuation with every clock at 0 lies in the zone.
    fn holds_zero(&self) -> bool
        ensures { result ≡ calls.holds_zero self.now };

    fn row(&self) -> Self::Row
        ensures { result ≡ calls.row self.now };

    // The zone of a row, after a check; the empty zone of one clock where the row is that of no zone.
    fn from_row(row: &Self::Row) -> Self
        ensures { result ≡ calls.of_row row.now };

    ghost sound: { Laws calls };
}
