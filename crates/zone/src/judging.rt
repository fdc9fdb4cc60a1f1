// How a number of clocks, a clock and a constraint are judged before a zone is made or changed.
ghost use Rattle.std.specs.Prelude.{◌≡◌};
ghost use Rattle.zone.specs.Judging.{judged, judged_clock};
ghost use Rattle.zone.specs.Laws.{countable, in_range, difference};

use crate::constraint::Constraint;
use crate::fault::ZoneFault;

// A number of clocks that a zone can have.
pub(crate) fn is_countable(clocks: u8) -> bool
    ensures { result ≡ countable clocks }
{
    (1..=6).contains(&clocks)
}

// One of the clocks 1 to n.
pub(crate) fn judge_clock(clocks: u8, clock: u8) -> Result<(), ZoneFault>
    ensures { result ≡ judged_clock clocks clock }
{
    if (1..=clocks).contains(&clock) {
        Ok(())
    } else {
        Err(ZoneFault::OutOfRange)
    }
}

impl Constraint {
    // Two different clocks of 0 to n, and a constant of at most 10,000 either way.
    fn is_in_range(self, clocks: u8) -> bool
        ensures { result ≡ in_range clocks self }
    {
        self.i != self.j
            && self.i <= clocks
            && self.j <= clocks
            && self.constant.unsigned_abs() <= 10_000
    }

    // Both clocks are above 0.
    fn is_difference(self) -> bool
        ensures { result ≡ difference self }
    {
        self.i > 0 && self.j > 0
    }
}

pub(crate) fn judge(clocks: u8, differences: bool, constraint: Constraint) -> Result<(), ZoneFault>
    ensures { result ≡ judged clocks differences constraint }
{
    if !constraint.is_in_range(clocks) {
        return Err(ZoneFault::OutOfRange);
    }
    if !differences && constraint.is_difference() {
        return Err(ZoneFault::NoDifferences);
    }
    Ok(())
}
