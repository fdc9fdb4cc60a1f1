// The difference kind of zones.
ghost use Rattle.std.specs.Prelude.{◌≡◌, ◌≤◌, true, false};
ghost use Rattle.zone.specs.Bounds.{bound_of};
ghost use Rattle.zone.specs.DifferenceCalls.{difference_calls, of_row, granted, constrained};
ghost use Rattle.zone.specs.DifferencePaths.{ClosedByPaths, Tightens};
ghost use Rattle.zone.specs.DifferenceRows.{proper, tightened_row};
ghost use Rattle.zone.specs.Laws.{in_range};
ghost use Rattle.zone.specs.DifferenceLaws.{difference_laws};

use super::row::DifferenceRow;
use super::{DifferenceZone, bounds};
use crate::bound::Bound;
use crate::constraint::Constraint;
use crate::fault::ZoneFault;
use crate::judging::{judge, judge_clock};
use crate::zone::Zone;

impl DifferenceZone {
    fn of(row: DifferenceRow) -> DifferenceZone
        requires { proper row ≡ true }
        ensures { result ≡ of_row row }
    {
        DifferenceZone { row }
    }

    // With the bound of clocks i and j that the constraint sets: empty where it contradicts the bound of j and i.
    #[tactic(auto, using(crate::specs::Zones::row_back, crate::specs::Rows::proper_empty, crate::specs::Rows::proper_countable), unfolding(crate::specs::DifferenceRows::tightened_row, crate::specs::DifferenceRows::tightened_by, crate::specs::DifferenceRows::judged_row, crate::specs::DifferenceRows::grid_row, crate::specs::Grids::entry))]
    fn tightened(&self, constraint: Constraint) -> Result<DifferenceZone, ZoneFault>
        requires { in_range self.now.row.clocks constraint ≡ true }
        ensures { result ≡ granted (tightened_row self.now.row constraint.i constraint.j (bound_of constraint)) }
    {
        if self.row.empty {
            return Ok(*self);
        }
        let i = usize::from(constraint.i);
        let j = usize::from(constraint.j);
        let bound = Bound::from(constraint);
        if !Bound::ZERO.implies(bound.plus(self.row.bounds[7 * j + i])) {
            return Ok(DifferenceZone::of(DifferenceRow::empty(self.row.clocks)));
        }
        let bounds = bounds::tightened(&self.row.bounds, constraint);
        if !bounds::are_narrow(&bounds) {
            return Err(ZoneFault::TooWide);
        }
        Ok(DifferenceZone::of(DifferenceRow {
            clocks: self.row.clocks,
            empty: false,
            bounds,
        }))
    }
}

impl Zone for DifferenceZone {
    type Row = DifferenceRow;

    const DIFFERENCES: bool = true;

    ghost calls = { difference_calls };

    ghost sound = { difference_laws };

    fn holds_differences() -> bool {
        Self::DIFFERENCES
    }

    #[tactic(auto, using(crate::specs::Rows::proper_whole))]
    fn whole(clocks: u8) -> DifferenceZone {
        DifferenceZone::of(DifferenceRow::whole(clocks))
    }

    fn clocks(&self) -> u8 {
        self.row.clocks
    }

    #[tactic(auto, unfolding(crate::specs::DifferenceCalls::constrained))]
    fn constrain(&self, constraint: Constraint) -> Result<DifferenceZone, ZoneFault>
        ensures value { result ≡ constrained self.now constraint }
        ensures paths { in_range self.now.row.clocks constraint ≡ true → self.now.row.empty ≡ false → Tightens self.now constraint result }
    {
        judge(self.row.clocks, Self::DIFFERENCES, constraint)?;
        self.tightened(constraint)
    }

    #[tactic(auto, using(crate::specs::Rows::proper_elapsed))]
    fn elapse(&self) -> DifferenceZone {
        DifferenceZone::of(self.row.elapsed())
    }

    #[tactic(auto, using(crate::specs::Rows::proper_reset, crate::specs::InRange::judged_below), unfolding(crate::specs::DifferenceCalls::reset))]
    fn reset(&self, clock: u8) -> Result<DifferenceZone, ZoneFault> {
        judge_clock(self.row.clocks, clock)?;
        Ok(DifferenceZone::of(self.row.reset(clock)))
    }

    fn is_empty(&self) -> bool {
        self.row.empty
    }

    fn is_within(&self, other: &DifferenceZone) -> bool {
        self.row.is_within(&other.row)
    }

    fn holds_zero(&self) -> bool {
        self.row.holds_zero()
    }

    fn row(&self) -> DifferenceRow
        ensures value { result ≡ self.now.row }
        ensures paths { ClosedByPaths result }
    {
        self.row
    }

    #[tactic(auto, using(crate::specs::Rows::proper_empty, crate::specs::Zones::unproper_void))]
    fn from_row(row: &DifferenceRow) -> DifferenceZone
        ensures value { result ≡ of_row row.now }
        ensures paths { proper row.now ≡ true → ClosedByPaths row.now }
    {
        if row.is_proper() {
            DifferenceZone::of(*row)
        } else {
            DifferenceZone::of(DifferenceRow::empty(1))
        }
    }
}
