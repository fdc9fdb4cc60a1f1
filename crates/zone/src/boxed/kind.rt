// The box kind of zones.
ghost use Rattle.std.specs.Prelude.{◌≡◌, ℕ, ◌+◌, ◌<◌, true, false};
ghost use Rattle.zone.specs.declared.boxed.range.Range.{Range};
ghost use Rattle.zone.specs.BoxCalls.{Holds, box_calls, of_row};
ghost use Rattle.zone.specs.BoxRows.{range_at, proper, empty_row, changed_row};
ghost use Rattle.zone.specs.Valuations.{Valuation};
ghost use Rattle.zone.specs.BoxLaws.{box_laws};

use super::BoxZone;
use super::range::Range;
use super::row::BoxRow;
use crate::constraint::Constraint;
use crate::fault::ZoneFault;
use crate::judging::{judge, judge_clock};
use crate::zone::Zone;
use std::array;

impl BoxZone {
    fn of(row: BoxRow) -> BoxZone
        requires { proper row ≡ true }
        ensures { result ≡ of_row row }
    {
        BoxZone { row }
    }

    // Each range as the rule makes it of its clock; an empty box stays as it is.
    fn changed<F: Fn(usize, Range) -> Range>(&self, rule: F) -> BoxRow
        requires { (x : ℕ) (g : Range) → x < 7 → F.pre rule x g }
        ensures { (f : ℕ → Range → Range) → ((x : ℕ) (g h : Range) → F.post rule x g h → h ≡ f x g) → result ≡ changed_row f self.now.row }
    {
        if self.is_empty() {
            return self.row;
        }
        let ranges = array::from_fn(
            |k|
                requires { (k < 6) × F.pre rule (k + 1) (range_at self.now.row.ranges k) }
            { rule(k + 1, self.row.ranges[k]) },
        );
        BoxRow { ranges, ..self.row }
    }
}

impl Zone for BoxZone {
    type Row = BoxRow;

    const DIFFERENCES: bool = false;

    ghost calls = { box_calls };

    ghost sound = { box_laws };

    fn holds_differences() -> bool {
        Self::DIFFERENCES
    }

    #[tactic(auto, using(crate::specs::BoxRowsLemmas::proper_whole))]
    fn whole(clocks: u8) -> BoxZone {
        BoxZone::of(BoxRow::whole(clocks))
    }

    fn clocks(&self) -> u8 {
        self.row.clocks
    }

    #[tactic(auto, unfolding(crate::specs::BoxCalls::constrained))]
    fn constrain(&self, constraint: Constraint) -> Result<BoxZone, ZoneFault> {
        judge(self.row.clocks, Self::DIFFERENCES, constraint)?;
        let row = self.changed(|x, range| range.tightened(constraint, x));
        Ok(BoxZone::of(row))
    }

    fn elapse(&self) -> BoxZone {
        BoxZone::of(self.changed(|_, range| range.elapsed()))
    }

    #[tactic(auto, unfolding(crate::specs::BoxCalls::reset))]
    fn reset(&self, clock: u8) -> Result<BoxZone, ZoneFault> {
        judge_clock(self.row.clocks, clock)?;
        let row = self.changed(|x, range| range.reset(clock, x));
        Ok(BoxZone::of(row))
    }

    // A box that is not empty holds some valuation at two ticks to the unit.
    #[tactic(auto, unfolding(crate::specs::BoxRows::empty_row))]
    fn is_empty(&self) -> bool
        ensures value { result ≡ empty_row self.now.row }
        ensures exact { result ≡ false → (v : Valuation) × Holds self.now.row 2 v }
    {
        !self.row.ranges.iter().all(|range| range.is_inhabited())
    }

    #[tactic(auto, unfolding(crate::specs::BoxRows::within_rows))]
    fn is_within(&self, other: &BoxZone) -> bool {
        self.row.clocks == other.row.clocks
            && (self.is_empty()
                || self
                    .row
                    .ranges
                    .iter()
                    .zip(&other.row.ranges)
                    .all(|(range, other)| range.is_within(*other)))
    }

    #[tactic(auto, unfolding(crate::specs::BoxRows::zero_row))]
    fn holds_zero(&self) -> bool {
        self.row.ranges.iter().all(|range| range.has_zero())
    }

    fn row(&self) -> BoxRow {
        self.row
    }

    #[tactic(auto, using(crate::specs::BoxRowsLemmas::proper_void, crate::specs::BoxZones::unproper_void))]
    fn from_row(row: &BoxRow) -> BoxZone {
        if row.is_proper() {
            BoxZone::of(*row)
        } else {
            BoxZone::of(BoxRow::void())
        }
    }
}
