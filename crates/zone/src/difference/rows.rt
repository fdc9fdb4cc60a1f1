// The calls of the difference kind on rows.
ghost use Rattle.std.specs.Prelude.{◌≡◌};
ghost use Rattle.zone.specs.DifferenceRows.{proper, empty_row, whole_row, elapsed_row, reset_row, within_rows, zero_row};

use super::bounds;
use super::row::DifferenceRow;
use crate::bound::Bound;
use crate::judging::is_countable;

impl DifferenceRow {
    // The row of the empty zone of so many clocks.
    #[tactic(auto, unfolding(crate::specs::DifferenceRows::empty_row))]
    pub(super) fn empty(clocks: u8) -> DifferenceRow
        ensures { result ≡ empty_row clocks }
    {
        DifferenceRow {
            clocks,
            empty: true,
            bounds: [Bound::Free; 49],
        }
    }

    #[tactic(auto, unfolding(crate::specs::DifferenceRows::whole_row, crate::specs::DifferenceRows::grid_row))]
    pub(super) fn whole(clocks: u8) -> DifferenceRow
        ensures { result ≡ whole_row clocks }
    {
        if !is_countable(clocks) {
            return DifferenceRow::empty(1);
        }
        DifferenceRow {
            clocks,
            empty: false,
            bounds: bounds::whole(clocks),
        }
    }

    // An empty row stays as it is, here and in `reset`: a function that takes the change would need a clause on what it gives.
    #[tactic(auto, unfolding(crate::specs::DifferenceRows::changed_row, crate::specs::DifferenceRows::grid_row))]
    pub(super) fn elapsed(&self) -> DifferenceRow
        ensures { result ≡ elapsed_row self.now }
    {
        if self.empty {
            return *self;
        }
        DifferenceRow {
            clocks: self.clocks,
            empty: false,
            bounds: bounds::elapsed(&self.bounds),
        }
    }

    #[tactic(auto, unfolding(crate::specs::DifferenceRows::changed_row, crate::specs::DifferenceRows::grid_row))]
    pub(super) fn reset(&self, clock: u8) -> DifferenceRow
        ensures { result ≡ reset_row self.now clock }
    {
        if self.empty {
            return *self;
        }
        DifferenceRow {
            clocks: self.clocks,
            empty: false,
            bounds: bounds::reset(&self.bounds, clock),
        }
    }

    #[tactic(auto, unfolding(crate::specs::DifferenceRows::proper))]
    pub(super) fn is_proper(&self) -> bool
        ensures { result ≡ proper self.now }
    {
        is_countable(self.clocks)
            && if self.empty {
                bounds::is_blank(&self.bounds)
            } else {
                bounds::are_closed(self.clocks, &self.bounds)
            }
    }

    #[tactic(auto, unfolding(crate::specs::DifferenceRows::within_rows))]
    pub(super) fn is_within(&self, other: &DifferenceRow) -> bool
        ensures { result ≡ within_rows self.now other.now }
    {
        self.clocks == other.clocks
            && (self.empty || !other.empty && bounds::imply(&self.bounds, &other.bounds))
    }

    #[tactic(auto, unfolding(crate::specs::DifferenceRows::zero_row))]
    pub(super) fn holds_zero(&self) -> bool
        ensures { result ≡ zero_row self.now }
    {
        !self.empty && bounds::hold_zero(&self.bounds)
    }
}
