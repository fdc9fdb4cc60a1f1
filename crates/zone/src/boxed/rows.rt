// The rows of boxes.
ghost use Rattle.std.specs.Prelude.{◌≡◌};
ghost use Rattle.zone.specs.BoxRows.{proper, void_row, whole_row};
ghost use Rattle.zone.specs.Ranges.{fits};

use super::range::Range;
use super::row::BoxRow;
use crate::judging::is_countable;

impl BoxRow {
    // One clock, with no time in its range.
    #[tactic(auto, unfolding(crate::specs::BoxRows::void_row, crate::specs::BoxRows::ranges_row))]
    pub(super) fn void() -> BoxRow
        ensures { result ≡ void_row }
    {
        let mut ranges = [Range::WHOLE; 6];
        ranges[0] = Range::NONE;
        BoxRow { clocks: 1, ranges }
    }

    #[tactic(auto, unfolding(crate::specs::BoxRows::whole_row, crate::specs::BoxRows::ranges_row))]
    pub(super) fn whole(clocks: u8) -> BoxRow
        ensures { result ≡ whole_row clocks }
    {
        if !is_countable(clocks) {
            return BoxRow::void();
        }
        BoxRow {
            clocks,
            ranges: [Range::WHOLE; 6],
        }
    }

    // By number, since with `enumerate` the proof did not close.
    pub(super) fn is_proper(&self) -> bool
        ensures { result ≡ proper self.now }
    {
        is_countable(self.clocks) && (0..6).all(|k| self.ranges[k].fits(self.clocks, k))
    }
}
