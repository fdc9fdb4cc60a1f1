// What a book concludes: whether the start is covered, every node marked, and how many visits that leaves.
ghost use Rattle.std.specs.Prelude.{◌≡◌, position};
ghost use Rattle.sheet.specs.Sheets.{automaton_of};
ghost use Rattle.book.specs.Calls.{covers_start, least_left, unmarked};

use crate::book::Book;
use crate::place::Place;
use crate::question::Question;
use zone::Zone;

impl<Z: Zone, Q: Question> Book<Z, Q> {
    // Whether a place stands at the start and its zone has all clocks 0.
    fn covers_start(&self, place: &Place<Z::Row>) -> bool
        ensures { result ≡ covers_start Z.calls (automaton_of self.now.sheet) place.now }
    {
        place.standing
            && place.location == self.sheet.start()
            && Z::from_row(&place.zone).holds_zero()
    }

    // The least left of the places that cover the start.
    pub(crate) fn least_left(&self, places: &[Place<Z::Row>]) -> Option<u64>
        ensures { result ≡ least_left Z.calls (Q.asks self.now.question) (automaton_of self.now.sheet) places.now }
    {
        places
            .iter()
            .filter(|place| self.covers_start(place))
            .map(|place| self.question.left(place.number))
            .reduce(|least, left| left.min(least))
    }
}

// The lowest place that stands without a mark.
pub(crate) fn first_unmarked<R: Copy>(places: &[Place<R>]) -> Option<usize>
    ensures { result ≡ position unmarked places.now }
{
    places.iter().position(|place| place.is_unmarked())
}
