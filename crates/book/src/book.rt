// The book: a sheet, a question and a kind of zone, and the calls that judge a certificate in the caller's places. The clauses name the calls of the kind, what the question asks and the automaton one by one, as the definitions take them.
ghost use Rattle.std.specs.Prelude.{◌≡◌, List, is_ok, IfOk, IfErr, Decides};
ghost use Rattle.sheet.specs.Runs.{AtMostVisits};
ghost use Rattle.sheet.specs.Sheets.{automaton_of};
ghost use Rattle.book.specs.Grants.{Grants, NamesFirst, Concludes, Least};
ghost use Rattle.book.specs.Calls.{told, kept, opened, putting, striking, examined, examining, concluding, played};

use crate::call::Call;
use crate::conclude::first_unmarked;
use crate::fault::BookFault;
use crate::place::Place;
use crate::question::Question;
use crate::row::{clear_all, front, place_at, unlean_all, write_at};
use sheet::Sheet;
use std::marker::PhantomData;
use zone::Zone;

#[derive(Drop)]
pub struct Book<Z: Drop, Q: Drop> {
    pub(crate) sheet: Sheet,
    pub(crate) question: Q,
    kind: PhantomData<Z>,
}

impl<Z: Zone, Q: Question> Book<Z, Q> {
    // A book on a sealed sheet, with every place vacant.
    pub fn open(sheet: Sheet, question: Q, places: &mut [Place<Z::Row>]) -> Book<Z, Q>
        ensures sheet { result.sheet ≡ sheet }
        ensures question { result.question ≡ question }
        ensures places { places.new ≡ opened Z.calls (Q.asks question) (automaton_of sheet) places.old }
    {
        clear_all(places, Place::vacant(Z::whole(sheet.clocks()).row()));
        Book {
            sheet,
            question,
            kind: PhantomData,
        }
    }

    // The sheet that the book judges.
    pub fn sheet(&self) -> &Sheet
        ensures { result.now ≡ self.now.sheet }
    {
        &self.sheet
    }

    // Whether a node may be put in a place.
    fn judge_put(
        &self,
        places: &[Place<Z::Row>],
        place: u8,
        location: u8,
        number: u16,
        zone: &Z,
    ) -> Result<(), BookFault>
        ensures { result ≡ told (putting Z.calls (Q.asks self.now.question) (automaton_of self.now.sheet) places.now place location number zone.now) }
    {
        let old = place_at(places, place)?;
        if usize::from(location) >= self.sheet.location_count()
            || zone.clocks() != self.sheet.clocks()
        {
            return Err(BookFault::OutOfRange);
        }
        if old.standing {
            return Err(BookFault::PlaceTaken { place });
        }
        if zone.is_empty() {
            return Err(BookFault::EmptyZone { place });
        }
        Ok(())
    }

    // Puts a node in a vacant place, without a mark. The node's parts are parameters, since a type for them would be `Call::Put` again.
    pub fn put(
        &self,
        places: &mut [Place<Z::Row>],
        place: u8,
        location: u8,
        number: u16,
        zone: &Z,
    ) -> Result<(), BookFault>
        ensures answer { result ≡ told (putting Z.calls (Q.asks self.now.question) (automaton_of self.now.sheet) places.old place location number zone.now) }
        ensures places { places.new ≡ kept (putting Z.calls (Q.asks self.now.question) (automaton_of self.now.sheet) places.old place location number zone.now) places.old }
    {
        self.judge_put(places, place, location, number, zone)?;
        write_at(places, place, Place::fresh(location, number, zone.row()));
        Ok(())
    }

    // Whether a place may be struck.
    fn judge_strike(&self, places: &[Place<Z::Row>], place: u8) -> Result<(), BookFault>
        ensures { result ≡ told (striking Z.calls (Q.asks self.now.question) (automaton_of self.now.sheet) places.now place) }
    {
        let old = place_at(places, place)?;
        if !old.standing {
            return Err(BookFault::PlaceVacant);
        }
        Ok(())
    }

    // Makes a place vacant, and clears mark and leans of each node that leans on it.
    pub fn strike(&self, places: &mut [Place<Z::Row>], place: u8) -> Result<(), BookFault>
        ensures answer { result ≡ told (striking Z.calls (Q.asks self.now.question) (automaton_of self.now.sheet) places.old place) }
        ensures places { places.new ≡ kept (striking Z.calls (Q.asks self.now.question) (automaton_of self.now.sheet) places.old place) places.old }
    {
        self.judge_strike(places, place)?;
        unlean_all(places, place);
        write_at(
            places,
            place,
            Place::vacant(Z::whole(self.sheet.clocks()).row()),
        );
        Ok(())
    }

    // The node in a place, marked and with what it leans on, if it may be marked.
    fn judge_examine(&self, places: &[Place<Z::Row>], place: u8) -> Result<Place<Z::Row>, BookFault>
        ensures { examined places.now place result ≡ examining Z.calls (Q.asks self.now.question) (automaton_of self.now.sheet) places.now place }
    {
        let node = place_at(places, place)?;
        if !node.standing {
            return Err(BookFault::PlaceVacant);
        }
        if !self
            .question
            .admits(self.sheet.is_accepting(node.location), node.number)
        {
            return Err(BookFault::NotAdmitted { place });
        }
        let leans = self
            .walk(node, front(places))
            .map_err(|stop| stop.at(place, node.marked))?;
        Ok(node.granted(leans))
    }

    // Marks a node whose edges all lead to nothing or to what a place covers, and notes the places that it leans on.
    pub fn examine(&self, places: &mut [Place<Z::Row>], place: u8) -> Result<(), BookFault>
        ensures answer { result ≡ told (examining Z.calls (Q.asks self.now.question) (automaton_of self.now.sheet) places.old place) }
        ensures places { places.new ≡ kept (examining Z.calls (Q.asks self.now.question) (automaton_of self.now.sheet) places.old place) places.old }
        ensures exactly { Decides (is_ok result) (Grants Z.calls (Q.asks self.now.question) (automaton_of self.now.sheet) places.old place) }
        ensures first { IfErr result (NamesFirst Z.calls (Q.asks self.now.question) (automaton_of self.now.sheet) places.old place) }
    {
        self.mark(places, place)
    }

    // Examines without the last two promises, which follow from these.
    fn mark(&self, places: &mut [Place<Z::Row>], place: u8) -> Result<(), BookFault>
        ensures answer { result ≡ told (examining Z.calls (Q.asks self.now.question) (automaton_of self.now.sheet) places.old place) }
        ensures places { places.new ≡ kept (examining Z.calls (Q.asks self.now.question) (automaton_of self.now.sheet) places.old place) places.old }
    {
        let node = self.judge_examine(places, place)?;
        write_at(places, place, node);
        Ok(())
    }

    // The least left of the nodes that cover the start, if there is one and every node is marked. No run has more visits, whatever calls led here from a new book.
    pub fn conclude(&self, places: &[Place<Z::Row>]) -> Result<u64, BookFault>
        ensures answer { result ≡ concluding Z.calls (Q.asks self.now.question) (automaton_of self.now.sheet) places.now }
        ensures bounds { (history : List (Call Z)) (first : List (Place Z.Row)) → places.now ≡ played Z.calls (Q.asks self.now.question) (automaton_of self.now.sheet) history (opened Z.calls (Q.asks self.now.question) (automaton_of self.now.sheet) first) → IfOk result (AtMostVisits (automaton_of self.now.sheet)) }
        ensures exactly { Decides (is_ok result) (Concludes Z.calls (Q.asks self.now.question) (automaton_of self.now.sheet) places.now) }
        ensures least { IfOk result (Least Z.calls (Q.asks self.now.question) (automaton_of self.now.sheet) places.now) }
    {
        self.verdict(places)
    }

    // Concludes without the other promises, which follow from this one.
    fn verdict(&self, places: &[Place<Z::Row>]) -> Result<u64, BookFault>
        ensures { result ≡ concluding Z.calls (Q.asks self.now.question) (automaton_of self.now.sheet) places.now }
    {
        let front = front(places);
        let least = self.least_left(front).ok_or(BookFault::StartUncovered)?;
        match first_unmarked(front) {
            Some(place) => Err(BookFault::Unmarked { place: place as u8 }),
            None => Ok(least),
        }
    }
}
