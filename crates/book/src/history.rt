// A list of calls on a new book, and what it concludes.
ghost use Rattle.std.specs.Prelude.{◌≡◌, IfOk};
ghost use Rattle.sheet.specs.Runs.{AtMostVisits};
ghost use Rattle.sheet.specs.Sheets.{automaton_of};
ghost use Rattle.book.specs.Calls.{opened, done, played, concluding};

use crate::book::Book;
use crate::call::Call;
use crate::fault::BookFault;
use crate::place::Place;
use crate::question::Question;
use sheet::Sheet;
use zone::Zone;

impl<Z: Zone, Q: Question> Book<Z, Q> {
    // Makes one call, whatever it answers.
    pub fn perform(&self, places: &mut [Place<Z::Row>], call: &Call<Z>)
        ensures { places.new ≡ done Z.calls (Q.asks self.now.question) (automaton_of self.now.sheet) call.now places.old }
    {
        let _ = match call {
            Call::Put {
                place,
                location,
                number,
                zone,
            } => self.put(places, *place, *location, *number, zone),
            Call::Strike { place } => self.strike(places, *place),
            Call::Examine { place } => self.examine(places, *place),
            Call::Conclude => self.conclude(places).map(|_| ()),
        };
    }
}

// Opens a book, makes the calls in their order, and concludes. No run of the sheet has more visits than the number that it gives.
pub fn play<Z: Zone, Q: Question>(
    sheet: Sheet,
    question: Q,
    places: &mut [Place<Z::Row>],
    calls: &[Call<Z>],
) -> Result<u64, BookFault>
    ensures answer { result ≡ concluding Z.calls (Q.asks question) (automaton_of sheet) (played Z.calls (Q.asks question) (automaton_of sheet) calls.now (opened Z.calls (Q.asks question) (automaton_of sheet) places.old)) }
    ensures places { places.new ≡ played Z.calls (Q.asks question) (automaton_of sheet) calls.now (opened Z.calls (Q.asks question) (automaton_of sheet) places.old) }
    ensures bounds { IfOk result (AtMostVisits (automaton_of sheet)) }
{
    let book = Book::<Z, Q>::open(sheet, question, places);
    for call in calls {
        book.perform(places, call);
    }
    book.conclude(places)
}
