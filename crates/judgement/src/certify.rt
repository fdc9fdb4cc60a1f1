// The judgement of a certificate in a book on 64 places of its own.
ghost use Rattle.std.specs.Prelude.{◌≡◌, map, option_copied, IfOk, Ok};
ghost use Rattle.std.specs.List.{find, range_with_len};
ghost use Rattle.reader.specs.Entries.{entry_of};
ghost use Rattle.reader.specs.Readings.{sited_of};
ghost use Rattle.sheet.specs.Runs.{AtMostVisits};
ghost use Rattle.sheet.specs.Sheets.{automaton_of};
ghost use Rattle.zone.specs.BoxCalls.{box_calls};
ghost use Rattle.zone.specs.DifferenceCalls.{difference_calls};
ghost use Rattle.book.specs.Calls.{opened, concluding};
ghost use Rattle.book.specs.Faults.{place_of};
ghost use Rattle.judgement.specs.Certifying.{node_offset, last_offset, offset_by, concluded, names_place, stands, examined_at, all_examined, certifying_from, certifying};
ghost use Rattle.judgement.specs.Nodes.{places_by};
ghost use Rattle.judgement.specs.declared.fault.CheckFault.TheVariants.{Book as book_fault};
ghost use Rattle.judgement.specs.Parts.{part_of};

use crate::certifier::Certifier;
use crate::fault::{CheckFault, at};
use crate::rest::Rest;
use book::{Book, BookFault, PLACES, Place, Question};
use reader::{Fields, FileFault, Placed};
use sheet::Sheet;
use zone::{BoxZone, DifferenceZone, Zone};

// The node record that names a place.
fn node_of<'r, 'a>(records: &'r [Placed<'a>], place: u8) -> Option<&'r Placed<'a>>
    ensures { option_copied result ≡ find (λ p. names_place place (part_of (entry_of p.«record»))) records.now }
{
    records.iter().find(|placed| names_place(placed, place))
}

// The offset of the node record that names a place.
fn node_offset(records: &[Placed<'_>], place: u8) -> usize
    ensures { result ≡ node_offset (map sited_of records.now) place }
{
    node_of(records, place).map_or(0, |placed| placed.offset)
}

// Whether a record is the node of a place.
fn names_place(placed: &Placed<'_>, sought: u8) -> bool
    ensures { result ≡ names_place sought (part_of (entry_of placed.now.«record»)) }
{
    matches!(placed.record.fields(), Fields::Node { place, .. } if place == sought)
}

// The offset of the last record, which is the file end.
fn last_offset(records: &[Placed<'_>]) -> usize
    ensures { result ≡ last_offset (map sited_of records.now) }
{
    records.last().map_or(0, |placed| placed.offset)
}

fn stands<R: Copy>(places: &[Place<R>], place: u8) -> bool
    ensures { result ≡ stands places.now place }
{
    places
        .get(usize::from(place))
        .is_some_and(|found| found.standing)
}

impl<'a, Z: Zone, Q: Question> Certifier<'a, Z, Q> {
    // Examines the node in a place, if one stands there.
    fn examine_at(&self, places: &mut [Place<Z::Row>], place: u8) -> Result<(), CheckFault>
        ensures { places_by result places.new ≡ examined_at Z.calls (Q.asks self.now.book.now.question) (automaton_of self.now.book.now.sheet) (map sited_of self.now.records.now) places.old place }
    {
        if stands(places, place) {
            at(
                node_offset(self.records, place),
                self.book.examine(places, place),
            )?;
        }
        Ok(())
    }

    // Examines every node, upward by place.
    fn examine_all(&self, places: &mut [Place<Z::Row>]) -> Result<(), CheckFault>
        ensures { places_by result places.new ≡ all_examined Z.calls (Q.asks self.now.book.now.question) (automaton_of self.now.book.now.sheet) (map sited_of self.now.records.now) places.old (range_with_len 0 64) }
    {
        // A loop: of what a closure writes to the places that it borrows, nothing would be known.
        for place in 0..PLACES as u8 {
            self.examine_at(places, place)?;
        }
        Ok(())
    }

    // A fault of the conclusion where it is: at the node that it names, or at the file end.
    fn concluding_fault(&self, fault: BookFault) -> CheckFault
        ensures { result ≡ book_fault fault (offset_by (map sited_of self.now.records.now) (place_of fault)) }
    {
        let offset = match fault.place() {
            Some(place) => node_offset(self.records, place),
            None => last_offset(self.records),
        };
        CheckFault::Book { fault, offset }
    }

    // What the book concludes, with the offset of a fault.
    fn conclude(&self, places: &[Place<Z::Row>]) -> Result<u64, CheckFault>
        ensures { result ≡ concluded (map sited_of self.now.records.now) (concluding Z.calls (Q.asks self.now.book.now.question) (automaton_of self.now.book.now.sheet) places.now) }
    {
        // A match, since with `map_err` the proof did not close.
        match self.book.conclude(places) {
            Ok(visits) => Ok(visits),
            Err(fault) => Err(self.concluding_fault(fault)),
        }
    }

    // Puts the nodes of the records, examines them upward and concludes.
    fn certify(
        &self,
        places: &mut [Place<Z::Row>],
        ending: Result<(), FileFault>,
    ) -> Result<u64, CheckFault>
        ensures { result ≡ certifying_from Z.calls (Q.asks self.now.book.now.question) (automaton_of self.now.book.now.sheet) places.old (map sited_of self.now.records.now) ending }
    {
        let latest = self.take_nodes(places)?;
        ending?;
        self.put_latest(places, latest)?;
        self.examine_all(places)?;
        self.conclude(places)
    }
}

// What a new book on these places concludes from the records of a certificate. No run of the sheet has more visits.
fn certify<Z: Zone, Q: Question>(
    sheet: Sheet,
    question: Q,
    places: &mut [Place<Z::Row>],
    nodes: &Rest<'_>,
) -> Result<u64, CheckFault>
    ensures value { result ≡ certifying_from Z.calls (Q.asks question) (automaton_of sheet) (opened Z.calls (Q.asks question) (automaton_of sheet) places.old) (map sited_of nodes.now.records.now) nodes.now.ending }
    ensures bounds { IfOk result (λ n. (nodes.now.ending ≡ Ok tt) × AtMostVisits (automaton_of sheet) n) }
{
    let book = Book::<Z, Q>::open(sheet, question, places);
    let certifier = Certifier {
        book: &book,
        records: nodes.records,
    };
    certifier.certify(places, nodes.ending)
}

// The two functions that follow are one but for the kind of zone. They stay two, since an array of 64 rows is proved to fit into memory only where the size of a row is known.

// The judgement of a certificate over difference-bound matrices.
pub(crate) fn certify_differences<Q: Question>(
    sheet: Sheet,
    question: Q,
    nodes: &Rest<'_>,
) -> Result<u64, CheckFault>
    ensures value { result ≡ certifying difference_calls (Q.asks question) (automaton_of sheet) (map sited_of nodes.now.records.now) nodes.now.ending }
    ensures bounds { IfOk result (λ n. (nodes.now.ending ≡ Ok tt) × AtMostVisits (automaton_of sheet) n) }
{
    let vacant = Place::vacant(DifferenceZone::whole(sheet.clocks()).row());
    let mut places = [vacant; PLACES];
    certify::<DifferenceZone, Q>(sheet, question, &mut places, nodes)
}

// The judgement of a certificate over boxes.
pub(crate) fn certify_boxes<Q: Question>(
    sheet: Sheet,
    question: Q,
    nodes: &Rest<'_>,
) -> Result<u64, CheckFault>
    ensures value { result ≡ certifying box_calls (Q.asks question) (automaton_of sheet) (map sited_of nodes.now.records.now) nodes.now.ending }
    ensures bounds { IfOk result (λ n. (nodes.now.ending ≡ Ok tt) × AtMostVisits (automaton_of sheet) n) }
{
    let vacant = Place::vacant(BoxZone::whole(sheet.clocks()).row());
    let mut places = [vacant; PLACES];
    certify::<BoxZone, Q>(sheet, question, &mut places, nodes)
}
