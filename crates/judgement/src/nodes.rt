// The nodes of a certificate, record by record, as they are put in a book's places.
ghost use Rattle.std.specs.Prelude.{◌≡◌, map, None, Ok, Err, cond, nat_le, ◌==◌};
ghost use Rattle.reader.specs.Entries.{entry_of};
ghost use Rattle.sheet.specs.Sheets.{automaton_of};
ghost use Rattle.zone.specs.declared.fault.ZoneFault.TheVariants.{OutOfRange};
ghost use Rattle.judgement.specs.Nodes.{put_latest, with_node, with_bound, advanced, all_advanced, progress, places_by};
ghost use Rattle.reader.specs.Readings.{sited_of};
ghost use Rattle.judgement.specs.Parts.{part_of};

use crate::certifier::Certifier;
use crate::fault::{CheckFault, at};
use book::{BookFault, PLACES, Place, Question};
use reader::{Fields, FileFault, Placed};
use zone::{Constraint, Zone, ZoneFault};

// The latest node, which is put once the record after its bounds has been judged.
#[derive(Clone, Copy)]
pub struct Pending<Z> {
    pub(crate) offset: usize,
    pub(crate) place: u8,
    pub(crate) location: u8,
    pub(crate) number: u16,
    pub(crate) zone: Z,
}

// Whether a bound is strict, by the byte that says so.
fn is_strict(byte: u8) -> Result<bool, ZoneFault>
    ensures { result ≡ cond (nat_le byte 1) (Ok (byte == 1)) (Err OutOfRange) }
{
    match byte {
        0 => Ok(false),
        1 => Ok(true),
        _ => Err(ZoneFault::OutOfRange),
    }
}

// The latest node under a bound, which stands at this offset; a bound before any node is out of place. The fields of a bound stand together here alone.
fn with_bound<Z: Zone>(
    latest: Option<Pending<Z>>,
    offset: usize,
    i: u8,
    j: u8,
    strict: u8,
    constant: i16,
) -> Result<Option<Pending<Z>>, CheckFault>
    ensures { result ≡ with_bound Z.calls latest offset i j strict constant }
{
    let node = latest.ok_or(FileFault::OutOfPlace(offset))?;
    let zone = is_strict(strict)
        .and_then(|strict| node.zone.constrain(Constraint {
            i,
            j,
            strict,
            constant: i32::from(constant),
        }))
        .map_err(|fault| CheckFault::Bound {
            fault,
            offset,
            place: node.place,
        })?;
    Ok(Some(Pending { zone, ..node }))
}

impl<'a, Z: Zone, Q: Question> Certifier<'a, Z, Q> {
    // Puts the latest node, if there is one.
    pub(crate) fn put_latest(
        &self,
        places: &mut [Place<Z::Row>],
        latest: Option<Pending<Z>>,
    ) -> Result<(), CheckFault>
        ensures { places_by result places.new ≡ put_latest Z.calls (Q.asks self.now.book.now.question) (automaton_of self.now.book.now.sheet) (places.old, latest) }
    {
        if let Some(node) = latest {
            at(
                node.offset,
                self.book
                    .put(places, node.place, node.location, node.number, &node.zone),
            )?;
        }
        Ok(())
    }

    // Puts the node before, and begins the one that a record names.
    fn with_node(
        &self,
        places: &mut [Place<Z::Row>],
        latest: Option<Pending<Z>>,
        offset: usize,
        place: u8,
        location: u8,
        number: u16,
    ) -> Result<Option<Pending<Z>>, CheckFault>
        ensures { progress result places.new ≡ with_node Z.calls (Q.asks self.now.book.now.question) (automaton_of self.now.book.now.sheet) (places.old, latest) offset place location number }
    {
        let sheet = self.book.sheet();
        if usize::from(place) >= PLACES || usize::from(location) >= sheet.location_count() {
            return Err(CheckFault::Book {
                fault: BookFault::OutOfRange,
                offset,
            });
        }
        self.put_latest(places, latest)?;
        let zone = Z::whole(sheet.clocks());
        Ok(Some(Pending {
            offset,
            place,
            location,
            number,
            zone,
        }))
    }

    // Takes one record of the certificate, and gives the latest node after it.
    fn advance(
        &self,
        places: &mut [Place<Z::Row>],
        latest: Option<Pending<Z>>,
        placed: &Placed<'_>,
    ) -> Result<Option<Pending<Z>>, CheckFault>
        ensures { progress result places.new ≡ advanced Z.calls (Q.asks self.now.book.now.question) (automaton_of self.now.book.now.sheet) (places.old, latest) placed.now.offset (part_of (entry_of placed.now.«record»)) }
    {
        let offset = placed.offset;
        match placed.record.fields() {
            Fields::Node {
                place,
                location,
                number,
            } => self.with_node(places, latest, offset, place, location, number),
            Fields::Bound {
                i,
                j,
                strict,
                constant,
            } => with_bound(latest, offset, i, j, strict, constant),
            Fields::FileEnd => Ok(latest),
            _ => Err(CheckFault::File(FileFault::OutOfPlace(offset))),
        }
    }

    // Takes the records of the certificate one by one, and gives the last node, which is not put yet. A loop, since of what a closure writes to the places nothing would be known.
    pub(crate) fn take_nodes(
        &self,
        places: &mut [Place<Z::Row>],
    ) -> Result<Option<Pending<Z>>, CheckFault>
        ensures { progress result places.new ≡ all_advanced Z.calls (Q.asks self.now.book.now.question) (automaton_of self.now.book.now.sheet) (places.old, None) (map sited_of self.now.records.now) }
    {
        let mut latest = None;
        for placed in self.records {
            latest = self.advance(places, latest, placed)?;
        }
        Ok(latest)
    }
}
