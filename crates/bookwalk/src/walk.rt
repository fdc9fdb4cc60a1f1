// A book with its places, whose calls print what they answer.
ghost use Rattle.std.specs.Prelude.{◌≡◌, true, false, ◌&&◌, IfOk, MatchOption, slice_get, slice_index_or};
ghost use Rattle.book.specs.Marks.{none};
ghost use Rattle.bookwalk.specs.Walks.{at_zero, IsAtZero, stands, each_place};

use crate::shown::{Numbers, Refusal};
use book::{Book, Emptiness, PLACES, Place};
use sheet::Sheet;
use std::alloc::{AllocError, Global};
use std::{array, io};
use zone::{Constraint, DifferenceRow, DifferenceZone, Zone, ZoneFault};

// The zone of one clock at 0.
pub(crate) fn at_zero() -> Result<DifferenceZone, ZoneFault>
    ensures value { result ≡ at_zero }
    ensures meaning { IfOk result IsAtZero }
{
    DifferenceZone::whole(1).constrain(Constraint {
        i: 1,
        j: 0,
        strict: false,
        constant: 0,
    })
}

// Whether a node stands in this place, with or without its mark.
fn stands(places: &[Place<DifferenceRow>], place: usize, marked: bool) -> bool
    ensures { result ≡ stands places.now place marked }
{
    places
        .get(place)
        .is_some_and(|node| node.standing && node.marked == marked)
}

// Which places stand with a mark.
fn marks(places: &[Place<DifferenceRow>]) -> [bool; PLACES]
    ensures { result ≡ each_place (λ i. stands places.now i true) }
{
    array::from_fn(|i| stands(places, i, true))
}

// Which of these places stand without a mark.
fn cleared(marked: [bool; PLACES], places: &[Place<DifferenceRow>]) -> Numbers
    ensures { result.0 ≡ each_place (λ i. slice_index_or marked i false && stands places.now i false) }
{
    Numbers(array::from_fn(|i| marked[i] && stands(places, i, false)))
}

#[derive(Drop)]
pub struct Walk {
    book: Book<DifferenceZone, Emptiness>,
    places: Vec<Place<DifferenceRow>>,
}

impl Walk {
    // A new book on this sheet.
    pub(crate) fn open(heap: Global, sheet: Sheet) -> Result<Walk, AllocError> {
        let vacant = Place::vacant(DifferenceZone::whole(1).row());
        let mut places = vec![in heap; vacant; PLACES]?;
        let book = Book::<DifferenceZone, Emptiness>::open(sheet, Emptiness, places.as_mut_slice());
        Ok(Walk { book, places })
    }

    pub(crate) fn put(
        &mut self,
        rt: &HostRuntime,
        place: u8,
        location: u8,
        number: u16,
        zone: &DifferenceZone,
    ) -> io::Result<()> {
        print!(rt; "put place={place} location={location} number={number}: ")?;
        match self
            .book
            .put(self.places.as_mut_slice(), place, location, number, zone)
        {
            Ok(()) => println!(rt; "done"),
            Err(fault) => rt.println(Refusal::from(fault)),
        }
    }

    // Strikes a place, and names the nodes that lose their mark.
    pub(crate) fn strike(&mut self, rt: &HostRuntime, place: u8) -> io::Result<()> {
        print!(rt; "strike place={place}: ")?;
        let before = marks(self.places.as_slice());
        match self.book.strike(self.places.as_mut_slice(), place) {
            Ok(()) => {
                let cleared = cleared(before, self.places.as_slice());
                println!(rt; "marks cleared{cleared}")
            }
            Err(fault) => rt.println(Refusal::from(fault)),
        }
    }

    // Examines a place, and names the places that its node leans on.
    pub(crate) fn examine(&mut self, rt: &HostRuntime, place: u8) -> io::Result<()> {
        print!(rt; "examine place={place}: ")?;
        match self.book.examine(self.places.as_mut_slice(), place) {
            Ok(()) => {
                let leans = self.leans(place);
                println!(rt; "leans on{leans}")
            }
            Err(fault) => rt.println(Refusal::from(fault)),
        }
    }

    fn leans(&self, place: u8) -> Numbers
        ensures { MatchOption (slice_get self.now.places.items place) (result.0 ≡ none) (λ p. result.0 ≡ p.leans) }
    {
        // No `map_or`: of a closure that copies an array out of a reference the check infers no result.
        let Some(node) = self.places.get(usize::from(place)) else {
            return Numbers([false; PLACES]);
        };
        Numbers(node.leans)
    }

    pub(crate) fn conclude(&self, rt: &HostRuntime) -> io::Result<()> {
        print!(rt; "conclude: ")?;
        match self.book.conclude(self.places.as_slice()) {
            Ok(visits) => println!(rt; "STANDS {visits}"),
            Err(fault) => rt.println(Refusal::from(fault)),
        }
    }
}
