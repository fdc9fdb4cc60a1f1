// Reading and writing places, whatever the kind of zone.
ghost use Rattle.std.specs.Prelude.{◌≡◌, ◌<◌, ◌≤◌, ◌++◌, map, length, take, drop, MatchResult, slice_index_or, slice_set};
ghost use Rattle.book.specs.declared.fault.BookFault.TheVariants.{OutOfRange};
ghost use Rattle.book.specs.Marks.{IsPlace, unleaned};

use crate::fault::BookFault;
use crate::place::{PLACES, Place};

// The places that a book has: the first 64.
pub(crate) fn front<R: Copy>(places: &[Place<R>]) -> &[Place<R>]
    ensures first { result.now ≡ take 64 places.now }
    ensures few { length result.now ≤ 64 }
{
    &places[..PLACES.min(places.len())]
}

// The place with this number, if there is one among the first 64. Lent: a copy would cost more than the examine of a node without edges.
pub(crate) fn place_at<R: Copy>(places: &[Place<R>], i: u8) -> Result<&Place<R>, BookFault>
    ensures { MatchResult result (λ p. IsPlace places.now i p.now) (λ e. (length (take 64 places.now) ≤ i) × (e ≡ OutOfRange)) }
{
    front(places)
        .get(usize::from(i))
        .ok_or(BookFault::OutOfRange)
}

// Writes one place.
pub(crate) fn write_at<R: Copy>(places: &mut [Place<R>], i: u8, place: Place<R>)
    requires { i < length places.old }
    ensures { places.new ≡ slice_set places.old i place }
{
    places[usize::from(i)] = place;
}

// Makes the first 64 places vacant. A loop, since `fill` asks that a clone of a row cannot fail.
pub(crate) fn clear_all<R: Copy>(places: &mut [Place<R>], vacant: Place<R>)
    ensures { places.new ≡ map (λ p. vacant) (take 64 places.old) ++ drop 64 places.old }
{
    let front = PLACES.min(places.len());
    for place in places[..front].iter_mut() {
        *place = vacant;
    }
}

// Clears mark and leans of each of the first 64 that leans on place i. Beside `clear_all` and not one with it: a function that takes the rule would need a clause on what the rule gives.
pub(crate) fn unlean_all<R: Copy>(places: &mut [Place<R>], i: u8)
    requires { i < 64 }
    ensures { places.new ≡ map (unleaned i) (take 64 places.old) ++ drop 64 places.old }
{
    let front = PLACES.min(places.len());
    for place in places[..front].iter_mut() {
        *place = place.unleaned(i);
    }
}
