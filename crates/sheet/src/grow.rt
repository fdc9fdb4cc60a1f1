// The growing lists of a draft: locations, resets, limits and guards.
ghost use Rattle.std.specs.Prelude.{◌≡◌, List, map, replicate, is_ok, IfOk, if◌then◌else◌};
ghost use Rattle.sheet.specs.Fields.{clocks_named};
ghost use Rattle.sheet.specs.Parts.{accepted, limited, with_location, guarded};
ghost use Rattle.sheet.specs.Sheets.{plain, location_of, edge_of};

use crate::atom::Atom;
use crate::edge::Edge;
use crate::sheet::Location;
use std::alloc::{AllocError, AllocFailed, Global};

// So many locations, without limits and not accepting.
pub(crate) fn plain_locations(heap: Global, count: u8) -> Result<Vec<Location>, AllocError>
    ensures { IfOk result (λ v. map location_of v.items ≡ replicate count plain) }
{
    (0..count).map(|_| Location::plain(heap)).collect(heap)
}

// The clocks that the bits of a byte stand for, in ascending order.
pub(crate) fn named_clocks(heap: Global, byte: u8) -> Result<Vec<u8>, AllocError>
    ensures { IfOk result (λ v. v.items ≡ clocks_named byte) }
{
    (1..9)
        .filter(|clock| (byte >> (clock - 1)) % 2 == 1)
        .collect(heap)
}

// Makes a location accepting.
pub(crate) fn accept(locations: &mut Vec<Location>, number: u8)
    ensures { map location_of locations.new.items ≡ with_location accepted (map location_of locations.old.items) number }
{
    if let Some(location) = locations.get_mut(usize::from(number)) {
        location.accepting = true;
    }
}

// Adds an atom to the limit of a location.
pub(crate) fn push_limit(
    locations: &mut Vec<Location>,
    number: u8,
    atom: Atom,
) -> Result<(), AllocFailed<Atom>>
    ensures { map location_of locations.new.items ≡ (if is_ok result then with_location (limited atom) (map location_of locations.old.items) number else map location_of locations.old.items) }
{
    let Some(location) = locations.get_mut(usize::from(number)) else {
        return Ok(());
    };
    location.limit.push(atom)
}

// Adds an atom to the guard of the last edge.
pub(crate) fn push_guard(edges: &mut Vec<Edge>, atom: Atom) -> Result<(), AllocFailed<Atom>>
    ensures { map edge_of edges.new.items ≡ (if is_ok result then guarded atom (map edge_of edges.old.items) else map edge_of edges.old.items) }
{
    let Some(edge) = edges.last_mut() else {
        return Ok(());
    };
    edge.guard.push(atom)
}
