// What a book refuses.
ghost use Rattle.std.specs.Prelude.{◌≡◌};
ghost use Rattle.book.specs.Faults.{ground_of, layer_of, place_of, edge_of};

use reader::{Ground, Layer};
use zone::ZoneFault;

#[derive(Clone, Copy, PartialEq, Eq, Debug)]
pub enum BookFault {
    OutOfRange,
    PlaceTaken {
        place: u8,
    },
    PlaceVacant,
    EmptyZone {
        place: u8,
    },
    NotAdmitted {
        place: u8,
    },
    Uncovered {
        place: u8,
        edge: usize,
    },
    MarkedUncovered {
        place: u8,
        edge: usize,
    },
    StartUncovered,
    Unmarked {
        place: u8,
    },
    // A zone's own refusal as an edge is followed.
    Zone {
        fault: ZoneFault,
        place: u8,
        edge: usize,
    },
}

impl BookFault {
    pub fn ground(self) -> Ground
        ensures { result ≡ ground_of self }
    {
        match self {
            BookFault::OutOfRange => Ground::OutOfRange,
            BookFault::PlaceTaken { .. } => Ground::PlaceTaken,
            BookFault::PlaceVacant => Ground::PlaceVacant,
            BookFault::EmptyZone { .. } => Ground::EmptyZone,
            BookFault::NotAdmitted { .. } => Ground::NotAdmitted,
            BookFault::Uncovered { .. } => Ground::Uncovered,
            BookFault::MarkedUncovered { .. } => Ground::MarkedUncovered,
            BookFault::StartUncovered => Ground::StartUncovered,
            BookFault::Unmarked { .. } => Ground::Unmarked,
            BookFault::Zone { fault, .. } => fault.ground(),
        }
    }

    pub fn layer(self) -> Layer
        ensures { result ≡ layer_of self }
    {
        match self {
            BookFault::Zone { .. } => Layer::Zone,
            _ => Layer::Book,
        }
    }

    // The place of the node that the refusal names.
    pub fn place(self) -> Option<u8>
        ensures { result ≡ place_of self }
    {
        match self {
            BookFault::OutOfRange | BookFault::PlaceVacant | BookFault::StartUncovered => None,
            BookFault::PlaceTaken { place }
            | BookFault::EmptyZone { place }
            | BookFault::NotAdmitted { place }
            | BookFault::Uncovered { place, .. }
            | BookFault::MarkedUncovered { place, .. }
            | BookFault::Unmarked { place } => Some(place),
            BookFault::Zone {
                fault: ZoneFault::OutOfRange,
                ..
            } => None,
            BookFault::Zone { place, .. } => Some(place),
        }
    }

    // The edge that the refusal names.
    pub fn edge(self) -> Option<usize>
        ensures { result ≡ edge_of self }
    {
        match self {
            BookFault::Uncovered { edge, .. } | BookFault::MarkedUncovered { edge, .. } => Some(
                edge,
            ),
            BookFault::Zone {
                fault: ZoneFault::OutOfRange,
                ..
            } => None,
            BookFault::Zone { edge, .. } => Some(edge),
            _ => None,
        }
    }
}
