// Refusals and lists of places, as text.
use book::{BookFault, PLACES};
use reader::{Ground, Layer};
use sheet::SheetFault;
use std::alloc::AllocError;
use std::fmt;
use zone::ZoneFault;

// A refusal of any layer, with the place and the edge that it names.
#[derive(Clone, Copy)]
pub struct Refusal {
    reason: Result<(Ground, Layer), AllocError>,
    place: Option<u8>,
    edge: Option<usize>,
}

fn sheet_reason(fault: SheetFault) -> Result<(Ground, Layer), AllocError> {
    Ok((fault.ground()?, fault.layer()?))
}

impl From<SheetFault> for Refusal {
    fn from(fault: SheetFault) -> Refusal {
        Refusal {
            reason: sheet_reason(fault),
            place: None,
            edge: None,
        }
    }
}

impl From<ZoneFault> for Refusal {
    fn from(fault: ZoneFault) -> Refusal {
        Refusal {
            reason: Ok((fault.ground(), fault.layer())),
            place: None,
            edge: None,
        }
    }
}

impl From<BookFault> for Refusal {
    fn from(fault: BookFault) -> Refusal {
        Refusal {
            reason: Ok((fault.ground(), fault.layer())),
            place: fault.place(),
            edge: fault.edge(),
        }
    }
}

impl fmt::Display for Refusal {
    fn fmt<W: fmt::Write>(&self, f: &mut fmt::Formatter<W>) -> fmt::Result {
        let Ok((reason, layer)) = self.reason else {
            return write!(f, "no memory");
        };
        write!(f, "REFUSED {reason} {layer}")?;
        if let Some(place) = self.place {
            write!(f, " place {place}")?;
        }
        if let Some(edge) = self.edge {
            write!(f, " edge {edge}")?;
        }
        Ok(())
    }
}

// The numbers of the places that are set.
#[derive(Clone, Copy)]
pub struct Numbers(pub [bool; PLACES]);

impl fmt::Display for Numbers {
    fn fmt<W: fmt::Write>(&self, f: &mut fmt::Formatter<W>) -> fmt::Result {
        if !self.0.contains(&true) {
            return write!(f, " none");
        }
        for (i, _) in self.0.iter().enumerate().filter(|(_, is_set)| **is_set) {
            write!(f, " {i}")?;
        }
        Ok(())
    }
}
