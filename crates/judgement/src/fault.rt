// What the judgement of a file refuses, from whichever layer, with the offset of the record that is to blame.
ghost use Rattle.std.specs.Prelude.{◌≡◌, ok_or};
ghost use Rattle.judgement.specs.Faults.{located, refusal_of};
ghost use Rattle.judgement.specs.declared.fault.CheckFault.TheVariants.{File as file_fault, Sheet as sheet_fault, Book as book_fault, Memory as memory_fault};

use crate::verdict::Refusal;
use book::BookFault;
use reader::FileFault;
use sheet::SheetFault;
use std::alloc::AllocError;
use zone::ZoneFault;

// A fault of a lower layer, at the offset where it arose.
#[derive(Clone, Copy, PartialEq, Eq, Debug)]
pub struct Located<F> {
    pub fault: F,
    pub offset: usize,
}

// Adds the offset to what a lower layer answers.
pub(crate) fn at<T, F>(offset: usize, answer: Result<T, F>) -> Result<T, Located<F>>
    ensures { result ≡ located offset answer }
{
    answer.map_err(|fault| Located { fault, offset })
}

#[derive(Clone, Copy, PartialEq, Eq, Debug)]
pub enum CheckFault {
    File(FileFault),
    Sheet {
        fault: SheetFault,
        offset: usize,
    },
    // A zone refuses a bound of the node in this place.
    Bound {
        fault: ZoneFault,
        offset: usize,
        place: u8,
    },
    Book {
        fault: BookFault,
        offset: usize,
    },
    // Want of memory, which has no number.
    Memory(AllocError),
}

impl CheckFault {
    // The refusal that is printed; want of memory has none.
    pub fn refusal(self) -> Result<Refusal, AllocError>
        ensures { result ≡ ok_or (refusal_of self) (record {}) }
    {
        match self {
            CheckFault::File(fault) => Ok(Refusal {
                reason: fault.ground(),
                layer: fault.layer(),
                offset: fault.offset(),
                place: None,
                edge: None,
            }),
            CheckFault::Sheet { fault, offset } => Ok(Refusal {
                reason: fault.ground()?,
                layer: fault.layer()?,
                offset,
                place: None,
                edge: None,
            }),
            CheckFault::Bound {
                fault,
                offset,
                place,
            } => Ok(Refusal {
                reason: fault.ground(),
                layer: fault.layer(),
                offset,
                place: match fault {
                    ZoneFault::OutOfRange => None,
                    ZoneFault::NoDifferences | ZoneFault::TooWide => Some(place),
                },
                edge: None,
            }),
            CheckFault::Book { fault, offset } => Ok(Refusal {
                reason: fault.ground(),
                layer: fault.layer(),
                offset,
                place: fault.place(),
                edge: fault.edge(),
            }),
            CheckFault::Memory(error) => Err(error),
        }
    }
}

impl From<FileFault> for CheckFault {
    ghost from_gives = { λ e r. r ≡ file_fault e };

    fn from(fault: FileFault) -> CheckFault {
        CheckFault::File(fault)
    }
}

// Each layer's fault has a case of its own, and so an impl of its own.
impl From<Located<SheetFault>> for CheckFault {
    ghost from_gives = { λ e r. r ≡ sheet_fault e.fault e.offset };

    fn from(located: Located<SheetFault>) -> CheckFault {
        CheckFault::Sheet {
            fault: located.fault,
            offset: located.offset,
        }
    }
}

impl From<Located<BookFault>> for CheckFault {
    ghost from_gives = { λ e r. r ≡ book_fault e.fault e.offset };

    fn from(located: Located<BookFault>) -> CheckFault {
        CheckFault::Book {
            fault: located.fault,
            offset: located.offset,
        }
    }
}

impl From<AllocError> for CheckFault {
    ghost from_gives = { λ e r. r ≡ memory_fault e };

    fn from(error: AllocError) -> CheckFault {
        CheckFault::Memory(error)
    }
}
