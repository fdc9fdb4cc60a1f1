// What a draft refuses.
ghost use Rattle.std.specs.Prelude.{◌≡◌, ok_or};
ghost use Rattle.sheet.specs.Faults.{ground_of, layer_of};
ghost use Rattle.sheet.specs.declared.fault.SheetFault.TheVariants.{File as file_fault, OutOfRange as out_of_range, Memory as memory_fault};

use crate::atom::UnknownRelation;
use reader::{FileFault, Ground, Layer};
use std::alloc::{AllocError, AllocFailed};

#[derive(Clone, Copy, PartialEq, Eq, Debug)]
pub enum SheetFault {
    // A refusal of the reader, passed on.
    File(FileFault),
    OutOfPlace,
    OutOfRange,
    TooMany,
    StartOutsideLimit,
    // Want of memory, which has no number.
    Memory(AllocError),
}

impl SheetFault {
    // The ground of this refusal; want of memory has none.
    pub fn ground(self) -> Result<Ground, AllocError>
        ensures { result ≡ ok_or (ground_of self) (record {}) }
    {
        match self {
            SheetFault::File(fault) => Ok(fault.ground()),
            SheetFault::OutOfPlace => Ok(Ground::OutOfPlace),
            SheetFault::OutOfRange => Ok(Ground::OutOfRange),
            SheetFault::TooMany => Ok(Ground::TooMany),
            SheetFault::StartOutsideLimit => Ok(Ground::StartOutsideLimit),
            SheetFault::Memory(error) => Err(error),
        }
    }

    // The layer that gives this refusal; want of memory has none.
    pub fn layer(self) -> Result<Layer, AllocError>
        ensures { result ≡ ok_or (layer_of self) (record {}) }
    {
        match self {
            SheetFault::File(fault) => Ok(fault.layer()),
            SheetFault::OutOfPlace => Ok(Layer::File),
            SheetFault::OutOfRange | SheetFault::TooMany | SheetFault::StartOutsideLimit => Ok(
                Layer::Sheet,
            ),
            SheetFault::Memory(error) => Err(error),
        }
    }
}

impl From<FileFault> for SheetFault {
    ghost from_gives = { λ e r. r ≡ file_fault e };

    fn from(fault: FileFault) -> SheetFault {
        SheetFault::File(fault)
    }
}

impl From<UnknownRelation> for SheetFault {
    ghost from_gives = { λ _ r. r ≡ out_of_range };

    fn from(_unknown: UnknownRelation) -> SheetFault {
        SheetFault::OutOfRange
    }
}

// `collect` fails with an `AllocError`, `push` with an `AllocFailed`.
impl From<AllocError> for SheetFault {
    ghost from_gives = { λ e r. r ≡ memory_fault e };

    fn from(error: AllocError) -> SheetFault {
        SheetFault::Memory(error)
    }
}

impl<T: Drop> From<AllocFailed<T>> for SheetFault {
    ghost from_gives = { λ _ r. r ≡ memory_fault (record {}) };

    fn from(refused: AllocFailed<T>) -> SheetFault {
        SheetFault::Memory(AllocError::from(refused))
    }
}
