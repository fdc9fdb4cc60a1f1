// What the reader refuses, and at which offset.
ghost use Rattle.std.specs.Prelude.{◌≡◌};
ghost use Rattle.reader.specs.Faults.{ground_of, offset_of};
ghost use Rattle.reader.specs.declared.ground.Layer.TheVariants.{File};

use crate::ground::{Ground, Layer};

// A refusal of the file layer. Each but the last has the offset at which it arose.
#[derive(Clone, Copy, PartialEq, Eq, Debug)]
pub enum FileFault {
    UnknownKind(usize),
    Truncated(usize),
    OutOfPlace(usize),
    TooLong,
}

impl FileFault {
    pub fn ground(self) -> Ground
        ensures { result ≡ ground_of self }
    {
        match self {
            FileFault::UnknownKind(_) => Ground::UnknownKind,
            FileFault::Truncated(_) => Ground::Truncated,
            FileFault::OutOfPlace(_) => Ground::OutOfPlace,
            FileFault::TooLong => Ground::TooMany,
        }
    }

    pub fn layer(self) -> Layer
        ensures { result ≡ File }
    {
        Layer::File
    }

    // An over-long file is refused at offset 0.
    pub fn offset(self) -> usize
        ensures { result ≡ offset_of self }
    {
        match self {
            FileFault::UnknownKind(offset)
            | FileFault::Truncated(offset)
            | FileFault::OutOfPlace(offset) => offset,
            FileFault::TooLong => 0,
        }
    }
}
