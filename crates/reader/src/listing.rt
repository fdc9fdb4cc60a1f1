// All records of a file, and how its reading ended.
ghost use Rattle.std.specs.Prelude.{IfOk};
ghost use Rattle.reader.specs.Listings.{Lists};

use crate::fault::FileFault;
use crate::reader::Reader;
use crate::record::Record;
use std::alloc::{AllocError, Global};

// A record and the offset of its kind byte.
#[derive(Clone, Copy)]
pub struct Placed<'a> {
    pub offset: usize,
    pub record: Record<'a>,
}

#[derive(Drop)]
pub struct Listing<'a> {
    pub records: Vec<Placed<'a>>,
    // Whether the file ended where it should, or what was refused.
    pub ending: Result<(), FileFault>,
}

impl<'a> Listing<'a> {
    // Every record of the file up to its end or the first refusal.
    pub fn of(heap: Global, input: &'a [u8]) -> Result<Listing<'a>, AllocError>
        ensures { IfOk result (λ l. Lists input.now l.records.items l.ending) }
    {
        let mut records = Vec::new(heap);
        let mut reader = Reader::new(input);
        let ending = loop {
            let offset = reader.offset();
            match reader.next() {
                Ok(Some(record)) => records.push(Placed { offset, record })?,
                Ok(None) => break Ok(()),
                Err(fault) => break Err(fault),
            }
        };
        Ok(Listing { records, ending })
    }
}
