// A file of a sheet and a certificate, and the sheet that it gives.
ghost use Rattle.std.specs.Prelude.{◌≡◌, IfOk};
ghost use Rattle.reader.specs.Readings.{reading};
ghost use Rattle.sheet.specs.Described.{described};
ghost use Rattle.sheet.specs.Sheets.{automaton_of};
ghost use Rattle.sheet.specs.Taken.{Took};
ghost use Rattle.bookwalk.specs.Example.{before_sheet_end};

use reader::{Listing, Record};
use sheet::{Draft, Sheet, SheetFault};
use std::alloc::Global;

// The bytes of `judgement::one_visit`, on which this program does not build.
pub const FILE: [u8; 48] =
    *b"\x01\x01\x02\x00\x02\x01\x03\x00\x01\x01\x05\x00\x04\x00\x01\x01\x05\x01\x03\x02\x00\x06\
       \x10\x00\x01\x11\x00\x00\x01\x00\x12\x01\x00\x00\x00\x00\x11\x01\x01\x01\x00\x12\x01\x00\x00\x00\x00\x1f";

// A draft of the records of a file, up to the end of the sheet.
fn draft_of_file(heap: Global, bytes: &[u8]) -> Result<Draft, SheetFault>
    ensures { IfOk result (Took (before_sheet_end (reading bytes.now).0)) }
{
    let listing = Listing::of(heap, bytes)?;
    listing.ending?;
    let mut draft = Draft::new(heap);
    for placed in listing.records.iter() {
        if let Record::SheetEnd = placed.record {
            break;
        }
        draft.take(placed.record)?;
    }
    Ok(draft)
}

// The sheet of a file that is whole and whose draft is ready.
pub(crate) fn sheet_of_file(heap: Global, bytes: &[u8]) -> Result<Sheet, SheetFault>
    ensures { IfOk result (λ sheet. automaton_of sheet ≡ described (before_sheet_end (reading bytes.now).0)) }
{
    let draft = draft_of_file(heap, bytes)?;
    draft.ready()?;
    Ok(draft.seal())
}
