// The sheet of a file, from the records up to the sheet end.
ghost use Rattle.std.specs.Prelude.{◌≡◌, ◌≤◌, List, [], map, length, position};
ghost use Rattle.reader.specs.Entries.{Entry, entry_of};
ghost use Rattle.reader.specs.declared.kind.Kind.TheVariants.{SheetEnd};
ghost use Rattle.sheet.specs.Fields.{is};
ghost use Rattle.sheet.specs.Taken.{Took};
ghost use Rattle.judgement.specs.Drafting.{sheet_length, drafting, sealing, automaton_in, Drafts};
ghost use Rattle.reader.specs.Readings.{sited_of};

use crate::fault::{CheckFault, at};
use reader::{Placed, Record};
use sheet::{Draft, Sheet};
use std::alloc::Global;

// Whether a record ends the sheet.
fn ends_sheet(placed: &Placed<'_>) -> bool
    ensures { result ≡ is SheetEnd (entry_of placed.now.«record») }
{
    matches!(placed.record, Record::SheetEnd)
}

// The number of the record that ends the sheet.
fn sheet_end(records: &[Placed<'_>]) -> Option<usize>
    ensures { result ≡ position (λ p. is SheetEnd (entry_of p.«record»)) records.now }
{
    records.iter().position(ends_sheet)
}

// How many records come before the sheet end.
pub(crate) fn sheet_length(records: &[Placed<'_>]) -> usize
    ensures value { result ≡ sheet_length (map sited_of records.now) }
    ensures bound { result ≤ length records.now }
{
    sheet_end(records).unwrap_or(records.len())
}

// The draft that takes these records. A loop, since of what a closure writes to the draft nothing would be known.
pub(crate) fn drafted(heap: Global, records: &[Placed<'_>]) -> Result<Draft, CheckFault>
    ensures { Drafts (drafting [] (map sited_of records.now)) result }
{
    let mut draft = Draft::new(heap);
    for placed in records {
        at(placed.offset, draft.take(placed.record))?;
    }
    Ok(draft)
}

// The sheet of a draft, if it is ready at the sheet end, which stands at this offset.
pub(crate) fn sealed(draft: Draft, offset: usize) -> Result<Sheet, CheckFault>
    ensures { (es : List Entry) → Took es draft → automaton_in result ≡ sealing es offset }
{
    at(offset, draft.ready())?;
    Ok(draft.seal())
}
