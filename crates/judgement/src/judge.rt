// The judgement of the records of a file.
ghost use Rattle.std.specs.Prelude.{◌≡◌, List, map, length, IfOk, Ok};
ghost use Rattle.reader.specs.Entries.{Entry, entry_of};
ghost use Rattle.reader.specs.Readings.{sited_of};
ghost use Rattle.sheet.specs.Described.{described};
ghost use Rattle.sheet.specs.Runs.{AtMostVisits};
ghost use Rattle.sheet.specs.Sheets.{automaton_of};
ghost use Rattle.sheet.specs.Taken.{Took};
ghost use Rattle.judgement.specs.Described.{BookNamed, BookFirst, BookSecond, Bounds, BoundsIn};
ghost use Rattle.judgement.specs.Parts.{part_of};
ghost use Rattle.judgement.specs.Judged.{certified, after_sheet, from_sheet, judged, judging, Tells};

use crate::certify::{certify_boxes, certify_differences};
use crate::drafting::{drafted, sealed, sheet_length};
use crate::fault::CheckFault;
use crate::rest::Rest;
use book::{BookFault, Emptiness, Unreachability};
use reader::{FileFault, Listing, Placed, Record};
use sheet::{Draft, Sheet};
use std::alloc::Global;

// Judges a certificate after its book record, whose numbers name the kind of zone and the question.
fn certify_as(book: &Placed<'_>, sheet: Sheet, nodes: &Rest<'_>) -> Result<u64, CheckFault>
    ensures value { result ≡ certified nodes.now.ending book.now.offset (part_of (entry_of book.now.«record»)) (automaton_of sheet) (map sited_of nodes.now.records.now) }
    ensures bounds { IfOk result (λ n. BookNamed (part_of (entry_of book.now.«record»)) × (nodes.now.ending ≡ Ok tt) × AtMostVisits (automaton_of sheet) n) }
{
    match book.record {
        // The two numbers are read here alone, besides the lister, which prints them: enums for them would only move this table.
        Record::Book(&[0, 0]) => certify_differences(sheet, Unreachability, nodes),
        Record::Book(&[0, 1]) => certify_differences(sheet, Emptiness, nodes),
        Record::Book(&[1, 0]) => certify_boxes(sheet, Unreachability, nodes),
        Record::Book(&[1, 1]) => certify_boxes(sheet, Emptiness, nodes),
        Record::Book(_) => Err(CheckFault::Book {
            fault: BookFault::OutOfRange,
            offset: book.offset,
        }),
        _ => Err(CheckFault::File(FileFault::OutOfPlace(book.offset))),
    }
}

// Judges the records after the sheet end.
fn after_sheet(sheet: Sheet, rest: &Rest<'_>) -> Result<u64, CheckFault>
    ensures value { result ≡ after_sheet rest.now.ending rest.now.len (automaton_of sheet) (map sited_of rest.now.records.now) }
    ensures bounds { IfOk result (λ n. BookFirst (map sited_of rest.now.records.now) × (rest.now.ending ≡ Ok tt) × AtMostVisits (automaton_of sheet) n) }
{
    let (book, nodes) = rest.next()?;
    certify_as(&book, sheet, &nodes)
}

// Judges the records from the sheet end on, after those that a draft has taken.
fn from_sheet(draft: Draft, rest: &Rest<'_>) -> Result<u64, CheckFault>
    ensures value { (es : List Entry) → Took es draft → result ≡ from_sheet rest.now.ending rest.now.len es (map sited_of rest.now.records.now) }
    ensures bounds { (es : List Entry) → Took es draft → IfOk result (λ n. BookSecond (map sited_of rest.now.records.now) × (rest.now.ending ≡ Ok tt) × AtMostVisits (described es) n) }
{
    let (end, certificate) = rest.next()?;
    after_sheet(sealed(draft, end.offset)?, &certificate)
}

// Judges the records of a file. No run of the automaton that the sheet's records describe has more visits than the number that is given.
fn judge_records(heap: Global, all: &Rest<'_>) -> Result<u64, CheckFault>
    ensures value { Tells (judged all.now.ending all.now.len (map sited_of all.now.records.now)) result }
    ensures bounds { IfOk result (BoundsIn (map sited_of all.now.records.now) all.now.ending) }
{
    let (sheet, records) = all.records.split_at(sheet_length(all.records));
    let draft = drafted(heap, sheet)?;
    from_sheet(draft, &Rest { records, ..*all })
}

// Judges the bytes of a file.
pub(crate) fn judge(heap: Global, input: &[u8]) -> Result<u64, CheckFault>
    ensures value { Tells (judging input.now) result }
    ensures bounds { IfOk result (Bounds input.now) }
{
    let listing = Listing::of(heap, input)?;
    judge_records(
        heap,
        &Rest {
            records: listing.records.as_slice(),
            ending: listing.ending,
            len: input.len(),
        },
    )
}
