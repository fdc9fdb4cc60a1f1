// Drafts and sheets from given records.
#![tactic(auto)]

ghost use Rattle.std.specs.Prelude.{◌≡◌, IfOk};
ghost use Rattle.sheet.specs.Sheets.{automaton_of};
ghost use Rattle.sheet_tests.specs.Examples.{example_automaton};

use reader::{Kind, Reader, Record};
use sheet::{Draft, Sheet, SheetFault};
use std::alloc::Global;

#[cfg(test)]
mod tests;

// The sheet of a head, an accepting location, a limit, an edge and its guard.
pub(crate) fn example(heap: Global) -> Result<Sheet, SheetFault>
    ensures { IfOk result (λ s. automaton_of s ≡ example_automaton) }
{
    let mut draft = Draft::new(heap);
    draft.take(Record::Head(&[1, 2, 0]))?;
    draft.take(Record::Accepting(&[1]))?;
    draft.take(Record::Limit(&[0, 1, 1, 5, 0]))?;
    draft.take(Record::Edge(&[0, 1, 1]))?;
    draft.take(Record::Guard(&[1, 3, 2, 0]))?;
    Ok(draft.seal())
}

// A draft of the records of a file, up to the end of the sheet.
pub(crate) fn draft_of_file(heap: Global, bytes: &[u8]) -> Result<Draft, SheetFault> {
    let mut draft = Draft::new(heap);
    let mut reader = Reader::new(bytes);
    // A file has fewer records than bytes.
    for _ in 0..bytes.len() {
        match reader.next()? {
            None | Some(Record::SheetEnd) => break,
            Some(record) => draft.take(record)?,
        }
    }
    Ok(draft)
}

// Gives a draft each of the records that the bytes hold, in any order, up to the first refusal.
pub(crate) fn take_all(draft: &mut Draft, bytes: &[u8]) -> Result<(), SheetFault> {
    let mut rest = bytes;
    // Each record has a byte at least.
    for _ in 0..bytes.len() {
        let Some((byte, after)) = rest.split_first() else {
            break;
        };
        let Ok(kind) = Kind::try_from(*byte) else {
            break;
        };
        let Some(record) = Record::cut(kind, after) else {
            break;
        };
        draft.take(record)?;
        rest = after.get(kind.body_len()..).unwrap_or(&[]);
    }
    Ok(())
}

// Gives a draft the same record several times, up to the first refusal.
pub(crate) fn take_times(draft: &mut Draft, times: u16, bytes: &[u8]) -> Result<(), SheetFault> {
    for _ in 0..times {
        take_all(draft, bytes)?;
    }
    Ok(())
}

// Whether each of some records meets this ground, 0 for none, in a draft that has taken the records of `before`.
pub(crate) fn each_meets<const N: usize>(
    heap: Global,
    before: &[u8],
    records: &[[u8; N]],
    ground: u8,
) -> bool {
    for record in records {
        let mut draft = Draft::new(heap);
        if number(take_all(&mut draft, before)) != 0
            || number(take_all(&mut draft, record)) != ground
        {
            return false;
        }
    }
    true
}

// The number of the ground on which a draft of these records is not ready, 0 if it is.
pub(crate) fn ready_ground_of(heap: Global, bytes: &[u8]) -> u8 {
    let mut draft = Draft::new(heap);
    match take_all(&mut draft, bytes) {
        Ok(()) => number(draft.ready()),
        Err(fault) => number(Err(fault)),
    }
}

// The sheet of these records.
pub(crate) fn sheet_of(heap: Global, bytes: &[u8]) -> Result<Sheet, SheetFault> {
    let mut draft = Draft::new(heap);
    take_all(&mut draft, bytes)?;
    let sheet = draft.seal();
    Ok(sheet)
}

// The number of an answer's ground: 0 for none, 255 for want of memory.
pub(crate) fn number(answer: Result<(), SheetFault>) -> u8 {
    match answer {
        Ok(()) => 0,
        Err(fault) => match fault.ground() {
            Ok(reason) => u8::from(reason),
            Err(_) => 255,
        },
    }
}
