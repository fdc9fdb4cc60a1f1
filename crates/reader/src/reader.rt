// The reader: it stands at one offset of the input and moves by whole records.
ghost use Rattle.std.specs.Prelude.{◌≡◌, ◌+◌, ◌≤◌, List, [], length};
ghost use Rattle.reader.specs.Entries.{Entry, cut};
ghost use Rattle.reader.specs.Files.{ReadTo, Continues};
ghost use Rattle.reader.specs.Stages.{stage_of};
ghost use Rattle.reader.specs.Steps.{step_of, bodied, step_at, step_in, reach, stage_after, Due};

use crate::fault::FileFault;
use crate::kind::Kind;
use crate::record::Record;
use crate::stage::Stage;

// The longest file that is read, in bytes.
pub const MAX_LEN: usize = 65_535;

#[derive(Clone, Copy)]
pub struct Reader<'a> {
    input: &'a [u8],
    offset: usize,
    stage: Stage,
    ghost inside: { offset ≤ length input.now },
}

impl<'a> Reader<'a> {
    // A reader at the start of the input.
    pub fn new(input: &'a [u8]) -> Reader<'a>
        ensures input { result.input.now ≡ input.now }
        ensures offset { result.offset ≡ 0 }
        ensures stage { result.stage ≡ stage_of [] }
        ensures reads { ReadTo input.now [] result.offset result.stage }
    {
        Reader {
            input,
            offset: 0,
            stage: Stage::new(),
        }
    }

    pub fn offset(&self) -> usize
        ensures { result ≡ self.now.offset }
    {
        self.offset // of the record that is due
    }

    // The next record, or `None` at the end of the file.
    pub fn next(&mut self) -> Result<Option<Record<'a>>, FileFault>
        ensures step { step_of result ≡ step_in self.old.input.now self.old.stage self.old.offset }
        ensures input { self.new.input.now ≡ self.old.input.now }
        ensures offset { self.new.offset ≡ self.old.offset + reach (step_of result) }
        ensures stage { self.new.stage ≡ stage_after self.old.stage (step_of result) }
        ensures reads { (es : List Entry) → ReadTo self.old.input.now es self.old.offset self.old.stage → Continues self.old.input.now es self.old.offset self.old.stage (step_of result) }
    {
        match self.due()? {
            Some((record, stage)) => {
                self.offset += 1 + record.kind().body_len();
                self.stage = stage;
                Ok(Some(record))
            }
            None => Ok(None),
        }
    }

    // The record that is due, with the stage after it, or `None` at the end.
    fn due(&self) -> Result<Option<(Record<'a>, Stage)>, FileFault>
        ensures { Due self.now.stage (step_in self.now.input.now self.now.stage self.now.offset) result }
    {
        if self.input.len() > MAX_LEN {
            return Err(FileFault::TooLong);
        }
        self.due_in(&self.input[self.offset..])
    }

    // What the bytes from the reader's offset on give: a record, with the stage after it, or the end.
    fn due_in(&self, after: &'a [u8]) -> Result<Option<(Record<'a>, Stage)>, FileFault>
        ensures { Due self.now.stage (step_at self.now.stage self.now.offset after.now) result }
    {
        if let Stage::Ended = self.stage {
            return if after.is_empty() {
                Ok(None)
            } else {
                Err(FileFault::OutOfPlace(self.offset))
            };
        }
        let Some((byte, rest)) = after.split_first() else {
            return Err(FileFault::Truncated(self.offset));
        };
        let Ok(kind) = Kind::try_from(*byte) else {
            return Err(FileFault::UnknownKind(self.offset));
        };
        self.whole(kind, rest)
    }

    // The record of this kind whose body begins `rest`, with the stage after it.
    fn whole(&self, kind: Kind, rest: &'a [u8]) -> Result<Option<(Record<'a>, Stage)>, FileFault>
        ensures { Due self.now.stage (bodied self.now.stage self.now.offset kind (cut kind rest.now)) result }
    {
        let Some(record) = Record::cut(kind, rest) else {
            return Err(FileFault::Truncated(self.offset));
        };
        let Some(next) = self.stage.after(kind) else {
            return Err(FileFault::OutOfPlace(self.offset));
        };
        Ok(Some((record, next)))
    }
}
