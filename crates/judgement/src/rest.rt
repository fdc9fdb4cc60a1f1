// The records of a file that are still to be judged.
ghost use Rattle.std.specs.Prelude.{◌≡◌, [], ◌∷◌, MatchResult};
ghost use Rattle.judgement.specs.Judged.{missing};

use reader::{FileFault, Placed};

// Some records of a file, how the reading of it ended, and how many bytes it has.
#[derive(Clone, Copy)]
pub struct Rest<'a> {
    pub(crate) records: &'a [Placed<'a>],
    pub(crate) ending: Result<(), FileFault>,
    pub(crate) len: usize,
}

impl<'a> Rest<'a> {
    // What is refused where a record is due and there is none.
    fn missing(&self) -> FileFault
        ensures { result ≡ missing self.now.ending self.now.len }
    {
        self.ending.err().unwrap_or(FileFault::Truncated(self.len))
    }

    // The record that is due, and the rest after it.
    pub(crate) fn next(&self) -> Result<(Placed<'a>, Rest<'a>), FileFault>
        ensures { MatchResult result (λ d. (self.now.records.now ≡ d.0 ∷ d.1.records.now) × (d.1.ending ≡ self.now.ending) × (d.1.len ≡ self.now.len)) (λ fault. (self.now.records.now ≡ []) × (fault ≡ missing self.now.ending self.now.len)) }
    {
        match self.records.split_first() {
            Some((due, records)) => Ok((*due, Rest { records, ..*self })),
            None => Err(self.missing()),
        }
    }
}
