// A draft takes records one by one, and is sealed to the sheet of exactly these.
ghost use Rattle.std.specs.Prelude.{◌≡◌, ℕ, false, List, [], is_ok};
ghost use Rattle.reader.specs.Entries.{Entry, entry_of};
ghost use Rattle.sheet.specs.Drafts.{Takes};
ghost use Rattle.sheet.specs.Ready.{hold_at_zero, readiness, Starts, sealed};
ghost use Rattle.sheet.specs.Runs.{Valuation, Run};
ghost use Rattle.sheet.specs.Sheets.{automaton_of};
ghost use Rattle.sheet.specs.Taken.{Contents, built, Took};

use crate::atom::Atom;
use crate::builder::Builder;
use crate::fault::SheetFault;
use crate::sheet::Sheet;
use reader::{Record, Stage};
use std::alloc::Global;
use std::marker::Model;

// A draft has taken some list of records. Its contents do not tell which, so a clause speaks of each list that they fit.
#[derive(Drop)]
pub struct Draft {
    builder: Builder,
}

impl Model for Draft {
    ghost Value = { Contents };

    ghost view = { λ d. built d.builder };

    ghost invariant = { λ d. ∥ ((es : List Entry) × Took es (built d.builder)) ∥₁ };
}

impl Draft {
    // A draft that has taken no record.
    pub fn new(heap: Global) -> Draft
        ensures { Took [] result }
    {
        Draft {
            builder: Builder::new(heap),
        }
    }

    // Takes one more record. A record that is refused leaves the draft as it was.
    pub fn take(&mut self, record: Record<'_>) -> Result<(), SheetFault>
        ensures takes { (es : List Entry) → Took es self.old → Takes es (entry_of «record».entry) self.old result self.new }
        ensures refused { is_ok result ≡ false → self.new ≡ self.old }
    {
        let part = self.builder.judge(record)?;
        self.builder.add(part)
    }

    // Whether a sheet can be sealed: a head has come, and the start's limit holds with all clocks at zero. The clause `taken` tells a holder of any draft that there is a list which it took, so that the other clauses speak of one.
    pub fn ready(&self) -> Result<(), SheetFault>
        ensures taken { ∥ ((es : List Entry) × Took es self.now) ∥₁ }
        ensures value { (es : List Entry) → Took es self.now → result ≡ readiness es }
        ensures start { Starts self.now.automaton result }
    {
        if self.builder.stage == Stage::Start {
            return Err(SheetFault::OutOfPlace);
        }
        if hold_at_zero(self.builder.sheet.limit(self.builder.sheet.start)) {
            Ok(())
        } else {
            Err(SheetFault::StartOutsideLimit)
        }
    }

    // The sheet of the records taken. A draft that is not ready gives the blank sheet.
    pub fn seal(self) -> Sheet
        ensures value { (es : List Entry) → Took es self → automaton_of result ≡ sealed es }
        ensures runs { (es : List Entry) → Took es self → is_ok (readiness es) ≡ false → (k l n : ℕ) (v : Valuation) → Run (automaton_of result) k l v n → ⊥ }
    {
        if self.ready().is_ok() {
            self.builder.sheet
        } else {
            Sheet::blank(self.builder.heap)
        }
    }
}

// Whether every atom holds with all clocks at zero.
fn hold_at_zero(atoms: &[Atom]) -> bool
    ensures { result ≡ hold_at_zero atoms.now }
{
    atoms.iter().all(|atom| atom.holds_at_zero())
}
