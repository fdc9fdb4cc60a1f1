// What a draft is built of: the sheet so far, and what decides which record may come next.
ghost use Rattle.std.specs.Prelude.{◌≡◌, ◌^◌, ◌<◌, true, false, length, MatchResult, nat_lt};
ghost use Rattle.reader.specs.Entries.{entry_of};
ghost use Rattle.sheet.specs.Fields.{atom_of};
ghost use Rattle.sheet.specs.Judged.{atom_fits};
ghost use Rattle.sheet.specs.Parts.{Room, Judges, Adds};
ghost use Rattle.sheet.specs.Taken.{built, blank_contents};
ghost use Rattle.sheet.specs.declared.part.Part.TheVariants.{Head as head_part, Limit as limit_part, Edge as edge_part, Guard as guard_part};

use crate::atom::{Atom, Relation};
use crate::edge::Edge;
use crate::fault::SheetFault;
use crate::grow::{accept, named_clocks, plain_locations, push_guard, push_limit};
use crate::part::{Head, NewEdge, Part};
use crate::sheet::Sheet;
use reader::{Record, Stage};
use std::alloc::Global;

pub const MAX_CLOCKS: u8 = 6;

pub const MAX_LOCATIONS: u8 = 32;

// The most edges, and the most atoms of all limits and of all guards.
pub const MAX_EDGES: usize = 128;

pub const MAX_LIMIT_ATOMS: u8 = 64;

pub const MAX_GUARD_ATOMS: u16 = 256;

// The largest constant of an atom.
pub const MAX_CONSTANT: u16 = 10_000;

#[derive(Drop)]
pub struct Builder {
    pub(crate) heap: Global,
    pub(crate) stage: Stage,
    // The sheet of the records so far, blank before the head.
    pub(crate) sheet: Sheet,
    limit_atoms: u8,
    guard_atoms: u16,
}

impl Builder {
    // Nothing has come.
    pub(crate) fn new(heap: Global) -> Builder
        ensures { built result ≡ blank_contents }
    {
        Builder {
            heap,
            stage: Stage::new(),
            sheet: Sheet::blank(heap),
            limit_atoms: 0,
            guard_atoms: 0,
        }
    }

    // What a record adds, or why it is refused. The arms of a limit and of a guard stay two: each has its own count, its own most and its own part.
    pub(crate) fn judge(&self, record: Record<'_>) -> Result<Part, SheetFault>
        ensures { Judges (built self.now) (entry_of «record».entry) result }
    {
        match record {
            Record::SheetEnd
            | Record::Book(_)
            | Record::Node(_)
            | Record::Bound(_)
            | Record::FileEnd => Err(SheetFault::OutOfPlace),
            _ if self.stage.after(record.kind()).is_none() => Err(SheetFault::OutOfPlace),
            Record::Head(&[clocks, locations, start])
                // `contains` would borrow what the pattern binds, of which a guard gets no proof.
                if 1 <= clocks
                    && clocks <= MAX_CLOCKS
                    && locations <= MAX_LOCATIONS
                    && start < locations => {
                Ok(Part::Head(Head {
                    clocks,
                    locations,
                    start,
                }))
            }
            Record::Accepting(&[location]) if self.has_location(location) => Ok(Part::Accepting {
                location,
            }),
            Record::Limit(&[location, clock, relation, low, high]) if self.has_location(location) =>
                {
                    let atom = self.atom(clock, relation, u16::from_le_bytes([low, high]))?;
                    if self.limit_atoms >= MAX_LIMIT_ATOMS {
                        return Err(SheetFault::TooMany);
                    }
                    Ok(Part::Limit { location, atom })
                }
            Record::Edge(&[source, target, zeros])
                if self.has_location(source)
                    && self.has_location(target)
                    && self.has_clocks(zeros) => {
                if self.sheet.edges.len() >= MAX_EDGES {
                    return Err(SheetFault::TooMany);
                }
                Ok(Part::Edge(NewEdge {
                    source,
                    target,
                    zeros,
                }))
            }
            Record::Guard(&[clock, relation, low, high]) => {
                let atom = self.atom(clock, relation, u16::from_le_bytes([low, high]))?;
                if self.guard_atoms >= MAX_GUARD_ATOMS {
                    return Err(SheetFault::TooMany);
                }
                Ok(Part::Guard { atom })
            }
            Record::Head(_) | Record::Accepting(_) | Record::Limit(_) | Record::Edge(_) => Err(
                SheetFault::OutOfRange,
            ),
        }
    }

    // Adds a part that was judged.
    pub(crate) fn add(&mut self, part: Part) -> Result<(), SheetFault>
        requires { Room (built self.old) part }
        ensures { Adds (built self.old) part result (built self.new) }
    {
        match part {
            Part::Head(head) => self.add_head(head),
            Part::Accepting { location } => {
                accept(&mut self.sheet.locations, location);
                Ok(())
            }
            Part::Limit { location, atom } => self.add_limit(location, atom),
            Part::Edge(edge) => self.add_edge(edge),
            Part::Guard { atom } => self.add_guard(atom),
        }
    }

    fn add_head(&mut self, head: Head) -> Result<(), SheetFault>
        ensures { Adds (built self.old) (head_part head) result (built self.new) }
    {
        self.sheet.locations = plain_locations(self.heap, head.locations)?;
        self.sheet.clocks = head.clocks;
        self.sheet.start = head.start;
        self.stage = Stage::Sheet;
        Ok(())
    }

    fn add_limit(&mut self, location: u8, atom: Atom) -> Result<(), SheetFault>
        requires { (built self.old).limit_atoms < 64 }
        ensures { Adds (built self.old) (limit_part location atom) result (built self.new) }
    {
        push_limit(&mut self.sheet.locations, location, atom)?;
        self.limit_atoms += 1;
        Ok(())
    }

    fn add_edge(&mut self, edge: NewEdge) -> Result<(), SheetFault>
        ensures { Adds (built self.old) (edge_part edge) result (built self.new) }
    {
        let resets = named_clocks(self.heap, edge.zeros)?;
        self.sheet.edges.push(Edge {
            source: edge.source,
            target: edge.target,
            resets,
            guard: Vec::new(self.heap),
        })?;
        self.stage = Stage::Edges;
        Ok(())
    }

    fn add_guard(&mut self, atom: Atom) -> Result<(), SheetFault>
        requires { (built self.old).guard_atoms < 256 }
        ensures { Adds (built self.old) (guard_part atom) result (built self.new) }
    {
        push_guard(&mut self.sheet.edges, atom)?;
        self.guard_atoms += 1;
        Ok(())
    }

    // The atom of these fields, each of which must be in range. A struct of the three would be made for this function alone.
    fn atom(&self, clock: u8, relation: u8, constant: u16) -> Result<Atom, SheetFault>
        ensures { MatchResult result (λ atom. (atom_fits (built self.now).automaton.clocks clock relation constant ≡ true) × (atom ≡ atom_of clock relation constant)) (λ fault. (atom_fits (built self.now).automaton.clocks clock relation constant ≡ false) × (fault ≡ SheetFault.OutOfRange)) }
    {
        let relation = Relation::try_from(relation)?;
        if (1..=self.sheet.clocks).contains(&clock) && constant <= MAX_CONSTANT {
            Ok(Atom {
                clock,
                relation,
                constant,
            })
        } else {
            Err(SheetFault::OutOfRange)
        }
    }

    fn has_location(&self, location: u8) -> bool
        ensures { result ≡ nat_lt location (length (built self.now).automaton.locations) }
    {
        usize::from(location) < self.sheet.location_count()
    }

    // Whether every bit of `zeros` stands for a clock of the sheet.
    #[tactic(auto, using(crate::proofs::Bits::shifted_out))]
    fn has_clocks(&self, zeros: u8) -> bool
        ensures { result ≡ nat_lt zeros (2 ^ (built self.now).automaton.clocks) }
    {
        zeros.checked_shr(u32::from(self.sheet.clocks)).unwrap_or(0) == 0
    }
}
