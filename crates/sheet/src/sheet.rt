// The sealed sheet.
ghost use Rattle.std.specs.Prelude.{◌≡◌, ℕ, List, [], map, length, MatchOption};
ghost use Rattle.sheet.specs.Automata.{location};
ghost use Rattle.sheet.specs.Runs.{Valuation, Run};
ghost use Rattle.sheet.specs.Sheets.{plain, location_of, edge_of, automaton_of, blank_automaton};

use crate::atom::Atom;
use crate::edge::Edge;
use std::alloc::Global;

#[derive(Drop)]
pub struct Location {
    pub(crate) accepting: bool,
    pub(crate) limit: Vec<Atom>,
}

impl Location {
    // Without a limit, and not accepting.
    pub(crate) fn plain(heap: Global) -> Location
        ensures { location_of result ≡ plain }
    {
        Location {
            accepting: false,
            limit: Vec::new(heap),
        }
    }
}

#[derive(Drop)]
pub struct Sheet {
    pub(crate) clocks: u8,
    pub(crate) start: u8,
    pub(crate) locations: Vec<Location>,
    pub(crate) edges: Vec<Edge>,
}

impl Sheet {
    // The sheet of one clock and no locations. It has no runs.
    pub fn blank(heap: Global) -> Sheet
        ensures value { automaton_of result ≡ blank_automaton }
        ensures runs { (k l n : ℕ) (v : Valuation) → Run (automaton_of result) k l v n → ⊥ }
    {
        Sheet {
            clocks: 1,
            start: 0,
            locations: Vec::new(heap),
            edges: Vec::new(heap),
        }
    }

    pub fn clocks(&self) -> u8
        ensures { result ≡ (automaton_of self.now).clocks }
    {
        self.clocks
    }

    pub fn start(&self) -> u8
        ensures { result ≡ (automaton_of self.now).start }
    {
        self.start
    }

    pub fn location_count(&self) -> usize
        ensures { result ≡ length (automaton_of self.now).locations }
    {
        self.locations.len()
    }

    // Whether a location is accepting; one past the last is not.
    pub fn is_accepting(&self, number: u8) -> bool
        ensures { result ≡ (location (automaton_of self.now) number).accepting }
    {
        self.location(number)
            .is_some_and(|location| location.accepting)
    }

    // The limit of a location; one past the last has none.
    pub fn limit(&self, number: u8) -> &[Atom]
        ensures { result.now ≡ (location (automaton_of self.now) number).limit }
    {
        self.location(number)
            .map_or(&[], |location| location.limit.as_slice())
    }

    fn location(&self, number: u8) -> Option<&Location>
        ensures { MatchOption result (location (automaton_of self.now) number ≡ plain) (λ x. location (automaton_of self.now) number ≡ location_of x.now) }
    {
        self.locations.get(usize::from(number))
    }

    pub fn edges(&self) -> &[Edge]
        ensures { map edge_of result.now ≡ (automaton_of self.now).edges }
    {
        self.edges.as_slice()
    }
}
