// What a record adds to a draft, with its fields in range.
use crate::atom::Atom;

#[derive(Clone, Copy)]
pub struct Head {
    pub clocks: u8,
    pub locations: u8,
    pub start: u8,
}

// An edge without its guard. Bit i − 1 of `zeros` stands for clock i.
#[derive(Clone, Copy)]
pub struct NewEdge {
    pub source: u8,
    pub target: u8,
    pub zeros: u8,
}

#[derive(Clone, Copy)]
pub enum Part {
    Head(Head),
    Accepting { location: u8 },
    Limit { location: u8, atom: Atom },
    Edge(NewEdge),
    Guard { atom: Atom },
}
