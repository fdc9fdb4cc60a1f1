// The verdict on a file, and the line that says it.
ghost use Rattle.std.specs.Prelude.{Some};
ghost use Rattle.judgement.specs.Lines.{verdict_text, naming_by};

use reader::{Ground, Layer};
use std::fmt;

// A refusal, with the node's place and the edge's number where they are named.
#[derive(Clone, Copy, PartialEq, Eq, Debug)]
pub struct Refusal {
    pub reason: Ground,
    pub layer: Layer,
    pub offset: usize,
    pub place: Option<u8>,
    pub edge: Option<usize>,
}

// Not a `Result`, since it has a text of its own.
#[derive(Clone, Copy, PartialEq, Eq, Debug)]
pub enum Verdict {
    // No run visits accepting locations more often than this.
    Stands(u64),
    Refused(Refusal),
}

// A number, or `-` where there is none.
#[derive(Clone, Copy)]
struct Named<N>(Option<N>);

impl<N: fmt::Display> fmt::Display for Named<N> {
    ghost output = { λ n. naming_by N.Display.output n.0 };

    fn fmt<W: fmt::Write>(&self, f: &mut fmt::Formatter<W>) -> fmt::Result {
        match &self.0 {
            Some(number) => write!(f, "{number}"),
            None => write!(f, "-"),
        }
    }
}

impl fmt::Display for Verdict {
    ghost output = { λ v. Some (verdict_text v) };

    fn fmt<W: fmt::Write>(&self, f: &mut fmt::Formatter<W>) -> fmt::Result {
        match self {
            Verdict::Stands(visits) => write!(f, "STANDS {visits}"),
            Verdict::Refused(refusal) => {
                let reason = refusal.reason;
                let layer = refusal.layer;
                let offset = refusal.offset;
                let place = Named(refusal.place);
                let edge = Named(refusal.edge);
                write!(f, "REFUSED {reason} {layer} {offset} {place} {edge}")
            }
        }
    }
}
