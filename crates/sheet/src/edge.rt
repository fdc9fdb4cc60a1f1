// An edge of a sheet.
ghost use Rattle.std.specs.Prelude.{◌≡◌};
ghost use Rattle.sheet.specs.Sheets.{edge_of};

use crate::atom::Atom;

#[derive(Drop)]
pub struct Edge {
    pub(crate) source: u8,
    pub(crate) target: u8,
    pub(crate) resets: Vec<u8>,
    pub(crate) guard: Vec<Atom>,
}

impl Edge {
    pub fn source(&self) -> u8
        ensures { result ≡ (edge_of self.now).source }
    {
        self.source
    }

    pub fn target(&self) -> u8
        ensures { result ≡ (edge_of self.now).target }
    {
        self.target
    }

    // The clocks that this edge sets to zero, in ascending order.
    pub fn resets(&self) -> &[u8]
        ensures { result.now ≡ (edge_of self.now).resets }
    {
        self.resets.as_slice()
    }

    pub fn guard(&self) -> &[Atom]
        ensures { result.now ≡ (edge_of self.now).guard }
    {
        self.guard.as_slice()
    }
}
