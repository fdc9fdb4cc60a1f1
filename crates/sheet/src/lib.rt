// The sheet: a timed automaton drafted from records and sealed.
#![tactic(auto)]

mod atom;
mod builder;
mod draft;
mod edge;
mod fault;
mod grow;
mod part;
mod sheet;

pub use atom::{Atom, Relation, UnknownRelation};
pub use draft::Draft;
pub use edge::Edge;
pub use fault::SheetFault;
pub use sheet::Sheet;
