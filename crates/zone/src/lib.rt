// Clock zones: the trait with its meaning and laws, difference-bound matrices, and boxes.
#![tactic(auto)]

mod bound;
mod boxed;
mod constraint;
mod difference;
mod fault;
mod judging;
mod zone;

pub use bound::Bound;
pub use boxed::{BoxRow, BoxZone, Range};
pub use constraint::Constraint;
pub use difference::{DifferenceRow, DifferenceZone};
pub use fault::ZoneFault;
pub use zone::Zone;
