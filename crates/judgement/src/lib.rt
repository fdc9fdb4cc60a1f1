// The judgement of a whole certificate file: its bytes in, one line out.
#![tactic(auto)]

mod certifier;
mod certify;
mod drafting;
mod example;
mod fault;
mod judge;
mod line;
mod nodes;
mod rest;
mod verdict;

pub use example::{one_visit, one_visit_line};
pub use fault::{CheckFault, Located};
pub use line::{verdict_line, verdict_on};
pub use verdict::{Refusal, Verdict};
