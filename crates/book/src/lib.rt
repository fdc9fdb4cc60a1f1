// The certificate book: questions, places, and the calls that judge a certificate.
#![tactic(auto)]

mod book;
mod call;
mod conclude;
mod cover;
mod fault;
mod follow;
mod history;
mod place;
mod question;
mod row;
mod walk;

pub use book::Book;
pub use call::Call;
pub use fault::BookFault;
pub use history::play;
pub use place::{PLACES, Place};
pub use question::{Emptiness, Question, Unreachability};
