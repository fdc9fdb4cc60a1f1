// The record file: grounds of refusal, record kinds, the order of records, and the reader.
#![tactic(auto)]

mod fault;
mod fields;
mod ground;
mod input;
mod kind;
mod listing;
mod reader;
mod record;
mod stage;

pub use fault::FileFault;
pub use fields::Fields;
pub use ground::{Ground, Layer};
pub use input::read_input;
pub use kind::{Kind, UnknownByte};
pub use listing::{Listing, Placed};
pub use reader::{MAX_LEN, Reader};
pub use record::Record;
pub use stage::Stage;
