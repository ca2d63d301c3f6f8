// TLV: variable numbers, elements, and what the grammar says of bytes. They are read by a cursor that goes in
// and comes back by value, and written into a lent buffer.
#![tactic(auto)]

pub mod read;
pub mod verdict;
pub mod write;

pub use read::{Cursor, Element, whole_number, width_of};
pub use verdict::Verdict;
pub use write::{fits, put_bytes, put_head, put_number};
