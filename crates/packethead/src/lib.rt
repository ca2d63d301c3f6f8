// The front of a packet: its Lp header, in which a bare Interest or Data stands, and the finder of its Name.
//
// "The Interest inside a Fragment is read where it stands, without a copy. The reader gives back the name as the caller's own bytes."
#![tactic(auto)]

pub mod header;
pub mod name;

pub use header::{Part, bytes_at, part_at, read_header, whole_of};
pub use name::find_name;
