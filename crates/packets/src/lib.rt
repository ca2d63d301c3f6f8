// Bare packets read to a meaning: the Interest or Data that stands in a packet's Lp header, or came without one.
#![tactic(auto)]

pub mod bare;

pub use bare::{Data, HopLimit, Interest, Packet, read_bare};
