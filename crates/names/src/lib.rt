// Names, over the bytes of a Name's value: components, equality, prefix, canonical order, scope and fingerprint.
#![tactic(auto)]

pub mod component;
pub mod fingerprint;
pub mod order;

pub use component::{Counted, count_components, first_is, under_localhop, under_localhost};
pub use fingerprint::{FNV_START, fingerprint_from, fnv_from, wrapping_mul};
pub use order::{compare, compare_bytes, is_prefix, same};
