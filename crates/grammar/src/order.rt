// The orders of known elements in their parents, by name. Order 0 is that of an element which is not known.

// In an Interest and in a Data.
pub const NAME: usize = 1;

// In an Interest.
pub const CAN_BE_PREFIX: usize = 2;

pub const MUST_BE_FRESH: usize = 3;

pub const FORWARDING_HINT: usize = 4;

pub const NONCE: usize = 5;

pub const LIFETIME: usize = 6;

pub const HOP_LIMIT: usize = 7;

pub const PARAMETERS: usize = 8;

pub const INTEREST_SIGNATURE_INFO: usize = 9;

pub const INTEREST_SIGNATURE_VALUE: usize = 10;

// In a Data.
pub const META_INFO: usize = 2;

pub const CONTENT: usize = 3;

pub const SIGNATURE_INFO: usize = 4;

pub const SIGNATURE_VALUE: usize = 5;

// In a MetaInfo.
pub const CONTENT_TYPE: usize = 1;

pub const FRESHNESS: usize = 2;

pub const FINAL_BLOCK_ID: usize = 3;

// In a packet as it came, and in a Fragment.
pub const INTEREST: usize = 1;

pub const DATA: usize = 2;

pub const LP_PACKET: usize = 3;

// In an LpPacket.
pub const NACK: usize = 1;

pub const FRAGMENT: usize = 2;

// In a Nack.
pub const NACK_REASON: usize = 1;
