// Element types by their names.
pub const INTEREST: u16 = 0x05;

pub const DATA: u16 = 0x06;

pub const NAME: u16 = 0x07;

pub const NONCE: u16 = 0x0A;

pub const LIFETIME: u16 = 0x0C;

pub const MUST_BE_FRESH: u16 = 0x12;

pub const META_INFO: u16 = 0x14;

pub const CONTENT: u16 = 0x15;

pub const SIGNATURE_INFO: u16 = 0x16;

pub const SIGNATURE_VALUE: u16 = 0x17;

pub const CONTENT_TYPE: u16 = 0x18;

pub const FRESHNESS: u16 = 0x19;

pub const FINAL_BLOCK_ID: u16 = 0x1A;

pub const FORWARDING_HINT: u16 = 0x1E;

pub const CAN_BE_PREFIX: u16 = 0x21;

pub const HOP_LIMIT: u16 = 0x22;

pub const PARAMETERS: u16 = 0x24;

pub const INTEREST_SIGNATURE_INFO: u16 = 0x2C;

pub const INTEREST_SIGNATURE_VALUE: u16 = 0x2E;

pub const FRAGMENT: u16 = 0x50;

pub const LP_PACKET: u16 = 0x64;

pub const NACK: u16 = 0x0320;

pub const NACK_REASON: u16 = 0x0321;

// Types up to this one are critical, even or odd.
pub const LAST_CRITICAL: u64 = 31;

// In an LpPacket, types from one to the other that are divisible by 4 are skipped.
pub const FIRST_SKIPPED: u64 = 800;

pub const LAST_SKIPPED: u64 = 959;
