// Document 01, "Sizes", and its other limits: each number once, by name. `specs/Sizes.antt` has the same for the definitions.
#![tactic(auto)]

// "Faces 1 to 16."
pub const FACES: usize = 16;

// "Routes 32"
pub const ROUTES: usize = 32;

// "pending entries 64"
pub const ENTRIES: usize = 64;

// "stored Data 8"
pub const STORED: usize = 8;

// "dead nonces 256"
pub const DEAD: usize = 256;

// "Packet at most 1,500 bytes."
pub const PACKET: usize = 1500;

// "Name at most 16 components"
pub const COMPONENTS: usize = 16;

// ".. and 255 bytes (the Name's value)."
pub const NAME: usize = 255;

// "Times are milliseconds up to 2^53."
pub const MOST_TIME: u64 = 9007199254740992;

// "An InterestLifetime above 60,000 counts as 60,000"
pub const MOST_LIFETIME: u64 = 60000;

// ".. absent as 4,000."
pub const USUAL_LIFETIME: u64 = 4000;

// "A FreshnessPeriod above 86,400,000 counts as that, absent as 0."
pub const MOST_FRESHNESS: u64 = 86400000;

// "Route cost 0 to 65,535."
pub const MOST_COST: u64 = 65535;

// "output buffer under 8,192"
pub const LEAST_BUFFER: usize = 8192;
