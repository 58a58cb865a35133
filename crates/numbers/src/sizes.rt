// Document 01, "Records", "Refusals in their order", "Hall number": the limits of the images and of the calls.
pub const MOST_CATALOGUE_BYTES: usize = 16777216;

pub const LAST_NAME: u32 = 87;

pub const LAST_VOLUME_FLAG: u32 = 1;

pub const MOST_SKILLS: usize = 1024;

pub const MOST_ITEMS: usize = 256;

pub const MOST_RESULTS: usize = 256;

// A pair is an item that has a result.
pub const MOST_PAIRS: usize = 256;

pub const MOST_ATTRIBUTES: usize = 30000;

pub const LAST_MODE_FLAG: u32 = 1;

// Of an item that is no booster.
pub const LAST_INDEX: u16 = 255;

// Groups of a league profile.
pub const MOST_GROUPS: usize = 4096;

// Points of a group that is not banned.
pub const MOST_POINTS: u32 = 1000000;

// The points of a group that is banned.
pub const BANNED: u32 = 4294967295;

// Bytes of an entry.
pub const ENTRY_SIZE: usize = 24;

// Skills that a walk holds.
pub const MOST_WANTED: usize = 512;

// Fits of a hall.
pub const MOST_FITS: usize = 64;

// A refusal's number is returned times this.
pub const WORD: u64 = 4294967296;
