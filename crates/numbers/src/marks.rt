// Marks follow the named arms of `slots_of`; 0 is any other effect. Marks 1 to 6 are racks, 7 and 8 hardpoints.
// Numbers: documents and definitions number what stands in a catalogue, and mark m is slot m - 1; an enum would say no more there.
pub const HI_POWER: u8 = 1;

pub const MED_POWER: u8 = 2;

pub const LO_POWER: u8 = 3;

pub const RIG_SLOT: u8 = 4;

pub const SUB_SYSTEM: u8 = 5;

pub const SERVICE_SLOT: u8 = 6;

pub const TURRET_FITTED: u8 = 7;

pub const LAUNCHER_FITTED: u8 = 8;
