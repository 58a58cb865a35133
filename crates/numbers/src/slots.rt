// Rust's `Slot`.
// Numbers: documents and definitions number what stands in a fit's byte, and rules compare the byte; an enum would say no more there.
pub const HIGH: u8 = 0;

pub const MEDIUM: u8 = 1;

pub const LOW: u8 = 2;

pub const RIG: u8 = 3;

pub const SUBSYSTEM: u8 = 4;

pub const SERVICE: u8 = 5;

pub const FIGHTER_TUBE: u8 = 6;

pub const FIGHTER_BAY: u8 = 7;

pub const IMPLANT: u8 = 8;

pub const BOOSTER: u8 = 9;

pub const DRONE_BAY: u8 = 10;

pub const CARGO: u8 = 11;
