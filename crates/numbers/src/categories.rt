// calculate/mod.rs: the categories of types that the rules ask for.
// Numbers: ids of the catalogue, which has others beside these.
pub const SHIP: i32 = 6;

pub const MODULE: i32 = 7;

pub const SKILL: i32 = 16;

pub const DRONE: i32 = 18;

pub const IMPLANT: i32 = 20;

pub const SUBSYSTEM: i32 = 32;

pub const STRUCTURE: i32 = 65;

pub const STRUCTURE_MODULE: i32 = 66;

pub const FIGHTER: i32 = 87;
