// Rust's `State`.
// Numbers: documents and definitions number what stands in a result's byte, and rules compare it in order; an enum would say no more.
pub const OFFLINE: u8 = 0;

pub const ONLINE: u8 = 1;

pub const ACTIVE: u8 = 2;

pub const OVERLOAD: u8 = 3;
