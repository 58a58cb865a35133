// calculate/mod.rs: the groups of types that the rules ask for.
// Numbers: ids of the catalogue, which has others beside these.
pub const CONTAINERS: [i32; 4] = [12, 340, 448, 649];

pub const SHIP_MODIFIERS: i32 = 1306;
