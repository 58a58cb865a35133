// The numbers of document 01 and of the Rust, by their names there. What an entry shows by its place in an enum is that enum.
#![tactic(auto)]

ghost use Rattle.std.specs.Prelude.{◌≡◌};
ghost use Rattle.numbers.specs.Slots.{kind_of};

pub mod categories;
pub mod groups;
pub mod marks;
pub mod names;
pub mod readers;
pub mod refusals;
pub mod sizes;
pub mod slots;
pub mod states;

// Rust's `Resource`.
#[derive(Clone, Copy, PartialEq, Eq)]
pub enum Resource {
    Cpu,
    Powergrid,
    Calibration,
    DroneBay,
    DroneBandwidth,
    LaunchedDrones,
    FighterBay,
    FighterTubes,
    LightFighterTubes,
    SupportFighterTubes,
    HeavyFighterTubes,
    CargoBay,
}

// Rust's `SlotKind`: the racks, by the numbers of their slots, then the hardpoints.
#[derive(Clone, Copy, PartialEq, Eq)]
pub enum SlotKind {
    High,
    Medium,
    Low,
    Rig,
    Subsystem,
    Service,
    Turret,
    Launcher,
}

const KINDS: [SlotKind; 8] = [
    SlotKind::High,
    SlotKind::Medium,
    SlotKind::Low,
    SlotKind::Rig,
    SlotKind::Subsystem,
    SlotKind::Service,
    SlotKind::Turret,
    SlotKind::Launcher,
];

impl SlotKind {
    // The kind of a number below 8.
    pub fn of(number: u8) -> Option<SlotKind>
        ensures { result ≡ kind_of number }
    {
        KINDS.get(number as usize).copied()
    }
}

// Rust's `GroupLimit`.
#[derive(Clone, Copy, PartialEq, Eq)]
pub enum GroupLimit {
    Fitted,
    Online,
    Active,
}
