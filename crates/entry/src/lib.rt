// Entries: a rule that the fit breaks and what breaks it, and their 24 bytes. Document 01, "Entry"; Rust's `Violation`.
#![tactic(auto)]

ghost use Rattle.std.specs.Prelude.{◌≡◌, [], ◌∷◌, ◌+◌, ◌≤◌, length};
ghost use Rattle.words.specs.Words.{when};
ghost use Rattle.image.specs.Bytes.{put};
ghost use Rattle.entry.specs.Entries.{fields, place, entry_bytes};
ghost use Rattle.entry.specs.Wrote.{Room};
ghost use Rattle.entry.specs.Emitted.{Emitted, Fresh};

use numbers::{GroupLimit, Resource, SlotKind};

// What an entry is about: the ship, or an item by its pair index.
#[derive(Clone, Copy)]
pub enum Target {
    Ship,
    Item(u32),
}

// Rust's `Rule` from Resource to NotASkill, in its order and with its fields; then the rules of a league, and the type that is missing.
// Last, any numbers in the place of a rule's, those that no rule has too: `emit` writes these like others, and no list has one.
#[derive(Clone, Copy)]
pub enum Rule {
    // resource, used, available
    Resource(Resource, f64, f64),
    // slot, used, available
    Slots(SlotKind, u32, u32),
    // expected slot
    WrongSlot(SlotKind),
    NotAModule,
    NotADrone,
    NotAFighter,
    NotAnImplant,
    SlotTaken,
    // expected number
    WrongSlotIndex(u16),
    SubsystemTaken,
    // type id, required, level
    Skill(i32, u8, u8),
    // ship, item
    RigSize(u8, u8),
    ShipRestricted,
    CapitalItem,
    StructureItem,
    ShipItem,
    // group id, limit, used, allowed
    MaxGroup(i32, GroupLimit, u32, u32),
    // type id, used, allowed
    MaxType(i32, u32, u32),
    NotAHull,
    NotAMode,
    // type id
    NotASkill(i32),
    // group id
    Banned(i32),
    // used, allowed
    Points(u32, u32),
    // type id
    UnknownType(i32),
    // rule, sub, the four words of the payload
    Numbers(u8, u8, u32, u32, u32, u32),
}

// Rust's `Violation`.
#[derive(Clone, Copy)]
pub struct Entry {
    pub target: Target,
    pub rule: Rule,
}

// A rule's number, its sub, and the four words of its payload: the rules in Rust's order.
#[tactic(auto, using(numbers::proofs::Casts::casts), unfolding(crate::specs::Entries::fields))]
fn pack(rule: Rule) -> (u8, u8, [u32; 4])
    ensures { result ≡ fields rule }
{
    match rule {
        Rule::Resource(kind, used, available) => {
            let u = floats::f64_bits(used);
            let a = floats::f64_bits(available);
            (
                1,
                kind as u8,
                [
                    image::low32(u),
                    image::high32(u),
                    image::low32(a),
                    image::high32(a),
                ],
            )
        }
        Rule::Slots(slot, used, available) => (2, slot as u8, [used, available, 0, 0]),
        Rule::WrongSlot(expected) => (3, expected as u8, [0; 4]),
        Rule::NotAModule => (4, 0, [0; 4]),
        Rule::NotADrone => (5, 0, [0; 4]),
        Rule::NotAFighter => (6, 0, [0; 4]),
        Rule::NotAnImplant => (7, 0, [0; 4]),
        Rule::SlotTaken => (8, 0, [0; 4]),
        Rule::WrongSlotIndex(expected) => (9, 0, [u32::from(expected), 0, 0, 0]),
        Rule::SubsystemTaken => (10, 0, [0; 4]),
        Rule::Skill(id, required, level) => (
            11,
            0,
            [image::bits(id), u32::from(required), u32::from(level), 0],
        ),
        Rule::RigSize(ship, item) => (12, 0, [u32::from(ship), u32::from(item), 0, 0]),
        Rule::ShipRestricted => (13, 0, [0; 4]),
        Rule::CapitalItem => (14, 0, [0; 4]),
        Rule::StructureItem => (15, 0, [0; 4]),
        Rule::ShipItem => (16, 0, [0; 4]),
        Rule::MaxGroup(id, limit, used, allowed) => (
            17,
            limit as u8,
            [image::bits(id), used, allowed, 0],
        ),
        Rule::MaxType(id, used, allowed) => (18, 0, [image::bits(id), used, allowed, 0]),
        Rule::NotAHull => (19, 0, [0; 4]),
        Rule::NotAMode => (20, 0, [0; 4]),
        Rule::NotASkill(id) => (21, 0, [image::bits(id), 0, 0, 0]),
        Rule::Banned(group) => (24, 0, [image::bits(group), 0, 0, 0]),
        Rule::Points(used, allowed) => (25, 0, [used, allowed, 0, 0]),
        Rule::UnknownType(id) => (26, 0, [image::bits(id), 0, 0, 0]),
        Rule::Numbers(code, sub, a, b, c, d) => (code, sub, [a, b, c, d]),
    }
}

// A target's number and its pair index.
fn place(target: Target) -> (u8, u32)
    ensures { result ≡ place target }
{
    match target {
        Target::Ship => (0, 0),
        Target::Item(index) => (1, index),
    }
}

// The 24 bytes of an entry from a place on: target, rule, sub, zero, pair index, payload.
fn write(out: &mut [u8], at: usize, e: Entry)
    requires { at + 24 ≤ length out.old }
    ensures { out.new ≡ put out.old at (entry_bytes e) }
{
    let (target, index) = place(e.target);
    let (code, sub, payload) = pack(e.rule);
    out[at] = target;
    out[at + 1] = code;
    out[at + 2] = sub;
    out[at + 3] = 0;
    image::put_u32(out, at + 4, index);
    for (i, word) in payload.iter().enumerate() {
        image::put_u32(out, at + 8 + 4 * i, *word);
    }
}

// Entries as they are written: a buffer, and how many were emitted to it so far. That the count has room for more (`Room`) is asked in
// clauses: for how many more is each function's own number, and no fact about a writer. So is how few were emitted (`entries.new.n ≤ ..`),
// which the next caller's room is taken from; it follows from `Emitted` by the length of a list, which would be an answer at each call.
#[derive(Drop)]
pub struct Entries<'a> {
    out: &'a mut [u8],
    n: usize,
}

impl<'a> Entries<'a> {
    // None yet, in front of a buffer.
    pub fn new(out: &'a mut [u8]) -> Self
        ensures { Fresh out.entry result }
    {
        Entries { out, n: 0 }
    }

    // How many were emitted, whether or not there was room.
    pub fn count(&self) -> usize
        ensures { result ≡ self.now.n }
    {
        self.n
    }

    // Entry number n, where the buffer has room for it; it counts in any case, and over an empty buffer it only counts.
    pub fn emit(&mut self, e: Entry)
        requires { Room self.old.n 1 }
        ensures { Emitted self.old self.new (e ∷ []) }
    {
        let n = self.n;
        self.n = n + 1;
        if n < self.out.len() / 24 {
            write(self.out, 24 * n, e);
        }
    }

    // An entry where a test holds. Beside `emit`, since an `if` at each of its calls would be longer.
    pub fn emit_when(&mut self, test: bool, e: Entry)
        requires { Room self.old.n 1 }
        ensures { Emitted self.old self.new (when test e) }
    {
        if test {
            self.emit(e);
        }
    }
}
