// The racks and the hardpoints of a ship, and how many items take them: validate/slot.rs, `RACKS`, `HARDPOINTS` and `report`.
#![tactic(auto)]

ghost use Rattle.std.specs.Prelude.{◌≡◌, ◌+◌, ◌<◌, ◌≤◌, length, map};
ghost use Rattle.words.specs.Words.{each, count_of};
ghost use Rattle.entry.specs.Wrote.{Room};
ghost use Rattle.entry.specs.Emitted.{Emitted};
ghost use Rattle.context.specs.Gathered.{pair_count};
ghost use Rattle.context.specs.Held.{pair_in, pairs_in, context_in};
ghost use Rattle.racks.specs.Racks.{takes_hardpoint, racks_and_hardpoints};
ghost use Rattle.racks.specs.Taking.{takes, taken, row_of, row_said, row_numbered};

use context::Context;
use entry::{Entries, Entry, Rule, Target};
use numbers::{SlotKind, names};

// A slot, and the name of the ship attribute saying how many of them it has.
#[derive(Clone, Copy)]
pub struct Row {
    pub slot: SlotKind,
    pub name: u32,
}

// A ship without the attribute has no such rack at all.
const RACKS: [Row; 6] = [
    Row {
        slot: SlotKind::High,
        name: names::HI_SLOTS,
    },
    Row {
        slot: SlotKind::Medium,
        name: names::MED_SLOTS,
    },
    Row {
        slot: SlotKind::Low,
        name: names::LOW_SLOTS,
    },
    Row {
        slot: SlotKind::Rig,
        name: names::RIG_SLOTS,
    },
    Row {
        slot: SlotKind::Subsystem,
        name: names::MAX_SUBSYSTEMS,
    },
    Row {
        slot: SlotKind::Service,
        name: names::SERVICE_SLOTS,
    },
];

// A weapon takes a hardpoint on top of the slot it sits in.
const HARDPOINTS: [Row; 2] = [
    Row {
        slot: SlotKind::Turret,
        name: names::TURRET_SLOTS_LEFT,
    },
    Row {
        slot: SlotKind::Launcher,
        name: names::LAUNCHER_SLOTS_LEFT,
    },
];

// The row of a kind of slot by its number, in either table.
pub fn row_at(number: u8) -> Option<Row>
    ensures { row_said result ≡ row_numbered number }
{
    let i = number as usize;
    if i < RACKS.len() {
        return RACKS.get(i).copied();
    }
    HARDPOINTS.get(i - RACKS.len()).copied()
}

// Whether pair i is fitted and takes a hardpoint.
fn takes_hardpoint(context: &Context, slot: SlotKind, i: usize) -> bool
    requires { i < pair_count context.now.fit.now }
    ensures { result ≡ takes_hardpoint slot (pair_in context.now i) }
{
    context.is_fitted_at(i) & (context.hardpoint(i) == Some(slot as u8))
}

// Whether pair i sits in a rack or takes a hardpoint.
pub fn takes(context: &Context, slot: SlotKind, i: usize) -> bool
    requires { i < pair_count context.now.fit.now }
    ensures { result ≡ takes slot (pair_in context.now i) }
{
    match slot {
        SlotKind::Turret | SlotKind::Launcher => takes_hardpoint(context, slot, i),
        _ => context.is_in(i, slot as u8),
    }
}

// How many pairs sit in a rack or take a hardpoint. Not by `takes`, which would ask of each pair which slot it is.
fn used(context: &Context, slot: SlotKind) -> u32
    ensures { result ≡ count_of (takes slot) (pairs_in context.now) }
{
    match slot {
        SlotKind::Turret | SlotKind::Launcher => {
            context.count(|i| takes_hardpoint(context, slot, i))
        }
        _ => context.count(|i| context.is_in(i, slot as u8)),
    }
}

// More items in a rack or on a hardpoint than the ship has of them.
fn report(context: &Context, row: Row, entries: &mut Entries)
    requires { Room entries.old.n 1 }
    ensures { let x = context_in context.now in
        let ps = pairs_in context.now in
        Emitted entries.old entries.new (taken x ps (row_of row)) × (entries.new.n ≤ entries.old.n + 1) }
{
    if let Some(id) = context.catalogue.attribute_id(row.name) {
        let used = used(context, row.slot);
        let available = floats::to_u32(context.fit.amount(0, id));
        let test = used > available;
        entries.emit_when(
            test,
            Entry {
                target: Target::Ship,
                rule: Rule::Slots(row.slot, used, available),
            },
        );
    }
}

// The rows of a table, in order.
fn report_all(context: &Context, rows: &[Row], entries: &mut Entries)
    requires { Room entries.old.n (length rows.now) }
    ensures { let x = context_in context.now in
        let ps = pairs_in context.now in
        Emitted entries.old entries.new (each (map row_of rows.now) (taken x ps)) × (entries.new.n ≤ entries.old.n + length rows.now) }
{
    for row in rows {
        report(context, *row, entries);
    }
}

// Racks, then hardpoints.
pub fn validate(context: &Context, entries: &mut Entries)
    requires { Room entries.old.n 8 }
    ensures { let x = context_in context.now in
        let ps = pairs_in context.now in
        Emitted entries.old entries.new (racks_and_hardpoints x ps) × (entries.new.n ≤ entries.old.n + 8) }
{
    report_all(context, &RACKS, entries);
    report_all(context, &HARDPOINTS, entries);
}
