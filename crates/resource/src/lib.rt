// What the ship has only so much of: validate/resource.rs.
#![tactic(auto)]

ghost use Rattle.std.specs.Prelude.{◌≡◌, ◌+◌, ◌<◌, ◌≤◌, if◌then◌else◌};
ghost use Rattle.std.specs.Float.{binary64};
ghost use Rattle.std.specs.Float.Ieee.{add};
ghost use Rattle.numbers.specs.Slots as Slots;
ghost use Rattle.floats.specs.Floats.{of_nat};
ghost use Rattle.fit.specs.Fit.{result_of};
ghost use Rattle.fit.specs.Lookups.{amount};
ghost use Rattle.entry.specs.Wrote.{Room};
ghost use Rattle.entry.specs.Emitted.{Emitted};
ghost use Rattle.context.specs.Context.{is_in};
ghost use Rattle.context.specs.Gathered.{pair_count};
ghost use Rattle.context.specs.Held.{pair_in, pairs_in, context_in};
ghost use Rattle.resource.specs.Rows.{row_of};
ghost use Rattle.resource.specs.Resource.{is_launched, launched, cargo_volume, cargo_used};
ghost use Rattle.resource.specs.Resource.{resource, load_of, loads, launched_drones, cargo, resources};

use context::Context;
use entry::{Entries, Entry, Rule, Target};
use floats::Load;
use numbers::{Resource, names, slots, states};

// A resource, the name of its load, the name of its output.
#[derive(Clone, Copy)]
struct Row {
    resource: Resource,
    load: u32,
    output: u32,
}

// The resources the dogma adds up itself: the attribute holding what is used, against the one holding how much there is.
const LOADS: [Row; 10] = [
    Row {
        resource: Resource::Cpu,
        load: names::CPU_LOAD,
        output: names::CPU_OUTPUT,
    },
    Row {
        resource: Resource::Powergrid,
        load: names::POWER_LOAD,
        output: names::POWER_OUTPUT,
    },
    Row {
        resource: Resource::Calibration,
        load: names::UPGRADE_LOAD,
        output: names::UPGRADE_CAPACITY,
    },
    Row {
        resource: Resource::DroneBay,
        load: names::DRONE_CAPACITY_LOAD,
        output: names::DRONE_CAPACITY,
    },
    Row {
        resource: Resource::DroneBandwidth,
        load: names::DRONE_BANDWIDTH_LOAD,
        output: names::DRONE_BANDWIDTH,
    },
    Row {
        resource: Resource::FighterBay,
        load: names::FIGHTER_CAPACITY_LOAD,
        output: names::FIGHTER_CAPACITY,
    },
    Row {
        resource: Resource::FighterTubes,
        load: names::FIGHTER_TUBES_USED,
        output: names::FIGHTER_TUBES,
    },
    Row {
        resource: Resource::LightFighterTubes,
        load: names::FIGHTER_LIGHT_SLOTS_USED,
        output: names::FIGHTER_LIGHT_SLOTS,
    },
    Row {
        resource: Resource::SupportFighterTubes,
        load: names::FIGHTER_SUPPORT_SLOTS_USED,
        output: names::FIGHTER_SUPPORT_SLOTS,
    },
    Row {
        resource: Resource::HeavyFighterTubes,
        load: names::FIGHTER_HEAVY_SLOTS_USED,
        output: names::FIGHTER_HEAVY_SLOTS,
    },
];

// An entry about the ship, where its load is over.
fn resource(kind: Resource, load: Load, entries: &mut Entries)
    requires { Room entries.old.n 1 }
    ensures { Emitted entries.old entries.new (resource kind load.used load.available) }
{
    let target = Target::Ship;
    let rule = Rule::Resource(kind, load.used, load.available);
    entries.emit_when(floats::over(load), Entry { target, rule });
}

// What is used of a resource and how much the ship has of it.
fn load_on_ship(context: &Context, load: i32, output: i32) -> Load
    ensures { let ship = amount (result_of context.now.fit.now 0) in
        (result.used ≡ ship load) × (result.available ≡ ship output) }
{
    Load {
        used: context.fit.amount(0, load),
        available: context.fit.amount(0, output),
    }
}

// One row of the loads, where both names have ids.
fn load_row(context: &Context, row: Row, entries: &mut Entries)
    requires { Room entries.old.n 1 }
    ensures { Emitted entries.old entries.new (load_of (context_in context.now) (row_of row)) }
{
    let Some(load) = context.catalogue.attribute_id(row.load) else {
        return;
    };
    let Some(output) = context.catalogue.attribute_id(row.output) else {
        return;
    };
    resource(row.resource, load_on_ship(context, load, output), entries);
}

fn loads(context: &Context, entries: &mut Entries)
    requires { Room entries.old.n 10 }
    ensures { Emitted entries.old entries.new (loads (context_in context.now)) × (entries.new.n ≤ entries.old.n + 10) }
{
    for row in LOADS {
        load_row(context, row, entries);
    }
}

// A stack of drones that is in space.
pub fn launched_at(context: &Context, i: usize) -> u64
    requires { i < pair_count context.now.fit.now }
    ensures { let p = pair_in context.now i in
        (result ≡ (if is_launched p then p.quantity else 0)) × (result < 4294967296) }
{
    let slot = context.fit.item_slot(i);
    if slot != slots::DRONE_BAY {
        return 0;
    }
    let state = context.fit.result_state(i + 2);
    if state < states::ACTIVE {
        return 0;
    }
    u64::from(context.fit.item_quantity(i))
}

// How many drones are in space, rather than how much room they take up, and how many there may be. 256 stacks of the largest
// quantity do not wrap.
fn drones_load(context: &Context, available: f64) -> Load
    ensures { (result.used ≡ of_nat (launched (pairs_in context.now))) × (result.available ≡ available) }
{
    let mut sum: u64 = 0;
    for i in 0..context.fit.pair_count() {
        sum += launched_at(context, i);
    }
    Load {
        used: std::num::nearest_u64_to_f64(sum),
        available,
    }
}

fn launched_drones(context: &Context, entries: &mut Entries)
    requires { Room entries.old.n 1 }
    ensures { let x = context_in context.now in
        let ps = pairs_in context.now in
        Emitted entries.old entries.new (launched_drones x ps) × (entries.new.n ≤ entries.old.n + 1) }
{
    let Some(id) = context.catalogue.attribute_id(names::MAX_ACTIVE_DRONES) else {
        return;
    };
    let load = drones_load(context, context.fit.amount(1, id));
    resource(Resource::LaunchedDrones, load, entries);
}

// The room that pair i takes up in the cargo bay. A type that the catalogue lacks takes up none.
pub fn room_at(context: &Context, i: usize) -> f64
    requires { i < pair_count context.now.fit.now }
    ensures { result ≡ cargo_volume (pair_in context.now i) }
{
    let quantity = context.fit.item_quantity(i);
    let volume = context.type_at(i).map_or(0.0, |info| info.volume);
    volume * floats::of_u32(quantity)
}

// The cargo so far with what pair i adds to it.
fn cargo_with(context: &Context, sum: f64, i: usize) -> f64
    requires { i < pair_count context.now.fit.now }
    ensures { let p = pair_in context.now i in
        result ≡ (if is_in Slots.cargo p then add binary64 sum (cargo_volume p) else sum) }
{
    let slot = context.fit.item_slot(i);
    if slot != slots::CARGO {
        return sum;
    }
    sum + room_at(context, i)
}

// What the cargo takes up and how much the ship holds. Cargo is not calculated, so what it takes up comes from the type itself.
fn cargo_load(context: &Context, capacity: i32) -> Load
    ensures { (result.used ≡ cargo_used (pairs_in context.now))
        × (result.available ≡ amount (result_of context.now.fit.now 0) capacity) }
{
    let available = context.fit.amount(0, capacity);
    let mut used = 0.0;
    for i in 0..context.fit.pair_count() {
        used = cargo_with(context, used, i);
    }
    Load { used, available }
}

fn cargo(context: &Context, entries: &mut Entries)
    requires { Room entries.old.n 1 }
    ensures { let x = context_in context.now in
        let ps = pairs_in context.now in
        Emitted entries.old entries.new (cargo x ps) × (entries.new.n ≤ entries.old.n + 1) }
{
    let Some(id) = context.catalogue.attribute_id(names::CAPACITY) else {
        return;
    };
    resource(Resource::CargoBay, cargo_load(context, id), entries);
}

// resource.rs, `validate`.
pub fn validate(context: &Context, entries: &mut Entries)
    requires { Room entries.old.n 12 }
    ensures { let x = context_in context.now in
        let ps = pairs_in context.now in
        Emitted entries.old entries.new (resources x ps) × (entries.new.n ≤ entries.old.n + 12) }
{
    loads(context, entries);
    launched_drones(context, entries);
    cargo(context, entries);
}
