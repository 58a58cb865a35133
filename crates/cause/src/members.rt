// What the rules count that look at other pairs than their entry's own: which pairs are counted, and how many are allowed.
ghost use Rattle.std.specs.Prelude.{◌≡◌, ◌+◌, ◌<◌};
ghost use Rattle.fit.specs.Fit.{result_count, result_of};
ghost use Rattle.context.specs.Gathered.{pair_count};
ghost use Rattle.context.specs.Held.{pair_in, context_in};
ghost use Rattle.cause.specs.Members.{amount_of, allowed_by, covers, is_beside, allowed_beside};
ghost use Rattle.cause.specs.Decided.{in_slots, slots_allowed, shares_group, group_allowed, member_in, limit_in, Inside, Members};

use crate::shown::Shown;
use context::Context;
use numbers::names;

// Rules by their numbers in an entry.
pub const SLOTS: u8 = 2;

pub const SLOT_TAKEN: u8 = 8;

pub const SUBSYSTEM_TAKEN: u8 = 10;

pub const MAX_GROUP: u8 = 17;

pub const MAX_TYPE: u8 = 18;

// An attribute of result j by its name; 0 where the name has no id.
pub fn amount_of(context: &Context, name: u32, j: usize) -> f64
    requires { j < result_count context.now.fit.now + 2 }
    ensures { result ≡ amount_of (context_in context.now) name (result_of context.now.fit.now j) }
{
    match context.catalogue.attribute_id(name) {
        Some(id) => context.fit.amount(j, id),
        None => 0.0,
    }
}

fn allowed_by(context: &Context, name: u32, j: usize) -> u32
    requires { j < result_count context.now.fit.now + 2 }
    ensures { result ≡ allowed_by (context_in context.now) name (result_of context.now.fit.now j) }
{
    floats::to_u32(amount_of(context, name, j))
}

// Whether pair j is another subsystem than pair i, for the part of the ship that pair i is for.
fn covers(context: &Context, i: usize, j: usize) -> bool
    requires { (i < pair_count context.now.fit.now) × (j < pair_count context.now.fit.now) }
    ensures { let x = context.now in
        result ≡ covers (context_in x) (pair_in x i) (pair_in x j) }
{
    let Some(id) = context.catalogue.attribute_id(names::SUBSYSTEM_SLOT) else {
        return false;
    };
    let Some(part) = context.fit.value(i + 2, id) else {
        return false;
    };
    slot::same_part(context, id, part, i, j)
}

// Whether a group limit of pair i counts pair j.
fn shares_group(context: &Context, limit: u8, i: usize, j: usize) -> bool
    requires { (i < pair_count context.now.fit.now) × (j < pair_count context.now.fit.now) }
    ensures { result ≡ shares_group limit (pair_in context.now i) (pair_in context.now j) }
{
    let Some(row) = limits::row_at(limit) else {
        return false;
    };
    let group = context.type_at(i).map_or(0, |info| info.group);
    limits::in_group(context, group, row.lowest, j)
}

// Whether a rule about pair i counts pair j.
fn is_beside(context: &Context, shown: Shown, i: usize, j: usize) -> bool
    requires { (i < pair_count context.now.fit.now) × (j < pair_count context.now.fit.now) }
    ensures { let x = context.now in
        result ≡ is_beside (context_in x) shown.rule shown.sub (pair_in x i) (pair_in x j) }
{
    match shown.rule {
        SLOT_TAKEN => slot::in_slot_of(context, i, j),
        SUBSYSTEM_TAKEN => covers(context, i, j),
        MAX_GROUP => shares_group(context, shown.sub, i, j),
        MAX_TYPE => limits::of_type(context, context.fit.item_type(i), j),
        _ => false,
    }
}

fn group_allowed(context: &Context, limit: u8, i: usize) -> u32
    requires { i < pair_count context.now.fit.now }
    ensures { result ≡ group_allowed (context_in context.now) limit (pair_in context.now i) }
{
    match limits::row_at(limit) {
        Some(row) => allowed_by(context, row.name, i + 2),
        None => 0,
    }
}

// How many a rule about pair i allows.
fn allowed_beside(context: &Context, shown: Shown, i: usize) -> u32
    requires { i < pair_count context.now.fit.now }
    ensures { let x = context.now in
        result ≡ allowed_beside (context_in x) shown.rule shown.sub (pair_in x i) }
{
    match shown.rule {
        MAX_GROUP => group_allowed(context, shown.sub, i),
        MAX_TYPE => allowed_by(context, names::MAX_TYPE_FITTED, i + 2),
        _ => 0,
    }
}

fn in_slots(context: &Context, kind: u8, j: usize) -> bool
    requires { j < pair_count context.now.fit.now }
    ensures { result ≡ in_slots kind (pair_in context.now j) }
{
    match racks::row_at(kind) {
        Some(row) => racks::takes(context, row.slot, j),
        None => false,
    }
}

fn slots_allowed(context: &Context, kind: u8) -> u32
    ensures { result ≡ slots_allowed (context_in context.now) kind }
{
    match racks::row_at(kind) {
        Some(row) => allowed_by(context, row.name, 0),
        None => 0,
    }
}

fn is_member(context: &Context, shown: Shown, j: usize) -> bool
    requires { Inside context.now shown × (j < pair_count context.now.fit.now) }
    ensures { result ≡ member_in context.now shown (pair_in context.now j) }
{
    if shown.rule == SLOTS {
        return in_slots(context, shown.sub, j);
    }
    match shown.own {
        Some(i) => is_beside(context, shown, i, j),
        None => false,
    }
}

// How many the entry's rule allows.
pub fn limit(context: &Context, shown: Shown) -> u32
    requires { Inside context.now shown }
    ensures { result ≡ limit_in context.now shown }
{
    if shown.rule == SLOTS {
        return slots_allowed(context, shown.sub);
    }
    match shown.own {
        Some(i) => allowed_beside(context, shown, i),
        None => 0,
    }
}

// The pairs that the entry's rule counts.
pub fn members(context: &Context, shown: Shown) -> [bool; 256]
    requires { Inside context.now shown }
    ensures { Members (pair_count context.now.fit.now) context.now shown result }
{
    let mut members = [false; 256];
    for j in 0..context.fit.pair_count() {
        members[j] = is_member(context, shown, j);
    }
    members
}
