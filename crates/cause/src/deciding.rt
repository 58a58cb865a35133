// What decides whether a part still breaks the rule of an entry whose own pair is in it.
ghost use Rattle.std.specs.Prelude.{◌≡◌, ◌+◌, ◌*◌, ◌<◌, ◌≤◌, cond, take, get_or, false};
ghost use Rattle.context.specs.Gathered.{pair_count};
ghost use Rattle.context.specs.Held.{pair_in};
ghost use Rattle.parts.specs.Parts.{chosen, size};
ghost use Rattle.cause.specs.Members.{is_counted};
ghost use Rattle.cause.specs.Decided.{Inside, load_broken, broken_in, decides, Decides};
ghost use Rattle.cause.specs.Decided.{Stacks, Rooms, room_of, total, with_room, stowed, Sums, Ready, Untried};

use crate::members;
use crate::shown::Shown;
use context::Context;
use floats::Load;
use numbers::{Resource, names, slots};

const RESOURCE: u8 = 1;

#[derive(Drop)]
pub enum Deciding {
    // the drones that each pair has in space, against how many there may be
    Drones([u32; 256], f64),
    // what each pair takes up in Cargo, if it is there, the sums of those before each, against the ship's room
    Cargo([Option<f64>; 256], [f64; 256], f64),
    // the pairs that are counted, against how many are allowed
    Counted([bool; 256], u32),
    // the entry's own pair alone
    Nothing,
}

#[tactic(auto, unfolding(crate::specs::Members::is_counted, words::specs::Words::any_of))]
fn is_counted(rule: u8) -> bool
    ensures { result ≡ is_counted rule }
{
    matches!(
        rule,
        members::SLOTS
            | members::SLOT_TAKEN
            | members::SUBSYSTEM_TAKEN
            | members::MAX_GROUP
            | members::MAX_TYPE
    )
}

impl Deciding {
    fn of_resource(context: &Context, resource: u8) -> Deciding
        ensures broken { Decides context.now result (load_broken context.now resource) }
        ensures ready { Ready (pair_count context.now.fit.now) result }
    {
        if resource == Resource::LaunchedDrones as u8 {
            return Deciding::Drones(
                stacks(context),
                members::amount_of(context, names::MAX_ACTIVE_DRONES, 1),
            );
        }
        if resource == Resource::CargoBay as u8 {
            let rooms = rooms(context);
            let before = sums_before(&rooms, context.fit.pair_count());
            return Deciding::Cargo(
                rooms,
                before,
                members::amount_of(context, names::CAPACITY, 0),
            );
        }
        Deciding::Nothing
    }

    pub fn new(context: &Context, shown: Shown) -> Deciding
        requires { Inside context.now shown }
        ensures broken { Decides context.now result (broken_in context.now shown) }
        ensures ready { Ready (pair_count context.now.fit.now) result }
    {
        if shown.rule == RESOURCE {
            return Deciding::of_resource(context, shown.sub);
        }
        if is_counted(shown.rule) {
            return Deciding::Counted(
                members::members(context, shown),
                members::limit(context, shown),
            );
        }
        Deciding::Nothing
    }

    // Whether the rule is still broken by the pairs that are kept: all before pair i, which is dropped, and some of those behind it.
    pub fn is_broken_without(&self, context: &Context, kept: &[bool; 256], i: usize) -> bool
        requires ready { Ready (pair_count context.now.fit.now) self.now }
        requires within { i < pair_count context.now.fit.now }
        requires dropped { Untried i kept.now × (get_or kept.now i false ≡ false) }
        ensures { result ≡ decides context.now self.now (take (pair_count context.now.fit.now) kept.now) }
    {
        let n = context.fit.pair_count();
        match self {
            Deciding::Drones(stacks, available) => {
                let used = std::num::nearest_u64_to_f64(drones_kept(stacks, kept, n));
                floats::over(Load {
                    used,
                    available: *available,
                })
            }
            Deciding::Cargo(rooms, before, available) => {
                let used = cargo_kept(rooms, before[i], kept, i, n);
                floats::over(Load {
                    used,
                    available: *available,
                })
            }
            Deciding::Counted(members, limit) => { *limit < count_kept(members, kept, n) }
            Deciding::Nothing => true,
        }
    }
}

// How many of the first n are members and kept.
fn count_kept(members: &[bool; 256], kept: &[bool; 256], n: usize) -> u32
    requires { n ≤ 256 }
    ensures { result ≡ size (chosen (take n kept.now) (take n members.now)) }
{
    let mut sum: u32 = 0;
    for i in 0..n {
        sum += words::one_if(members[i] & kept[i]);
    }
    sum
}

// How many drones each pair has in space.
fn stacks(context: &Context) -> [u32; 256]
    ensures { Stacks (pair_count context.now.fit.now) context.now result }
{
    let mut stacks = [0; 256];
    for i in 0..context.fit.pair_count() {
        stacks[i] = resource::launched_at(context, i) as u32;
    }
    stacks
}

// What pair i takes up in Cargo, if it is there.
fn room_at(context: &Context, i: usize) -> Option<f64>
    requires { i < pair_count context.now.fit.now }
    ensures { result ≡ room_of (pair_in context.now i) }
{
    if !context.is_in(i, slots::CARGO) {
        return None;
    }
    Some(resource::room_at(context, i))
}

// What each pair takes up there.
fn rooms(context: &Context) -> [Option<f64>; 256]
    ensures { Rooms (pair_count context.now.fit.now) context.now result }
{
    let mut rooms = [None; 256];
    for i in 0..context.fit.pair_count() {
        rooms[i] = room_at(context, i);
    }
    rooms
}

fn share(kept: bool, stack: u32) -> u64
    ensures { (result ≡ cond kept stack 0) × (result ≤ 4294967295) }
{
    if kept {
        return u64::from(stack);
    }
    0
}

// The drones of those of the first n that are kept. 256 stacks of the largest quantity do not wrap.
fn drones_kept(stacks: &[u32; 256], kept: &[bool; 256], n: usize) -> u64
    requires { n ≤ 256 }
    ensures { result ≡ total (chosen (take n kept.now) (take n stacks.now)) }
{
    let mut sum: u64 = 0;
    for i in 0..n {
        sum += share(kept[i], stacks[i]);
    }
    sum
}

// A sum with a room, where its pair is kept and in Cargo.
fn with_room(kept: bool, room: Option<f64>, sum: f64) -> f64
    ensures { result ≡ cond kept (with_room sum room) sum }
{
    if !kept {
        return sum;
    }
    match room {
        Some(room) => sum + room,
        None => sum,
    }
}

// The sum of the rooms before each of the first n, in order.
fn sums_before(rooms: &[Option<f64>; 256], n: usize) -> [f64; 256]
    requires { n ≤ 256 }
    ensures { Sums n rooms.now result }
{
    let mut before = [0.0; 256];
    let mut used = 0.0;
    for i in 0..n {
        before[i] = used;
        used = with_room(true, rooms[i], used);
    }
    before
}

// The rooms of those of the first n that are kept, summed in order, from the sum of those before i on.
fn cargo_kept(
    rooms: &[Option<f64>; 256],
    before: f64,
    kept: &[bool; 256],
    i: usize,
    n: usize,
) -> f64
    requires few { (i < n) × (n ≤ 256) }
    requires so_far { before ≡ stowed (take i rooms.now) }
    requires dropped { Untried i kept.now × (get_or kept.now i false ≡ false) }
    ensures { result ≡ stowed (chosen (take n kept.now) (take n rooms.now)) }
{
    let mut used = before;
    for j in i + 1..n {
        used = with_room(kept[j], rooms[j], used);
    }
    used
}
