// Which items go on which ship: Rust's `validate/item.rs`, all but its limits, which `limits` has.
#![tactic(auto)]

ghost use Rattle.std.specs.Prelude.{◌≡◌, ◌||◌, ◌+◌, ◌*◌, ◌/◌, ◌<◌, ◌≤◌, length};
ghost use Rattle.std.specs.Float.Ieee.{ne};
ghost use Rattle.words.specs.Words.{any_of, table};
ghost use Rattle.numbers.specs.Sizes.{most_pairs};
ghost use Rattle.floats.specs.Floats.{zero_f};
ghost use Rattle.keys.specs.Keys.{key_at};
ghost use Rattle.catalogue.specs.Catalogue.{catalogue_of};
ghost use Rattle.fit.specs.Fit.{result_count, result_of};
ghost use Rattle.fit.specs.Lookups.{amount};
ghost use Rattle.entry.specs.Wrote.{Room};
ghost use Rattle.entry.specs.Emitted.{Emitted};
ghost use Rattle.context.specs.Context.{said};
ghost use Rattle.context.specs.Gathered.{pair_count};
ghost use Rattle.context.specs.Held.{pair_in, pairs_in, context_in};
ghost use Rattle.item.specs.Item as Item;
ghost use Rattle.item.specs.Item.{standup_fighters, is_restricted, is_structure, is_capital_item, is_standup};
ghost use Rattle.item.specs.Item.{rig_size_at, standup_at, item_rules};
ghost use Rattle.item.specs.Ids.{IdsOf, listing, listed_under, listed_in, lists_others, marked_under, marked_in};
ghost use Rattle.item.specs.Flags.{flag_of, Flagged, OnlyAdded, any_flagged, ShipIds};

use catalogue::Catalogue;
use context::Context;
use entry::{Entries, Rule};
use numbers::{categories, names, slots};

// The attributes naming the ship types an item may go on.
const SHIP_TYPES: [u32; 13] = [
    names::FITS_TO_SHIP_TYPE,
    names::CAN_FIT_SHIP_TYPE_1,
    names::CAN_FIT_SHIP_TYPE_2,
    names::CAN_FIT_SHIP_TYPE_3,
    names::CAN_FIT_SHIP_TYPE_4,
    names::CAN_FIT_SHIP_TYPE_5,
    names::CAN_FIT_SHIP_TYPE_6,
    names::CAN_FIT_SHIP_TYPE_7,
    names::CAN_FIT_SHIP_TYPE_8,
    names::CAN_FIT_SHIP_TYPE_9,
    names::CAN_FIT_SHIP_TYPE_10,
    names::CAN_FIT_SHIP_TYPE_11,
    names::CAN_FIT_SHIP_TYPE_12,
];

// The attributes naming the ship groups an item may go on.
const SHIP_GROUPS: [u32; 20] = [
    names::CAN_FIT_SHIP_GROUP_01,
    names::CAN_FIT_SHIP_GROUP_02,
    names::CAN_FIT_SHIP_GROUP_03,
    names::CAN_FIT_SHIP_GROUP_04,
    names::CAN_FIT_SHIP_GROUP_05,
    names::CAN_FIT_SHIP_GROUP_06,
    names::CAN_FIT_SHIP_GROUP_07,
    names::CAN_FIT_SHIP_GROUP_08,
    names::CAN_FIT_SHIP_GROUP_09,
    names::CAN_FIT_SHIP_GROUP_10,
    names::CAN_FIT_SHIP_GROUP_11,
    names::CAN_FIT_SHIP_GROUP_12,
    names::CAN_FIT_SHIP_GROUP_13,
    names::CAN_FIT_SHIP_GROUP_14,
    names::CAN_FIT_SHIP_GROUP_15,
    names::CAN_FIT_SHIP_GROUP_16,
    names::CAN_FIT_SHIP_GROUP_17,
    names::CAN_FIT_SHIP_GROUP_18,
    names::CAN_FIT_SHIP_GROUP_19,
    names::CAN_FIT_SHIP_GROUP_20,
];

// Anything bigger than this is a capital module, and only a capital ship takes one.
const CAPITAL_VOLUME: f64 = 3500.0;

// A fighter squadron has no category telling a structure's apart from a carrier's; these attributes do, one per role.
const STANDUP_FIGHTERS: [u32; 3] = [
    names::FIGHTER_SQUADRON_IS_STANDUP_LIGHT,
    names::FIGHTER_SQUADRON_IS_STANDUP_SUPPORT,
    names::FIGHTER_SQUADRON_IS_STANDUP_HEAVY,
];

// What an item lists of the ships that it goes on: none, others than this one, or this one too.
#[derive(Clone, Copy, PartialEq, Eq)]
pub enum Listing {
    Nothing,
    Others,
    Ship,
}

// The ids of the names in a table: looked up once per rule.
fn ids_of<const N: usize>(catalogue: &Catalogue, rows: &[u32; N]) -> [Option<i32>; N]
    ensures { IdsOf (catalogue_of catalogue.now).names rows.now result }
{
    let mut ids = [None; N];
    // an index: two arrays are gone through in step
    for k in 0..N {
        ids[k] = catalogue.attribute_id(rows[k]);
    }
    ids
}

fn rig_size_at(context: &Context, id: i32, ship: f64, i: usize) -> Option<Rule>
    requires { i < pair_count context.now.fit.now }
    ensures { let p = pair_in context.now i in said p result ≡ rig_size_at id ship p }
{
    if !context.is_in(i, slots::RIG) {
        return None;
    }
    let size = context.fit.value(i + 2, id)?;
    (size != ship).then_some(Rule::RigSize(floats::to_u8(ship), floats::to_u8(size)))
}

pub fn rig_size(context: &Context, entries: &mut Entries)
    requires { Room entries.old.n most_pairs }
    ensures { let x = context_in context.now in
        let ps = pairs_in context.now in
        Emitted entries.old entries.new (Item.rig_size x ps) × (entries.new.n ≤ entries.old.n + most_pairs) }
{
    let Some(id) = context.catalogue.attribute_id(names::RIG_SIZE) else {
        return;
    };
    let Some(ship) = context.fit.value(0, id) else {
        return;
    };
    context.report(|i| rig_size_at(context, id, ship, i), entries);
}

// Flags ids by their lowest 13 bits.
fn flag_ids(ids: &[Option<i32>], flags: &mut [bool])
    requires { length flags.old ≡ 8192 }
    ensures { let after = flags.new in
        (length after ≡ 8192) × Flagged ids.now after × OnlyAdded flags.old after }
{
    for id in ids {
        if let Some(id) = *id {
            flags[(image::bits(id) % 8192) as usize] = true;
        }
    }
}

fn flag_at(ids: &[u8], k: usize, flags: &[bool; 8192]) -> bool
    requires { 4 * k + 4 ≤ length ids.now }
    ensures { result ≡ flag_of flags.now (key_at ids.now k) }
{
    flags[(image::u32_at(ids, 4 * k) % 8192) as usize]
}

// Whether any id in a slice is flagged. The loop runs to its end, so that it has no branch to guess wrong.
fn any_flagged(ids: &[u8], flags: &[bool; 8192]) -> bool
    ensures { let keys = table (length ids.now / 4) (key_at ids.now) in
        result ≡ any_of (flag_of flags.now) keys }
{
    let mut found = false;
    for k in 0..ids.len() / 4 {
        found |= flag_at(ids, k, flags);
    }
    found
}

// The ship, or its group, that a result names under an id.
fn listed_under(context: &Context, j: usize, known: Option<i32>) -> Option<i32>
    requires { j < result_count context.now.fit.now + 2 }
    ensures { result ≡ listed_under (result_of context.now.fit.now j) known }
{
    Some(floats::to_i32(context.fit.value(j, known?)?))
}

// What a result lists under some ids; nothing for an item that goes on any ship.
fn listed(context: &Context, j: usize, ids: &[Option<i32>], ship: i32) -> Listing
    requires { j < result_count context.now.fit.now + 2 }
    ensures { result ≡ listing ship (listed_in (result_of context.now.fit.now j) ids.now) }
{
    let mut listing = Listing::Nothing;
    for id in ids {
        if let Some(named) = listed_under(context, j, *id) {
            if named == ship {
                return Listing::Ship;
            }
            listing = Listing::Others;
        }
    }
    listing
}

// An item that lists ships, and not this one by its type or its group.
fn lists_others(types: Listing, groups: Listing) -> bool
    ensures { result ≡ lists_others types groups }
{
    match (types, groups) {
        (Listing::Ship, _) | (_, Listing::Ship) => false,
        (Listing::Nothing, Listing::Nothing) => false,
        _ => true,
    }
}

// The ids under which an item names ships, looked up once for all pairs, and flags of all of them.
#[derive(Drop)]
struct ShipLists<'a, 'b> {
    context: &'b Context<'b>,
    types: &'a [Option<i32>; 13],
    groups: &'a [Option<i32>; 20],
    flags: &'a [bool; 8192],
    ghost known: { ShipIds (catalogue_of context.now.catalogue.now).names types.now groups.now flags.now },
}

impl<'a, 'b> ShipLists<'a, 'b> {
    // Whether a result may list ships: most list none, and need no search for each of the 33 ids.
    fn may_list(&self, j: usize) -> bool
        requires { j < result_count self.now.context.now.fit.now + 2 }
        ensures { result ≡ any_flagged self.now.flags.now (result_of self.now.context.now.fit.now j) }
    {
        any_flagged(self.context.fit.ids_of(j), self.flags)
    }

    fn is_restricted(&self, i: usize) -> bool
        requires { i < pair_count self.now.context.now.fit.now }
        ensures { let x = self.now.context.now in
            result ≡ is_restricted (context_in x) (pair_in x i) }
    {
        let ShipLists {
            context,
            types,
            groups,
            ..
        } = *self;
        if !context.is_fitted_at(i) {
            return false;
        }
        if !self.may_list(i + 2) {
            return false;
        }
        let ship = context.fit.ship();
        // an item names a ship that the catalogue lacks by group 0
        let group = context.ship_type().map_or(0, |info| info.group);
        let of_types = listed(context, i + 2, types, ship);
        let of_groups = listed(context, i + 2, groups, group);
        lists_others(of_types, of_groups)
    }
}

pub fn ship_restricted(context: &Context, entries: &mut Entries)
    requires { Room entries.old.n most_pairs }
    ensures { let x = context_in context.now in
        let ps = pairs_in context.now in
        Emitted entries.old entries.new (Item.ship_restricted x ps) × (entries.new.n ≤ entries.old.n + most_pairs) }
{
    let types = ids_of(context.catalogue, &SHIP_TYPES);
    let groups = ids_of(context.catalogue, &SHIP_GROUPS);
    let mut flags = [false; 8192];
    flag_ids(&types, &mut flags);
    flag_ids(&groups, &mut flags);
    let lists = ShipLists {
        // lent again, for as long as both of its lifetimes last
        context: &*context,
        types: &types,
        groups: &groups,
        flags: &flags,
    };
    let restricted = |i| lists.is_restricted(i).then_some(Rule::ShipRestricted);
    context.report(restricted, entries);
}

// A type that the catalogue lacks reads as one of category 0, and so is no structure.
fn is_structure(context: &Context) -> bool
    ensures { result ≡ is_structure (context_in context.now) }
{
    let category = context.ship_type().map_or(0, |info| info.category);
    category == categories::STRUCTURE
}

// A capital ship, or a structure.
fn takes_capitals(context: &Context, capital: i32) -> bool
    ensures { let x = context_in context.now in
        result ≡ (ne (amount x.ship_result capital) zero_f || is_structure x) }
{
    context.fit.amount(0, capital) != 0.0 || is_structure(context)
}

// A capital rig is held apart by its rig size instead.
fn is_capital_item(context: &Context, volume: i32, i: usize) -> bool
    requires { i < pair_count context.now.fit.now }
    ensures { result ≡ is_capital_item volume (pair_in context.now i) }
{
    context.is_fitted_at(i)
        && !context.is_in(i, slots::RIG)
        && context.fit.amount(i + 2, volume) > CAPITAL_VOLUME
}

pub fn capital_item(context: &Context, entries: &mut Entries)
    requires { Room entries.old.n most_pairs }
    ensures { let x = context_in context.now in
        let ps = pairs_in context.now in
        Emitted entries.old entries.new (Item.capital_item x ps) × (entries.new.n ≤ entries.old.n + most_pairs) }
{
    let Some(volume) = context.catalogue.attribute_id(names::VOLUME) else {
        return;
    };
    let Some(capital) = context.catalogue.attribute_id(names::IS_CAPITAL_SIZE) else {
        return;
    };
    if takes_capitals(context, capital) {
        return;
    }
    context.report(
        |i| is_capital_item(context, volume, i).then_some(Rule::CapitalItem),
        entries,
    );
}

fn marked_under(context: &Context, j: usize, known: Option<i32>) -> bool
    requires { j < result_count context.now.fit.now + 2 }
    ensures { result ≡ marked_under (result_of context.now.fit.now j) known }
{
    match known {
        Some(id) => context.fit.amount(j, id) != 0.0,
        None => false,
    }
}

fn is_marked(context: &Context, j: usize, ids: &[Option<i32>]) -> bool
    requires { j < result_count context.now.fit.now + 2 }
    ensures { result ≡ marked_in (result_of context.now.fit.now j) ids.now }
{
    ids.iter().any(|id| marked_under(context, j, *id))
}

// The marks of a structure's fighters: their ids are looked up once for all pairs.
#[derive(Drop)]
struct Marks<'a> {
    context: &'a Context<'a>,
    ids: [Option<i32>; 3],
    ghost known: { IdsOf (catalogue_of context.now.catalogue.now).names standup_fighters ids },
}

impl<'a> Marks<'a> {
    fn new(context: &'a Context<'a>) -> Self
        ensures { result.context.now ≡ context.now }
    {
        let ids = ids_of(context.catalogue, &STANDUP_FIGHTERS);
        Marks { context, ids }
    }

    fn is_standup(&self, i: usize) -> bool
        requires { i < pair_count self.now.context.now.fit.now }
        ensures { let x = self.now.context.now in
            result ≡ is_standup (context_in x) (pair_in x i) }
    {
        let category = self.context.type_at(i).map_or(0, |info| info.category);
        category == categories::STRUCTURE_MODULE || is_marked(self.context, i + 2, &self.ids)
    }

    #[tactic(auto, unfolding(context::specs::Context::said, crate::specs::Item::standup_at, words::specs::Words::when))]
    fn standup_at(&self, i: usize) -> Option<Rule>
        requires { i < pair_count self.now.context.now.fit.now }
        ensures { let x = self.now.context.now in
            said (pair_in x i) result ≡ standup_at (context_in x) (pair_in x i) }
    {
        if !self.context.is_on_hull(i) {
            return None;
        }
        let standup = self.is_standup(i);
        match (is_structure(self.context), standup) {
            (true, false) => Some(Rule::ShipItem),
            (false, true) => Some(Rule::StructureItem),
            _ => None,
        }
    }
}

pub fn standup(context: &Context, entries: &mut Entries)
    requires { Room entries.old.n most_pairs }
    ensures { let x = context_in context.now in
        let ps = pairs_in context.now in
        Emitted entries.old entries.new (Item.standup x ps) × (entries.new.n ≤ entries.old.n + most_pairs) }
{
    let marks = Marks::new(context);
    context.report(|i| marks.standup_at(i), entries);
}

pub fn validate(context: &Context, entries: &mut Entries)
    requires { Room entries.old.n (4 * most_pairs) }
    ensures { let x = context_in context.now in
        let ps = pairs_in context.now in
        Emitted entries.old entries.new (item_rules x ps) × (entries.new.n ≤ entries.old.n + 4 * most_pairs) }
{
    rig_size(context, entries);
    ship_restricted(context, entries);
    capital_item(context, entries);
    standup(context, entries);
}
