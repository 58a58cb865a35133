// What sits in the slots of a ship, and whether it may: validate/slot.rs, the checks of an item. How many there are is counted in `racks`.
#![tactic(auto)]

ghost use Rattle.std.specs.Prelude.{◌≡◌, not, ◌&&◌, ◌++◌, ◌+◌, ◌*◌, ◌<◌, ◌≤◌, None};
ghost use Rattle.words.specs.Words.{when, given, any_of, same};
ghost use Rattle.numbers.specs.Sizes.{most_pairs};
ghost use Rattle.catalogue.specs.Lookups.{name_id};
ghost use Rattle.entry.specs.declared.Rule.TheVariants.{SubsystemTaken};
ghost use Rattle.entry.specs.Entries.{on_item};
ghost use Rattle.entry.specs.Wrote.{Room};
ghost use Rattle.entry.specs.Emitted.{Emitted};
ghost use Rattle.context.specs.Context.{on};
ghost use Rattle.context.specs.Gathered.{pair_count};
ghost use Rattle.context.specs.Held.{pair_in, pairs_in, context_in};
ghost use Rattle.slot.specs.Slot.{wrong_slot, not_a_module, not_a_drone, not_a_fighter, not_an_implant, slot_number_name, wrong_slot_index};
ghost use Rattle.slot.specs.Slot.{holds_one, shares_slot, shares_part, subsystem_taken, slot_checks, slot_rules};
ghost use Rattle.slot.specs.AtPair.{Named, Sits, Places, Holds, Checked, expects};

use catalogue::Catalogue;
use context::Context;
use entry::{Entries, Entry, Rule, Target};
use numbers::{SlotKind, categories, names, slots};

// The attributes that the checks look up by name.
#[derive(Clone, Copy)]
struct Ids {
    implantness: Option<i32>,
    boosterness: Option<i32>,
    part: Option<i32>,
}

fn ids_of(catalogue: &Catalogue) -> Ids
    ensures { Named catalogue.now result }
{
    Ids {
        implantness: catalogue.attribute_id(names::IMPLANTNESS),
        boosterness: catalogue.attribute_id(names::BOOSTERNESS),
        part: catalogue.attribute_id(names::SUBSYSTEM_SLOT),
    }
}

// A slot and an index as one number, so that one comparison tells both: as two fields, `shares_slot` takes 4 times as many instructions.
fn place_of(slot: u8, index: u16) -> u32
    ensures { Sits slot index result }
{
    u32::from(slot) * 65536 + u32::from(index)
}

fn places(context: &Context) -> [u32; 256]
    ensures { Places context.now.fit.now result }
{
    let mut places = [0u32; 256];
    for i in 0..context.fit.pair_count() {
        places[i] = place_of(context.fit.item_slot(i), context.fit.item_index(i));
    }
    places
}

// The slots that hold a single item; a bay holds as many as fit in it.
fn holds_one(context: &Context, i: usize) -> bool
    requires { i < pair_count context.now.fit.now }
    ensures { result ≡ holds_one (pair_in context.now i) }
{
    let slot = context.fit.item_slot(i);
    !((slot == slots::DRONE_BAY) | (slot == slots::FIGHTER_BAY) | (slot == slots::CARGO))
}

// Whether pair j is another than pair i, in the same slot: of one pair, where `Prepared` serves all of them.
#[tactic(auto, unfolding(crate::specs::Slot::shares_slot, context::specs::Context::is_other))]
pub fn in_slot_of(context: &Context, i: usize, j: usize) -> bool
    requires { (i < pair_count context.now.fit.now) × (j < pair_count context.now.fit.now) }
    ensures { result ≡ shares_slot (pair_in context.now i) (pair_in context.now j) }
{
    let fit = context.fit;
    let same_slot = fit.item_slot(j) == fit.item_slot(i);
    (j != i) & (same_slot & (fit.item_index(j) == fit.item_index(i)))
}

// Whether pair j is a subsystem for the part, and another than pair i. A NaN is no part.
pub fn same_part(context: &Context, id: i32, part: f64, i: usize, j: usize) -> bool
    requires { j < pair_count context.now.fit.now }
    ensures { result ≡ shares_part id part (pair_in context.now i) (pair_in context.now j) }
{
    if j == i {
        return false;
    }
    if !context.is_in(j, slots::SUBSYSTEM) {
        return false;
    }
    context.fit.value(j + 2, id).is_some_and(|v| v == part)
}

// Whether another subsystem than pair i is for the part.
fn shares_part(context: &Context, id: i32, part: f64, i: usize) -> bool
    ensures { result ≡ any_of (shares_part id part (pair_in context.now i)) (pairs_in context.now) }
{
    let mut found = false;
    for j in 0..context.fit.pair_count() {
        found |= same_part(context, id, part, i, j);
    }
    found
}

// What the checks read: the attributes and where each pair sits are gathered once for all pairs.
#[derive(Drop)]
struct Prepared<'a> {
    context: &'a Context<'a>,
    ids: Ids,
    places: [u32; 256],
    ghost named: { Named context.now.catalogue.now ids },
    ghost placed: { Places context.now.fit.now places },
}

impl<'a> Prepared<'a> {
    fn new(context: &'a Context<'a>) -> Self
        ensures { result.context.now ≡ context.now }
    {
        Prepared {
            context,
            ids: ids_of(context.catalogue),
            places: places(context),
        }
    }

    // Whether another pair is in the slot of pair i. The pair itself is counted too, and the loop runs to its end, so that the
    // compiler can take many pairs at once; `filter` and `count`, which count in 64 bits, take 3 times as many instructions.
    fn shares_slot(&self, i: usize) -> bool
        requires { i < pair_count self.now.context.now.fit.now }
        ensures { let x = self.now.context.now in
            result ≡ any_of (shares_slot (pair_in x i)) (pairs_in x) }
    {
        let pairs = self.context.fit.pair_count();
        let place = self.places[i];
        let mut there: u32 = 0;
        for j in 0..pairs {
            there += (self.places[j] == place) as u32;
        }
        1 < there
    }

    fn slot_taken(&self, i: usize) -> bool
        requires { i < pair_count self.now.context.now.fit.now }
        ensures { let x = self.now.context.now in
            let p = pair_in x i in
            result ≡ (holds_one p && any_of (shares_slot p) (pairs_in x)) }
    {
        holds_one(self.context, i) && self.shares_slot(i)
    }

    // The attribute in which an implant or a booster names its slot.
    fn slot_number(&self, i: usize) -> Option<i32>
        requires { i < pair_count self.now.context.now.fit.now }
        ensures { let x = self.now.context.now in
            result ≡ given (slot_number_name (pair_in x i)) None (name_id (context_in x).names) }
    {
        match self.context.fit.item_slot(i) {
            slots::IMPLANT => self.ids.implantness,
            slots::BOOSTER => self.ids.boosterness,
            _ => None,
        }
    }

    // An implant and a booster sit in a numbered slot of their own, which the item names itself.
    fn wrong_slot_index(&self, i: usize) -> Option<u16>
        requires { i < pair_count self.now.context.now.fit.now }
        ensures { let x = self.now.context.now in
            let p = pair_in x i in
            expects p result ≡ wrong_slot_index (context_in x) p }
    {
        let id = self.slot_number(i)?;
        let value = self.context.fit.value(i + 2, id)?;
        let expected = floats::to_u16(value);
        if expected == self.context.fit.item_index(i) {
            return None;
        }
        Some(expected)
    }

    // Every subsystem covers one part of the ship, and only one may.
    fn subsystem_taken(&self, i: usize) -> bool
        requires { i < pair_count self.now.context.now.fit.now }
        ensures { let x = self.now.context.now in
            let p = pair_in x i in
            when result (on p SubsystemTaken) ≡ subsystem_taken (context_in x) (pairs_in x) p }
    {
        if !self.context.is_in(i, slots::SUBSYSTEM) {
            return false;
        }
        let Some(id) = self.ids.part else {
            return false;
        };
        let Some(part) = self.context.fit.value(i + 2, id) else {
            return false;
        };
        shares_part(self.context, id, part, i)
    }

    fn item_at(&self, i: usize) -> Item
        requires { i < pair_count self.now.context.now.fit.now }
        ensures { let x = self.now.context.now in
            Holds (context_in x) (pairs_in x) (pair_in x i) result }
    {
        Item {
            position: i as u32,
            slot: self.context.fit.item_slot(i),
            category: self.context.type_at(i).map_or(0, |info| info.category),
            rack: self.context.rack(i),
            taken: self.slot_taken(i),
            expected: self.wrong_slot_index(i),
            covered: self.subsystem_taken(i),
        }
    }
}

// What the checks look at of a pair. A type that the catalogue lacks is of category 0. `taken` is its slot, `covered` its part of
// the ship, by another; `expected` is the index that it should have, if it has another.
#[derive(Clone, Copy)]
struct Item {
    position: u32,
    slot: u8,
    category: i32,
    rack: Option<u8>,
    taken: bool,
    expected: Option<u16>,
    covered: bool,
}

impl Item {
    // An entry about the item, where a test holds.
    fn push_when(self, test: bool, rule: Rule, entries: &mut Entries)
        requires { Room entries.old.n 1 }
        ensures { Emitted entries.old entries.new (when test (on_item self.position rule)) × (entries.new.n ≤ entries.old.n + 1) }
    {
        entries.emit_when(
            test,
            Entry {
                target: Target::Item(self.position),
                rule,
            },
        );
    }

    // An entry about an item that is in a slot of another category.
    fn push_unless(self, there: bool, category: i32, rule: Rule, entries: &mut Entries)
        requires { Room entries.old.n 1 }
        ensures { let test = there && not (same self.category category) in
            Emitted entries.old entries.new (when test (on_item self.position rule)) × (entries.new.n ≤ entries.old.n + 1) }
    {
        self.push_when(there & (self.category != category), rule, entries);
    }

    fn wrong_slot(self, entries: &mut Entries)
        requires { Room entries.old.n 1 }
        ensures { Checked 1 self (λ x ps p. wrong_slot x p) entries.old entries.new }
    {
        let Some(rack) = self.rack else {
            return;
        };
        let Some(expected) = SlotKind::of(rack) else {
            return;
        };
        let misplaced = context::is_fitted(self.slot) & (self.slot != rack);
        self.push_when(misplaced, Rule::WrongSlot(expected), entries);
    }

    fn not_a_module(self, entries: &mut Entries)
        requires { Room entries.old.n 1 }
        ensures { Checked 1 self (λ x ps p. not_a_module x p) entries.old entries.new }
    {
        let test = context::is_fitted(self.slot) & !context::is_module_category(self.category);
        self.push_when(test, Rule::NotAModule, entries);
    }

    fn not_a_drone(self, entries: &mut Entries)
        requires { Room entries.old.n 1 }
        ensures { Checked 1 self (λ x ps p. not_a_drone x p) entries.old entries.new }
    {
        let there = self.slot == slots::DRONE_BAY;
        self.push_unless(there, categories::DRONE, Rule::NotADrone, entries);
    }

    fn not_a_fighter(self, entries: &mut Entries)
        requires { Room entries.old.n 1 }
        ensures { Checked 1 self (λ x ps p. not_a_fighter x p) entries.old entries.new }
    {
        let there = (self.slot == slots::FIGHTER_TUBE) | (self.slot == slots::FIGHTER_BAY);
        self.push_unless(there, categories::FIGHTER, Rule::NotAFighter, entries);
    }

    fn not_an_implant(self, entries: &mut Entries)
        requires { Room entries.old.n 1 }
        ensures { Checked 1 self (λ x ps p. not_an_implant x p) entries.old entries.new }
    {
        let there = (self.slot == slots::IMPLANT) | (self.slot == slots::BOOSTER);
        self.push_unless(there, categories::IMPLANT, Rule::NotAnImplant, entries);
    }

    // The checks of an item's slot and type.
    fn wrong_place(self, entries: &mut Entries)
        requires { Room entries.old.n 5 }
        ensures { Checked 5 self
            (λ x ps p. wrong_slot x p ++ not_a_module x p ++ not_a_drone x p ++ not_a_fighter x p ++ not_an_implant x p)
            entries.old entries.new }
    {
        self.wrong_slot(entries);
        self.not_a_module(entries);
        self.not_a_drone(entries);
        self.not_a_fighter(entries);
        self.not_an_implant(entries);
    }

    fn expect_index(self, entries: &mut Entries)
        requires { Room entries.old.n 1 }
        ensures { Checked 1 self (λ x ps p. wrong_slot_index x p) entries.old entries.new }
    {
        if let Some(index) = self.expected {
            self.push_when(true, Rule::WrongSlotIndex(index), entries);
        }
    }

    // The eight checks of an item.
    fn slot_checks(self, entries: &mut Entries)
        requires { Room entries.old.n 8 }
        ensures { Checked 8 self slot_checks entries.old entries.new }
    {
        self.wrong_place(entries);
        self.push_when(self.taken, Rule::SlotTaken, entries);
        self.expect_index(entries);
        self.push_when(self.covered, Rule::SubsystemTaken, entries);
    }
}

// The eight checks of all pairs.
pub fn validate(context: &Context, entries: &mut Entries)
    requires { Room entries.old.n (8 * most_pairs) }
    ensures { let x = context.now in
        Emitted entries.old entries.new (slot_rules (context_in x) (pairs_in x)) × (entries.new.n ≤ entries.old.n + 8 * most_pairs) }
{
    let prepared = Prepared::new(context);
    for i in 0..context.fit.pair_count() {
        let item = prepared.item_at(i);
        item.slot_checks(entries);
    }
}
