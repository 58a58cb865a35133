// What the rules read of a catalogue and a fit, gathered once per call: Rust's `Context::new`.
#![tactic(auto)]

ghost use Rattle.std.specs.Prelude.{◌≡◌, Bool, List, ℕ, ◌+◌, ◌<◌, ◌≤◌, leb};
ghost use Rattle.words.specs.Words.{count_of, each};
ghost use Rattle.numbers.specs.Sizes.{most_pairs};
ghost use Rattle.numbers.specs.Slots as Slots;
ghost use Rattle.catalogue.specs.Catalogue.{catalogue_of};
ghost use Rattle.fit.specs.Fit.{fit_of};
ghost use Rattle.entry.specs.declared.Entry.{Entry};
ghost use Rattle.entry.specs.Wrote.{Room};
ghost use Rattle.entry.specs.Emitted.{Emitted};
ghost use Rattle.context.specs.Context.{Pair, is_fitted, is_in, is_on_hull, is_module_category};
ghost use Rattle.context.specs.Gathered.{pair_count, pair_at, pairs_of, Tests, Says, answer_of, facts_of, Pairs, Gathered};

use catalogue::{Catalogue, SlotMarks, TypeInfo};
use entry::{Entries, Entry, Rule, Target};
use fit::Fit;
use numbers::{categories, slots};

// So many hints has a list: four searches in step fill them just ahead of use. A hall, whose fits name the same types again, has more.
// They travel beside a context and not in it: they are written while it is read.
pub const LIST_HINTS: usize = 64;

// What the catalogue says of a pair's type: what it is, if it is there, and the marks, which stand by its id whether it is there or not.
#[derive(Clone, Copy)]
pub struct PairFacts {
    info: Option<TypeInfo>,
    marks: SlotMarks,
}

// What a place of pairs may hold before they are gathered.
pub const UNKNOWN: PairFacts = PairFacts {
    info: None,
    marks: SlotMarks {
        rack: None,
        hardpoint: None,
    },
};

// At every fourth pair the next four are looked for at once. A hall, which has more hints than a list, looks for none twice.
fn seek_pairs(catalogue: &Catalogue, fit: &Fit, i: usize, hints: &mut [u32])
    requires { i < pair_count fit.now }
{
    if LIST_HINTS < hints.len() || i % 4 != 0 || fit.pair_count() - i < 4 {
        return;
    }
    let ids = [
        fit.item_type(i),
        fit.item_type(i + 1),
        fit.item_type(i + 2),
        fit.item_type(i + 3),
    ];
    catalogue.seek_types(&ids, hints);
    catalogue.seek_links(&ids, hints);
}

// What the catalogue says of one type.
fn pair_facts(catalogue: &Catalogue, id: i32, hints: &mut [u32]) -> PairFacts
    ensures { result ≡ facts_of (catalogue_of catalogue.now) id }
{
    let marks = catalogue.slots_of(id, hints);
    let info = catalogue.type_of(id, hints);
    PairFacts { info, marks }
}

// The facts of all pairs. Behind them the place keeps what it held, and no rule looks there.
fn gather_pairs(catalogue: &Catalogue, fit: &Fit, hints: &mut [u32], pairs: &mut [PairFacts; 256])
    ensures { Pairs catalogue.now fit.now (pair_count fit.now) pairs.new }
{
    fit.is_sound();
    for i in 0..fit.pair_count() {
        seek_pairs(catalogue, fit, i, hints);
        pairs[i] = pair_facts(catalogue, fit.item_type(i), hints);
    }
}

// Modules, subsystems and structure modules.
#[tactic(auto, unfolding(crate::specs::Context::is_module_category, words::specs::Words::same))]
pub fn is_module_category(category: i32) -> bool
    ensures { result ≡ is_module_category category }
{
    matches!(
        category,
        categories::MODULE | categories::SUBSYSTEM | categories::STRUCTURE_MODULE
    )
}

// ---- where a pair is

pub fn is_fitted(slot: u8) -> bool
    ensures { result ≡ leb slot Slots.service }
{
    slot <= slots::SERVICE
}

// These ask a fit alone, whatever the catalogue, and a `Context` asks through them. That `i` is below the count of pairs stays a clause,
// and that `j` is below that of results: a type of a pair would hold context and index, which every loop made anew, and rules take both.

// Whether pair i is in a rack.
pub fn is_in(fit: &Fit, i: usize, slot: u8) -> bool
    requires { i < pair_count fit.now }
    ensures { (catalogue : List ℕ) → result ≡ is_in slot (pair_at catalogue fit.now i) }
{
    fit.item_slot(i) == slot
}

pub fn is_fitted_at(fit: &Fit, i: usize) -> bool
    requires { i < pair_count fit.now }
    ensures { (catalogue : List ℕ) → result ≡ is_fitted (pair_at catalogue fit.now i) }
{
    is_fitted(fit.item_slot(i))
}

// Fitted, or a fighter that the ship launches.
pub fn is_on_hull(fit: &Fit, i: usize) -> bool
    requires { i < pair_count fit.now }
    ensures { (catalogue : List ℕ) → result ≡ is_on_hull (pair_at catalogue fit.now i) }
{
    fit.item_slot(i) <= slots::FIGHTER_BAY
}

// What the rules read: Rust's `Context`, gathered once per call.
#[derive(Drop)]
pub struct Context<'a> {
    pub catalogue: &'a Catalogue<'a>,
    pub fit: &'a Fit<'a>,
    ship: Option<TypeInfo>,
    pairs: &'a [PairFacts; 256],
    ghost gathered: { Gathered catalogue.now fit.now ship pairs.now },
}

impl<'a> Context<'a> {
    // `hints` are those of `Catalogue::type_of`; `pairs` may hold anything. The caller has the place of what is gathered: within a
    // `Context` it would be on the stack twice, as the place of this function's result and as the caller's local.
    pub fn new(
        catalogue: &'a Catalogue<'a>,
        fit: &'a Fit<'a>,
        hints: &mut [u32],
        pairs: &'a mut [PairFacts; 256],
    ) -> Self
        ensures { (result.catalogue.now ≡ catalogue.now) × (result.fit.now ≡ fit.now) }
    {
        catalogue.is_sound();
        fit.is_sound();
        gather_pairs(catalogue, fit, hints, pairs);
        let ship = catalogue.type_of(fit.ship(), hints);
        Context {
            catalogue,
            fit,
            ship,
            pairs,
        }
    }

    // What the lookup answered of the ship's type.
    pub fn ship_type(&self) -> Option<TypeInfo>
        ensures { result ≡ answer_of (catalogue_of self.now.catalogue.now) (fit_of self.now.fit.now).frame.ship }
    {
        self.ship
    }

    // What it answered of the type of pair i.
    pub fn type_at(&self, i: usize) -> Option<TypeInfo>
        requires { i < pair_count self.now.fit.now }
        ensures { let c = self.now.catalogue.now in
            result ≡ answer_of (catalogue_of c) (pair_at c self.now.fit.now i).type }
    {
        self.pairs[i].info
    }

    // The rack that pair i asks for.
    pub fn rack(&self, i: usize) -> Option<u8>
        requires { i < pair_count self.now.fit.now }
        ensures { result ≡ (pair_at self.now.catalogue.now self.now.fit.now i).rack }
    {
        self.pairs[i].marks.rack
    }

    // The hardpoint that it takes.
    pub fn hardpoint(&self, i: usize) -> Option<u8>
        requires { i < pair_count self.now.fit.now }
        ensures { result ≡ (pair_at self.now.catalogue.now self.now.fit.now i).hardpoint }
    {
        self.pairs[i].marks.hardpoint
    }

    pub fn is_in(&self, i: usize, slot: u8) -> bool
        requires { i < pair_count self.now.fit.now }
        ensures { result ≡ is_in slot (pair_at self.now.catalogue.now self.now.fit.now i) }
    {
        is_in(self.fit, i, slot)
    }

    pub fn is_fitted_at(&self, i: usize) -> bool
        requires { i < pair_count self.now.fit.now }
        ensures { result ≡ is_fitted (pair_at self.now.catalogue.now self.now.fit.now i) }
    {
        is_fitted_at(self.fit, i)
    }

    pub fn is_on_hull(&self, i: usize) -> bool
        requires { i < pair_count self.now.fit.now }
        ensures { result ≡ is_on_hull (pair_at self.now.catalogue.now self.now.fit.now i) }
    {
        is_on_hull(self.fit, i)
    }

    // How many pairs pass a test.
    pub fn count<F: Fn(usize) -> bool>(&self, test: F) -> u32
        requires { (i : ℕ) → i < pair_count self.now.fit.now → F.pre test i }
        ensures { let c = self.now.catalogue.now in
            let f = self.now.fit.now in
            ((t : Pair → Bool) → Tests (F.post test) t c f → result ≡ count_of t (pairs_of c f)) }
    {
        let mut n: u32 = 0;
        for i in 0..self.fit.pair_count() {
            // not `u32::from`: by what that ensures, `bool_byte`, the proof of the count is longer
            n += words::one_if(test(i));
        }
        n
    }

    // An entry about each pair that breaks a rule.
    pub fn report<F: Fn(usize) -> Option<Rule>>(&self, broken: F, entries: &mut Entries)
        requires room { Room entries.old.n most_pairs }
        requires callable { (i : ℕ) → i < pair_count self.now.fit.now → F.pre broken i }
        ensures same { entries.new.out.ghost_name ≡ entries.old.out.ghost_name }
        ensures few { entries.new.n ≤ entries.old.n + most_pairs }
        ensures wrote { let c = self.now.catalogue.now in
            let f = self.now.fit.now in
            let before = entries.old in
            let after = entries.new in
            ((rule : Pair → List Entry) → Says (F.post broken) rule c f → Emitted before after (each (pairs_of c f) rule)) }
    {
        for i in 0..self.fit.pair_count() {
            if let Some(rule) = broken(i) {
                let target = Target::Item(i as u32);
                entries.emit(Entry { target, rule });
            }
        }
    }
}
