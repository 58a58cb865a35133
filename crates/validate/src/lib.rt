// The list of a fit: validate/mod.rs, and what it asks of calculate/mod.rs, `is_hull` to `is_skill`.
#![tactic(auto)]

ghost use Rattle.std.specs.Prelude.{◌≡◌, false, not, [], ◌∷◌, ◌++◌, ◌+◌, ◌-◌, ◌*◌, ◌/◌, ◌≤◌};
ghost use Rattle.words.specs.Words.{contains, given, is_empty, same, when};
ghost use Rattle.numbers.specs.Categories as Categories;
ghost use Rattle.numbers.specs.Groups as Groups;
ghost use Rattle.numbers.specs.Sizes.{most_skills, most_pairs};
ghost use Rattle.catalogue.specs.Catalogue.{catalogue_of};
ghost use Rattle.fit.specs.Fit.{skill_count, mode_of, fit_of};
ghost use Rattle.entry.specs.declared.Rule.TheVariants.{NotAHull, NotASkill};
ghost use Rattle.entry.specs.Entries.{on_ship};
ghost use Rattle.entry.specs.Wrote.{Room, Wrote};
ghost use Rattle.entry.specs.Emitted.{Emitted};
ghost use Rattle.context.specs.Held.{pairs_in, context_in};
ghost use Rattle.validate.specs.Kind.{is_hull_kind, is_hull, is_mode, not_a_mode, not_a_skill_at, not_a_skill};
ghost use Rattle.validate.specs.Skills.{OfSkills};
ghost use Rattle.validate.specs.Validate.{hull_rules, list_with, list_of, most_entries};

use catalogue::{Catalogue, TypeInfo};
use context::Context;
use entry::{Entries, Entry, Rule, Target};
use numbers::{categories, groups, sizes};

// No list has more entries: the mode, the skills, 12 resources, 6 racks, 2 hardpoints; and of each pair 8 by slot.rs, 8 by item.rs.
pub const MOST_ENTRIES: usize = 1 + sizes::MOST_SKILLS + 12 + 8 + 16 * sizes::MOST_PAIRS;

#[tactic(auto, unfolding(words::specs::Words::contains, words::specs::Words::any_of, words::specs::Words::same))]
fn is_container(group: i32) -> bool
    ensures { result ≡ contains group Groups.containers }
{
    groups::CONTAINERS.contains(&group)
}

#[tactic(auto, unfolding(crate::specs::Kind::is_hull_kind, words::specs::Words::same))]
fn is_hull_kind(category: i32, group: i32) -> bool
    ensures { result ≡ is_hull_kind category group }
{
    matches!(category, categories::SHIP | categories::STRUCTURE) || is_container(group)
}

// Whether the ship is one: a ship, structure or container. A type that the catalogue lacks is none.
#[tactic(auto, unfolding(crate::specs::Kind::is_hull, words::specs::Words::given))]
pub fn is_hull(context: &Context) -> bool
    ensures { result ≡ is_hull (catalogue_of context.now.catalogue.now) (fit_of context.now.fit.now).frame.ship }
{
    context
        .ship_type()
        .is_some_and(|info| is_hull_kind(info.category, info.group))
}

// Whether the type is a tactical mode.
#[tactic(auto, unfolding(crate::specs::Kind::is_mode, words::specs::Words::given, words::specs::Words::same))]
fn is_mode(catalogue: &Catalogue, id: i32) -> bool
    ensures { result ≡ is_mode (catalogue_of catalogue.now) id }
{
    let mut none = [0u32; 0];
    catalogue
        .type_of(id, &mut none)
        .is_some_and(|info| info.group == groups::SHIP_MODIFIERS)
}

// Whether a type is a skill, by what the lookup answered. One that the catalogue lacks is none.
#[tactic(auto, unfolding(words::specs::Words::given, words::specs::Words::same))]
fn is_skill(answer: Option<TypeInfo>) -> bool
    ensures { result ≡ given answer false (λ x. same x.category Categories.skill) }
{
    answer.is_some_and(|info| info.category == categories::SKILL)
}

fn not_a_mode(context: &Context, entries: &mut Entries)
    requires { Room entries.old.n 1 }
    ensures { let mode = mode_of (fit_of context.now.fit.now).frame in
        Emitted entries.old entries.new (not_a_mode (catalogue_of context.now.catalogue.now) mode) × (entries.new.n ≤ entries.old.n + 1) }
{
    if let Some(mode) = context.fit.mode() {
        entries.emit_when(
            !is_mode(context.catalogue, mode),
            Entry {
                target: Target::Ship,
                rule: Rule::NotAMode,
            },
        );
    }
}

// Rule 21 of a skill, by what the lookup answered of its type.
fn unless_skill(id: i32, answer: Option<TypeInfo>, entries: &mut Entries)
    requires { Room entries.old.n 1 }
    ensures { let skill = given answer false (λ x. same x.category Categories.skill) in
        Emitted entries.old entries.new (when (not skill) (on_ship (NotASkill id))) × (entries.new.n ≤ entries.old.n + 1) }
{
    entries.emit_when(
        !is_skill(answer),
        Entry {
            target: Target::Ship,
            rule: Rule::NotASkill(id),
        },
    );
}

fn not_a_skill_at(catalogue: &Catalogue, id: i32, hints: &mut [u32], entries: &mut Entries)
    requires { Room entries.old.n 1 }
    ensures { Emitted entries.old entries.new (not_a_skill_at (catalogue_of catalogue.now) id) }
{
    let answer = catalogue.type_of(id, hints);
    unless_skill(id, answer, entries);
}

// Rule 21 of four skills from i on, whose types are looked for at once.
fn four_skills(context: &Context, i: usize, entries: &mut Entries)
    requires { (i + 4 ≤ skill_count context.now.fit.now) × Room entries.old.n 4 }
    ensures { let es = OfSkills (catalogue_of context.now.catalogue.now) context.now.fit.now in
        (b : Entries) → es i b entries.old → es (i + 4) b entries.new }
{
    let a = context.fit.skill_id(i);
    let b = context.fit.skill_id(i + 1);
    let c = context.fit.skill_id(i + 2);
    let d = context.fit.skill_id(i + 3);
    let [first, second, third, fourth] = context.catalogue.four_types(&[a, b, c, d]);
    unless_skill(a, first, entries);
    unless_skill(b, second, entries);
    unless_skill(c, third, entries);
    unless_skill(d, fourth, entries);
}

// How many of the listed skills are looked for by fours: in a list all. A hall, whose fits list the same ones, finds them by its hints.
fn searched(context: &Context, hints: usize) -> usize
    ensures { result ≤ skill_count context.now.fit.now }
{
    if context::LIST_HINTS < hints {
        0
    } else {
        context.fit.skill_count()
    }
}

// Rule 21 of the first so many skills, four at a time; the last ones, fewer than four, are left out.
fn by_fours(context: &Context, count: usize, entries: &mut Entries)
    requires { (count ≤ skill_count context.now.fit.now) × Room entries.old.n most_skills }
    ensures { let es = OfSkills (catalogue_of context.now.catalogue.now) context.now.fit.now in
        es (4 * (count / 4)) entries.old entries.new }
{
    for k in 0..count / 4 {
        four_skills(context, 4 * k, entries);
    }
}

// Rule 21 of the skills from a place on, one by one.
fn one_by_one(context: &Context, from: usize, hints: &mut [u32], entries: &mut Entries)
    requires { let f = context.now.fit.now in
        (from ≤ skill_count f) × Room entries.old.n (skill_count f - from) }
    ensures { let es = OfSkills (catalogue_of context.now.catalogue.now) context.now.fit.now in
        let count = skill_count context.now.fit.now in
        (b : Entries) → es from b entries.old → es count b entries.new }
{
    let count = context.fit.skill_count();
    for i in from..count {
        not_a_skill_at(context.catalogue, context.fit.skill_id(i), hints, entries);
    }
}

fn not_a_skill(context: &Context, hints: &mut [u32], entries: &mut Entries)
    requires { Room entries.old.n most_skills }
    ensures { let ids = (fit_of context.now.fit.now).skills in
        let es = not_a_skill (catalogue_of context.now.catalogue.now) ids in
        Emitted entries.old entries.new es × (entries.new.n ≤ entries.old.n + most_skills) }
{
    let count = searched(context, hints.len());
    by_fours(context, count, entries);
    one_by_one(context, 4 * (count / 4), hints, entries);
}

// The mode and the skills that are none.
fn kind(context: &Context, hints: &mut [u32], entries: &mut Entries)
    requires { Room entries.old.n (1 + most_skills) }
    ensures { let c = catalogue_of context.now.catalogue.now in
        let f = fit_of context.now.fit.now in
        let es = not_a_mode c (mode_of f.frame) ++ not_a_skill c f.skills in
        Emitted entries.old entries.new es × (entries.new.n ≤ entries.old.n + (1 + most_skills)) }
{
    not_a_mode(context, entries);
    not_a_skill(context, hints, entries);
}

// resource.rs, slot.rs and item.rs.
fn hull_rules(context: &Context, entries: &mut Entries)
    requires { Room entries.old.n (12 + 8 + 16 * most_pairs) }
    ensures { let x = context_in context.now in
        let ps = pairs_in context.now in
        Emitted entries.old entries.new (hull_rules x ps) × (entries.new.n ≤ entries.old.n + (12 + 8 + 16 * most_pairs)) }
{
    resource::validate(context, entries);
    racks::validate(context, entries);
    slot::validate(context, entries);
    item::validate(context, entries);
    limits::validate(context, entries);
}

// Whether the rules of a hull list nothing. Each is asked only where those before it list nothing.
#[tactic(auto, using(crate::proofs::Empty::rules_empty))]
fn no_rule_broken(context: &Context) -> bool
    ensures { let x = context_in context.now in
        let ps = pairs_in context.now in
        result ≡ is_empty (hull_rules x ps) }
{
    let mut none = [0u8; 0];
    let mut entries = Entries::new(&mut none);
    resource::validate(context, &mut entries);
    if entries.count() > 0 {
        return false;
    }
    racks::validate(context, &mut entries);
    if entries.count() > 0 {
        return false;
    }
    slot::validate(context, &mut entries);
    if entries.count() > 0 {
        return false;
    }
    item::validate(context, &mut entries);
    if entries.count() > 0 {
        return false;
    }
    limits::validate(context, &mut entries);
    entries.count() == 0
}

// The list of a ship that is no hull.
fn not_a_hull(entries: &mut Entries)
    requires { Room entries.old.n 1 }
    ensures { Emitted entries.old entries.new (on_ship NotAHull ∷ []) }
{
    entries.emit(Entry {
        target: Target::Ship,
        rule: Rule::NotAHull,
    });
}

// The list of a fit. `hints` are those of `Catalogue::type_of`.
pub fn emit(context: &Context, hints: &mut [u32], entries: &mut Entries)
    requires { Room entries.old.n most_entries }
    ensures { let es = list_of (catalogue_of context.now.catalogue.now) (fit_of context.now.fit.now) in
        Emitted entries.old entries.new es × (entries.new.n ≤ entries.old.n + most_entries) }
{
    if !is_hull(context) {
        return not_a_hull(entries);
    }
    kind(context, hints, entries);
    hull_rules(context, entries);
}

// The list of a fit as if it listed no skills: none is looked up. Beside `emit`, as a flag for the skills would be no plainer.
pub fn emit_without_skills(context: &Context, entries: &mut Entries)
    requires { Room entries.old.n most_entries }
    ensures { let f = fit_of context.now.fit.now in
        let ps = pairs_in context.now in
        let es = list_with (catalogue_of context.now.catalogue.now) f.frame [] ps in
        Emitted entries.old entries.new es × (entries.new.n ≤ entries.old.n + most_entries) }
{
    if is_hull(context) {
        not_a_mode(context, entries);
        hull_rules(context, entries);
    } else {
        not_a_hull(entries);
    }
}

// `emit`, from the first entry of a buffer on.
pub fn validate(context: &Context, hints: &mut [u32], out: &mut [u8]) -> usize
    ensures { let es = list_of (catalogue_of context.now.catalogue.now) (fit_of context.now.fit.now) in
        Wrote out.old 0 out.new result es × (result ≤ most_entries) }
{
    let mut entries = Entries::new(out);
    emit(context, hints, &mut entries);
    entries.count()
}

// `emit_without_skills`, from the first entry of a buffer on.
pub fn without_skills(context: &Context, out: &mut [u8]) -> usize
    ensures { let x = context.now in
        let es = list_with (catalogue_of x.catalogue.now) (fit_of x.fit.now).frame [] (pairs_in x) in
        Wrote out.old 0 out.new result es × (result ≤ most_entries) }
{
    let mut entries = Entries::new(out);
    emit_without_skills(context, &mut entries);
    entries.count()
}

// Whether the list of a fit is empty: nothing is asked once an entry is found, and the listed skills, of which there are most, come last.
#[tactic(auto, using(crate::proofs::Empty::list_empty))]
pub fn is_empty(context: &Context, hints: &mut [u32]) -> bool
    ensures { result ≡ is_empty (list_of (catalogue_of context.now.catalogue.now) (fit_of context.now.fit.now)) }
{
    if !(is_hull(context) && no_rule_broken(context)) {
        return false;
    }
    let mut none = [0u8; 0];
    let mut kinds = Entries::new(&mut none);
    kind(context, hints, &mut kinds);
    kinds.count() == 0
}
