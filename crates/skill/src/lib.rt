// The skills that one result demands: validate/skill.rs.
#![tactic(auto)]

mod ahead;
mod walk;

ghost use Rattle.std.specs.Prelude.{◌≡◌, ◌+◌, ◌<◌, ◌≤◌, option_to_list, List, Option, Float};
ghost use Rattle.numbers.specs.Sizes as Sizes;
ghost use Rattle.numbers.specs.Sizes.{most_wanted};
ghost use Rattle.catalogue.specs.Catalogue.{Id, catalogue_of};
ghost use Rattle.fit.specs.Fit.{fit_of, result_count};
ghost use Rattle.entry.specs.Wrote.{Room, Wrote};
ghost use Rattle.entry.specs.Emitted.{Emitted};
ghost use Rattle.skill.specs.Skill as Skill;
ghost use Rattle.skill.specs.Skill.{Demand, requirement_of, required, demand_of, noted, target_of, entry_of, reported};
ghost use Rattle.skill.specs.Held.{requirements_of, walk_of, Reads, Walks, HoldsAll, HoldsWanted};

use ahead::Ahead;
use catalogue::Catalogue;
use entry::{Entries, Entry, Rule, Target};
use fit::Fit;
use numbers::names;
pub use walk::{TooMany, Walk};

// The names of each skill and of the level it wants.
const REQUIRED: [(u32, u32); 6] = [
    (names::REQUIRED_SKILL_1, names::REQUIRED_SKILL_1_LEVEL),
    (names::REQUIRED_SKILL_2, names::REQUIRED_SKILL_2_LEVEL),
    (names::REQUIRED_SKILL_3, names::REQUIRED_SKILL_3_LEVEL),
    (names::REQUIRED_SKILL_4, names::REQUIRED_SKILL_4_LEVEL),
    (names::REQUIRED_SKILL_5, names::REQUIRED_SKILL_5_LEVEL),
    (names::REQUIRED_SKILL_6, names::REQUIRED_SKILL_6_LEVEL),
];

// The attributes of a row's skill and of its level, where both names have one.
fn requirement(catalogue: &Catalogue, row: (u32, u32)) -> Option<(i32, i32)>
    ensures { option_to_list result ≡ requirement_of (catalogue_of catalogue.now) row }
{
    let skill = catalogue.attribute_id(row.0)?;
    let level = catalogue.attribute_id(row.1)?;
    Some((skill, level))
}

// The names are looked up once for the whole walk.
fn required_of(catalogue: &Catalogue) -> [Option<(i32, i32)>; 6]
    ensures { requirements_of result ≡ required (catalogue_of catalogue.now) }
{
    let mut required = [None; 6];
    // an index: one array is filled from another in step
    for i in 0..6 {
        required[i] = requirement(catalogue, REQUIRED[i]);
    }
    required
}

// A skill that a value names, at the level that another says; a missing level is 0.
fn demand(skill: f64, level: Option<f64>) -> (i32, u8)
    ensures { result ≡ Skill.demand skill level }
{
    (floats::to_i32(skill), floats::to_u8(floats::amount(level)))
}

// What a requirement asks for by a source of values.
fn asked<F: Fn(i32) -> Option<f64>>(look: F, skill: i32, level: i32) -> Option<(i32, u8)>
    requires { F.IsAlwaysCallable look }
    ensures { (values : Id → Option Float) → Reads (F.post look) values → option_to_list result ≡ demand_of values (skill, level) }
{
    let wanted = look(skill)?;
    Some(demand(wanted, look(level)))
}

// The whole tree of skills depending on skills, from those that are noted on. The walk goes on while skills are added; a skill is added
// once, so it ends even where skills point at one another. Inlined, as it was part of `wanted_skills` before it had two callers.
#[inline(always)]
fn walk_on(
    catalogue: &Catalogue,
    required: &[Option<(i32, i32)>; 6],
    walk: &mut Walk,
) -> Result<(), TooMany>
    requires { requirements_of required.now ≡ Skill.required (catalogue_of catalogue.now) }
    ensures { (ds : List Demand) → walk_of walk.old ≡ noted ds → Walks (catalogue_of catalogue.now) ds walk.new result }
{
    let mut ahead = Ahead::new();
    let mut next: usize = 0;
    // a while: the walk grows as it is walked
    while next < walk.len {
        let guess = ahead.guess(catalogue, walk, next);
        let span = catalogue.bases_of(walk.ids[next], guess);
        walk.note_all(required, |id| catalogue.base_value(span, id))?;
        next += 1;
    }
    Ok(())
}

// The skills that one result wants.
pub fn wanted_skills(catalogue: &Catalogue, fit: &Fit, res: usize) -> Result<Walk, TooMany>
    requires { res < result_count fit.now + 2 }
    ensures { HoldsWanted catalogue.now fit.now res result }
{
    let required = required_of(catalogue);
    let mut walk = Walk::new();
    walk.note_all(&required, |id| fit.value(res, id))?;
    walk_on(catalogue, &required, &mut walk)?;
    Ok(walk)
}

// Those that all results want, if a walk has room for them. The levels are the highest of any.
pub fn wanted_by_all(catalogue: &Catalogue, fit: &Fit) -> Result<Walk, TooMany>
    ensures { HoldsAll catalogue.now fit.now result }
{
    fit.is_sound();
    let required = required_of(catalogue);
    let mut walk = Walk::new();
    for res in 0..fit.result_count() + 2 {
        walk.note_all(&required, |id| fit.value(res, id))?;
    }
    walk_on(catalogue, &required, &mut walk)?;
    Ok(walk)
}

// The ship for results 0 and 1, else an item.
fn target_of(res: usize) -> Target
    requires { res < Sizes.word }
    ensures { result ≡ target_of res }
{
    if res < 2 {
        return Target::Ship;
    }
    Target::Item((res - 2) as u32)
}

// An entry where a wanted skill is trained lower.
fn report_skill(fit: &Fit, res: usize, id: i32, wanted: u8, entries: &mut Entries)
    requires { (res < Sizes.word) × Room entries.old.n 1 }
    ensures { Emitted entries.old entries.new (entry_of (fit_of fit.now) res (id, wanted)) }
{
    let trained = fit.trained_level(id);
    entries.emit_when(
        trained < wanted,
        Entry {
            target: target_of(res),
            rule: Rule::Skill(id, wanted, trained),
        },
    );
}

// The wanted skills that are trained lower, in the walk's order.
pub fn report(fit: &Fit, res: usize, walk: Walk, entries: &mut Entries)
    requires { (res < result_count fit.now + 2) × Room entries.old.n most_wanted }
    ensures { let es = reported (fit_of fit.now) res (walk_of walk) in
        Emitted entries.old entries.new es × (entries.new.n ≤ entries.old.n + most_wanted) }
{
    fit.is_sound();
    // an index: two arrays are read in step
    for i in 0..walk.len {
        report_skill(fit, res, walk.ids[i], walk.levels[i], entries);
    }
}

// The same, from the first entry of a buffer on: a writer more, and nothing of `report` said twice.
pub fn write(fit: &Fit, res: usize, walk: Walk, out: &mut [u8]) -> usize
    requires { res < result_count fit.now + 2 }
    ensures { let es = reported (fit_of fit.now) res (walk_of walk) in
        Wrote out.old 0 out.new result es × (result ≤ most_wanted) }
{
    let mut entries = Entries::new(out);
    report(fit, res, walk, &mut entries);
    entries.count()
}
