// The whole list of a fit: the Rust's, then the rules that document 02 adds behind a hull's.
#![tactic(auto)]

ghost use Rattle.std.specs.Prelude.{◌≡◌, ◌+◌, ◌≤◌, ◌<◌, length};
ghost use Rattle.words.specs.Words.{is_empty};
ghost use Rattle.numbers.specs.Sizes.{most_pairs};
ghost use Rattle.catalogue.specs.Catalogue.{Catalogue, catalogue_of};
ghost use Rattle.fit.specs.Fit.{fit_of};
ghost use Rattle.entry.specs.Wrote.{Room, Wrote};
ghost use Rattle.entry.specs.Emitted.{Emitted};
ghost use Rattle.context.specs.Context.{said};
ghost use Rattle.context.specs.Gathered.{pair_count};
ghost use Rattle.context.specs.Held.{pair_in, pairs_in};
ghost use Rattle.validate.specs.Validate as Rust;
ghost use Rattle.validate.specs.Validate.{list_of};
ghost use Rattle.lists.specs.Terms.{Terms, terms, read_by, main};
ghost use Rattle.lists.specs.Unknown.{unknown_type_at, unknown_types};
ghost use Rattle.lists.specs.Lists.{for_reader, whole_list, list_for, most_entries};

use context::Context;
use entry::{Entries, Rule};
use fit::Fit;
use numbers::readers::Reader;
use numbers::sizes;
use profile::Profile;

// No list has more entries: the Rust's, a ban for each pair, the points, a missing type for each pair.
pub const MOST_ENTRIES: usize = validate::MOST_ENTRIES + sizes::MOST_PAIRS + 1 + sizes::MOST_PAIRS;

// No list of the fit has more, whoever reads it and whatever the league: 22 of the ship, one of each listed skill, 18 of each pair.
pub fn most_entries(fit: &Fit) -> usize
    ensures { let f = fit_of fit.now in
        ((t : Terms) (c : Catalogue) → length (list_for t c f) ≤ result) × (result ≤ most_entries) }
{
    fit.is_sound();
    22 + fit.skill_count() + 18 * fit.pair_count()
}

// Rule 26 of pair i.
fn unknown_type_at(context: &Context, i: usize) -> Option<Rule>
    requires { i < pair_count context.now.fit.now }
    ensures { let p = pair_in context.now i in
        said p result ≡ unknown_type_at (catalogue_of context.now.catalogue.now) p }
{
    let id = context.fit.item_type(i);
    let missing = context.type_at(i).is_none();
    missing.then_some(Rule::UnknownType(id))
}

// Rule 26 by pair, whatever its slot.
fn unknown_types(context: &Context, entries: &mut Entries)
    requires { Room entries.old.n most_pairs }
    ensures { let es = unknown_types (catalogue_of context.now.catalogue.now) (pairs_in context.now) in
        Emitted entries.old entries.new es × (entries.new.n ≤ entries.old.n + most_pairs) }
{
    context.report(|i| unknown_type_at(context, i), entries);
}

// What a list call asks for: whose list it is, a number and no `Reader`, since a list is that of any number; and the points that a league
// allows.
#[derive(Clone, Copy)]
pub struct Asked {
    pub reader: u32,
    pub allowance: u32,
}

// The Rust's list, as a reader gets it. For a guest no listed skill is looked up.
fn rust_list(reader: u32, context: &Context, hints: &mut [u32], entries: &mut Entries)
    requires { Room entries.old.n Rust.most_entries }
    ensures { let es = for_reader reader (list_of (catalogue_of context.now.catalogue.now) (fit_of context.now.fit.now)) in
        Emitted entries.old entries.new es × (entries.new.n ≤ entries.old.n + Rust.most_entries) }
{
    if reader == Reader::Guest as u32 {
        return validate::emit_without_skills(context, entries);
    }
    validate::emit(context, hints, entries)
}

// Every rule that a fit breaks and that its reader is told of, under a league's profile and allowance, and how many they are, whether or
// not there was room. `hints` are those of `Catalogue::type_of`.
pub fn write(
    asked: Asked,
    profile: &Profile,
    context: &Context,
    hints: &mut [u32],
    out: &mut [u8],
) -> usize
    ensures { let t = read_by asked.reader (terms profile.now asked.allowance) in
        let es = list_for t (catalogue_of context.now.catalogue.now) (fit_of context.now.fit.now) in
        Wrote out.old 0 out.new result es × (result ≤ most_entries) }
{
    let mut entries = Entries::new(out);
    rust_list(asked.reader, context, hints, &mut entries);
    if !validate::is_hull(context) {
        return entries.count();
    }
    league::validate(profile, asked.allowance, context, &mut entries);
    unknown_types(context, &mut entries);
    entries.count()
}

// Whether a fit breaks no rule, under no league: as `validate::is_empty`, rule 26 with it.
pub fn is_empty(context: &Context, hints: &mut [u32]) -> bool
    ensures { result ≡ is_empty (whole_list main (catalogue_of context.now.catalogue.now) (fit_of context.now.fit.now)) }
{
    if !validate::is_empty(context, hints) {
        return false;
    }
    let mut none = [0u8; 0];
    let mut missing = Entries::new(&mut none);
    unknown_types(context, &mut missing);
    missing.count() == 0
}
