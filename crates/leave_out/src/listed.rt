// The rows of a fit's list, which is run once.
ghost use Rattle.std.specs.Prelude.{◌≡◌, ◌+◌, ◌*◌, ◌≤◌, [], ◌∷◌, cond, eqb, length};
ghost use Rattle.words.specs.Words.{any_of};
ghost use Rattle.lists.specs.Lists.{most_entries};
ghost use Rattle.cause.specs.Decided.{Inside};
ghost use Rattle.leave_out.specs.Held.{Free, is_named_rule, Taken, entries_in, Listed, Hold};

use crate::rows::Rows;
use cause::shown::Shown;
use cause::{members, shown};
use context::Context;
use lists::Asked;
use numbers::readers::Reader;
use numbers::sizes;
use profile::Profile;

// The racks' numbers are below it, the hardpoints' are not.
const RACKS: u8 = 6;

#[tactic(auto, unfolding(words::specs::Words::any_of))]
fn is_limited(rule: u8) -> bool
    ensures { result ≡ any_of (eqb rule) (8 ∷ 10 ∷ 17 ∷ 18 ∷ []) }
{
    matches!(
        rule,
        members::SLOT_TAKEN | members::SUBSYSTEM_TAKEN | members::MAX_GROUP | members::MAX_TYPE
    )
}

fn is_named(shown: Shown) -> bool
    ensures { result ≡ is_named_rule shown }
{
    is_limited(shown.rule) | ((shown.rule == members::SLOTS) & (shown.sub < RACKS))
}

// A row for an entry, where it is named.
fn take_in(context: &Context, shown: Shown, rows: &mut Rows)
    requires inside { Inside context.now shown }
    requires room { rows.old.count + cond (is_named_rule shown) 1 0 ≤ 1544 }
    requires free { Free rows.old }
    ensures { Taken context.now shown rows.old rows.new }
{
    if is_named(shown) {
        let counted = members::members(context, shown);
        let allowed = members::limit(context, shown);
        rows.add(shown.own, &counted, context.fit.pair_count(), allowed);
    }
}

// Rows for the entries that stand in a place.
fn take_all(context: &Context, place: &[u8], count: usize, rows: &mut Rows)
    requires listed { Listed (entries_in context.now) place.now × (count ≡ length (entries_in context.now)) }
    requires free { (rows.old.count ≡ 0) × Free rows.old }
    ensures { Hold context.now (entries_in context.now) rows.new × (rows.new.count ≤ 1544) }
{
    for i in 0..count {
        take_in(context, shown::read(place, sizes::ENTRY_SIZE * i), rows);
    }
}

// The officer's list without a profile, in a place that holds any list; and how many entries it has.
fn list(context: &Context, hints: &mut [u32], place: &mut [u8]) -> usize
    requires { 24 * most_entries ≤ length place.old }
    ensures { let es = entries_in context.now in
        Listed es place.new × (result ≡ length es) }
{
    let none = [0u8; 0];
    let profile = Profile::new(&none);
    let asked = Asked {
        reader: Reader::Officer as u32,
        allowance: 0,
    };
    lists::write(asked, &profile, context, hints, place)
}

fn gather_in(context: &Context, hints: &mut [u32], place: &mut [u8], rows: &mut Rows)
    requires room { 24 * most_entries ≤ length place.old }
    requires free { (rows.old.count ≡ 0) × Free rows.old }
    ensures { Hold context.now (entries_in context.now) rows.new × (rows.new.count ≤ 1544) }
{
    let count = list(context, hints, place);
    take_all(context, place, count, rows);
}

pub fn gather(context: &Context, hints: &mut [u32], rows: &mut Rows)
    requires { (rows.old.count ≡ 0) × Free rows.old }
    ensures { Hold context.now (entries_in context.now) rows.new × (rows.new.count ≤ 1544) }
{
    let mut place = [0u8; calls::ANY_LIST];
    gather_in(context, hints, &mut place, rows);
}
