// The rules of a league: groups that its profile bans or prices. Document 02, P2.
#![tactic(auto)]

ghost use Rattle.std.specs.Prelude.{◌≡◌, cond, ◌+◌, ◌≤◌, ◌<◌, pos};
ghost use Rattle.words.specs.Words.{when, given};
ghost use Rattle.numbers.specs.Sizes as Sizes;
ghost use Rattle.numbers.specs.Sizes.{most_pairs};
ghost use Rattle.profile.specs.Profile.{is_ban, prices_of, points_of};
ghost use Rattle.profile.specs.Sound.{Fair};
ghost use Rattle.entry.specs.declared.Rule.TheVariants.{Banned};
ghost use Rattle.entry.specs.Entries.{on_item};
ghost use Rattle.entry.specs.Wrote.{Room};
ghost use Rattle.entry.specs.Emitted.{Emitted};
ghost use Rattle.context.specs.Context.{is_fitted};
ghost use Rattle.context.specs.Gathered.{pair_count};
ghost use Rattle.context.specs.Held.{pair_in, pairs_in};
ghost use Rattle.league.specs.League.{banned, points, league};

use catalogue::TypeInfo;
use context::Context;
use entry::{Entries, Entry, Rule, Target};
use numbers::sizes;
use profile::Profile;

// The group by which a profile bans and prices a type. The profile lists types that the catalogue lacks under 0.
fn group_priced(answer: Option<TypeInfo>) -> i32
    ensures { result ≡ given answer (pos 0) (λ x. x.group) }
{
    answer.map_or(0, |info| info.group)
}

// The points of pair i, whose group is known; 0 where it is not fitted, as no rule asks for its group.
fn price_at(profile: &Profile, context: &Context, group: i32, i: usize) -> u32
    requires { i < pair_count context.now.fit.now }
    ensures { let points = points_of (prices_of profile.now) group in
        (result ≡ cond (is_fitted (pair_in context.now i)) points 0) × Fair result }
{
    profile.is_sound();
    if context.is_fitted_at(i) {
        profile.points_of(group)
    } else {
        0
    }
}

// Rule 24 of a pair whose group and price are known.
fn banned_at(group: i32, price: u32, i: usize, entries: &mut Entries)
    requires { (i < most_pairs) × Room entries.old.n 1 }
    ensures { Emitted entries.old entries.new (when (is_ban price) (on_item i (Banned group))) }
{
    entries.emit_when(
        price == sizes::BANNED,
        Entry {
            target: Target::Item(i as u32),
            rule: Rule::Banned(group),
        },
    );
}

// What a price costs: a ban costs nothing.
fn cost_of(price: u32) -> u32
    requires { Fair price }
    ensures { (result ≡ cond (is_ban price) 0 price) × (result ≤ Sizes.most_points) }
{
    if price == sizes::BANNED { 0 } else { price }
}

// Rule 24, and the points of the fitted pairs: both of one search a pair.
fn tally(profile: &Profile, context: &Context, entries: &mut Entries) -> u32
    requires { Room entries.old.n most_pairs }
    ensures { let prices = prices_of profile.now in
        let ps = pairs_in context.now in
        Emitted entries.old entries.new (banned prices ps)
        × (result ≡ points prices ps) × (entries.new.n ≤ entries.old.n + most_pairs) }
{
    let mut points = 0;
    for i in 0..context.fit.pair_count() {
        let group = group_priced(context.type_at(i));
        let price = price_at(profile, context, group, i);
        banned_at(group, price, i, entries);
        points += cost_of(price);
    }
    points
}

// Rule 24 by pair, then rule 25 on the ship. Most calls bring no profile: nothing is looked at then.
pub fn validate(profile: &Profile, allowance: u32, context: &Context, entries: &mut Entries)
    requires { Room entries.old.n 257 }
    ensures { let es = league (prices_of profile.now) allowance (pairs_in context.now) in
        Emitted entries.old entries.new es × (entries.new.n ≤ entries.old.n + 257) }
{
    if profile.is_empty() {
        return;
    }
    let points = tally(profile, context, entries);
    entries.emit_when(
        allowance < points,
        Entry {
            target: Target::Ship,
            rule: Rule::Points(points, allowance),
        },
    );
}
