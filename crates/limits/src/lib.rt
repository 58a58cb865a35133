// How many items of a group or a type a fit may have: the limits of Rust's `validate/item.rs`.
#![tactic(auto)]

ghost use Rattle.std.specs.Prelude.{◌≡◌, ◌+◌, ◌*◌, ◌<◌, ◌≤◌};
ghost use Rattle.words.specs.Words.{count_of};
ghost use Rattle.numbers.specs.Sizes.{most_pairs};
ghost use Rattle.entry.specs.Wrote.{Room};
ghost use Rattle.entry.specs.Emitted.{Emitted};
ghost use Rattle.context.specs.Context.{said};
ghost use Rattle.context.specs.Gathered.{pair_count};
ghost use Rattle.context.specs.Held.{pair_in, pairs_in, context_in};
ghost use Rattle.limits.specs.Rows.{row_of, row_said, row_numbered};
ghost use Rattle.limits.specs.Groups.{Groups, States, state_of};
ghost use Rattle.limits.specs.Limits.{in_group, allowed_at, group_limit_at, group_limit, group_limits};
ghost use Rattle.limits.specs.Limits.{of_type, type_limit_at, type_limit, limit_rules};

use context::Context;
use entry::{Entries, Rule};
use numbers::{GroupLimit, names, states};

// A group limit, the lowest state that it counts, and its attribute.
#[derive(Clone, Copy)]
pub struct Row {
    pub limit: GroupLimit,
    pub lowest: u8,
    pub name: u32,
}

const GROUP_LIMITS: [Row; 3] = [
    Row {
        limit: GroupLimit::Fitted,
        lowest: states::OFFLINE,
        name: names::MAX_GROUP_FITTED,
    },
    Row {
        limit: GroupLimit::Online,
        lowest: states::ONLINE,
        name: names::MAX_GROUP_ONLINE,
    },
    Row {
        limit: GroupLimit::Active,
        lowest: states::ACTIVE,
        name: names::MAX_GROUP_ACTIVE,
    },
];

// The row of a group limit by its number.
pub fn row_at(number: u8) -> Option<Row>
    ensures { row_said result ≡ row_numbered number }
{
    GROUP_LIMITS.get(number as usize).copied()
}

// The state of pair i as limits count it: one above its own where it is fitted, else 0.
fn state_at(context: &Context, i: usize) -> u32
    requires { i < pair_count context.now.fit.now }
    ensures { result ≡ state_of (pair_in context.now i) }
{
    if context.is_fitted_at(i) {
        return u32::from(context.fit.result_state(i + 2)) + 1;
    }
    0
}

// Whether pair i is fitted, of the group, and in a state that a limit looks at: of one limit, where `Counted` serves all of them.
pub fn in_group(context: &Context, group: i32, lowest: u8, i: usize) -> bool
    requires { i < pair_count context.now.fit.now }
    ensures { result ≡ in_group group lowest (pair_in context.now i) }
{
    let own = context.type_at(i).map_or(0, |info| info.group);
    context.is_fitted_at(i) & (own == group) & (lowest <= context.fit.result_state(i + 2))
}

// How many a limit of pair i allows, if the pair has it and is fitted.
fn allowed_at(context: &Context, id: i32, i: usize) -> Option<u32>
    requires { i < pair_count context.now.fit.now }
    ensures { result ≡ allowed_at id (pair_in context.now i) }
{
    let value = context.fit.value(i + 2, id)?;
    if !context.is_fitted_at(i) {
        return None;
    }
    Some(floats::to_u32(value))
}

// What limits count pairs by, gathered once for all of them. Two arrays, so that the compiler can take many pairs at once: counting took
// a third longer on 256 of an array of pairs.
#[derive(Drop)]
struct Counted<'a> {
    context: &'a Context<'a>,
    groups: [i32; 256],
    states: [u32; 256],
    ghost grouped: { Groups context.now groups },
    ghost stated: { States context.now states },
}

impl<'a> Counted<'a> {
    // Types that the catalogue lacks are counted in group 0.
    fn new(context: &'a Context<'a>) -> Self
        ensures { result.context.now ≡ context.now }
    {
        let mut groups = [0i32; 256];
        let mut states = [0u32; 256];
        // an index: the pairs are read by theirs
        for i in 0..context.fit.pair_count() {
            let group = context.type_at(i).map_or(0, |info| info.group);
            groups[i] = group;
            states[i] = state_at(context, i);
        }
        Counted {
            context,
            groups,
            states,
        }
    }

    // Whether a fitted pair of the group is in a state that the limit looks at.
    fn in_group(&self, group: i32, lowest: u8, i: usize) -> bool
        requires { i < pair_count self.now.context.now.fit.now }
        ensures { result ≡ in_group group lowest (pair_in self.now.context.now i) }
    {
        (self.groups[i] == group) & (u32::from(lowest) < self.states[i])
    }

    fn count_in_group(&self, group: i32, lowest: u8) -> u32
        ensures { result ≡ count_of (in_group group lowest) (pairs_in self.now.context.now) }
    {
        self.context.count(|i| self.in_group(group, lowest, i))
    }

    fn group_limit_at(&self, row: Row, id: i32, i: usize) -> Option<Rule>
        requires { i < pair_count self.now.context.now.fit.now }
        ensures { let ps = pairs_in self.now.context.now in
            let p = pair_in self.now.context.now i in
            said p result ≡ group_limit_at row.limit row.lowest id ps p }
    {
        let allowed = allowed_at(self.context, id, i)?;
        let group = self.groups[i];
        let used = self.count_in_group(group, row.lowest);
        (allowed < used).then_some(Rule::MaxGroup(group, row.limit, used, allowed))
    }

    fn group_limit(&self, row: Row, entries: &mut Entries)
        requires { Room entries.old.n most_pairs }
        ensures { let x = context_in self.now.context.now in
            let ps = pairs_in self.now.context.now in
            Emitted entries.old entries.new (group_limit x ps (row_of row)) × (entries.new.n ≤ entries.old.n + most_pairs) }
    {
        let Some(id) = self.context.catalogue.attribute_id(row.name) else {
            return;
        };
        self.context
            .report(|i| self.group_limit_at(row, id, i), entries);
    }
}

pub fn group_limits(context: &Context, entries: &mut Entries)
    requires { Room entries.old.n (3 * most_pairs) }
    ensures { let x = context_in context.now in
        let ps = pairs_in context.now in
        Emitted entries.old entries.new (group_limits x ps) × (entries.new.n ≤ entries.old.n + 3 * most_pairs) }
{
    let counted = Counted::new(context);
    for row in GROUP_LIMITS {
        counted.group_limit(row, entries);
    }
}

// Whether pair i is fitted and of the type.
pub fn of_type(context: &Context, id: i32, i: usize) -> bool
    requires { i < pair_count context.now.fit.now }
    ensures { result ≡ of_type id (pair_in context.now i) }
{
    context.is_fitted_at(i) & (context.fit.item_type(i) == id)
}

fn type_limit_at(context: &Context, id: i32, i: usize) -> Option<Rule>
    requires { i < pair_count context.now.fit.now }
    ensures { let ps = pairs_in context.now in
        let p = pair_in context.now i in
        said p result ≡ type_limit_at id ps p }
{
    let allowed = allowed_at(context, id, i)?;
    let type_id = context.fit.item_type(i);
    let used = context.count(|k| of_type(context, type_id, k));
    (allowed < used).then_some(Rule::MaxType(type_id, used, allowed))
}

pub fn type_limit(context: &Context, entries: &mut Entries)
    requires { Room entries.old.n most_pairs }
    ensures { let x = context_in context.now in
        let ps = pairs_in context.now in
        Emitted entries.old entries.new (type_limit x ps) × (entries.new.n ≤ entries.old.n + most_pairs) }
{
    let Some(id) = context.catalogue.attribute_id(names::MAX_TYPE_FITTED) else {
        return;
    };
    context.report(|i| type_limit_at(context, id, i), entries);
}

pub fn validate(context: &Context, entries: &mut Entries)
    requires { Room entries.old.n (4 * most_pairs) }
    ensures { let x = context_in context.now in
        let ps = pairs_in context.now in
        Emitted entries.old entries.new (limit_rules x ps) × (entries.new.n ≤ entries.old.n + 4 * most_pairs) }
{
    group_limits(context, entries);
    type_limit(context, entries);
}
