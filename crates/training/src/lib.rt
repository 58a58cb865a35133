// Training, level by level: document 02, P11. The steps are not made one by one: each wanted skill in turn is given what it lacks, as far
// as the steps reach.
#![tactic(auto)]

ghost use Rattle.std.specs.Prelude.{◌≡◌, cond, ◌++◌, ◌+◌, ◌-◌, ◌*◌, ◌<◌, ◌≤◌, min, ltb, length, take, drop};
ghost use Rattle.words.specs.Words.{count_of, contains};
ghost use Rattle.numbers.specs.Sizes as Sizes;
ghost use Rattle.image.specs.Bytes.{put};
ghost use Rattle.catalogue.specs.Catalogue.{catalogue_of};
ghost use Rattle.fit.specs.Fit.{fit_of, skill_count};
ghost use Rattle.skill.specs.Held.{walk_of};
ghost use Rattle.calls.specs.Output.{output, room_refusals};
ghost use Rattle.calls.specs.Gave.{GaveBytes, word_of};
ghost use Rattle.training.specs.Training.{training_of, raised, trained_by, trained_image, train_refusals};
ghost use Rattle.training.specs.Turns.{turn, turns, is_new, Listed};

use catalogue::Catalogue;
use fit::Fit;
use keys::Keys;
use numbers::refusals::Refusal;
use numbers::sizes;
use skill::Walk;

// Room for as many skills as may be listed, and on either side of them for every wanted one.
const ROOM: usize = sizes::MOST_SKILLS + 2 * sizes::MOST_WANTED;

const ROOM_BYTES: usize = 4 * ROOM;

// Listed skills, ids and levels side by side, from a place on. Two arrays of bytes, as in the image, which lists all ids before all levels.
#[derive(Drop)]
struct Plan {
    ids: [u8; ROOM_BYTES],
    levels: [u8; ROOM],
    from: usize,
    len: usize,
    // how far it has room on either side, and that a skill lacks, are the functions' own and stand in clauses
    ghost within: { from + len ≤ 2048 },
}

// What a skill is given: what it lacks, as far as the steps reach.
fn portion(wanted: u8, level: u8, steps: u32) -> u8
    ensures { result ≡ min (wanted - level) steps }
{
    u32::from(wanted.saturating_sub(level)).min(steps) as u8
}

// The bytes from `at` to `end`, moved down; byte by byte, as `image::move_up`.
fn move_down(b: &mut [u8], at: usize, end: usize, by: usize)
    requires { (by ≤ at) × (at ≤ end) × (end ≤ length b.old) }
    ensures { b.new ≡ put b.old (at - by) (take (end - at) (drop at b.old)) }
{
    for i in at..end {
        b[i - by] = b[i];
    }
}

impl Plan {
    ghost use Rattle.training.specs.Plans.{plan_of, stands_at, Lacks, Grown};

    // The fit's skills, whatever was held. Into the caller's place: given back by value they would be on the stack twice.
    fn hold(&mut self, fit: &Fit)
        ensures { (plan_of self.new ≡ training_of (fit_of fit.now))
            × (self.new.from ≡ Sizes.most_wanted) × (self.new.len ≤ Sizes.most_skills) }
    {
        let bytes = fit.bytes();
        let n = fit.skill_count();
        image::copy(
            &mut self.ids,
            4 * sizes::MOST_WANTED,
            image::part(bytes, 28, 4 * n),
        );
        image::copy(
            &mut self.levels,
            sizes::MOST_WANTED,
            image::part(bytes, 28 + 4 * n, n),
        );
        self.from = sizes::MOST_WANTED;
        self.len = n;
    }

    // Whether an id stands at a place.
    fn stands(&self, at: usize, id: i32) -> bool
        ensures { result ≡ stands_at self.now at id }
    {
        at < self.len && image::i32_at(&self.ids, 4 * (self.from + at)) == id
    }

    // Puts a skill that is not listed to its place, at a level. Those above it make room.
    fn insert_up(&mut self, at: usize, id: i32, level: u8)
        requires { (self.old.from + self.old.len < 2048) × Lacks self.old at id }
        ensures { let t = plan_of self.old in
            (plan_of self.new ≡ raised t.ids t.levels id level)
            × (self.new.from ≡ self.old.from) × (self.new.len ≡ self.old.len + 1) }
    {
        let place = self.from + at;
        let end = self.from + self.len;
        image::move_up(&mut self.ids, 4 * place, 4 * end, 4);
        image::put_u32(&mut self.ids, 4 * place, image::bits(id));
        image::move_up(&mut self.levels, place, end, 1);
        self.levels[place] = level;
        self.len += 1;
    }

    // The same, and those below it make room. Not one with the other: what moves, which way and where to would all be parameters.
    fn insert_down(&mut self, at: usize, id: i32, level: u8)
        requires { (1 ≤ self.old.from) × Lacks self.old at id }
        ensures { let t = plan_of self.old in
            (plan_of self.new ≡ raised t.ids t.levels id level)
            × (self.new.from + 1 ≡ self.old.from) × (self.new.len ≡ self.old.len + 1) }
    {
        let place = self.from + at;
        move_down(&mut self.ids, 4 * self.from, 4 * place, 4);
        image::put_u32(&mut self.ids, 4 * place - 4, image::bits(id));
        move_down(&mut self.levels, self.from, place, 1);
        self.levels[place - 1] = level;
        self.from -= 1;
        self.len += 1;
    }

    // The same, whichever are fewer.
    fn insert(&mut self, at: usize, id: i32, level: u8)
        requires { (1 ≤ self.old.from) × (self.old.from + self.old.len < 2048) × Lacks self.old at id }
        ensures { let t = plan_of self.old in
            (plan_of self.new ≡ raised t.ids t.levels id level) × Grown self.old self.new 1 }
    {
        if at < self.len - at {
            self.insert_down(at, id, level);
        } else {
            self.insert_up(at, id, level);
        }
    }

    // A wanted skill's turn: how many steps are left.
    fn take_turn(&mut self, steps: u32, id: i32, wanted: u8) -> u32
        requires { (1 ≤ self.old.from) × (self.old.from + self.old.len < 2048) × Listed (plan_of self.old) }
        ensures { ((plan_of self.new, result) ≡ turn (plan_of self.old, steps) (id, wanted)) × Grown self.old self.new 1 }
    {
        let ids = image::part(&self.ids, 4 * self.from, 4 * self.len);
        let at = Keys::new(ids, self.len).first_from(id);
        if self.stands(at, id) {
            let place = self.from + at;
            let given = portion(wanted, self.levels[place], steps);
            self.levels[place] += given;
            return steps - given as u32;
        }
        let given = portion(wanted, 0, steps);
        if given != 0 {
            self.insert(at, id, given);
        }
        steps - given as u32
    }

    // The turns of a walk's skills, in their order.
    fn take_turns(&mut self, walk: Walk, steps: u32)
        requires { (Sizes.most_wanted ≤ self.old.from) × (self.old.from + self.old.len + Sizes.most_wanted ≤ 2048)
            × Listed (plan_of self.old) }
        ensures { (plan_of self.new ≡ (turns (plan_of self.old) steps (walk_of walk)).0) × Grown self.old self.new walk.len }
    {
        let mut left = steps;
        // an index: two arrays are read in step
        for i in 0..walk.len {
            left = self.take_turn(left, walk.ids[i], walk.levels[i]);
        }
    }

    // The fit's image with these skills, from byte 0 on.
    fn write(&self, fit: &Fit, out: &mut [u8])
        requires { length fit.now + 5 * self.now.len ≤ length out.old + 5 * skill_count fit.now }
        ensures { out.new ≡ put out.old 0 (trained_image fit.now (plan_of self.now)) }
    {
        let bytes = fit.bytes();
        let at = fit.layout().items_at();
        let from = self.from;
        let n = self.len;
        image::put_u32(out, 0, n as u32);
        image::copy(out, 4, image::part(bytes, 4, 24));
        image::copy(out, 28, image::part(&self.ids, 4 * from, 4 * n));
        image::copy(out, 28 + 4 * n, image::part(&self.levels, from, n));
        image::copy(out, 28 + 5 * n, image::part(bytes, at, bytes.len() - at));
    }
}

// Whether a skill is listed.
fn is_listed(fit: &Fit, id: i32) -> bool
    ensures { result ≡ contains id (fit_of fit.now).skills }
{
    fit.skill_keys().place_of(id).is_some()
}

// 1 for a wanted skill that lacks and is not listed, else 0. One that is not listed has level 0.
fn new_skill(fit: &Fit, id: i32, wanted: u8) -> usize
    ensures { (result ≡ cond (is_new (training_of (fit_of fit.now)) (id, wanted)) 1 0) × (result ≤ 1) }
{
    if wanted == 0 {
        return 0;
    }
    if is_listed(fit, id) {
        return 0;
    }
    1
}

// How many of a walk's skills lack and are not listed.
fn new_skills(fit: &Fit, walk: Walk) -> usize
    ensures { (result ≡ count_of (is_new (training_of (fit_of fit.now))) (walk_of walk)) × (result ≤ Sizes.most_wanted) }
{
    let mut count: usize = 0;
    // an index: two arrays are read in step
    for i in 0..walk.len {
        count += new_skill(fit, walk.ids[i], walk.levels[i]);
    }
    count
}

// Whether the skills of a walk that lack and are not listed would carry those that are over 1,024. Where all of its skills would not,
// none is looked up.
fn too_many_listed(fit: &Fit, walk: Walk) -> bool
    ensures { let b = fit.now in
        result ≡ ltb Sizes.most_skills (skill_count b + count_of (is_new (training_of (fit_of b))) (walk_of walk)) }
{
    fit.is_sound();
    let listed = fit.skill_count();
    if listed + walk.len <= sizes::MOST_SKILLS {
        return false;
    }
    sizes::MOST_SKILLS < listed + new_skills(fit, walk)
}

// The fit that the steps lead to, where there is room for it.
fn train_listed(fit: &Fit, walk: Walk, steps: u32, out: &mut [u8]) -> Result<usize, Refusal>
    ensures { let b = fit.now in
        let bs = trained_image b (turns (training_of (fit_of b)) steps (walk_of walk)).0 in
        GaveBytes out.old out.new (word_of result) (output (room_refusals out.old bs) bs) }
{
    let others = fit.bytes().len() - 5 * fit.skill_count();
    let mut plan = Plan {
        ids: [0; ROOM_BYTES],
        levels: [0; ROOM],
        from: 0,
        len: 0,
    };
    plan.hold(fit);
    plan.take_turns(walk, steps);
    let size = others + 5 * plan.len;
    if out.len() < size {
        return Err(Refusal::TooShort);
    }
    plan.write(fit, out);
    Ok(size)
}

// The training call on images that are accepted: 8 and 9 as the skill call gives them, 16, 10.
// `calls::skill_accepted` asks for 8 and 9 in the same lines: a function for both would say two refusals and a walk in its contract.
pub fn train(
    catalogue: &Catalogue,
    fit: &Fit,
    res: u32,
    steps: u32,
    out: &mut [u8],
) -> Result<usize, Refusal>
    ensures { let c = catalogue_of catalogue.now in
        let b = fit.now in
        let bs = trained_image b (training_of (trained_by c res steps (fit_of b))) in
        GaveBytes out.old out.new (word_of result)
        (output (train_refusals c (fit_of b) res ++ room_refusals out.old bs) bs) }
{
    fit.is_sound();
    let res = res as usize;
    if fit.result_count() + 1 < res {
        return Err(Refusal::NoResult);
    }
    let Ok(walk) = skill::wanted_skills(catalogue, fit, res) else {
        return Err(Refusal::TooManySkills);
    };
    if too_many_listed(fit, walk) {
        return Err(Refusal::TooManyListed);
    }
    train_listed(fit, walk, steps, out)
}
