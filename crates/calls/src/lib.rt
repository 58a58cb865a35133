// What the calls stand on: the refusals of what a call brings, the list of a reader and the skill list of a result, each with the word
// and the buffer that an exported call gives. Document 01, "Refusals in their order"; document 02.
#![tactic(auto)]

ghost use Rattle.std.specs.Prelude.{◌≡◌, List, ◌++◌, ℕ, ◌+◌, ◌*◌, ◌^◌, ◌<◌, ◌≤◌, length};
ghost use Rattle.words.specs.Words.{first_of};
ghost use Rattle.numbers.specs.Refused.{number_of};
ghost use Rattle.catalogue.specs.Catalogue.{catalogue_of};
ghost use Rattle.fit.specs.Fit.{fit_of, result_count};
ghost use Rattle.entry.specs.declared.Entry.{Entry};
ghost use Rattle.entry.specs.Wrote.{Wrote};
ghost use Rattle.skill.specs.Skill.{reported, skill_list};
ghost use Rattle.skill.specs.Held.{walk_of};
ghost use Rattle.lists.specs.Terms.{terms, limited, read_by, main};
ghost use Rattle.lists.specs.Lists.{list_for, most_entries};
ghost use Rattle.calls.specs.Answers.{answer, image_refusals, page_refusals, input_refusals, buffer_refusals, skill_refusals};
ghost use Rattle.calls.specs.Gave.{Gave, lent, word_of};

use catalogue::Catalogue;
use context::Context;
use fit::Fit;
use fit::layout::Layout;
use lists::Asked;
use numbers::refusals::Refusal;
use numbers::sizes;
use profile::Profile;
use skill::Walk;

// The bytes of the longest list of any fit.
pub const ANY_LIST: usize = sizes::ENTRY_SIZE * lists::MOST_ENTRIES;

// Lists of few pairs need less: setting as many bytes as any list takes to 0 costs time.
const SMALL_PLACE: usize = 12288;

// Of a walk, which holds 512 skills: each is listed once at most.
const ANY_SKILL_LIST: usize = sizes::ENTRY_SIZE * sizes::MOST_WANTED;

// The word that an exported call returns: a refusal's number in the upper half, or the count.
pub fn word(answer: Result<usize, Refusal>) -> u64
    ensures { result ≡ word_of answer }
{
    match answer {
        Ok(count) => count as u64,
        Err(refusal) => refusal.number() * sizes::WORD,
    }
}

// Refusals 1 to 6.
pub fn check_images(catalogue: &[u8], fit: &[u8]) -> Result<(), Refusal>
    ensures { number_of result ≡ first_of (image_refusals catalogue.now fit.now) }
{
    catalogue_refusals::check(catalogue)?;
    fit_refusals::check(fit)
}

// Refusals 1 to 6 and, for pairs, 13. More pairs than the main page takes were refused by 4.
fn check_page(catalogue: &[u8], fit: &[u8], limit: u32) -> Result<(), Refusal>
    ensures { number_of result ≡ first_of (page_refusals (limited limit 0 main) catalogue.now fit.now) }
{
    check_images(catalogue, fit)?;
    let limit = limit as usize;
    if limit < Layout::new(fit).pairs() {
        return Err(Refusal::OverLimit);
    }
    Ok(())
}

// Refusals 1 to 6, 13, 11 and 12.
fn check_inputs(catalogue: &[u8], fit: &[u8], limit: u32, profile: &[u8]) -> Result<(), Refusal>
    ensures { let t = limited limit 0 (terms profile.now 0) in
        number_of result ≡ first_of (input_refusals t catalogue.now fit.now) }
{
    check_page(catalogue, fit, limit)?;
    profile::check(profile)
}

// As many entries of a place as were written there, where the buffer has room for them: else none, and no byte of it changes.
fn copied(count: usize, place: &[u8], out: &mut [u8]) -> Result<usize, Refusal>
    requires { (24 * count ≤ length place.now) × (count ≤ most_entries) }
    ensures { let before = out.old in
        let after = out.new in
        ((es : List Entry) (b : List ℕ) → Wrote b 0 place.now count es → 24 * length es ≤ length b →
        Gave before after (word_of result) (lent before es)) }
{
    if out.len() / sizes::ENTRY_SIZE < count {
        return Err(Refusal::TooShort);
    }
    image::copy(out, 0, image::part(place, 0, sizes::ENTRY_SIZE * count));
    Ok(count)
}

// A list that a place of so many bytes holds, for a buffer that may be too short: it is run once, into the place.
fn placed<const SIZE: usize>(
    asked: Asked,
    profile: &Profile,
    context: &Context,
    hints: &mut [u32],
    out: &mut [u8],
) -> Result<usize, Refusal>
    requires size { SIZE < 2 ^ 32 }
    requires fit_bound { let t = read_by asked.reader (terms profile.now asked.allowance) in
        24 * length (list_for t (catalogue_of context.now.catalogue.now) (fit_of context.now.fit.now)) ≤ SIZE }
    ensures { let t = read_by asked.reader (terms profile.now asked.allowance) in
        let es = list_for t (catalogue_of context.now.catalogue.now) (fit_of context.now.fit.now) in
        Gave out.old out.new (word_of result) (lent out.old es) }
{
    let mut place = [0u8; SIZE];
    let count = lists::write(asked, profile, context, hints, &mut place);
    copied(count, &place, out)
}

// The list call on images and a profile that are accepted. Where the buffer holds any list of the fit, it is written there at once.
fn list_accepted(
    asked: Asked,
    catalogue: &Catalogue,
    fit: &Fit,
    profile: &Profile,
    out: &mut [u8],
) -> Result<usize, Refusal>
    ensures { let t = read_by asked.reader (terms profile.now asked.allowance) in
        let es = list_for t (catalogue_of catalogue.now) (fit_of fit.now) in
        Gave out.old out.new (word_of result) (lent out.old es) }
{
    let most = sizes::ENTRY_SIZE * lists::most_entries(fit);
    let mut hints = [0u32; context::LIST_HINTS];
    let mut pairs = [context::UNKNOWN; 256];
    let context = Context::new(catalogue, fit, &mut hints, &mut pairs);
    if most <= out.len() {
        return Ok(lists::write(asked, profile, &context, &mut hints, out));
    }
    if most <= SMALL_PLACE {
        return placed::<SMALL_PLACE>(asked, profile, &context, &mut hints, out);
    }
    placed::<ANY_LIST>(asked, profile, &context, &mut hints, out)
}

// The list call of a reader that there is.
pub fn read_list(
    asked: Asked,
    catalogue: &[u8],
    fit: &[u8],
    profile: &[u8],
    pairs: u32,
    out: &mut [u8],
) -> Result<usize, Refusal>
    ensures { let t = read_by asked.reader (limited pairs 0 (terms profile.now asked.allowance)) in
        let es = list_for t (catalogue_of catalogue.now) (fit_of fit.now) in
        let refusals = input_refusals t catalogue.now fit.now ++ buffer_refusals out.old es in
        Gave out.old out.new (word_of result) (answer refusals es) }
{
    check_inputs(catalogue, fit, pairs, profile)?;
    let catalogue = Catalogue::new(catalogue);
    let fit = Fit::new(fit);
    let profile = Profile::new(profile);
    list_accepted(asked, &catalogue, &fit, &profile, out)
}

// The skill list of a walk.
fn skill_list(fit: &Fit, res: usize, walk: Walk, out: &mut [u8]) -> Result<usize, Refusal>
    requires { res < result_count fit.now + 2 }
    ensures { let es = reported (fit_of fit.now) res (walk_of walk) in
        Gave out.old out.new (word_of result) (lent out.old es) }
{
    if ANY_SKILL_LIST <= out.len() {
        return Ok(skill::write(fit, res, walk, out));
    }
    let mut none = [0u8; 0];
    let missing = skill::write(fit, res, walk, &mut none);
    if out.len() / sizes::ENTRY_SIZE < missing {
        return Err(Refusal::TooShort);
    }
    Ok(skill::write(fit, res, walk, out))
}

// The skill call on images that are accepted. The walk is the main page's, whatever the limit. `training::train` asks for 8 and 9 in the
// same lines: a function for both would say two refusals and a walk in its contract.
fn skill_accepted(
    catalogue: &Catalogue,
    fit: &Fit,
    res: u32,
    skills: u32,
    out: &mut [u8],
) -> Result<usize, Refusal>
    ensures { let c = catalogue_of catalogue.now in
        let f = fit_of fit.now in
        let refusals = skill_refusals (limited 0 skills main) c f res out.old in
        Gave out.old out.new (word_of result) (answer refusals (skill_list c f res)) }
{
    fit.is_sound();
    let res = res as usize;
    if fit.result_count() + 1 < res {
        return Err(Refusal::NoResult);
    }
    let Ok(walk) = skill::wanted_skills(catalogue, fit, res) else {
        return Err(Refusal::TooManySkills);
    };
    let limit = skills as usize;
    if limit < walk.len {
        return Err(Refusal::OverLimit);
    }
    skill_list(fit, res, walk, out)
}

// The skill call of a pilot or an officer.
pub fn read_skills(
    catalogue: &[u8],
    fit: &[u8],
    res: u32,
    pairs: u32,
    skills: u32,
    out: &mut [u8],
) -> Result<usize, Refusal>
    ensures { let t = limited pairs skills main in
        let c = catalogue_of catalogue.now in
        let f = fit_of fit.now in
        let refusals = page_refusals t catalogue.now fit.now ++ skill_refusals t c f res out.old in
        Gave out.old out.new (word_of result) (answer refusals (skill_list c f res)) }
{
    check_page(catalogue, fit, pairs)?;
    let catalogue = Catalogue::new(catalogue);
    let fit = Fit::new(fit);
    skill_accepted(&catalogue, &fit, res, skills, out)
}
