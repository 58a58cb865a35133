// Demand 3 of the two calls as they are exported: an old and a new call, each with its own buffer, and what their contracts say of both.
// Document 01, "Two fits compared"; and what Cargo put behind a fit leaves as it was: document 02, P7. Then a trim and the calls of its fit
// under both catalogues: document 02, P1.
#![tactic(auto)]

ghost use Rattle.std.specs.Prelude.{◌≤◌, ◌≡◌, length, take};
ghost use Rattle.lists.specs.Terms.{terms, limited, read_by, main};
ghost use Rattle.fitcheck.specs.Calls.{list_call, skill_call};
ghost use Rattle.promises.specs.Answers.{outcome};
ghost use Rattle.promises.specs.Trims.{trim_outcome};
ghost use Rattle.two_fits.specs.Kept.{left, ListsKept, SkillsKept, HeldOnce, ListsHauled, SkillsHauled};
ghost use Rattle.two_fits.specs.Trimmed.{UnderBoth, TrimmedTwice};

// The words of an old and of a new call.
#[derive(Clone, Copy)]
pub struct Words {
    pub old: u64,
    pub new: u64,
}

// The words of a trim, and of one call under the whole catalogue and under the trimmed one.
#[derive(Clone, Copy)]
pub struct Trim {
    pub trim: u64,
    pub whole: u64,
    pub small: u64,
}

// What the page of one call takes.
#[derive(Clone, Copy)]
pub struct Page {
    pub pairs: u32,
    pub skills: u32,
}

// Two list calls of one reader with one profile and one allowance, each on its own page: their words and their buffers are the call's.
// Where both are answered, no entry of the old list vanishes, and Cargo put behind the old fit touches the hold alone.
pub fn lists(
    reader: u32,
    catalogue: &[u8],
    profile: &[u8],
    allowance: u32,
    old: &[u8],
    new: &[u8],
    first: Page,
    second: Page,
    before: &mut [u8],
    after: &mut [u8],
) -> Words
    ensures { let c = catalogue.now in
        let league = read_by reader (terms profile.now allowance) in
        let t = limited first.pairs first.skills league in
        let t' = limited second.pairs second.skills league in
        let o = left result.old before.new in
        let o' = left result.new after.new in
        (outcome before.old (list_call t c old.now before.old) ≡ o)
        × (outcome after.old (list_call t' c new.now after.old) ≡ o')
        × ListsKept c old.now new.now o o'
        × ListsHauled c old.now new.now o o'
        × HeldOnce o
        × HeldOnce o' }
{
    let a = fitcheck::fit_list(
        reader,
        catalogue,
        old,
        profile,
        allowance,
        first.pairs,
        first.skills,
        before,
    );
    let b = fitcheck::fit_list(
        reader,
        catalogue,
        new,
        profile,
        allowance,
        second.pairs,
        second.skills,
        after,
    );
    Words { old: a, new: b }
}

// Two skill calls for one result, likewise. Where both are answered, no entry of the old list vanishes.
pub fn skills(
    reader: u32,
    catalogue: &[u8],
    old: &[u8],
    new: &[u8],
    res: u32,
    first: Page,
    second: Page,
    before: &mut [u8],
    after: &mut [u8],
) -> Words
    ensures { let c = catalogue.now in
        let t = limited first.pairs first.skills (read_by reader main) in
        let t' = limited second.pairs second.skills (read_by reader main) in
        let o = left result.old before.new in
        let o' = left result.new after.new in
        (outcome before.old (skill_call t c old.now res before.old) ≡ o)
        × (outcome after.old (skill_call t' c new.now res after.old) ≡ o')
        × SkillsKept old.now new.now o o'
        × SkillsHauled old.now new.now o o' }
{
    let pairs = first.pairs;
    let most = first.skills;
    let a = fitcheck::fit_skill(reader, catalogue, old, res, pairs, most, before);
    let room = second.pairs;
    let limit = second.skills;
    let b = fitcheck::fit_skill(reader, catalogue, new, res, room, limit, after);
    Words { old: a, new: b }
}

// The bytes that a call wrote from byte 0 on, where its word counts them; none where that is more than there are, as of a refusal.
fn written(word: u64, out: &[u8]) -> &[u8]
    ensures { word ≤ length out.now → result.now ≡ take word out.now }
{
    if (out.len() as u64) < word {
        return image::part(out, 0, 0);
    }
    image::part(out, 0, word as usize)
}

// A trim, and the list call of its fit under the whole catalogue and under what the trim wrote, each with its own buffer. Where the trim is
// answered and both buffers hold the same, both calls leave the same word and the same bytes.
pub fn trimmed_lists(
    reader: u32,
    catalogue: &[u8],
    fit: &[u8],
    profile: &[u8],
    allowance: u32,
    page: Page,
    out: &mut [u8],
    before: &mut [u8],
    after: &mut [u8],
) -> Trim
    ensures { let c = catalogue.now in
        let f = fit.now in
        let t = limited page.pairs page.skills (read_by reader (terms profile.now allowance)) in
        let trim = left result.trim out.new in
        let whole = left result.whole before.new in
        let small = left result.small after.new in
        (trim_outcome c f out.old ≡ trim)
        × UnderBoth (λ x. list_call t x f) c before.old after.old trim whole small }
{
    let pairs = page.pairs;
    let most = page.skills;
    let trim = fitcheck::fit_trim(catalogue, fit, out);
    let whole = fitcheck::fit_list(
        reader, catalogue, fit, profile, allowance, pairs, most, before,
    );
    let kept = written(trim, out);
    let small = fitcheck::fit_list(reader, kept, fit, profile, allowance, pairs, most, after);
    Trim { trim, whole, small }
}

// A trim, and the skill call of one result of its fit under both, likewise.
pub fn trimmed_skills(
    reader: u32,
    catalogue: &[u8],
    fit: &[u8],
    res: u32,
    page: Page,
    out: &mut [u8],
    before: &mut [u8],
    after: &mut [u8],
) -> Trim
    ensures { let c = catalogue.now in
        let f = fit.now in
        let t = limited page.pairs page.skills (read_by reader main) in
        let trim = left result.trim out.new in
        let whole = left result.whole before.new in
        let small = left result.small after.new in
        (trim_outcome c f out.old ≡ trim)
        × UnderBoth (λ x. skill_call t x f res) c before.old after.old trim whole small }
{
    let pairs = page.pairs;
    let most = page.skills;
    let trim = fitcheck::fit_trim(catalogue, fit, out);
    let whole = fitcheck::fit_skill(reader, catalogue, fit, res, pairs, most, before);
    let kept = written(trim, out);
    let small = fitcheck::fit_skill(reader, kept, fit, res, pairs, most, after);
    Trim { trim, whole, small }
}

// A catalogue trimmed by a fit, and what that wrote trimmed by it once more: where the first is answered and the second has room for it, it
// writes the same bytes.
pub fn trimmed_twice(catalogue: &[u8], fit: &[u8], out: &mut [u8], again: &mut [u8]) -> Words
    ensures { let f = fit.now in
        let once = left result.old out.new in
        let twice = left result.new again.new in
        (trim_outcome catalogue.now f out.old ≡ once) × TrimmedTwice f again.old once twice }
{
    let first = fitcheck::fit_trim(catalogue, fit, out);
    let kept = written(first, out);
    let second = fitcheck::fit_trim(kept, fit, again);
    Words {
        old: first,
        new: second,
    }
}
