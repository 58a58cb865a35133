// The calls, on numbers and byte slices; `fitcheck_c` exports them. Document 01, "Refusals in their order" and "Hall number"; document 02.
#![tactic(auto)]

mod hall;

ghost use Rattle.std.specs.Prelude.{◌≡◌};
ghost use Rattle.lists.specs.Terms.{terms, limited, read_by, main};
ghost use Rattle.calls.specs.Answers.{returned, buffered};
ghost use Rattle.calls.specs.Gave.{Gave, GaveBytes, word_of};
ghost use Rattle.calls.specs.Output.{output_word, filled};
ghost use Rattle.fitcheck.specs.Calls.{list_call, skill_call};
ghost use Rattle.fitcheck.specs.Hall.{hall_call, hall_returned};
ghost use Rattle.fitcheck.specs.Widen.{widen_call};
ghost use Rattle.fitcheck.specs.Train.{train_call};
ghost use Rattle.fitcheck.specs.Trim.{trim_call};
ghost use Rattle.fitcheck.specs.Cause.{cause_call};
ghost use Rattle.fitcheck.specs.LeaveOut.{leave_out_call};

use calls::word;
use catalogue::Catalogue;
use fit::Fit;
use lists::Asked;
use numbers::readers::Reader;
use numbers::refusals::Refusal;
use numbers::sizes;

// The main page's limits, as a call brings them.
pub const MAIN_PAIRS: u32 = sizes::MOST_PAIRS as u32;

pub const MAIN_SKILLS: u32 = sizes::MOST_WANTED as u32;

// The list of whoever has the reader's number. A list wants no skill, and the limit of skills is not read.
fn answer_list(
    reader: u32,
    catalogue: &[u8],
    fit: &[u8],
    profile: &[u8],
    allowance: u32,
    pairs: u32,
    out: &mut [u8],
) -> Result<usize, Refusal>
    ensures { let t = read_by reader (limited pairs 0 (terms profile.now allowance)) in
        Gave out.old out.new (word_of result) (list_call t catalogue.now fit.now out.old) }
{
    Reader::try_from(reader)?;
    let asked = Asked { reader, allowance };
    calls::read_list(asked, catalogue, fit, profile, pairs, out)
}

// The list call: every rule that a fit breaks, those of a league with it; a guest is not told of skills.
pub fn fit_list(
    reader: u32,
    catalogue: &[u8],
    fit: &[u8],
    profile: &[u8],
    allowance: u32,
    pairs: u32,
    skills: u32,
    out: &mut [u8],
) -> u64
    ensures { let t = read_by reader (limited pairs skills (terms profile.now allowance)) in
        let call = list_call t catalogue.now fit.now out.old in
        (result ≡ returned call) × (out.new ≡ buffered out.old call) }
{
    word(answer_list(reader, catalogue, fit, profile, allowance, pairs, out))
}

// The skills of a result, which guests are not told of.
fn answer_skill(
    reader: u32,
    catalogue: &[u8],
    fit: &[u8],
    res: u32,
    pairs: u32,
    skills: u32,
    out: &mut [u8],
) -> Result<usize, Refusal>
    ensures { let t = read_by reader (limited pairs skills main) in
        Gave out.old out.new (word_of result) (skill_call t catalogue.now fit.now res out.old) }
{
    match Reader::try_from(reader)? {
        Reader::Guest => Err(Refusal::NotForGuests),
        Reader::Pilot | Reader::Officer => calls::read_skills(
            catalogue, fit, res, pairs, skills, out,
        ),
    }
}

// The skill call: the skills that a result wants and that are trained lower. They are not for guests.
pub fn fit_skill(
    reader: u32,
    catalogue: &[u8],
    fit: &[u8],
    res: u32,
    pairs: u32,
    skills: u32,
    out: &mut [u8],
) -> u64
    ensures { let t = read_by reader (limited pairs skills main) in
        let call = skill_call t catalogue.now fit.now res out.old in
        (result ≡ returned call) × (out.new ≡ buffered out.old call) }
{
    word(answer_skill(reader, catalogue, fit, res, pairs, skills, out))
}

// The catalogue is checked once for all fits.
fn answer_hall(catalogue: &[u8], input: &[u8]) -> Result<usize, Refusal>
    ensures { word_of result ≡ hall_returned (hall_call catalogue.now input.now) }
{
    catalogue_refusals::check(catalogue)?;
    if hall::bad_input(input) {
        return Err(Refusal::BadSize);
    }
    let catalogue = Catalogue::new(catalogue);
    Ok(hall::word(&catalogue, input))
}

// The hall call: how many of up to 64 fits are clear, faulted and refused.
pub fn fit_hall(catalogue: &[u8], input: &[u8]) -> u64
    ensures { result ≡ hall_returned (hall_call catalogue.now input.now) }
{
    word(answer_hall(catalogue, input))
}

fn answer_widen(old: &[u8], out: &mut [u8]) -> Result<usize, Refusal>
    ensures { GaveBytes out.old out.new (word_of result) (widen_call old.now out.old) }
{
    widening::check(old)?;
    let size = widening::wide_size(old);
    if out.len() < size {
        return Err(Refusal::TooShort);
    }
    widening::widen(old, out);
    Ok(size)
}

// The widening: an old catalogue, whose base values are f32, in the new form.
pub fn fit_widen(old: &[u8], out: &mut [u8]) -> u64
    ensures { let call = widen_call old.now out.old in
        (result ≡ output_word call) × (out.new ≡ filled out.old call) }
{
    word(answer_widen(old, out))
}

fn answer_train(
    catalogue: &[u8],
    fit: &[u8],
    res: u32,
    steps: u32,
    out: &mut [u8],
) -> Result<usize, Refusal>
    ensures { GaveBytes out.old out.new (word_of result) (train_call catalogue.now fit.now res steps out.old) }
{
    calls::check_images(catalogue, fit)?;
    let catalogue = Catalogue::new(catalogue);
    let fit = Fit::new(fit);
    training::train(&catalogue, &fit, res, steps, out)
}

// The training: the fit that so many steps lead to, for one of its results.
pub fn fit_train(catalogue: &[u8], fit: &[u8], res: u32, steps: u32, out: &mut [u8]) -> u64
    ensures { let call = train_call catalogue.now fit.now res steps out.old in
        (result ≡ output_word call) × (out.new ≡ filled out.old call) }
{
    word(answer_train(catalogue, fit, res, steps, out))
}

fn answer_trim(catalogue: &[u8], fit: &[u8], out: &mut [u8]) -> Result<usize, Refusal>
    ensures { GaveBytes out.old out.new (word_of result) (trim_call catalogue.now fit.now out.old) }
{
    calls::check_images(catalogue, fit)?;
    let catalogue = Catalogue::new(catalogue);
    let fit = Fit::new(fit);
    trim::trim(&catalogue, &fit, out)
}

// The trimming: the catalogue that keeps of another what one fit touches.
pub fn fit_trim(catalogue: &[u8], fit: &[u8], out: &mut [u8]) -> u64
    ensures { let call = trim_call catalogue.now fit.now out.old in
        (result ≡ output_word call) × (out.new ≡ filled out.old call) }
{
    word(answer_trim(catalogue, fit, out))
}

fn answer_cause(
    catalogue: &[u8],
    fit: &[u8],
    position: u32,
    out: &mut [u8],
) -> Result<usize, Refusal>
    ensures { GaveBytes out.old out.new (word_of result) (cause_call catalogue.now fit.now position out.old) }
{
    calls::check_images(catalogue, fit)?;
    let catalogue = Catalogue::new(catalogue);
    let fit = Fit::new(fit);
    cause::cause(&catalogue, &fit, position, out)
}

// The cause: the smallest part of a fit that shows an entry of its list.
pub fn fit_cause(catalogue: &[u8], fit: &[u8], position: u32, out: &mut [u8]) -> u64
    ensures { let call = cause_call catalogue.now fit.now position out.old in
        (result ≡ output_word call) × (out.new ≡ filled out.old call) }
{
    word(answer_cause(catalogue, fit, position, out))
}

fn answer_leave_out(
    catalogue: &[u8],
    fit: &[u8],
    budget: u32,
    out: &mut [u8],
) -> Result<usize, Refusal>
    ensures { GaveBytes out.old out.new (word_of result) (leave_out_call catalogue.now fit.now budget out.old) }
{
    calls::check_images(catalogue, fit)?;
    let catalogue = Catalogue::new(catalogue);
    let fit = Fit::new(fit);
    leave_out::leave_out(&catalogue, &fit, budget, out)
}

// What to leave out: the smallest set of pairs to take off among those that a budget of tries checks.
pub fn fit_leave_out(catalogue: &[u8], fit: &[u8], budget: u32, out: &mut [u8]) -> u64
    ensures { let call = leave_out_call catalogue.now fit.now budget out.old in
        (result ≡ output_word call) × (out.new ≡ filled out.old call) }
{
    word(answer_leave_out(catalogue, fit, budget, out))
}

// The number of this set of calls and images, in the symbol's name: a caller written for another set does not link.
pub fn fit_interface_10() -> u64
    ensures { result ≡ 10 }
{
    10
}
