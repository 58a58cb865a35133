// The calls for C and Rust: each function of `fitcheck` under a symbol of its own name, with its clauses. The archive is made of these.
#![tactic(auto)]

ghost use Rattle.std.specs.Prelude.{◌≡◌};
ghost use Rattle.lists.specs.Terms.{terms, limited, read_by, main};
ghost use Rattle.calls.specs.Answers.{returned, buffered};
ghost use Rattle.calls.specs.Output.{output_word, filled};
ghost use Rattle.fitcheck.specs.Calls.{list_call, skill_call};
ghost use Rattle.fitcheck.specs.Hall.{hall_call, hall_returned};
ghost use Rattle.fitcheck.specs.Widen.{widen_call};
ghost use Rattle.fitcheck.specs.Train.{train_call};
ghost use Rattle.fitcheck.specs.Trim.{trim_call};
ghost use Rattle.fitcheck.specs.Cause.{cause_call};
ghost use Rattle.fitcheck.specs.LeaveOut.{leave_out_call};

// The list call.
#[unsafe(no_mangle)]
pub extern "C" fn fit_list(
    reader: u32,
    catalogue: &[u8],
    fit: &[u8],
    profile: &[u8],
    allowance: u32,
    pairs: u32,
    skills: u32,
    out: &mut [u8],
) -> u64
    ensures { let t = read_by reader (limited pairs skills (terms profile.now allowance)) in
        let call = list_call t catalogue.now fit.now out.old in
        (result ≡ returned call) × (out.new ≡ buffered out.old call) }
{
    fitcheck::fit_list(
        reader, catalogue, fit, profile, allowance, pairs, skills, out,
    )
}

// The skill call.
#[unsafe(no_mangle)]
pub extern "C" fn fit_skill(
    reader: u32,
    catalogue: &[u8],
    fit: &[u8],
    res: u32,
    pairs: u32,
    skills: u32,
    out: &mut [u8],
) -> u64
    ensures { let t = read_by reader (limited pairs skills main) in
        let call = skill_call t catalogue.now fit.now res out.old in
        (result ≡ returned call) × (out.new ≡ buffered out.old call) }
{
    fitcheck::fit_skill(reader, catalogue, fit, res, pairs, skills, out)
}

// The hall call.
#[unsafe(no_mangle)]
pub extern "C" fn fit_hall(catalogue: &[u8], input: &[u8]) -> u64
    ensures { result ≡ hall_returned (hall_call catalogue.now input.now) }
{
    fitcheck::fit_hall(catalogue, input)
}

// The widening.
#[unsafe(no_mangle)]
pub extern "C" fn fit_widen(old: &[u8], out: &mut [u8]) -> u64
    ensures { let call = widen_call old.now out.old in
        (result ≡ output_word call) × (out.new ≡ filled out.old call) }
{
    fitcheck::fit_widen(old, out)
}

// The training.
#[unsafe(no_mangle)]
pub extern "C" fn fit_train(
    catalogue: &[u8],
    fit: &[u8],
    res: u32,
    steps: u32,
    out: &mut [u8],
) -> u64
    ensures { let call = train_call catalogue.now fit.now res steps out.old in
        (result ≡ output_word call) × (out.new ≡ filled out.old call) }
{
    fitcheck::fit_train(catalogue, fit, res, steps, out)
}

// The trimming.
#[unsafe(no_mangle)]
pub extern "C" fn fit_trim(catalogue: &[u8], fit: &[u8], out: &mut [u8]) -> u64
    ensures { let call = trim_call catalogue.now fit.now out.old in
        (result ≡ output_word call) × (out.new ≡ filled out.old call) }
{
    fitcheck::fit_trim(catalogue, fit, out)
}

// The cause.
#[unsafe(no_mangle)]
pub extern "C" fn fit_cause(catalogue: &[u8], fit: &[u8], position: u32, out: &mut [u8]) -> u64
    ensures { let call = cause_call catalogue.now fit.now position out.old in
        (result ≡ output_word call) × (out.new ≡ filled out.old call) }
{
    fitcheck::fit_cause(catalogue, fit, position, out)
}

// What to leave out.
#[unsafe(no_mangle)]
pub extern "C" fn fit_leave_out(catalogue: &[u8], fit: &[u8], budget: u32, out: &mut [u8]) -> u64
    ensures { let call = leave_out_call catalogue.now fit.now budget out.old in
        (result ≡ output_word call) × (out.new ≡ filled out.old call) }
{
    fitcheck::fit_leave_out(catalogue, fit, budget, out)
}

// The number of this set of calls and images, in the symbol's name.
#[unsafe(no_mangle)]
pub extern "C" fn fit_interface_10() -> u64
    ensures { result ≡ 10 }
{
    fitcheck::fit_interface_10()
}
