// What to leave out of a fit: document 02, P13. The list is run once; what each named entry counts is then held against each set that is
// tried, in place of the list of what the set leaves.
#![tactic(auto)]

mod best;
mod bits;
mod by_number;
mod distance;
mod listed;
mod rows;

ghost use Rattle.std.specs.Prelude.{◌≡◌, ◌*◌, ◌+◌, ◌≤◌, ◌++◌, length, take};
ghost use Rattle.words.specs.Words.{each};
ghost use Rattle.image.specs.Bytes.{le, put};
ghost use Rattle.catalogue.specs.Catalogue.{catalogue_of};
ghost use Rattle.fit.specs.Fit.{fit_of};
ghost use Rattle.calls.specs.Output.{output, room_refusals};
ghost use Rattle.calls.specs.Gave.{GaveBytes, word_of};
ghost use Rattle.parts.specs.Parts.{size, numbers_of};
ghost use Rattle.leave_out.specs.LeaveOut.{leave_out_bytes};

use catalogue::Catalogue;
use cause::kept;
use context::Context;
use fit::Fit;
use numbers::refusals::Refusal;
use rows::Rows;

// The tries, the distance, then the numbers of the pairs that are off, ascending, where there is room for them all.
fn write(
    tries: u32,
    distance: u32,
    off: &[bool; 256],
    n: usize,
    out: &mut [u8],
) -> Result<usize, Refusal>
    requires { n ≤ 256 }
    ensures { let bs = le 4 tries ++ le 4 distance ++ each (numbers_of (take n off.now)) (le 4) in
        GaveBytes out.old out.new (word_of result) (output (room_refusals out.old bs) bs) }
{
    let size = 8 + 4 * kept::count(off, n);
    if out.len() < size {
        return Err(Refusal::TooShort);
    }
    image::put_u32(out, 0, tries);
    image::put_u32(out, 4, distance);
    kept::put_numbers(off, n, 8, out);
    Ok(size)
}

// The call on images that are accepted: 10.
pub fn leave_out(
    catalogue: &Catalogue,
    fit: &Fit,
    budget: u32,
    out: &mut [u8],
) -> Result<usize, Refusal>
    ensures { let bs = leave_out_bytes (catalogue_of catalogue.now) (fit_of fit.now) budget in
        GaveBytes out.old out.new (word_of result) (output (room_refusals out.old bs) bs) }
{
    let mut hints = [0u32; context::LIST_HINTS];
    let mut pairs = [context::UNKNOWN; 256];
    let context = Context::new(catalogue, fit, &mut hints, &mut pairs);
    let mut rows = Rows::none();
    listed::gather(&context, &mut hints, &mut rows);
    let n = context.fit.pair_count();
    let made = best::tries_made(n, budget);
    let off = best::left_out(&rows, n, made);
    let far = distance::distance(&context, kept::count(&off, n));
    write(made, far, &off, n, out)
}
