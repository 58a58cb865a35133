// The pairs that are kept, and their numbers as bytes.
ghost use Rattle.std.specs.Prelude.{◌≡◌, ◌+◌, ◌*◌, ◌<◌, ◌≤◌, ℕ, cond, length, take, Some};
ghost use Rattle.words.specs.Words.{each};
ghost use Rattle.image.specs.Bytes.{le, put};
ghost use Rattle.context.specs.Gathered.{pair_count};
ghost use Rattle.calls.specs.Output.{output, room_refusals};
ghost use Rattle.calls.specs.Gave.{GaveBytes, word_of};
ghost use Rattle.parts.specs.Parts.{size, every, less, numbers_of, down_from, thinned};
ghost use Rattle.cause.specs.Decided.{has_own, Inside, passes, Ready, Untried};

use crate::deciding::Deciding;
use crate::shown::Shown;
use context::Context;
use numbers::refusals::Refusal;

// Whether the pair that an entry is about is kept; the ship always is.
fn is_kept(own: Option<usize>, kept: &[bool; 256]) -> bool
    requires { (i : ℕ) → own ≡ Some i → i < 256 }
    ensures { result ≡ has_own own kept.now }
{
    match own {
        Some(i) => kept[i],
        None => true,
    }
}

// Whether the entry stays without pair i.
fn stays_without(
    context: &Context,
    shown: Shown,
    deciding: &Deciding,
    kept: &[bool; 256],
    i: usize,
) -> bool
    requires inside { Inside context.now shown }
    requires ready { Ready (pair_count context.now.fit.now) deciding.now }
    requires within { i < pair_count context.now.fit.now }
    requires untried { Untried i kept.now }
    ensures { let x = context.now in
        result ≡ passes x shown.own deciding.now (less (take (pair_count x.fit.now) kept.now) i) }
{
    context.fit.is_sound();
    let mut without = *kept;
    without[i] = false;
    is_kept(shown.own, &without) && deciding.is_broken_without(context, &without, i)
}

// Drops pair i where the entry stays without it.
fn try_without(
    context: &Context,
    shown: Shown,
    deciding: &Deciding,
    kept: &mut [bool; 256],
    i: usize,
)
    requires inside { Inside context.now shown }
    requires ready { Ready (pair_count context.now.fit.now) deciding.now }
    requires within { i < pair_count context.now.fit.now }
    requires untried { Untried i kept.old }
    requires long { length kept.old ≡ 256 }
    ensures long { length kept.new ≡ 256 }
    ensures untried { Untried i kept.new }
    ensures tried { let x = context.now in
        let n = pair_count x.fit.now in
        let without = less (take n kept.old) i in
        take n kept.new ≡ cond (passes x shown.own deciding.now without) without (take n kept.old) }
{
    context.fit.is_sound();
    if stays_without(context, shown, deciding, kept, i) {
        kept[i] = false;
    }
}

// From the last pair to the first, each is dropped where the entry stays without it.
pub fn thinned(context: &Context, shown: Shown, deciding: &Deciding) -> [bool; 256]
    requires inside { Inside context.now shown }
    requires ready { Ready (pair_count context.now.fit.now) deciding.now }
    ensures { let x = context.now in
        let n = pair_count x.fit.now in
        take n result ≡ thinned (passes x shown.own deciding.now) (every n) (down_from n) }
{
    context.fit.is_sound();
    let mut kept = [true; 256];
    let n = context.fit.pair_count();
    for k in 0..n {
        try_without(context, shown, deciding, &mut kept, n - 1 - k);
    }
    kept
}

// How many of the first n are kept.
pub fn count(kept: &[bool; 256], n: usize) -> usize
    requires { n ≤ 256 }
    ensures { (result ≡ size (take n kept.now)) × (result ≤ n) }
{
    let mut count: usize = 0;
    for i in 0..n {
        count += words::one_if(kept[i]) as usize;
    }
    count
}

// The number of pair i at a place, where it is kept; and the place behind it.
fn put_number(kept: bool, i: usize, at: usize, out: &mut [u8]) -> usize
    requires { (i < 256) × (at + cond kept 4 0 ≤ length out.old) }
    ensures { (result ≡ at + cond kept 4 0) × (out.new ≡ cond kept (put out.old at (le 4 i)) out.old) }
{
    if kept {
        image::put_u32(out, at, i as u32);
        return at + 4;
    }
    at
}

// The numbers of the first n that are kept, ascending, from a place on.
pub fn put_numbers(kept: &[bool; 256], n: usize, from: usize, out: &mut [u8])
    requires { (n ≤ 256) × (from + 4 * size (take n kept.now) ≤ length out.old) }
    ensures { out.new ≡ put out.old from (each (numbers_of (take n kept.now)) (le 4)) }
{
    let mut at = from;
    for i in 0..n {
        at = put_number(kept[i], i, at, out);
    }
}

// The numbers of the first n pairs that are kept, ascending, where there is room for them.
pub fn write(kept: &[bool; 256], n: usize, out: &mut [u8]) -> Result<usize, Refusal>
    requires { n ≤ 256 }
    ensures { let bs = each (numbers_of (take n kept.now)) (le 4) in
        GaveBytes out.old out.new (word_of result) (output (room_refusals out.old bs) bs) }
{
    let size = 4 * count(kept, n);
    if out.len() < size {
        return Err(Refusal::TooShort);
    }
    put_numbers(kept, n, 0, out);
    Ok(size)
}
