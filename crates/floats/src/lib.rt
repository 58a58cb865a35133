// Floats of the images: read from their bits and written, cast to integers, and held against a limit.
// Document 01, "Records", "Values and casts", "Resources".
#![tactic(auto)]

ghost use Rattle.std.specs.Prelude.{◌≡◌, ◌+◌, ◌≤◌, min, length};
ghost use Rattle.std.specs.Float.Ieee.{neg};
ghost use Rattle.words.specs.Words.{given};
ghost use Rattle.image.specs.Bytes.{le, put};
ghost use Rattle.floats.specs.Floats.{f32_at, f64_at, f64_bits, zero_f, of_nat, to_u, to_i32, join, abs, over};

use std::num;

#[tactic(auto, unfolding(crate::specs::Floats::f32_at))]
pub fn f32_at(b: &[u8], at: usize) -> f32
    requires { at + 4 ≤ length b.now }
    ensures { result ≡ f32_at b.now at }
{
    num::f32_from_bits_with_nan(image::u32_at(b, at))
}

// An f32 widened, which is exact: base values and volumes are read so.
pub fn f32_wide_at(b: &[u8], at: usize) -> f64
    requires { at + 4 ≤ length b.now }
    ensures { result ≡ f32_at b.now at }
{
    num::f32_to_f64_with_nan(f32_at(b, at))
}

#[tactic(auto, unfolding(crate::specs::Floats::f64_at))]
pub fn f64_at(b: &[u8], at: usize) -> f64
    requires { at + 8 ≤ length b.now }
    ensures { result ≡ f64_at b.now at }
{
    num::f64_from_bits_with_nan(image::u64_at(b, at))
}

// The bits of an f64; every NaN has the same.
#[tactic(auto, unfolding(crate::specs::Floats::f64_bits))]
pub fn f64_bits(x: f64) -> u64
    ensures { result ≡ f64_bits x }
{
    num::f64_to_bits_with_nan(x)
}

// The eight bytes of x from a place on.
pub fn put_f64(out: &mut [u8], at: usize, x: f64)
    requires { at + 8 ≤ length out.old }
    ensures { out.new ≡ put out.old at (le 8 (f64_bits x)) }
{
    image::put_u64(out, at, f64_bits(x));
}

// A missing value reads as 0 for an amount.
pub fn amount(v: Option<f64>) -> f64
    ensures { result ≡ given v zero_f (λ x. x) }
{
    v.unwrap_or(0.0)
}

// Every u32 is an f64 exactly.
pub fn of_u32(n: u32) -> f64
    ensures { result ≡ of_nat n }
{
    f64::from(n)
}

// Rust's `x as u8`, and so on: truncated, and stopped at the ends of the range. The second clause is the law of any width of
// `floats/proofs/Casts.antt`: the cast to 64 bits, stopped at these ends.
pub fn to_u8(x: f64) -> u8
    ensures { (result ≡ to_u 8 x) × (result ≡ min (to_u 64 x) 255) }
{
    num::saturating_f64_to_u8(x)
}

pub fn to_u16(x: f64) -> u16
    ensures { (result ≡ to_u 16 x) × (result ≡ min (to_u 64 x) 65535) }
{
    num::saturating_f64_to_u16(x)
}

pub fn to_u32(x: f64) -> u32
    ensures { (result ≡ to_u 32 x) × (result ≡ min (to_u 64 x) 4294967295) }
{
    num::saturating_f64_to_u32(x)
}

pub fn to_i32(x: f64) -> i32
    ensures { (result ≡ to_i32 x)
        × (result ≡ join (min (to_u 64 (neg x)) 2147483648) (min (to_u 64 x) 2147483647)) }
{
    num::saturating_f64_to_i32(x)
}

// A zero's sign goes too.
#[tactic(auto, using(crate::proofs::Sizes::abs_is))]
fn abs(x: f64) -> f64
    ensures { result ≡ abs x }
{
    x.abs()
}

// What is used of a resource, and what there is of it.
#[derive(Clone, Copy)]
pub struct Load {
    pub used: f64,
    pub available: f64,
}

// A chain of modifiers can land just off from the limit, but is still a valid fit.
#[tactic(auto, unfolding(crate::specs::Floats::over))]
pub fn over(load: Load) -> bool
    ensures { result ≡ over load.used load.available }
{
    load.used > load.available + abs(load.available) * 1e-9
}
