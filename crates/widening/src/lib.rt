// Old catalogues, whose base values are f32, and what makes new ones of them: document 02, P10. No other crate reads the old form.
#![tactic(auto)]

ghost use Rattle.std.specs.Prelude.{◌≡◌, ◌+◌, ◌*◌, ◌≤◌, length};
ghost use Rattle.numbers.specs.Refused.{number_of};
ghost use Rattle.image.specs.Bytes.{put};
ghost use Rattle.catalogue.specs.Catalogue.{base_values_at, size_of};
ghost use Rattle.widening.specs.Old.{old_size_of, old_bad_length, old_refusal};
ghost use Rattle.widening.specs.Widen.{wide_value, wide_values, widened};

use catalogue::blocks::Blocks;
use numbers::refusals::Refusal;

// Bytes of a base in the old form: two ids and an f32.
const BASE_SIZE: usize = 12;

// Refusal 1 of the old form.
#[tactic(auto, unfolding(crate::specs::Old::old_bad_length))]
fn bad_length(old: &[u8]) -> bool
    ensures { result ≡ old_bad_length old.now }
{
    catalogue_refusals::bad_length(old, BASE_SIZE)
}

// The first refusal of 1 to 3 that holds of the old form. Keys and fields stand where the new form has them. Beside `check` of
// `catalogue_refusals`, whose clause is another definition: one function for both would need a definition over the size of a base.
pub fn check(old: &[u8]) -> Result<(), Refusal>
    ensures { number_of result ≡ old_refusal old.now }
{
    if bad_length(old) {
        return Err(Refusal::BadLength);
    }
    let blocks = Blocks::new(old);
    if catalogue_refusals::bad_order(&blocks) {
        return Err(Refusal::BadKeys);
    }
    if catalogue_refusals::bad_field(&blocks) {
        return Err(Refusal::BadEntry);
    }
    Ok(())
}

// The bytes that the new form takes.
pub fn wide_size(old: &[u8]) -> usize
    requires { length old.now ≡ old_size_of old.now }
    ensures { result ≡ length (widened old.now) }
{
    let b = Blocks::new(old).bases();
    b.at + 16 * b.n
}

// The value of a base: its attribute id is copied, its f32 becomes an f64.
fn widen_value(old: &[u8], at: usize, out: &mut [u8], to: usize)
    requires { (at + 8 ≤ length old.now) × (to + 12 ≤ length out.old) }
    ensures { out.new ≡ put out.old to (wide_value old.now at) }
{
    image::copy(out, to, image::part(old, at, 4));
    floats::put_f64(out, to + 4, floats::f32_wide_at(old, at + 4));
}

// The values of n bases, which begin at a place in both forms.
fn widen_values(old: &[u8], at: usize, n: usize, out: &mut [u8])
    requires { (at ≡ base_values_at old.now) × (at + 8 * n ≤ length old.now) × (at + 12 * n ≤ length out.old) }
    ensures { out.new ≡ put out.old at (wide_values old.now n) }
{
    for i in 0..n {
        widen_value(old, at + 8 * i, out, at + 12 * i);
    }
}

// Writes the new form from byte 0 on.
pub fn widen(old: &[u8], out: &mut [u8])
    requires { (length old.now ≡ old_size_of old.now) × (size_of old.now ≤ length out.old) }
    ensures { out.new ≡ put out.old 0 (widened old.now) }
{
    let b = Blocks::new(old).bases();
    let at = b.at + 4 * b.n;
    image::copy(out, 0, image::part(old, 0, at));
    widen_values(old, at, b.n, out);
}
