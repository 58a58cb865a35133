// Refusals 1 to 3 of document 01: each is one pass over the whole catalogue.
#![tactic(auto)]

ghost use Rattle.std.specs.Prelude.{◌≡◌, ℕ, ◌+◌, ◌*◌, ◌^◌, ◌<◌, ◌≤◌, not, ◌||◌, length, ltb, eqb};
ghost use Rattle.std.specs.Int.Signed.{lt_z, le_z};
ghost use Rattle.words.specs.Words.{table, any_of, in_order};
ghost use Rattle.numbers.specs.Sizes as Sizes;
ghost use Rattle.numbers.specs.Refused.{number_of};
ghost use Rattle.image.specs.Bytes.{u32_at, i32_at};
ghost use Rattle.catalogue.specs.Catalogue.{catalogue_of, base_count, bases_at};
ghost use Rattle.catalogue.specs.Refusals.{bad_order, bad_field, catalogue_refusal};

use catalogue::blocks::{Block, Blocks};
use numbers::refusals::Refusal;
use numbers::{marks, sizes};

// Bytes of a base: two ids and an f64.
const BASE_SIZE: usize = 16;

const LAST_MARK: u32 = marks::LAUNCHER_FITTED as u32;

// Where the sizes say that the bases begin. No sum of five sizes of 32 bits wraps.
pub fn bases_at(catalogue: &[u8]) -> usize
    requires { 20 ≤ length catalogue.now }
    ensures { (result ≡ bases_at catalogue.now) × (result < 2 ^ 40) }
{
    20 + 8 * image::size_at(catalogue, 0)
        + 8 * image::size_at(catalogue, 4)
        + 20 * image::size_at(catalogue, 8)
        + 8 * image::size_at(catalogue, 12)
}

// The length that the sizes say, where a base takes so many bytes.
fn size_of(catalogue: &[u8], base_size: usize) -> usize
    requires { (20 ≤ length catalogue.now) × (base_size ≤ 16) }
    ensures { result ≡ bases_at catalogue.now + base_size * base_count catalogue.now }
{
    bases_at(catalogue) + base_size * image::size_at(catalogue, 16)
}

// Refusal 1, where a base takes so many bytes.
pub fn bad_length(catalogue: &[u8], base_size: usize) -> bool
    requires { base_size ≤ 16 }
    ensures { let b = catalogue.now in
        result ≡ (ltb Sizes.most_catalogue_bytes (length b) || not (eqb (length b) (bases_at b + base_size * base_count b))) }
{
    sizes::MOST_CATALOGUE_BYTES < catalogue.len()
        || catalogue.len() < 20
        || catalogue.len() != size_of(catalogue, base_size)
}

// Three orders, each by a function of its own: a contract over the order's function would be longer than they are.
fn ascend_unsigned(blocks: &Blocks, b: Block) -> bool
    requires { b.at + 4 * b.n ≤ length blocks.now }
    ensures { result ≡ in_order ltb (table b.n (λ i. u32_at blocks.now (b.at + 4 * i))) }
{
    keys::ascend_unsigned(blocks.keys_of(b))
}

fn ascend(blocks: &Blocks, b: Block) -> bool
    requires { b.at + 4 * b.n ≤ length blocks.now }
    ensures { result ≡ in_order lt_z (table b.n (λ i. i32_at blocks.now (b.at + 4 * i))) }
{
    keys::ascend(blocks.keys_of(b))
}

fn never_descend(blocks: &Blocks, b: Block) -> bool
    requires { b.at + 4 * b.n ≤ length blocks.now }
    ensures { result ≡ in_order le_z (table b.n (λ i. i32_at blocks.now (b.at + 4 * i))) }
{
    keys::never_descend(blocks.keys_of(b))
}

// Refusal 2. It reads no value of a base.
pub fn bad_order(blocks: &Blocks) -> bool
    ensures { result ≡ bad_order (catalogue_of blocks.now) }
{
    if !ascend_unsigned(blocks, blocks.names()) {
        return true;
    }
    if !ascend(blocks, blocks.effects()) {
        return true;
    }
    if !ascend(blocks, blocks.types()) {
        return true;
    }
    if !never_descend(blocks, blocks.links()) {
        return true;
    }
    !never_descend(blocks, blocks.bases())
}

// Whether any of n numbers, each `step` bytes after the last, is above a limit. Like an order check it runs to its end.
// A loop of its own, as `fit_refusals::any` is: its one line as a closure would want a function and a contract for what it reads.
fn any_above(b: &[u8], at: usize, n: usize, step: usize, limit: u32) -> bool
    requires { (i : ℕ) → i < n → at + step * i + 4 ≤ length b.now }
    ensures { result ≡ any_of (ltb limit) (table n (λ i. u32_at b.now (at + step * i))) }
{
    let mut found = false;
    for i in 0..n {
        found |= limit < image::u32_at(b, at + step * i);
    }
    found
}

// Refusal 3. It reads no base.
pub fn bad_field(blocks: &Blocks) -> bool
    ensures { result ≡ bad_field (catalogue_of blocks.now) }
{
    let catalogue = blocks.bytes();
    let names = blocks.names();
    let effects = blocks.effects();
    let types = blocks.types();
    let marks_at = effects.at + 4 * effects.n;
    let flags_at = types.at + 4 * types.n + 8;
    if any_above(catalogue, names.at, names.n, 4, sizes::LAST_NAME) {
        return true;
    }
    if any_above(catalogue, marks_at, effects.n, 4, LAST_MARK) {
        return true;
    }
    any_above(catalogue, flags_at, types.n, 16, sizes::LAST_VOLUME_FLAG)
}

// The first refusal of 1 to 3 that holds.
pub fn check(catalogue: &[u8]) -> Result<(), Refusal>
    ensures { number_of result ≡ catalogue_refusal catalogue.now }
{
    if bad_length(catalogue, BASE_SIZE) {
        return Err(Refusal::BadLength);
    }
    let blocks = Blocks::new(catalogue);
    if bad_order(&blocks) {
        return Err(Refusal::BadKeys);
    }
    if bad_field(&blocks) {
        return Err(Refusal::BadEntry);
    }
    Ok(())
}
