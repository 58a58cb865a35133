// Refusals 4 to 6 of document 01: each is one pass over the whole fit.
#![tactic(auto)]

ghost use Rattle.std.specs.Prelude.{◌≡◌, ℕ, Bool, not, ◌&&◌, ◌||◌, map, ◌+◌, ◌*◌, ◌<◌, ◌≤◌, eqb, ltb, length};
ghost use Rattle.std.specs.Int.Signed.{lt_z};
ghost use Rattle.words.specs.Words.{any_of, in_order, table};
ghost use Rattle.numbers.specs.Sizes as Sizes;
ghost use Rattle.numbers.specs.Refused.{number_of};
ghost use Rattle.image.specs.Bytes.{i32_at};
ghost use Rattle.fit.specs.Fit.{Item, results_at, item_count, result_count, ids_at, item_at, result_of, start_at, fit_of, all_results};
ghost use Rattle.fit.specs.Refusals.{bad_size, bad_order, bad_item, bad_result, bad_field, fit_refusal};
ghost use Rattle.fit.specs.Sound.{in_bay};

use fit::layout::{self, Layout};
use numbers::refusals::Refusal;
use numbers::{sizes, slots, states};

// How many attributes the first n results have.
fn counted(fit: &[u8], first: usize, n: usize) -> usize
    requires { (first ≡ results_at fit.now) × (first + 4 * n ≤ length fit.now) × (n ≤ 258) }
    ensures { result ≡ start_at fit.now n }
{
    let mut sum: usize = 0;
    for j in 0..n {
        sum += layout::count_at(fit, first, j);
    }
    sum
}

// 4: a limit, the length, or counts that do not add up. The least length that sizes can say is 36.
fn bad_size(fit: &[u8]) -> bool
    ensures { result ≡ bad_size fit.now }
{
    if fit.len() < 36 {
        return true;
    }
    let s = image::size_at(fit, 0);
    let f = image::size_at(fit, 4);
    let r = image::size_at(fit, 8);
    let a = image::size_at(fit, 12);
    if sizes::MOST_SKILLS < s {
        return true;
    }
    if sizes::MOST_ITEMS < f {
        return true;
    }
    if sizes::MOST_RESULTS < r {
        return true;
    }
    if sizes::MOST_ATTRIBUTES < a {
        return true;
    }
    if fit.len() != 36 + 5 * s + 12 * f + 4 * r + 12 * a {
        return true;
    }
    counted(fit, 28 + 5 * s + 12 * f, r + 2) != a
}

// Whether the n attribute ids from number `start` on do not ascend.
fn disordered(layout: &Layout, start: usize, n: usize) -> bool
    requires { ids_at layout.now + 4 * (start + n) ≤ length layout.now }
    ensures { let b = layout.now in
        result ≡ not (in_order lt_z (table n (λ i. i32_at b (ids_at b + 4 * (start + i))))) }
{
    let ids = image::part(layout.bytes(), layout.ids_at() + 4 * start, 4 * n);
    let ok = keys::ascend(ids);
    !ok
}

// Whether the attribute ids of some result do not ascend.
fn any_disordered(layout: &Layout) -> bool
    ensures { let rs = all_results (fit_of layout.now) in
        result ≡ any_of (λ x. not (in_order lt_z (map (λ y. y.id) x.attributes))) rs }
{
    let mut bad = false;
    let mut start: usize = 0;
    for j in 0..layout.results() + 2 {
        let k = layout.count_at(j);
        bad |= disordered(layout, start, k);
        start += k;
    }
    bad
}

// 5: skill ids, or the attribute ids of a result, that do not ascend.
fn bad_order(layout: &Layout) -> bool
    ensures { result ≡ bad_order (fit_of layout.now) }
{
    let n = layout.skills();
    let ids = image::part(layout.bytes(), 28, 4 * n);
    if keys::ascend(ids) {
        return any_disordered(layout);
    }
    true
}

// The mode flag, and the bits of the mode.
fn bad_mode(flag: u32, mode: u32) -> bool
    ensures { result ≡ (ltb Sizes.last_mode_flag flag || (eqb flag 0 && not (eqb mode 0))) }
{
    if sizes::LAST_MODE_FLAG < flag {
        return true;
    }
    if flag == 0 {
        return mode != 0;
    }
    false
}

// Kinds whose items have no index: the bays and Cargo.
fn in_bay(slot: u8) -> bool
    ensures { result ≡ in_bay slot }
{
    if slot == slots::FIGHTER_BAY {
        return true;
    }
    if slot == slots::DRONE_BAY {
        return true;
    }
    slot == slots::CARGO
}

// An item's slot kind, the byte after it, and its index.
fn bad_place(slot: u8, reserved: u8, index: u16) -> bool
    ensures { (i : Item) → i.slot ≡ slot → i.reserved ≡ reserved → i.index ≡ index → result ≡ bad_item i }
{
    if slots::CARGO < slot {
        return true;
    }
    if reserved != 0 {
        return true;
    }
    if sizes::LAST_INDEX < index {
        if slot != slots::BOOSTER {
            return true;
        }
        return false;
    }
    if index == 0 {
        return false;
    }
    in_bay(slot)
}

fn bad_item(layout: &Layout, i: usize) -> bool
    requires { i < item_count layout.now }
    ensures { result ≡ bad_item (item_at layout.now i) }
{
    let fit = layout.bytes();
    let at = layout.items_at() + 12 * i;
    let slot = image::u8_at(fit, at + 8);
    let reserved = image::u8_at(fit, at + 9);
    let index = image::u16_at(fit, at + 10);
    bad_place(slot, reserved, index)
}

fn bad_result(layout: &Layout, j: usize) -> bool
    requires { j < result_count layout.now + 2 }
    ensures { result ≡ bad_result (result_of layout.now j) }
{
    let fit = layout.bytes();
    let at = layout.results_at() + 4 * j;
    let state = image::u8_at(fit, at);
    if states::OVERLOAD < state {
        return true;
    }
    let reserved = image::u8_at(fit, at + 1);
    reserved != 0
}

// Whether any of n is bad. The loop runs to its end, so that it has no branch of its own.
fn any<F: Fn(usize) -> bool>(n: usize, is_bad: F) -> bool
    requires { (i : ℕ) → i < n → F.pre is_bad i }
    ensures { (p : ℕ → Bool) → ((i : ℕ) (r : Bool) → i < n → F.post is_bad i r → r ≡ p i) → result ≡ any_of (λ r. r) (table n p) }
{
    let mut bad = false;
    for i in 0..n {
        bad |= is_bad(i);
    }
    bad
}

// 6: a byte, index, state or mode field outside what document 01 says.
fn bad_field(layout: &Layout) -> bool
    ensures { result ≡ bad_field (fit_of layout.now) }
{
    let fit = layout.bytes();
    let flag = image::u32_at(fit, 20);
    let mode = image::u32_at(fit, 24);
    if bad_mode(flag, mode) {
        return true;
    }
    if any(layout.items(), |i| bad_item(layout, i)) {
        return true;
    }
    any(layout.results() + 2, |j| bad_result(layout, j))
}

// The first refusal that holds of any bytes at all.
pub fn check(fit: &[u8]) -> Result<(), Refusal>
    ensures { number_of result ≡ fit_refusal fit.now }
{
    if bad_size(fit) {
        return Err(Refusal::BadSize);
    }
    let layout = Layout::new(fit);
    if bad_order(&layout) {
        return Err(Refusal::BadIds);
    }
    if bad_field(&layout) {
        return Err(Refusal::BadField);
    }
    Ok(())
}
