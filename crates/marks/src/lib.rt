// A set of places, one bit for each: 64 to a word, so that a stretch without marks is passed over quickly.
#![tactic(auto)]

ghost use Rattle.std.specs.Prelude.{◌≡◌, true, false, ◌||◌, ℕ, ◌+◌, ◌*◌, ◌%◌};
ghost use Rattle.std.specs.Prelude.{◌<◌, ◌≤◌, eqb, length, get_or};
ghost use Rattle.marks.specs.Marks.{bit_of, is_marked, NextMark};

// A word with bit i set.
fn with_bit(x: u64, i: u64) -> u64
    requires { i < 64 }
    ensures { (j : ℕ) → bit_of result j ≡ bit_of x j || eqb i j }
{
    x | (1u64 << i)
}

// Marks a place.
pub fn mark(marks: &mut [u64], i: usize)
    requires { i < 64 * length marks.old }
    ensures marked { (j : ℕ) → is_marked marks.new j ≡ is_marked marks.old j || eqb i j }
    ensures long { length marks.new ≡ length marks.old }
{
    let k = i / 64;
    let word = marks[k];
    marks[k] = with_bit(word, (i % 64) as u64);
}

// Takes all marks off.
pub fn clear(marks: &mut [u64])
    ensures none { (j : ℕ) → is_marked marks.new j ≡ false }
    ensures long { length marks.new ≡ length marks.old }
{
    for i in 0..marks.len() {
        marks[i] = 0;
    }
}

// How many bits stand under the lowest that is set.
fn low_zeros(x: u64) -> usize
    ensures { (result ≤ 64) × ((j : ℕ) → j < result → bit_of x j ≡ false) × (result < 64 → bit_of x result ≡ true)
        × (0 < x → result < 64) }
{
    u64::trailing_zeros(x) as usize
}

// How many places from a place on are not marked, as far as its word tells.
fn gap(marks: &[u64], i: usize) -> usize
    requires { i < 64 * length marks.now }
    ensures { (result ≤ 64) × ((j : ℕ) → j < result → i % 64 + j < 64 → is_marked marks.now (i + j) ≡ false)
        × (i % 64 + result < 64 → is_marked marks.now (i + result) ≡ true) }
{
    let k = i / 64;
    let word = marks[k];
    low_zeros(word >> ((i % 64) as u64))
}

// The first of four words that have a mark, going on by four from a word on, or where less than four are left before `end`. One test for
// four: a window that is read to its end is mostly words without marks.
fn next_four(marks: &[u64], from: usize, end: usize) -> usize
    requires { (from ≤ end) × (end ≤ length marks.now) }
    ensures { (from ≤ result) × (result ≤ end) × ((k : ℕ) → from ≤ k → k < result → get_or marks.now k 0 ≡ 0) }
{
    let mut i = from;
    // a while: by four
    while 4 <= end - i {
        let all = marks[i] | marks[i + 1] | marks[i + 2] | marks[i + 3];
        if all != 0 {
            return i;
        }
        i += 4;
    }
    i
}

// The number of the first word from one on that has a mark, or `end` where none before it has one.
fn next_word(marks: &[u64], from: usize, end: usize) -> usize
    requires { (from ≤ end) × (end ≤ length marks.now) }
    ensures { (from ≤ result) × (result ≤ end) × ((k : ℕ) → from ≤ k → k < result → get_or marks.now k 0 ≡ 0)
        × (result < end → 0 < get_or marks.now result 0) }
{
    for k in next_four(marks, from, end)..end {
        if marks[k] != 0 {
            return k;
        }
    }
    end
}

// The first marked place from a place on, or `end` where none stands before it.
pub fn next(marks: &[u64], from: usize, end: usize) -> usize
    requires { (from ≤ end) × (end ≤ 64 * length marks.now) × (end < 4294967296) }
    ensures { NextMark marks.now from end result }
{
    if from >= end {
        return end;
    }
    let left = 64 - from % 64;
    let free = gap(marks, from);
    if free < left {
        return end.min(from + free);
    }
    let words = (end + 63) / 64;
    let k = next_word(marks, from / 64 + 1, words);
    if k >= words {
        return end;
    }
    let word = marks[k];
    end.min(64 * k + low_zeros(word))
}
