// The tries behind those that put pairs back: every set by its number, with its pairs as bits.
ghost use Rattle.std.specs.Prelude.{◌≡◌, ◌+◌, ◌^◌, ◌<◌, ◌≤◌, ℕ, Bool, List, map, not, ◌&&◌, cond, ltb, take};
ghost use Rattle.parts.specs.Parts.{size};
ghost use Rattle.leave_out.specs.LeaveOut.{set_of};
ghost use Rattle.leave_out.specs.Bits.{Unmarked, marked_of};
ghost use Rattle.leave_out.specs.Held.{passes, best_of, IsFound};

use crate::rows::Rows;
use cause::kept;

// In place of a number, where no set by number is better than the one that putting back leaves.
const NO_NUMBER: u32 = 65536;

// The best set so far: its number and its size.
#[derive(Clone, Copy)]
pub struct Found {
    pub number: u32,
    pub size: u32,
}

// How many sets n pairs have.
pub fn sets(n: usize) -> u32
    requires { n ≤ 16 }
    ensures { (result ≡ 2 ^ n) × (result ≤ 65536) }
{
    1u32 << (n as u32)
}

// The pairs that the set of a number leaves of n.
fn left_by(n: usize, number: u32) -> [u64; 4]
    requires { (n ≤ 16) × (number < 2 ^ n) }
    ensures { (marked_of n result ≡ map not (set_of n number)) × Unmarked n result }
{
    let all = sets(n) - 1;
    [(all - number) as u64, 0, 0, 0]
}

fn is_good(rows: &Rows, n: usize, number: u32) -> bool
    requires { (n ≤ 16) × (number < 2 ^ n) × (rows.now.count ≤ 1544) }
    ensures { result ≡ passes rows.now (set_of n number) }
{
    let left = left_by(n, number);
    rows.none_over(&left, n)
}

fn size_of(number: u32) -> u32
    ensures { (n : ℕ) → number < 2 ^ n → result ≡ size (set_of n number) }
{
    u32::count_ones(number)
}

// Sizes first, as most sets are larger.
fn is_better(rows: &Rows, n: usize, number: u32, best: u32) -> bool
    requires { (n ≤ 16) × (number < 2 ^ n) × (rows.now.count ≤ 1544) }
    ensures { let s = set_of n number in
        result ≡ (passes rows.now s && ltb (size s) best) }
{
    let smaller = size_of(number) < best;
    smaller && is_good(rows, n, number)
}

// The better of the set of a number and the best so far.
fn better(rows: &Rows, n: usize, number: u32, found: Found) -> Found
    requires { (n ≤ 16) × (number < 2 ^ n) × (rows.now.count ≤ 1544) }
    ensures { (back best : List Bool) → IsFound back n found best → let s = set_of n number in
        IsFound back n result (cond (passes rows.now s && ltb (size s) (size best)) s best) }
{
    if is_better(rows, n, number, found.size) {
        return Found {
            number,
            size: size_of(number),
        };
    }
    found
}

// The set of a number.
fn set_of(n: usize, number: u32) -> [bool; 256]
    requires { n ≤ 16 }
    ensures { take n result ≡ set_of n number }
{
    let mut set = [false; 256];
    for i in 0..n {
        set[i] = (number >> (i as u32)) % 2 == 1;
    }
    set
}

// The best of the sets of the first numbers and of the one that putting back leaves.
pub fn best(rows: &Rows, n: usize, tries: u32, back: &[bool; 256]) -> [bool; 256]
    requires few { (n ≤ 16) × (tries ≤ 2 ^ n) × (rows.now.count ≤ 1544) }
    requires back { take n back.now ≡ best_of (passes rows.now) n n }
    ensures { take n result ≡ best_of (passes rows.now) n (n + tries) }
{
    let mut found = Found {
        number: NO_NUMBER,
        size: kept::count(back, n) as u32,
    };
    for number in 0..tries {
        found = better(rows, n, number, found);
    }
    let better = found.number < NO_NUMBER;
    if better {
        return set_of(n, found.number);
    }
    *back
}
