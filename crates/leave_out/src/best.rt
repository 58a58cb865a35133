// The tries, and the smallest good set that they check.
ghost use Rattle.std.specs.Prelude.{◌≡◌, ◌+◌, ◌^◌, ◌<◌, ◌≤◌, min, map, not, ◌&&◌, cond, leb, ltb, take};
ghost use Rattle.parts.specs.Parts.{size};
ghost use Rattle.leave_out.specs.LeaveOut.{all_tries};
ghost use Rattle.leave_out.specs.Held.{passes, better_by, best_of};

use crate::rows::Rows;
use crate::{bits, by_number};
use cause::kept;

// Sets are taken by number up to so many pairs.
const MOST_NUMBERED: usize = 16;

// How many sets are taken by number.
fn numbered(n: usize) -> u32
    ensures { (result ≡ cond (leb n 16) (2 ^ n) 0) × (result ≤ 65536) }
{
    let few = n <= MOST_NUMBERED;
    if few {
        return by_number::sets(n);
    }
    0
}

// All tries that n pairs have, or the budget if that is less.
pub fn tries_made(n: usize, budget: u32) -> u32
    requires { n ≤ 256 }
    ensures { result ≡ min budget (all_tries n) }
{
    budget.min(n as u32 + numbered(n))
}

// The pairs that are left where a set is off.
fn others(off: &[bool; 256], n: usize) -> [bool; 256]
    requires { n ≤ 256 }
    ensures { take n result ≡ map not (take n off.now) }
{
    let mut left = [false; 256];
    for i in 0..n {
        left[i] = !off[i];
    }
    left
}

fn is_good(rows: &Rows, off: &[bool; 256], n: usize) -> bool
    requires { (n ≤ 256) × (rows.now.count ≤ 1544) }
    ensures { result ≡ passes rows.now (take n off.now) }
{
    let left = others(off, n);
    let marks = bits::marks_of(&left, n);
    rows.none_over(&marks, n)
}

fn is_smaller(set: &[bool; 256], best: &[bool; 256], n: usize) -> bool
    requires { n ≤ 256 }
    ensures { result ≡ ltb (size (take n set.now)) (size (take n best.now)) }
{
    kept::count(set, n) < kept::count(best, n)
}

// Sizes first, as most sets are larger.
fn is_better(rows: &Rows, n: usize, set: &[bool; 256], best: &[bool; 256]) -> bool
    requires { (n ≤ 256) × (rows.now.count ≤ 1544) }
    ensures { let s = take n set.now in
        result ≡ (passes rows.now s && ltb (size s) (size (take n best.now))) }
{
    is_smaller(set, best, n) && is_good(rows, set, n)
}

// The better of a set and the best so far.
fn smaller(rows: &Rows, n: usize, set: &[bool; 256], best: &[bool; 256]) -> [bool; 256]
    requires { (n ≤ 256) × (rows.now.count ≤ 1544) }
    ensures { let s = take n set.now in
        let b = take n best.now in
        take n result ≡ cond (passes rows.now s && ltb (size s) (size b)) s b }
{
    if is_better(rows, n, set, best) {
        return *set;
    }
    *best
}

// Puts pair k back, where the set stays good.
fn without(rows: &Rows, n: usize, k: usize, best: &[bool; 256]) -> [bool; 256]
    requires { (k < n) × (n ≤ 256) × (rows.now.count ≤ 1544) }
    ensures { take n result ≡ better_by (passes rows.now) n (take n best.now) k }
{
    let mut set = *best;
    set[k] = false;
    smaller(rows, n, &set, best)
}

// The first tries: each pair in turn.
fn put_back(rows: &Rows, n: usize, tries: usize) -> [bool; 256]
    requires { (tries ≤ n) × (n ≤ 256) × (rows.now.count ≤ 1544) }
    ensures { take n result ≡ best_of (passes rows.now) n tries }
{
    let mut best = [true; 256];
    for k in 0..tries {
        best = without(rows, n, k, &best);
    }
    best
}

// The best of some tries.
pub fn left_out(rows: &Rows, n: usize, tries: u32) -> [bool; 256]
    requires { (n ≤ 256) × (tries ≤ all_tries n) × (rows.now.count ≤ 1544) }
    ensures { take n result ≡ best_of (passes rows.now) n tries }
{
    let more = n < tries as usize;
    if more {
        let back = put_back(rows, n, n);
        return by_number::best(rows, n, tries - n as u32, &back);
    }
    put_back(rows, n, tries as usize)
}
