// The named entries of a list, a row for each: which pairs its rule counts, a bit for each, how many are allowed, and the entry's own pair.
ghost use Rattle.std.specs.Prelude.{◌≡◌, ◌*◌, ◌<◌, ◌≤◌, ℕ, not, ◌&&◌, Bool, List, ltb, length, take, Some};
ghost use Rattle.parts.specs.Parts.{chosen, size};
ghost use Rattle.cause.specs.Decided.{has_own};
ghost use Rattle.leave_out.specs.Bits.{Unmarked, Bits, marked_of};
ghost use Rattle.leave_out.specs.Held.{own_left, is_over, any_over, Free, Added};

use crate::bits;

// Six for the racks, two more as if for the hardpoints, and of each pair six.
pub const MOST_ROWS: usize = 1544;

const ROW_WORDS: usize = 6176;

// In place of an entry's own pair, where it is about the ship.
const NO_PAIR: u32 = 256;

#[derive(Drop)]
pub struct Rows {
    // 256 places a row
    pub counted: [u64; ROW_WORDS],
    pub owns: [u32; MOST_ROWS],
    pub limits: [u32; MOST_ROWS],
    pub count: usize,
}

fn own_number(own: Option<usize>) -> u32
    requires { (i : ℕ) → own ≡ Some i → i < 256 }
    ensures { (left : List Bool) → own_left result left ≡ has_own own left }
{
    match own {
        Some(i) => i as u32,
        None => NO_PAIR,
    }
}

// Whether the entry's own pair is left; the ship always is.
fn own_left(own: u32, left: &[u64; 4]) -> bool
    ensures { (s : List Bool) → Bits s left.now → result ≡ own_left own s }
{
    let inside = own < NO_PAIR;
    if inside {
        return bits::is_marked(left, own as usize);
    }
    true
}

impl Rows {
    pub fn none() -> Rows
        ensures { (result.count ≡ 0) × Unmarked 0 result.counted }
    {
        Rows {
            counted: [0; ROW_WORDS],
            owns: [0; MOST_ROWS],
            limits: [0; MOST_ROWS],
            count: 0,
        }
    }

    // One row more, of the first n pairs.
    pub fn add(&mut self, own: Option<usize>, members: &[bool; 256], n: usize, limit: u32)
        requires few { n ≤ 256 }
        requires inside { (i : ℕ) → own ≡ Some i → i < n }
        requires room { self.old.count < 1544 }
        requires free { Free self.old }
        ensures { Added n self.old self.new (λ left. has_own own left && ltb limit (size (chosen left (take n members.now)))) }
    {
        let r = self.count;
        bits::mark_set(members, n, 256 * r, &mut self.counted);
        self.owns[r] = own_number(own);
        self.limits[r] = limit;
        self.count = r + 1;
    }

    // Whether the entry of row r is still shown by the pairs that are left, some of n.
    fn is_over(&self, r: usize, left: &[u64; 4], n: usize) -> bool
        requires { (r < 1544) × Unmarked n left.now }
        ensures { (s : List Bool) → length s ≤ 256 → Bits s left.now → result ≡ is_over self.now s r }
    {
        own_left(self.owns[r], left) && self.limits[r] < bits::common(left, n, &self.counted, 4 * r)
    }

    // Whether no entry is still shown by the pairs that are left, some of n.
    pub fn none_over(&self, left: &[u64; 4], n: usize) -> bool
        requires few { (n ≤ 256) × (self.now.count ≤ 1544) }
        requires inside { Unmarked n left.now }
        ensures { result ≡ not (any_over self.now (marked_of n left.now)) }
    {
        for r in 0..self.count {
            if self.is_over(r, left, n) {
                return false;
            }
        }
        true
    }
}
