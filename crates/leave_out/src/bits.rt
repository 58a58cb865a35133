// Sets of pairs as bits.
ghost use Rattle.std.specs.Prelude.{◌≡◌, ◌+◌, ◌*◌, ◌^◌, ◌<◌, ◌≤◌, ℕ};
ghost use Rattle.std.specs.Prelude.{◌&&◌, ◌||◌, eqb, length, take, bit_and, count_ones};
ghost use Rattle.words.specs.Words.{count_of, from};
ghost use Rattle.marks.specs.Marks.{is_marked};
ghost use Rattle.leave_out.specs.Bits.{Unmarked, Marked, marked_of};

// Marks a place, where a pair is in a set.
fn mark_where(inside: bool, marks: &mut [u64], place: usize)
    requires { place < 64 * length marks.old }
    ensures marked { (j : ℕ) → is_marked marks.new j ≡ is_marked marks.old j || (inside && eqb place j) }
    ensures long { length marks.new ≡ length marks.old }
{
    if inside {
        marks::mark(marks, place);
    }
}

// Marks those of the first n that are in a set, from a place on, where nothing was marked.
pub fn mark_set(flags: &[bool; 256], n: usize, place: usize, marks: &mut [u64])
    requires few { (n ≤ 256) × (place ≤ 395264) }
    requires room { place + 256 ≤ 64 * length marks.old }
    requires none { Unmarked place marks.old }
    ensures marked { Marked place n flags.now marks.old marks.new }
    ensures long { length marks.new ≡ length marks.old }
{
    for i in 0..n {
        mark_where(flags[i], marks, place + i);
    }
}

// The first n flags as bits.
pub fn marks_of(flags: &[bool; 256], n: usize) -> [u64; 4]
    requires { n ≤ 256 }
    ensures { (marked_of n result ≡ take n flags.now) × Unmarked n result }
{
    let mut marks = [0; 4];
    mark_set(flags, n, 0, &mut marks);
    marks
}

// Whether a place is marked.
#[tactic(auto, unfolding(marks::specs::Marks::is_marked, marks::specs::Marks::bit_of))]
pub fn is_marked(marks: &[u64; 4], place: usize) -> bool
    requires { place < 256 }
    ensures { result ≡ is_marked marks.now place }
{
    let word = marks[place / 64];
    (word >> ((place % 64) as u64)) % 2 == 1
}

// How many bits two words share.
fn shared(a: u64, b: u64) -> u32
    ensures { (result ≡ count_ones (bit_and a b)) × (result ≤ 64) × (a < 2 ^ 64) }
{
    u64::count_ones(a & b)
}

// How many of 256 places are marked in both; those of the second begin with its word `at`. In the first only places under n are marked:
// where n is at most 64, its first word has them all.
pub fn common(left: &[u64; 4], n: usize, marks: &[u64], at: usize) -> u32
    requires { (at + 4 ≤ length marks.now) × Unmarked n left.now }
    ensures { result ≡ count_of (λ j. is_marked left.now j && is_marked marks.now (64 * at + j)) (from 0 256) }
{
    let first = shared(left[0], marks[at]);
    let few = n <= 64;
    if few {
        return first;
    }
    first
        + shared(left[1], marks[at + 1])
        + shared(left[2], marks[at + 2])
        + shared(left[3], marks[at + 3])
}
