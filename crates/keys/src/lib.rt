// Keys in an image: whether they are in order, and where an id stands among those that are.
#![tactic(auto)]

ghost use Rattle.std.specs.Prelude.{◌≡◌, ◌+◌, ◌-◌, ◌*◌, ◌/◌, ◌<◌, ◌≤◌, true, false, not};
ghost use Rattle.std.specs.Prelude.{◌||◌, ltb, ℕ, pos, slice_index_or, length, if◌then◌else◌, ◌==◌, int_le, int_lt, nat_le, nat_lt};
ghost use Rattle.words.specs.Words.{table, in_order};
ghost use Rattle.image.specs.Bytes.{u32_at};
ghost use Rattle.keys.specs.Keys.{key_at, rank_of, Sorted, Parts, place_of, sign, biased};

// The bias by which bits stand in the order of the signed numbers.
const SIGN: u32 = 2147483648;

// The bits of key i, moved up by a bias.
fn biased_at(keys: &[u8], i: usize, bias: u32) -> u32
    requires { 4 * i + 4 ≤ length keys.now }
    ensures { result ≡ biased bias (u32_at keys.now (4 * i)) }
{
    image::u32_at(keys, 4 * i).wrapping_add(bias)
}

// Whether each of the biased keys stands before the next. The loop runs to its end, so that the compiler can take many keys at once.
fn ascending(keys: &[u8], bias: u32) -> bool
    ensures { result ≡ in_order nat_lt (table (length keys.now / 4) (λ i. biased bias (u32_at keys.now (4 * i)))) }
{
    let n = keys.len() / 4;
    let mut ok = true;
    for i in 1..n {
        ok &= biased_at(keys, i - 1, bias) < biased_at(keys, i, bias);
    }
    ok
}

// Whether signed key i stands before the one in front of it.
fn falls(keys: &[u8], i: usize) -> bool
    requires { (1 ≤ i) × (4 * i + 4 ≤ length keys.now) }
    ensures { let x = biased sign (u32_at keys.now (4 * (i - 1))) in
        let y = biased sign (u32_at keys.now (4 * i)) in
        result ≡ not (nat_le x y) }
{
    biased_at(keys, i, SIGN) < biased_at(keys, i - 1, SIGN)
}

// Whether none of 4h + 1 signed keys stands behind the next: four runs of h + 1 keys, each from the last key of the one before, in step.
// One run alone waits for memory. Bias and strictness are known here: with both as parameters the loop took twice as long.
fn four_runs(keys: &[u8], h: usize) -> bool
    requires { 16 * h + 4 ≤ length keys.now }
    ensures { result ≡ in_order nat_le (table (4 * h + 1) (λ i. biased sign (u32_at keys.now (4 * i)))) }
{
    let mut fall = false;
    for i in 1..h + 1 {
        let front = falls(keys, i) | falls(keys, h + i);
        let back = falls(keys, 2 * h + i) | falls(keys, 3 * h + i);
        fall |= front | back;
    }
    !fall
}

// Whether none of the signed keys stands behind the next: in four runs, and what is left one by one.
fn ordered(keys: &[u8]) -> bool
    ensures { result ≡ in_order nat_le (table (length keys.now / 4) (λ i. biased sign (u32_at keys.now (4 * i)))) }
{
    let n = keys.len() / 4;
    if n == 0 {
        return true;
    }
    let h = (n - 1) / 4;
    let mut ok = four_runs(keys, h);
    for i in 4 * h + 1..n {
        ok &= !falls(keys, i);
    }
    ok
}

// Whether the keys ascend strictly.
pub fn ascend(keys: &[u8]) -> bool
    ensures { result ≡ in_order int_lt (table (length keys.now / 4) (key_at keys.now)) }
{
    ascending(keys, SIGN)
}

// Whether the keys never descend. Links and base values, by far the most keys of a catalogue, are judged by it.
pub fn never_descend(keys: &[u8]) -> bool
    ensures { result ≡ in_order int_le (table (length keys.now / 4) (key_at keys.now)) }
{
    ordered(keys)
}

// Whether unsigned numbers ascend strictly.
pub fn ascend_unsigned(keys: &[u8]) -> bool
    ensures { result ≡ in_order ltb (table (length keys.now / 4) (λ i. u32_at keys.now (4 * i))) }
{
    ascending(keys, 0)
}

// A signed number in the order of those.
fn rank(id: i32) -> u32
    ensures { result ≡ rank_of id }
{
    image::bits(id).wrapping_add(SIGN)
}

// 3 where x is under y, else 2. By arithmetic, and not 1 and 0: as a test, which the compiler sees in 1 and 0 too, it would be a
// branch, and a search guesses half of those wrong. `as`: of `u64::from` the law would speak of what that gives.
fn under(x: u32, y: u32) -> usize
    ensures { result ≡ (if ltb x y then 3 else 2) }
{
    ((12884901887 + (y as u64) - (x as u64)) / 4294967296) as usize
}

// Signed keys that never descend: the first n of some bytes. The number is kept beside them: from their length it would be a division,
// and a law of it, at each use.
#[derive(Drop)]
pub struct Keys<'a> {
    bytes: &'a [u8],
    n: usize,
    ghost within: { 4 * n ≤ length bytes.now },
    ghost sorted: { Sorted bytes.now n },
}

impl<'a> Keys<'a> {
    pub fn new(bytes: &'a [u8], n: usize) -> Self
        requires { (4 * n ≤ length bytes.now) × Sorted bytes.now n }
        ensures { (result.bytes.now ≡ bytes.now) × (result.n ≡ n) }
    {
        Keys { bytes, n }
    }

    // Key i in the order of the signed numbers.
    fn rank_at(&self, i: usize) -> u32
        requires { i < self.now.n }
        ensures { result ≡ rank_of (key_at self.now.bytes.now i) }
    {
        rank(image::i32_at(self.bytes, 4 * i))
    }

    // Past the next `half` keys where the last of them is under a key.
    fn skip(&self, base: usize, half: usize, key: u32) -> usize
        requires { (1 ≤ half) × (base + half ≤ self.now.n) }
        ensures { result ≡ base + (if ltb (rank_of (key_at self.now.bytes.now (base + half - 1))) key then half else 0) }
    {
        base + half * under(self.rank_at(base + half - 1), key) - 2 * half
    }

    // How many of the keys are under each of some ids: where it stands first, or would stand. The steps for one id do not wait for those
    // for another.
    pub fn each_from<const N: usize>(&self, ids: &[i32; N]) -> [usize; N]
        ensures { (j : ℕ) → j < N → Parts self.now.bytes.now self.now.n (slice_index_or ids.now j (pos 0)) (slice_index_or result j 0) }
    {
        let mut base = [0; N];
        let mut left = self.n;
        while 0 < left {
            let half = left - left / 2;
            for j in 0..N {
                base[j] = self.skip(base[j], half, rank(ids[j]));
            }
            left /= 2;
        }
        base
    }

    // `each_from` of one id.
    pub fn first_from(&self, id: i32) -> usize
        ensures { Parts self.now.bytes.now self.now.n id result }
    {
        let [base] = self.each_from(&[id]);
        base
    }

    // Whether all keys before a place are under a key.
    fn all_under(&self, r: usize, key: u32) -> bool
        requires { r ≤ self.now.n }
        ensures { result ≡ (r == 0 || nat_lt (rank_of (key_at self.now.bytes.now (r - 1))) key) }
    {
        r == 0 || self.rank_at(r - 1) < key
    }

    // Whether no key from a place on is under a key.
    fn none_under(&self, r: usize, key: u32) -> bool
        ensures { result ≡ (nat_le self.now.n r || nat_le key (rank_of (key_at self.now.bytes.now r))) }
    {
        self.n <= r || key <= self.rank_at(r)
    }

    // As `first_from`. A guess that is right saves the search, and any may be given.
    pub fn first_near(&self, id: i32, guess: usize) -> usize
        ensures { Parts self.now.bytes.now self.now.n id result }
    {
        let key = rank(id);
        if guess <= self.n && self.all_under(guess, key) && self.none_under(guess, key) {
            return guess;
        }
        self.first_from(id)
    }

    // Where an id stands first, given how many keys are under it.
    pub fn place_at(&self, id: i32, at: usize) -> Option<usize>
        requires { Parts self.now.bytes.now self.now.n id at }
        ensures { result ≡ place_of self.now.bytes.now self.now.n id }
    {
        if self.n <= at {
            return None;
        }
        let x = self.rank_at(at);
        let key = rank(id);
        if x == key { Some(at) } else { None }
    }

    // Where an id stands first.
    pub fn place_of(&self, id: i32) -> Option<usize>
        ensures { result ≡ place_of self.now.bytes.now self.now.n id }
    {
        self.place_at(id, self.first_from(id))
    }

    // The same, where a guess is at hand. The two differ in the search, which is all that either does.
    pub fn place_near(&self, id: i32, guess: usize) -> Option<usize>
        ensures { result ≡ place_of self.now.bytes.now self.now.n id }
    {
        self.place_at(id, self.first_near(id, guess))
    }
}
