// Little-endian integers at a place of a byte slice: document 01, "Records".
#![tactic(auto)]

ghost use Rattle.std.specs.Prelude.{◌≡◌, ◌+◌, ◌-◌, ◌/◌, ◌%◌, ◌^◌, ◌<◌, ◌≤◌, length, take, drop};
ghost use Rattle.image.specs.Bytes.{u8_at, u16_at, u32_at, u64_at, signed32, bits32, i32_at, le, put};

// The byte at a place.
pub fn u8_at(b: &[u8], at: usize) -> u8
    requires { at < length b.now }
    ensures { result ≡ u8_at b.now at }
{
    b[at]
}

// The N bytes from a place on.
fn bytes<const N: usize>(b: &[u8], at: usize) -> [u8; N]
    requires { at + N ≤ length b.now }
    ensures { result ≡ take N (drop at b.now) }
{
    b[at..at + N].try_into().unwrap()
}

#[tactic(auto, using(crate::proofs::Parts::whole_u16))]
pub fn u16_at(b: &[u8], at: usize) -> u16
    requires { at + 2 ≤ length b.now }
    ensures { result ≡ u16_at b.now at }
{
    u16::from_le_bytes(bytes(b, at))
}

#[tactic(auto, using(crate::proofs::Parts::whole_u32))]
pub fn u32_at(b: &[u8], at: usize) -> u32
    requires { at + 4 ≤ length b.now }
    ensures { result ≡ u32_at b.now at }
{
    u32::from_le_bytes(bytes(b, at))
}

// A size, as an index.
pub fn size_at(b: &[u8], at: usize) -> usize
    requires { at + 4 ≤ length b.now }
    ensures { (result ≡ u32_at b.now at) × (result < 4294967296) }
{
    u32_at(b, at) as usize
}

#[tactic(auto, using(crate::proofs::Parts::whole_u64))]
pub fn u64_at(b: &[u8], at: usize) -> u64
    requires { at + 8 ≤ length b.now }
    ensures { result ≡ u64_at b.now at }
{
    u64::from_le_bytes(bytes(b, at))
}

// The signed number that 32 bits stand for.
#[tactic(auto, using(crate::proofs::Signs::signed_to_z))]
pub fn signed(n: u32) -> i32
    ensures { result ≡ signed32 n }
{
    n.cast_signed()
}

// The 32 bits of a signed number.
#[tactic(auto, using(crate::proofs::Signs::bits_of_z))]
pub fn bits(z: i32) -> u32
    ensures { result ≡ bits32 z }
{
    z.cast_unsigned()
}

#[tactic(auto, unfolding(crate::specs::Bytes::i32_at))]
pub fn i32_at(b: &[u8], at: usize) -> i32
    requires { at + 4 ≤ length b.now }
    ensures { result ≡ i32_at b.now at }
{
    signed(u32_at(b, at))
}

// The part of n bytes from a place on: the caller's own bytes, never a copy.
pub fn part(b: &[u8], at: usize, n: usize) -> &[u8]
    requires { at + n ≤ length b.now }
    ensures { result.now ≡ take n (drop at b.now) }
{
    let end = at + n;
    &b[at..end]
}

// The bytes of another slice from a place on. By `copy_from_slice` the archive for C would need `memmove`.
pub fn copy(out: &mut [u8], at: usize, from: &[u8])
    requires { at + length from.now ≤ length out.old }
    ensures { out.new ≡ put out.old at from.now }
{
    for i in 0..from.len() {
        out[at + i] = from[i];
    }
}

// The bytes from `at` to `end`, moved up. Beside `training`'s `move_down`: one with the place to move to would have the sum in each caller.
// Byte by byte; whether by `copy_within` the archive for C would need `memmove`, as it does by `copy_from_slice`, was not seen.
pub fn move_up(b: &mut [u8], at: usize, end: usize, by: usize)
    requires { (at ≤ end) × (end + by ≤ length b.old) }
    ensures { b.new ≡ put b.old (at + by) (take (end - at) (drop at b.old)) }
{
    for i in (at..end).rev() {
        b[i + by] = b[i];
    }
}

// The four bytes of x from a place on.
pub fn put_u32(out: &mut [u8], at: usize, x: u32)
    requires { at + 4 ≤ length out.old }
    ensures { out.new ≡ put out.old at (le 4 x) }
{
    copy(out, at, &x.to_le_bytes());
}

// The two words of 64 bits.
pub fn low32(x: u64) -> u32
    ensures { result ≡ x % 2 ^ 32 }
{
    (x % 4294967296) as u32
}

pub fn high32(x: u64) -> u32
    ensures { result ≡ x / 2 ^ 32 }
{
    (x / 4294967296) as u32
}

// The eight bytes of x from a place on.
pub fn put_u64(out: &mut [u8], at: usize, x: u64)
    requires { at + 8 ≤ length out.old }
    ensures { out.new ≡ put out.old at (le 8 x) }
{
    copy(out, at, &x.to_le_bytes());
}
