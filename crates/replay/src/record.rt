// One record: a call, and the original's answer to it.
ghost use Rattle.std.specs.Prelude.{◌≡◌, ◌+◌, ◌≤◌, length, drop, IfSome};
ghost use Rattle.image.specs.Bytes.{u32_at, u64_at};
ghost use Rattle.replay.specs.Records.{size, Parts};

use fitcheck::{MAIN_PAIRS, MAIN_SKILLS};
use numbers::readers::Reader;

// What the result number of a record says.
#[derive(Clone, Copy)]
enum Call {
    List,
    Hall,
    Widen,
    Skill(u32),
}

impl From<u32> for Call {
    fn from(n: u32) -> Call {
        match n {
            0xffff_ffff => Call::List,
            0xffff_fffe => Call::Hall,
            0xffff_fffd => Call::Widen,
            _ => Call::Skill(n),
        }
    }
}

#[derive(Clone, Copy)]
pub struct Record<'a> {
    call: Call,
    catalogue: &'a [u8],
    input: &'a [u8],
    profile: &'a [u8],
    allowance: u32,
    room: usize,
    word: u64,
    written: &'a [u8],
}

// How many records there are, and the records; None where no whole number stands.
pub fn count(b: &[u8]) -> Option<(u32, &[u8])>
    ensures { IfSome result (λ r. (r.0 ≡ u32_at b.now 0) × (4 ≤ length b.now) × (r.1.now ≡ drop 4 b.now)) }
{
    let (_, rest) = b.split_at_checked(4)?;
    Some((image::u32_at(b, 0), rest))
}

// The record that the bytes begin with, and the bytes behind it; None where it is not whole.
pub fn first(b: &[u8]) -> Option<(Record<'_>, &[u8])>
    ensures parts { IfSome result (λ r. Parts b.now r.0.catalogue.now r.0.input.now r.0.profile.now r.0.written.now) }
    ensures numbers { IfSome result (λ r. (r.0.allowance ≡ u32_at b.now 12) × (r.0.room ≡ u32_at b.now 20)
        × (r.0.word ≡ u64_at b.now 24)) }
    ensures behind { IfSome result (λ r. (size b.now 0 ≤ length b.now) × (r.1.now ≡ drop (size b.now 0) b.now)) }
{
    let (_, rest) = b.split_at_checked(36)?;
    let (catalogue, rest) = rest.split_at_checked(image::size_at(b, 0))?;
    let (input, rest) = rest.split_at_checked(image::size_at(b, 4))?;
    let (profile, rest) = rest.split_at_checked(image::size_at(b, 8))?;
    let (written, rest) = rest.split_at_checked(image::size_at(b, 32))?;
    let record = Record {
        call: Call::from(image::u32_at(b, 16)),
        catalogue,
        input,
        profile,
        allowance: image::u32_at(b, 12),
        room: image::size_at(b, 20),
        word: image::u64_at(b, 24),
        written,
    };
    Some((record, rest))
}

// Whether what is written stands in the buffer, and every other byte is as before.
fn is_left(out: &[u8], written: &[u8], fill: u8) -> bool {
    match out.strip_prefix(written) {
        Some(rest) => rest.iter().all(|x| *x == fill),
        None => false,
    }
}

impl Record<'_> {
    // The officer's call, on the main page.
    fn call(&self, out: &mut [u8]) -> u64 {
        match self.call {
            Call::List => fitcheck::fit_list(
                Reader::Officer as u32,
                self.catalogue,
                self.input,
                self.profile,
                self.allowance,
                MAIN_PAIRS,
                MAIN_SKILLS,
                out,
            ),
            Call::Hall => fitcheck::fit_hall(self.catalogue, self.input),
            Call::Widen => fitcheck::fit_widen(self.catalogue, out),
            Call::Skill(number) => fitcheck::fit_skill(
                Reader::Officer as u32,
                self.catalogue,
                self.input,
                number,
                MAIN_PAIRS,
                MAIN_SKILLS,
                out,
            ),
        }
    }

    // Whether the call gives its word and leaves its bytes in a buffer that held `fill`.
    pub fn is_given(&self, fill: u8) -> bool {
        let mut buffer = [fill; 65536];
        if buffer.len() < self.room {
            return false;
        }
        let out = &mut buffer[..self.room];
        let word = self.call(out);
        word == self.word && is_left(out, self.written, fill)
    }
}
