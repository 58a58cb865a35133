// A list call's answer as text: specs/Text.antt.
ghost use Rattle.std.specs.Prelude.{◌≡◌, ◌++◌, ◌+◌, ◌*◌, ◌%◌, ◌≤◌, ◌^◌, length};
ghost use Rattle.arrayvec.specs.ArrayString.{array_string_len};
ghost use Rattle.checker.specs.Text as Text;
ghost use Rattle.checker.specs.Text.{text_of};

use arrayvec::ArrayString;
use numbers::readers::Reader;
use numbers::sizes;

// 65,520 bytes hold at most 2,730 entries, whose lines have at most 168 bytes each; the last line has at most 29.
const ROOM: usize = 168 * 2730 + 29;

pub type Output = ArrayString<ROOM>;

#[tactic(auto, using(std::proofs::Common::append_assoc), unfolding(crate::specs::Text::spaced))]
fn spaced(text: &mut Output, n: u64)
    requires { array_string_len text.old + 21 ≤ 458669 }
    ensures text { text.new.bytes ≡ text.old.bytes ++ Text.spaced n }
    ensures len { array_string_len text.new ≤ array_string_len text.old + 21 }
{
    program::number(text, n);
    text.push(' ');
}

#[tactic(auto, using(std::proofs::Common::append_assoc), unfolding(crate::specs::Text::heading))]
fn heading(text: &mut Output, b: &[u8], place: usize)
    requires room { array_string_len text.old + 84 ≤ 458669 }
    requires place_in_bounds { place + 24 ≤ length b.now }
    ensures text { text.new.bytes ≡ text.old.bytes ++ Text.heading b.now place }
    ensures len { array_string_len text.new ≤ array_string_len text.old + 84 }
{
    spaced(text, u64::from(image::u8_at(b, place)));
    spaced(text, u64::from(image::u32_at(b, place + 4)));
    spaced(text, u64::from(image::u8_at(b, place + 1)));
    spaced(text, u64::from(image::u8_at(b, place + 2)));
}

#[tactic(auto, using(std::proofs::Common::append_assoc), unfolding(crate::specs::Text::payload))]
fn payload(text: &mut Output, b: &[u8], place: usize)
    requires room { array_string_len text.old + 84 ≤ 458669 }
    requires place_in_bounds { place + 24 ≤ length b.now }
    ensures text { text.new.bytes ≡ text.old.bytes ++ Text.payload b.now place }
    ensures len { array_string_len text.new ≤ array_string_len text.old + 84 }
{
    spaced(text, u64::from(image::u32_at(b, place + 8)));
    spaced(text, u64::from(image::u32_at(b, place + 12)));
    spaced(text, u64::from(image::u32_at(b, place + 16)));
    program::ended(text, u64::from(image::u32_at(b, place + 20)));
}

#[tactic(auto, using(std::proofs::Common::append_assoc), unfolding(crate::specs::Text::line))]
fn line(text: &mut Output, b: &[u8], i: usize)
    requires room { array_string_len text.old + 168 ≤ 458669 }
    requires i_in_bounds { 24 * i + 24 ≤ length b.now }
    ensures text { text.new.bytes ≡ text.old.bytes ++ Text.line b.now i }
    ensures len { array_string_len text.new ≤ array_string_len text.old + 168 }
{
    let place = 24 * i;
    heading(text, b, place);
    payload(text, b, place);
}

// The lines of n entries.
fn lines(text: &mut Output, b: &[u8], n: usize)
    requires room { array_string_len text.old + 168 * n ≤ 458669 }
    requires n_in_bounds { 24 * n ≤ length b.now }
    ensures text { text.new.bytes ≡ text.old.bytes ++ Text.lines b.now n }
    ensures len { array_string_len text.new ≤ array_string_len text.old + 168 * n }
{
    for i in 0..n {
        line(text, b, i);
    }
}

fn closing(text: &mut Output, refusal: u64, count: u64)
    requires { array_string_len text.old + 29 ≤ 458669 }
    ensures { text.new.bytes ≡ text.old.bytes ++ Text.closing refusal count }
{
    if 0 < refusal {
        program::refused(text, refusal);
        return;
    }
    text.push_str("count ");
    program::ended(text, count);
}

#[tactic(auto, unfolding(crate::specs::Text::text_of))]
fn text_of(text: &mut Output, word: u64, b: &[u8])
    requires in_bounds { 24 * (word % 2 ^ 32) ≤ length b.now }
    requires room { 168 * (word % 2 ^ 32) + 29 ≤ 458669 }
    ensures { text.new.bytes ≡ text_of word b.now }
{
    let count = word % sizes::WORD;
    text.clear();
    lines(text, b, count as usize);
    closing(text, word / sizes::WORD, count);
}

// The list call's answer with 65,520 bytes lent, in a text that is lent too: given back, one so large would be copied at each step.
pub fn checked(catalogue: &[u8], fit: &[u8], text: &mut Output)
    ensures { text.new.bytes ≡ Text.checked catalogue.now fit.now }
{
    let mut buffer = [0; 65520];
    let word = fitcheck::fit_list(
        Reader::Officer as u32,
        catalogue,
        fit,
        &[],
        0,
        fitcheck::MAIN_PAIRS,
        fitcheck::MAIN_SKILLS,
        &mut buffer,
    );
    text_of(text, word, &buffer);
}
