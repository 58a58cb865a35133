// What is put on standard output: specs/Text.antt.
ghost use Rattle.std.specs.Prelude.{◌≡◌, ◌≤◌, length};
ghost use Rattle.widener.specs.Text as Text;

use arrayvec::ArrayString;
use numbers::sizes;

// The new catalogue, or the refusal's line. The buffer has room for what so short an image widens to: there is no refusal 10.
pub fn printed<'t>(old: &[u8], text: &'t mut [u8]) -> &'t [u8]
    requires { (length old.now ≤ 65536) × (87372 ≤ length text.old) }
    ensures { result.now ≡ Text.printed old.now }
{
    let word = fitcheck::fit_widen(old, text);
    if word < sizes::WORD {
        return &text[..word as usize];
    }
    let mut line = ArrayString::<29>::new();
    program::refused(&mut line, word / sizes::WORD);
    let whole = &mut text[..line.len()];
    whole.copy_from_slice(line.as_bytes());
    whole
}
