// The hall number: K fits end to end, each judged where it stands in the input. Document 01, "Hall number".
ghost use Rattle.std.specs.Prelude.{◌≡◌, ◌+◌, ◌*◌, ◌<◌, ◌≤◌, length};
ghost use Rattle.numbers.specs.Sizes as Sizes;
ghost use Rattle.image.specs.Bytes.{u32_at};
ghost use Rattle.catalogue.specs.Catalogue.{catalogue_of};
ghost use Rattle.fitcheck.specs.Hall.{fit_count, length_at, fit_start, fits, bad_input, Laid, share_of, word_of};
ghost use Rattle.fitcheck.specs.Standing.{share};

use catalogue::Catalogue;
use context::Context;
use fit::Fit;
use fit::layout::Layout;
use numbers::sizes;

// What is said of a fit, by what it adds to the word.
#[derive(Clone, Copy)]
pub enum Standing {
    Clear = 1,
    Faulted = 256,
    Refused = 65536,
}

impl Standing {
    fn share(self) -> usize
        ensures { (result ≡ share self) × (result ≤ 65536) }
    {
        self as usize
    }
}

// Fits of one hall name the same types again and again.
const HINTS: usize = 8192;

// How many bytes fit i has.
fn length_at(input: &[u8], i: usize) -> usize
    requires { 8 + 4 * i ≤ length input.now }
    ensures { (result ≡ length_at input.now i) × (result < 4294967296) }
{
    image::size_at(input, 4 + 4 * i)
}

// Where the last of n fits ends.
fn fits_end(input: &[u8], n: usize) -> usize
    requires { (n ≡ fit_count input.now) × (n ≤ Sizes.most_fits) × (4 + 4 * n ≤ length input.now) }
    ensures { result ≡ fit_start input.now (fit_count input.now) }
{
    let mut at = 4 + 4 * n;
    for i in 0..n {
        at += length_at(input, i);
    }
    at
}

// Refusal 4 of a hall.
pub fn bad_input(input: &[u8]) -> bool
    ensures { result ≡ bad_input input.now }
{
    if input.len() < 4 {
        return true;
    }
    let n = image::size_at(input, 0);
    if sizes::MOST_FITS < n {
        return true;
    }
    if input.len() < 4 + 4 * n {
        return true;
    }
    if fits_end(input, n) != input.len() {
        return true;
    }
    false
}

// Whatever the bytes of a fit are.
fn judge(catalogue: &Catalogue, fit: &[u8], hints: &mut [u32]) -> Standing
    ensures { share result ≡ share_of (catalogue_of catalogue.now) fit.now }
{
    if fit_refusals::check(fit).is_err() {
        return Standing::Refused; // 4 to 6
    }
    let layout = Layout::new(fit);
    if layout.items() != layout.results() {
        return Standing::Faulted; // whatever is listed: not all of it is read
    }
    let fit = Fit::new(fit);
    let mut pairs = [context::UNKNOWN; 256];
    let context = Context::new(catalogue, &fit, hints, &mut pairs);
    if lists::is_empty(&context, hints) {
        return Standing::Clear;
    }
    Standing::Faulted
}

// The word of a hall whose catalogue and lengths are accepted.
pub fn word(catalogue: &Catalogue, input: &[u8]) -> usize
    requires { Laid input.now }
    ensures { result ≡ word_of (catalogue_of catalogue.now) (fits input.now) }
{
    let n = image::size_at(input, 0);
    let mut hints = [0u32; HINTS];
    let mut word: usize = 0;
    let mut at = 4 + 4 * n;
    for i in 0..n {
        let size = length_at(input, i);
        let fit = image::part(input, at, size);
        word += judge(catalogue, fit, &mut hints).share();
        at += size;
    }
    word
}
