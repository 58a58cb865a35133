// The image of a row, in the words of data/catalogues.txt: zero bytes, with numbers put into them. A row of any bytes is drawn as far as it
// goes: it is read as parts, each a mark of one byte and the digits behind it.
ghost use Rattle.std.specs.Prelude.{◌<◌, ◌≤◌, length, IfSome};

// The place of the first such byte.
pub fn find(b: &[u8], byte: u8) -> Option<usize>
    ensures { IfSome result (λ i. i < length b.now) }
{
    for i in 0..b.len() {
        if b[i] == byte {
            return Some(i);
        }
    }
    None
}

// How many digits the bytes begin with.
fn digits(b: &[u8]) -> usize
    ensures { result ≤ length b.now }
{
    b.iter()
        .position(|x| !x.is_ascii_digit())
        .unwrap_or(b.len())
}

// The number that up to ten digits stand for; of more, that of the last ten.
fn number(digits: &[u8]) -> usize {
    let mut n = 0;
    for digit in digits {
        n = 10 * (n % 1_000_000_000) + usize::from(*digit % 16);
    }
    n
}

// The mark of the first part of a row, its number, and the parts behind it.
fn part(row: &[u8]) -> Option<(u8, usize, &[u8])>
    ensures { IfSome result (λ p. length p.2.now < length row.now) }
{
    let (mark, rest) = row.split_first()?;
    let end = digits(rest);
    Some((*mark, number(&rest[..end]), &rest[end..]))
}

// The number of the first part: how long the image is.
pub fn first_number(row: &[u8]) -> usize {
    match part(row) {
        Some((_, n, _)) => n,
        None => 0,
    }
}

// A u32 at a place; the place behind it, or None where it has no room.
fn word(image: &mut [u8], at: usize, x: usize) -> Option<usize> {
    if image.len() < 4 || image.len() - 4 < at {
        return None;
    }
    image::put_u32(image, at, (x % 4294967296) as u32);
    Some(at + 4)
}

fn byte(image: &mut [u8], at: usize, x: usize) -> Option<usize> {
    *image.get_mut(at)? = (x % 256) as u8;
    Some(at + 1)
}

// The numbers behind `before` up to `last`, a u32 each.
fn run(image: &mut [u8], at: usize, before: usize, last: usize) -> usize {
    let mut place = at;
    for x in before..last {
        // the next have no room either
        let Some(behind) = word(image, place, x + 1) else {
            break;
        };
        place = behind;
    }
    place
}

// What a number stands for is told by its mark; `before` is the number of the part before. The place behind what is put, which is nothing
// where it has no room.
fn put(image: &mut [u8], mark: u8, at: usize, before: usize, n: usize) -> usize {
    match mark {
        b' ' => n,
        b'.' => byte(image, at, n).unwrap_or(at),
        b'-' => run(image, at, before, n),
        _ => word(image, at, n).unwrap_or(at),
    }
}

pub fn draw(row: &[u8], image: &mut [u8]) {
    let mut parts = row;
    let mut at = 0;
    let mut before = 0;
    while let Some((mark, n, behind)) = part(parts) {
        at = put(image, mark, at, before, n);
        before = n;
        parts = behind;
    }
}
