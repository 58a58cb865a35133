// Trimmed catalogues: document 02, P1. A fit may touch over a hundred thousand ids, which no stack holds in order; so the runs of each id
// are marked where they begin, a window of places at a time, and what is marked is counted and then copied.
#![tactic(auto)]

mod part;
mod trimmer;
mod window;

ghost use Rattle.std.specs.Prelude.{◌≡◌, ◌++◌, ◌+◌, ◌*◌, ◌<◌, ◌≤◌, length};
ghost use Rattle.numbers.specs.Sizes as Sizes;
ghost use Rattle.image.specs.Bytes.{put};
ghost use Rattle.catalogue.specs.Catalogue.{catalogue_of, types_at};
ghost use Rattle.fit.specs.Fit.{fit_of};
ghost use Rattle.calls.specs.Output.{output, room_refusals};
ghost use Rattle.calls.specs.Gave.{GaveBytes, word_of};
ghost use Rattle.trim.specs.Trim.{touched, trim_refusals, trimmed_image};
ghost use Rattle.trim.specs.Trimmers.{SameImages, ids_in};
ghost use Rattle.trim.specs.Kept.{Counts, trimmed_head, trimmed_blocks};

use catalogue::Catalogue;
use fit::Fit;
use numbers::refusals::Refusal;
use part::Part;
use trimmer::Trimmer;
use window::{WINDOW_WORDS, Window};

// How many records of each block are kept.
#[derive(Clone, Copy)]
struct Kept {
    types: usize,
    links: usize,
    bases: usize,
}

fn count_kept(trimmer: &mut Trimmer) -> Kept
    ensures { SameImages trimmer.old trimmer.new × Counts trimmer.old.window.catalogue.now (ids_in trimmer.old) result }
{
    let types = trimmer.count(Part::Types);
    let links = trimmer.count(Part::Links);
    let bases = trimmer.count(Part::Bases);
    Kept {
        types,
        links,
        bases,
    }
}

// Sizes, names and effects.
fn write_head(catalogue: &Catalogue, kept: Kept, out: &mut [u8])
    requires { (types_at catalogue.now ≤ length out.old)
        × (kept.types < Sizes.word) × (kept.links < Sizes.word) × (kept.bases < Sizes.word) }
    ensures { out.new ≡ put out.old 0 (trimmed_head catalogue.now kept.types kept.links kept.bases) }
{
    let bytes = catalogue.bytes();
    let at = catalogue.blocks().types().at;
    image::copy(out, 0, image::part(bytes, 0, 8));
    image::put_u32(out, 8, kept.types as u32);
    image::put_u32(out, 12, kept.links as u32);
    image::put_u32(out, 16, kept.bases as u32);
    image::copy(out, 20, image::part(bytes, 20, at - 20));
}

// Types, links and bases, behind what stands before them.
fn write_parts(trimmer: &mut Trimmer, kept: Kept, out: &mut [u8])
    requires { let b = trimmer.old.window.catalogue.now in
        Counts b (ids_in trimmer.old) kept
        × (types_at b + 20 * kept.types + 8 * kept.links + 16 * kept.bases ≤ length out.old) }
    ensures { let b = trimmer.old.window.catalogue.now in
        out.new ≡ put out.old (types_at b) (trimmed_blocks b (ids_in trimmer.old)) }
{
    let catalogue = trimmer.window.catalogue;
    catalogue.is_sound();
    let t = catalogue.blocks().types().at;
    let l = t + 20 * kept.types;
    let b = l + 8 * kept.links;
    trimmer.copy(Part::Types, kept.types, t, out);
    trimmer.copy(Part::Links, kept.links, l, out);
    trimmer.copy(Part::Bases, kept.bases, b, out);
}

// The trimmed catalogue, where there is room for it.
fn write_kept(trimmer: &mut Trimmer, out: &mut [u8]) -> Result<usize, Refusal>
    ensures { let bs = trimmed_image trimmer.old.window.catalogue.now (ids_in trimmer.old) in
        GaveBytes out.old out.new (word_of result) (output (room_refusals out.old bs) bs) }
{
    let kept = count_kept(trimmer);
    let catalogue = trimmer.window.catalogue;
    catalogue.is_sound();
    let at = catalogue.blocks().types().at;
    let size = at + 20 * kept.types + 8 * kept.links + 16 * kept.bases;
    if out.len() < size {
        return Err(Refusal::TooShort);
    }
    write_head(catalogue, kept, out);
    write_parts(trimmer, kept, out);
    Ok(size)
}

// The trimming on images that are accepted: 9 where any result wants too many skills, 10.
pub fn trim(catalogue: &Catalogue, fit: &Fit, out: &mut [u8]) -> Result<usize, Refusal>
    ensures { let b = catalogue.now in
        let c = catalogue_of b in
        let f = fit_of fit.now in
        let bs = trimmed_image b (touched c f) in
        GaveBytes out.old out.new (word_of result) (output (trim_refusals c f ++ room_refusals out.old bs) bs) }
{
    let mut marks = [0; WINDOW_WORDS];
    let window = Window {
        catalogue,
        low: 0,
        marks: &mut marks,
    };
    let Ok(mut trimmer) = Trimmer::new(window, fit) else {
        return Err(Refusal::TooManySkills);
    };
    write_kept(&mut trimmer, out)
}
