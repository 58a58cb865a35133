// The runs of records that a fit touches, in a catalogue of any size: the marks are those of one window, and are made anew where
// records behind it are asked for.
ghost use Rattle.std.specs.Prelude.{◌≡◌, ℕ, ◌+◌, ◌-◌, ◌*◌, ◌<◌, ◌≤◌, List, length, false, is_err};
ghost use Rattle.words.specs.Words.{from};
ghost use Rattle.image.specs.Bytes.{put};
ghost use Rattle.catalogue.specs.Catalogue.{Id, catalogue_of};
ghost use Rattle.fit.specs.Fit.{fit_of};
ghost use Rattle.trim.specs.Trim.{copied, touched, any_too_many};
ghost use Rattle.trim.specs.Parts.{at_of, size_of, first_of, width_of, kept_in, kept_bytes};
ghost use Rattle.trim.specs.Marked.{Marked, window, BlockMarked, Fresh, Stretch};

use crate::part::Part;
use crate::window::{WINDOW, Window};
use catalogue::{Catalogue, Span};
use fit::Fit;
use skill::TooMany;

// A fit of which no result wants too many skills, and a window in which all that it touches is marked.
#[derive(Drop)]
pub struct Trimmer<'a, 'b> {
    pub window: Window<'a, 'b>,
    pub fit: &'a Fit<'a>,
    ghost few: { any_too_many (catalogue_of window.catalogue.now) (fit_of fit.now) ≡ false },
    ghost whole: { Marked window.catalogue.now (touched (catalogue_of window.catalogue.now) (fit_of fit.now)) window.low window.marks.now },
}

// A run of a block: its keys to one place, its values to another.
fn copy_run(
    catalogue: &Catalogue,
    part: Part,
    run: Span,
    keys: usize,
    values: usize,
    out: &mut [u8],
)
    requires { (run.from ≤ run.to) × (run.to ≤ size_of catalogue.now part)
        × (keys + 4 * (run.to - run.from) ≤ length out.old) × (values + width_of part * (run.to - run.from) ≤ length out.old) }
    ensures { let b = catalogue.now in
        let is = from run.from (run.to - run.from) in
        let at = at_of b part in
        out.new ≡ put (put out.old keys (copied b at 4 is)) values (copied b (at + 4 * size_of b part) (width_of part) is) }
{
    let bytes = catalogue.bytes();
    let block = part.block(catalogue);
    let width = part.width();
    let n = run.to - run.from;
    let key = block.at + 4 * run.from;
    let value = block.at + 4 * block.n + width * run.from;
    image::copy(out, keys, image::part(bytes, key, 4 * n));
    image::copy(out, values, image::part(bytes, value, width * n));
}

impl<'a, 'b> Trimmer<'a, 'b> {
    ghost use Rattle.trim.specs.Trimmers.{SameImages, ids_in, MadeOf};

    // Or says that a result wants too many skills.
    pub(crate) fn new(window: Window<'a, 'b>, fit: &'a Fit<'a>) -> Result<Self, TooMany>
        ensures { MadeOf window.entry.catalogue.now fit.now result }
    {
        let mut window = window;
        window.fill(fit, 0)?;
        Ok(Trimmer { window, fit })
    }

    // Goes to a window in which a place stands: the one that is marked, or the one that begins there.
    fn reach(&mut self, place: usize)
        ensures { SameImages self.old self.new × (self.new.window.low ≤ place) × (place < self.new.window.low + window) }
    {
        let low = self.window.low;
        if low <= place && place - low < WINDOW {
            return;
        }
        // no result wants too many skills, as was found before
        let _ = self.window.fill(self.fit, place);
    }

    // The end of the runs that are kept side by side, as far as the window shows, where one ends at a record.
    fn joined(&self, part: Part, to: usize) -> usize
        requires { let b = self.now.window.catalogue.now in
            (to ≤ size_of b part) × (self.now.window.low ≤ first_of b part + to) }
        ensures { let b = self.now.window.catalogue.now in
            let at = at_of b part in
            let n = size_of b part in
            (i f : ℕ) → Stretch b at n (ids_in self.now) i f to → Stretch b at n (ids_in self.now) i f result }
    {
        let catalogue = self.window.catalogue;
        catalogue.is_sound();
        let low = self.window.low;
        let block = part.block(catalogue);
        let first = part.first(catalogue);
        let shown = WINDOW.min(first + block.n - low);
        let mut last = to;
        // a while: from run to run
        while first + last - low < shown {
            let place = first + last - low;
            if self.window.next(place, place + 1) != place {
                return last;
            }
            last = catalogue.run_end(block, last);
        }
        last
    }

    // From record i of a block on: the next runs that are kept side by side, as far as the window shows; none where the two are one.
    fn next_run(&self, part: Part, i: usize) -> Span
        requires { let first = first_of self.now.window.catalogue.now part in
            let low = self.now.window.low in
            (i < size_of self.now.window.catalogue.now part) × (low ≤ first + i) × (first + i < low + window) }
        ensures { let b = self.now.window.catalogue.now in
            let at = at_of b part in
            let n = size_of b part in
            Fresh b at n (ids_in self.now) i → Stretch b at n (ids_in self.now) i result.from result.to }
    {
        let catalogue = self.window.catalogue;
        catalogue.is_sound();
        let low = self.window.low;
        let block = part.block(catalogue);
        let first = part.first(catalogue);
        let end = WINDOW.min(first + block.n - low);
        let at = self.window.next(first + i - low, end);
        let from = low + at - first;
        if at == end {
            return Span { from, to: from };
        }
        Span {
            from,
            to: self.joined(part, catalogue.run_end(block, from)),
        }
    }

    // How many records of a block are kept.
    pub(crate) fn count(&mut self, part: Part) -> usize
        ensures { SameImages self.old self.new
            × (result ≡ length (kept_in self.old.window.catalogue.now (ids_in self.old) part))
            × (result ≤ size_of self.old.window.catalogue.now part) }
    {
        self.window.catalogue.is_sound();
        let n = part.block(self.window.catalogue).n;
        let first = part.first(self.window.catalogue);
        let mut count: usize = 0;
        let mut i: usize = 0;
        // a while: from run to run
        while i < n {
            self.reach(first + i);
            let run = self.next_run(part, i);
            count += run.to - run.from;
            i = run.to;
        }
        count
    }

    // What is kept of a block, so many records, from a place of a buffer on.
    pub(crate) fn copy(&mut self, part: Part, kept: usize, to: usize, out: &mut [u8])
        requires { (kept ≡ length (kept_in self.old.window.catalogue.now (ids_in self.old) part))
            × (to + 4 * kept + width_of part * kept ≤ length out.old) }
        ensures { SameImages self.old self.new
            × (out.new ≡ put out.old to (kept_bytes self.old.window.catalogue.now (ids_in self.old) part)) }
    {
        self.window.catalogue.is_sound();
        let n = part.block(self.window.catalogue).n;
        let first = part.first(self.window.catalogue);
        let width = part.width();
        let mut keys = to;
        let mut values = to + 4 * kept;
        let mut i: usize = 0;
        // a while: from run to run
        while i < n {
            self.reach(first + i);
            let run = self.next_run(part, i);
            copy_run(self.window.catalogue, part, run, keys, values, out);
            keys += 4 * (run.to - run.from);
            values += width * (run.to - run.from);
            i = run.to;
        }
    }
}
