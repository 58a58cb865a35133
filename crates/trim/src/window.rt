// Marks of a window of places: where the runs of records that are kept begin. Keys never descend, so that the records under one id are
// a run of each block.
ghost use Rattle.std.specs.Prelude.{◌≡◌, [], ◌∷◌, map, ℕ, ◌+◌, ◌-◌, ◌*◌, ◌^◌};
ghost use Rattle.std.specs.Prelude.{min, ◌<◌, ◌≤◌, eqb, length, get_or, slice_index_or, pos};
ghost use Rattle.words.specs.Words.{table, given};
ghost use Rattle.image.specs.Bytes.{i32_at};
ghost use Rattle.marks.specs.Marks.{NextMark};
ghost use Rattle.catalogue.specs.Catalogue.{Id};
ghost use Rattle.fit.specs.Fit.{fit_of, mode_of, skill_count, skills_at, item_count, item_at};
ghost use Rattle.skill.specs.Skill.{Demand};
ghost use Rattle.skill.specs.Held.{walk_of};
ghost use Rattle.trim.specs.Marked.{named, window};
ghost use Rattle.trim.specs.Parts.{leads_in, Under};
ghost use Rattle.trim.specs.declared.part.Part.TheVariants.{Types, Links, Bases};

use crate::part::Part;
use catalogue::Catalogue;
use fit::Fit;
use skill::{TooMany, Walk};

// Places of a window: 128 KiB of marks.
pub const WINDOW: usize = 1048576;

pub const WINDOW_WORDS: usize = 16384;

// So many ids are looked for in step.
const AT_ONCE: usize = 8;

// The window from the place `low` on.
#[derive(Drop)]
pub struct Window<'a, 'b> {
    pub catalogue: &'a Catalogue<'a>,
    pub low: usize,
    pub marks: &'b mut [u64],
    ghost long: { length marks.now ≡ 16384 },
}

// Named functions, so that closures over them say what they give.
fn skill_id(fit: &Fit, i: usize) -> i32
    requires { i < skill_count fit.now }
    ensures { result ≡ i32_at fit.now (skills_at fit.now + 4 * i) }
{
    fit.skill_id(i)
}

fn item_type(fit: &Fit, i: usize) -> i32
    requires { i < item_count fit.now }
    ensures { result ≡ (item_at fit.now i).type }
{
    fit.item_type(i)
}

fn wanted_id(walk: &Walk, i: usize) -> i32
    requires { i < walk.now.len }
    ensures { result ≡ get_or walk.now.ids i (pos 0) }
{
    walk.ids[i]
}

// Eight of n ids, from one on; the last again where fewer are left, since a search for one takes hardly less time than one for eight.
fn eight_from<F: Fn(usize) -> i32>(from: usize, n: usize, id_at: &F) -> [i32; AT_ONCE]
    requires { (from < n) × ((i : ℕ) → i < n → F.pre id_at.now i) }
    ensures { (f : ℕ → Id) → ((i : ℕ) (r : Id) → i < n → F.post id_at.now i r → r ≡ f i) →
        ((j : ℕ) → j < 8 → slice_index_or result j (pos 0) ≡ f (from + min j (n - 1 - from))) }
{
    let mut ids = [0; AT_ONCE];
    for j in 0..AT_ONCE {
        ids[j] = id_at(from + j.min(n - 1 - from));
    }
    ids
}

impl<'a, 'b> Window<'a, 'b> {
    ghost use Rattle.trim.specs.Windows.{MarkedAt, MarkedMore, MarkedWanted, Cleared, Filled};

    // Marks a place, where it stands in the window.
    fn mark_place(&mut self, place: usize)
        ensures { MarkedAt self.old self.new (eqb place) }
    {
        if self.low <= place && place - self.low < WINDOW {
            marks::mark(self.marks, place - self.low);
        }
    }

    // Marks where the run of an id begins in a block, given how many of the block's keys are under it.
    fn mark_in(&mut self, part: Part, id: i32, at: usize)
        requires { Under self.old.catalogue.now part id at }
        ensures { MarkedAt self.old self.new (leads_in self.old.catalogue.now part id) }
    {
        if let Some(i) = part.keys(self.catalogue).place_at(id, at) {
            self.mark_place(part.first(self.catalogue) + i);
        }
    }

    // Marks the runs of an id, given how many keys of each block are under it.
    fn mark_found(&mut self, id: i32, types: usize, links: usize, bases: usize)
        requires { let b = self.old.catalogue.now in
            Under b Types id types × Under b Links id links × Under b Bases id bases }
        ensures { MarkedMore self.old self.new (id ∷ []) }
    {
        self.mark_in(Part::Types, id, types);
        self.mark_in(Part::Links, id, links);
        self.mark_in(Part::Bases, id, bases);
    }

    // Marks the runs of some ids, which are looked for at once.
    fn mark_ids<const N: usize>(&mut self, ids: &[i32; N])
        requires { N < 2 ^ 32 }
        ensures { MarkedMore self.old self.new ids.now }
    {
        let types = Part::Types.keys(self.catalogue).each_from(ids);
        let links = Part::Links.keys(self.catalogue).each_from(ids);
        let bases = Part::Bases.keys(self.catalogue).each_from(ids);
        for j in 0..N {
            self.mark_found(ids[j], types[j], links[j], bases[j]);
        }
    }

    // Marks the runs of an id.
    fn mark(&mut self, id: i32)
        ensures { MarkedMore self.old self.new (id ∷ []) }
    {
        self.mark_ids(&[id]);
    }

    // Marks the runs of n ids, eight at a time.
    fn mark_all<F: Fn(usize) -> i32>(&mut self, n: usize, id_at: F)
        requires { (i : ℕ) → i < n → F.pre id_at i }
        ensures { (f : ℕ → Id) → ((i : ℕ) (r : Id) → i < n → F.post id_at i r → r ≡ f i) →
            MarkedMore self.old self.new (table n f) }
    {
        // a while: by eight
        let mut i = 0;
        while i < n {
            self.mark_ids(&eight_from(i, n, &id_at));
            i += AT_ONCE.min(n - i);
        }
    }

    // Marks the runs of a walk's skills.
    fn mark_walk(&mut self, walk: &Walk)
        ensures { MarkedMore self.old self.new (map (λ (w : Demand). w.0) (walk_of walk.now)) }
    {
        self.mark_all(walk.len, |i| wanted_id(walk, i));
    }

    // Marks the runs of what the results want, one after the other, or says that one wants too many skills.
    fn mark_each(&mut self, fit: &Fit) -> Result<(), TooMany>
        ensures { MarkedWanted self.old self.new fit.now result }
    {
        fit.is_sound();
        for res in 0..fit.result_count() + 2 {
            let walk = skill::wanted_skills(self.catalogue, fit, res)?;
            self.mark_walk(&walk);
        }
        Ok(())
    }

    // The same. Most fits want few skills in all, and one walk finds them.
    fn mark_results(&mut self, fit: &Fit) -> Result<(), TooMany>
        ensures { MarkedWanted self.old self.new fit.now result }
    {
        let Ok(walk) = skill::wanted_by_all(self.catalogue, fit) else {
            return self.mark_each(fit);
        };
        self.mark_walk(&walk);
        Ok(())
    }

    // Marks the runs of the mode, where one is given.
    fn mark_mode(&mut self, fit: &Fit)
        ensures { MarkedMore self.old self.new (given (mode_of (fit_of fit.now).frame) [] (λ (m : Id). m ∷ [])) }
    {
        if let Some(mode) = fit.mode() {
            self.mark(mode);
        }
    }

    // Marks the runs of what a fit names itself: the ship, the mode where one is given, the skills, the items.
    fn mark_named(&mut self, fit: &Fit)
        ensures { MarkedMore self.old self.new (named (fit_of fit.now)) }
    {
        self.mark(fit.ship());
        self.mark_mode(fit);
        self.mark_all(fit.skill_count(), |i| skill_id(fit, i));
        self.mark_all(fit.item_count(), |i| item_type(fit, i));
    }

    // Takes all marks off, and goes to another window.
    fn clear(&mut self, low: usize)
        ensures { Cleared self.old self.new low }
    {
        self.low = low;
        marks::clear(self.marks);
    }

    // Marks the window from a place on for all that a fit touches, or says that a result wants too many skills.
    pub(crate) fn fill(&mut self, fit: &Fit, low: usize) -> Result<(), TooMany>
        ensures { Filled self.old self.new fit.now low result }
    {
        self.clear(low);
        self.mark_named(fit);
        self.mark_results(fit)
    }

    // The first marked place from one on, or `end`.
    pub(crate) fn next(&self, from: usize, end: usize) -> usize
        requires { (from ≤ end) × (end ≤ window) }
        ensures { NextMark self.now.marks.now from end result }
    {
        marks::next(self.marks, from, end)
    }
}
