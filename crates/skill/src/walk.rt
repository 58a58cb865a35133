// The skills noted so far, and how a demand is noted. In a file of its own: where a ghost field stands, no `ghost use` names what speaks of
// the struct, as the clauses of `wanted_skills` and `report` do.
ghost use Rattle.std.specs.Prelude.{◌≡◌, ◌+◌, ◌<◌, ◌≤◌, [], get_or, set, replicate, pos, position, Option, Float};
ghost use Rattle.words.specs.Words.{each, table, any_of, same};
ghost use Rattle.numbers.specs.Sizes.{most_wanted};
ghost use Rattle.catalogue.specs.Catalogue.{Id};
ghost use Rattle.skill.specs.Skill.{demand_of};

use crate::asked;
use numbers::sizes::MOST_WANTED;

// A result wants more skills than a walk holds.
#[derive(Clone, Copy, Debug, PartialEq, Eq)]
pub struct TooMany;

// The skills noted so far, in the order met, each with the highest level asked of it. Two arrays: `is_among` reads ids alone, and took
// two thirds longer on 200 of an array of pairs.
#[derive(Clone, Copy)]
pub struct Walk {
    pub ids: [i32; MOST_WANTED],
    pub levels: [u8; MOST_WANTED],
    pub len: usize,
    ghost few: { len ≤ most_wanted },
}

// The first place of an id.
#[tactic(auto, using(words::proofs::Ids::bits_same))]
fn first_place(ids: &[i32], id: i32) -> Option<usize>
    ensures { result ≡ position (λ x. same x id) ids.now }
{
    ids.iter().position(
        |x: &i32| -> bool
            ensures { result ≡ same x.now id }
        { *x == id },
    )
}

impl Walk {
    ghost use Rattle.skill.specs.Held.{requirements_of, walk_of, Reads, New, LevelRises, PlacedAt, Noted, Notes};

    pub(crate) fn new() -> Self
        ensures { (walk_of result ≡ []) × (result.len ≡ 0)
            × (result.ids ≡ replicate most_wanted (pos 0)) × (result.levels ≡ replicate most_wanted 0) }
    {
        Walk {
            ids: [0; MOST_WANTED],
            levels: [0; MOST_WANTED],
            len: 0,
        }
    }

    // Whether a skill is noted. The loop runs to its end, so that the compiler can take many ids at once.
    fn is_among(&self, id: i32) -> bool
        ensures { result ≡ any_of (λ x. same x id) (table self.now.len (λ k. get_or self.now.ids k (pos 0))) }
    {
        let mut found = false;
        for i in 0..self.len {
            found |= self.ids[i] == id;
        }
        found
    }

    // The first place of a skill. Most demands are of new skills.
    fn place(&self, id: i32) -> Option<usize>
        ensures { PlacedAt self.now id result }
    {
        if !self.is_among(id) {
            return None;
        }
        first_place(&self.ids[..self.len], id)
    }

    // `add` and `raise` are the only functions of this crate that store into a walk. No contract can tell a store of the old value from
    // none, so that tests/style holds this.

    // Puts a skill that is new behind the others.
    fn add(&mut self, id: i32, level: u8)
        requires { (self.old.len < most_wanted) × New self.old id }
        ensures { (self.new.ids ≡ set self.old.ids self.old.len id) × (self.new.levels ≡ set self.old.levels self.old.len level)
            × (self.new.len ≡ self.old.len + 1) }
    {
        self.ids[self.len] = id;
        self.levels[self.len] = level;
        self.len += 1;
    }

    // Raises the level of a skill that is known at a lower one. The id is there for what is required.
    fn raise(&mut self, at: usize, id: i32, level: u8)
        requires { (at < most_wanted) × LevelRises self.old at id level }
        ensures { (self.new.ids ≡ self.old.ids) × (self.new.levels ≡ set self.old.levels at level) × (self.new.len ≡ self.old.len) }
    {
        self.levels[at] = level;
    }

    // Keeps the highest level asked of a skill, in the order it was first met.
    fn note(&mut self, id: i32, level: u8) -> Result<(), TooMany>
        ensures { Noted self.old id level self.new result }
    {
        match self.place(id) {
            Some(at) => {
                if level <= self.levels[at] {
                    // the walk goes on as it came
                    return Ok(());
                }
                self.raise(at, id, level);
                Ok(())
            }
            None => {
                if self.len == MOST_WANTED {
                    return Err(TooMany);
                }
                self.add(id, level);
                Ok(())
            }
        }
    }

    // Notes all that is asked for by a source of values. Inlined: out of line the catalogue's sizes are read anew for each requirement,
    // as the walk that is written might be where they stand, and a chain of 512 took a fifth longer.
    #[inline(always)]
    pub(crate) fn note_all<F: Fn(i32) -> Option<f64>>(
        &mut self,
        required: &[Option<(i32, i32)>; 6],
        look: F,
    ) -> Result<(), TooMany>
        requires { F.IsAlwaysCallable look }
        ensures { (values : Id → Option Float) → Reads (F.post look) values
            → Notes self.old (each (requirements_of required.now) (demand_of values)) self.new result }
    {
        for requirement in required {
            if let Some((skill, level)) = *requirement {
                if let Some((id, level)) = asked(&look, skill, level) {
                    self.note(id, level)?;
                }
            }
        }
        Ok(())
    }
}
