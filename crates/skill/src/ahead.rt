// Where the bases of the skills that are walked next begin: eight are looked for in step, but one alone where no other stands behind it.
ghost use Rattle.std.specs.Prelude.{◌<◌};

use crate::Walk;
use catalogue::Catalogue;

// So many are looked for in step.
const AT_ONCE: usize = 8;

// Guesses for the skills of a walk before `end`, for each at its number's remainder. They are not known to be right: who uses one looks.
#[derive(Drop)]
pub(crate) struct Ahead {
    places: [usize; AT_ONCE],
    end: usize,
}

// The ids of a walk from one on, each at its number's remainder. Behind its last there are any.
fn next_ids(walk: &Walk, from: usize) -> [i32; AT_ONCE]
    requires { from < walk.now.len }
{
    let mut ids = [0; AT_ONCE];
    for j in 0..AT_ONCE {
        ids[(from + j) % AT_ONCE] = walk.ids[(from + j) % walk.ids.len()];
    }
    ids
}

impl Ahead {
    pub(crate) fn new() -> Ahead {
        Ahead {
            places: [0; AT_ONCE],
            end: 0,
        }
    }

    // A guess for a skill of a walk that is gone through from its first to its last.
    pub(crate) fn guess(&mut self, catalogue: &Catalogue, walk: &Walk, next: usize) -> usize
        requires { next < walk.now.len }
    {
        if self.end <= next {
            // Along a chain each skill is noted by the one before it, so that it is the last of the walk when it is looked for: a search
            // for eight would be made for one at each, and takes twice as long.
            if next + 1 == walk.len {
                self.places[next % AT_ONCE] = catalogue.base_keys().first_from(walk.ids[next]);
            } else {
                self.places = catalogue.base_keys().each_from(&next_ids(walk, next));
            }
            self.end = walk.len.min(next + AT_ONCE);
        }
        self.places[next % AT_ONCE]
    }
}
