// The fit's image: its fields, and what each result reached. Document 01, "Records".
#![tactic(auto)]

pub mod layout;

ghost use Rattle.std.specs.Prelude.{◌≡◌, ◌+◌, ◌*◌, ◌<◌, ◌≤◌, min, length, get_or, take, drop};
ghost use Rattle.numbers.specs.Sizes.{most_results};
ghost use Rattle.image.specs.Bytes.{i32_at};
ghost use Rattle.keys.specs.Blocks.{KeysOf};
ghost use Rattle.fit.specs.Fit.{mode_of, fit_of, skill_count, item_count, result_count, attribute_count};
ghost use Rattle.fit.specs.Fit.{skills_at, item_at, count_at, start_at, result_of};
ghost use Rattle.fit.specs.Sound.{Sound, Starts, ids_part, values_part};
ghost use Rattle.fit.specs.Lookups.{value, amount, trained};

use keys::Keys;
use layout::Layout;
use std::marker::Model;

// Where each result's attributes begin among all, and at last how many there are.
fn starts(fit: &[u8]) -> [u32; 259]
    requires { Sound fit.now }
    ensures { Starts fit.now result }
{
    let layout = Layout::new(fit);
    let mut s = [0u32; 259];
    let mut sum: u32 = 0;
    for j in 0..layout.results() + 2 {
        sum += layout.count_at(j) as u32;
        s[j + 1] = sum;
    }
    s
}

// How many attributes stand before those of result j.
fn start_of(starts: &[u32], j: usize) -> usize
    requires { j < length starts.now }
    ensures { result ≡ get_or starts.now j 0 }
{
    starts[j] as usize
}

// A fit that is not refused: its bytes are known to be sound. Where results begin is found once for all lookups.
#[derive(Drop)]
pub struct Fit<'a> {
    bytes: &'a [u8],
    starts: [u32; 259],
}

impl<'a> Model for Fit<'a> {
    ghost use Rattle.std.specs.Prelude.{List, ℕ};
    ghost use Rattle.fit.specs.Sound.{Sound, Starts};

    ghost Value = { List ℕ };

    ghost view = { λ s. s.bytes.now };

    ghost invariant = { λ s. Sound s.bytes.now × Starts s.bytes.now s.starts };
}

impl<'a> Fit<'a> {
    // Of bytes that `fit_refusals::check` passed. Out of line: a skill call takes 1 KB less of the stack so.
    #[inline(never)]
    pub fn new(bytes: &'a [u8]) -> Self
        requires { Sound bytes.now }
        ensures { result ≡ bytes.now }
    {
        Fit {
            bytes,
            starts: starts(bytes),
        }
    }

    // What every value of this type is: for a proof that asks for it.
    pub fn is_sound(&self)
        ensures { Sound self.now }
    {
        let _ = &self.bytes;
    }

    // The image itself, for who copies it.
    pub fn bytes(&self) -> &'a [u8]
        ensures { (result.now ≡ self.now) × Sound self.now }
    {
        self.bytes
    }

    // Where the blocks of the image stand.
    pub fn layout(&self) -> Layout<'a>
        ensures { result ≡ self.now }
    {
        Layout::new(self.bytes)
    }

    pub fn ship(&self) -> i32
        ensures { result ≡ (fit_of self.now).frame.ship }
    {
        image::i32_at(self.bytes, 16)
    }

    pub fn mode(&self) -> Option<i32>
        ensures { result ≡ mode_of (fit_of self.now).frame }
    {
        if image::u32_at(self.bytes, 20) == 0 {
            None
        } else {
            Some(image::i32_at(self.bytes, 24))
        }
    }

    pub fn skill_count(&self) -> usize
        ensures { result ≡ skill_count self.now }
    {
        self.layout().skills()
    }

    pub fn item_count(&self) -> usize
        ensures { result ≡ item_count self.now }
    {
        self.layout().items()
    }

    // The items' results; the ship's and the character's stand before them.
    pub fn result_count(&self) -> usize
        ensures { result ≡ result_count self.now }
    {
        self.layout().results()
    }

    // Items that have a result.
    pub fn pair_count(&self) -> usize
        ensures { result ≡ min (item_count self.now) (result_count self.now) }
    {
        self.layout().pairs()
    }

    pub fn skill_id(&self, i: usize) -> i32
        requires { i < skill_count self.now }
        ensures { result ≡ i32_at self.now (skills_at self.now + 4 * i) }
    {
        image::i32_at(self.bytes, 28 + 4 * i)
    }

    // The skill ids as what searches go through.
    pub fn skill_keys(&self) -> Keys<'a>
        ensures { KeysOf self.now (skills_at self.now) (skill_count self.now) result }
    {
        let n = self.layout().skills();
        Keys::new(image::part(self.bytes, 28, 4 * n), n)
    }

    pub fn item_type(&self, i: usize) -> i32
        requires { i < item_count self.now }
        ensures { result ≡ (item_at self.now i).type }
    {
        image::i32_at(self.bytes, self.layout().items_at() + 12 * i)
    }

    pub fn item_quantity(&self, i: usize) -> u32
        requires { i < item_count self.now }
        ensures { result ≡ (item_at self.now i).quantity }
    {
        image::u32_at(self.bytes, self.layout().items_at() + 12 * i + 4)
    }

    pub fn item_slot(&self, i: usize) -> u8
        requires { i < item_count self.now }
        ensures { result ≡ (item_at self.now i).slot }
    {
        image::u8_at(self.bytes, self.layout().items_at() + 12 * i + 8)
    }

    pub fn item_index(&self, i: usize) -> u16
        requires { i < item_count self.now }
        ensures { result ≡ (item_at self.now i).index }
    {
        image::u16_at(self.bytes, self.layout().items_at() + 12 * i + 10)
    }

    // Result 0 is the ship's, 1 the character's, 2 the first item's.
    pub fn result_state(&self, j: usize) -> u8
        requires { j < result_count self.now + 2 }
        ensures { result ≡ (result_of self.now j).state }
    {
        image::u8_at(self.bytes, self.layout().results_at() + 4 * j)
    }

    // The part of the caller's bytes that holds what result j has in the block from `first` on, `width` bytes for each attribute.
    fn part_of(&self, j: usize, first: usize, width: usize) -> &'a [u8]
        requires { let f = self.now in
            (j < result_count f + 2) × (first + width * attribute_count f ≤ length f) }
        ensures { let f = self.now in
            result.now ≡ take (width * count_at f j) (drop (first + width * start_at f j) f) }
    {
        let start = start_of(&self.starts, j);
        let end = start_of(&self.starts, j + 1);
        &self.bytes[first + width * start..first + width * end]
    }

    // Result j's attribute ids.
    pub fn ids_of(&self, j: usize) -> &'a [u8]
        requires { j < result_count self.now + 2 }
        ensures { result.now ≡ ids_part self.now (start_at self.now j) (count_at self.now j) }
    {
        self.part_of(j, self.layout().ids_at(), 4)
    }

    // Result j's attribute ids as what searches go through.
    fn id_keys(&self, j: usize) -> Keys<'a>
        requires { j < result_count self.now + 2 }
        ensures { let f = self.now in
            (result.bytes.now ≡ ids_part f (start_at f j) (count_at f j)) × (result.n ≡ count_at f j) }
    {
        self.is_sound();
        let ids = self.ids_of(j);
        Keys::new(ids, ids.len() / 4)
    }

    // Result j's values, in the order of its ids.
    fn values_of(&self, j: usize) -> &'a [u8]
        requires { j < result_count self.now + 2 }
        ensures { result.now ≡ values_part self.now (start_at self.now j) (count_at self.now j) }
    {
        self.part_of(j, self.layout().values_at(), 8)
    }

    // What an attribute of result j reached: its value stands among the result's values where its id stands among the ids.
    pub fn value(&self, j: usize, id: i32) -> Option<f64>
        requires { j < result_count self.now + 2 }
        ensures { result ≡ value (result_of self.now j) id }
    {
        self.is_sound();
        let i = self.id_keys(j).place_of(id)?;
        Some(floats::f64_at(self.values_of(j), 8 * i))
    }

    // What an attribute of result j reached; one that is missing reads as 0.
    pub fn amount(&self, j: usize, id: i32) -> f64
        requires { j < result_count self.now + 2 }
        ensures { result ≡ amount (result_of self.now j) id }
    {
        floats::amount(self.value(j, id))
    }

    // The level that the character has in a skill; 0 where it is not listed.
    pub fn trained_level(&self, id: i32) -> u8
        ensures { result ≡ trained (fit_of self.now).skills (fit_of self.now).levels id }
    {
        match self.skill_keys().place_of(id) {
            Some(i) => image::u8_at(self.bytes, self.layout().levels_at() + i),
            None => 0,
        }
    }
}
