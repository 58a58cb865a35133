// Where the blocks of a fit's image stand: document 01, "Records", Fit.
ghost use Rattle.std.specs.Prelude.{◌≡◌, ◌+◌, ◌*◌, ◌<◌, ◌≤◌, min, length};
ghost use Rattle.fit.specs.Fit.{skill_count, item_count, result_count, attribute_count};
ghost use Rattle.fit.specs.Fit.{levels_at, items_at, results_at, ids_at, values_at, count_at};
ghost use Rattle.fit.specs.Sound.{Sized};

use std::marker::Model;

// A fit's image that is as long as its sizes say, within their limits (`Sized`).
#[derive(Drop)]
pub struct Layout<'a> {
    bytes: &'a [u8],
}

impl<'a> Model for Layout<'a> {
    ghost use Rattle.std.specs.Prelude.{List, ℕ};
    ghost use Rattle.fit.specs.Sound.{Sized};

    ghost Value = { List ℕ };

    ghost view = { λ s. s.bytes.now };

    ghost invariant = { λ s. Sized s.bytes.now };
}

impl<'a> Layout<'a> {
    pub fn new(bytes: &'a [u8]) -> Self
        requires { Sized bytes.now }
        ensures { result ≡ bytes.now }
    {
        Layout { bytes }
    }

    // The image itself, for who reads a block.
    pub fn bytes(&self) -> &'a [u8]
        ensures { (result.now ≡ self.now) × Sized self.now }
    {
        self.bytes
    }

    pub fn skills(&self) -> usize
        ensures { (result ≡ skill_count self.now) × Sized self.now }
    {
        image::size_at(self.bytes, 0)
    }

    pub fn items(&self) -> usize
        ensures { (result ≡ item_count self.now) × Sized self.now }
    {
        image::size_at(self.bytes, 4)
    }

    pub fn results(&self) -> usize
        ensures { (result ≡ result_count self.now) × Sized self.now }
    {
        image::size_at(self.bytes, 8)
    }

    // Items that have a result.
    pub fn pairs(&self) -> usize
        ensures { result ≡ min (item_count self.now) (result_count self.now) }
    {
        self.results().min(self.items())
    }

    pub fn attributes(&self) -> usize
        ensures { (result ≡ attribute_count self.now) × Sized self.now }
    {
        image::size_at(self.bytes, 12)
    }

    pub fn levels_at(&self) -> usize
        ensures { result ≡ levels_at self.now }
    {
        28 + 4 * self.skills()
    }

    pub fn items_at(&self) -> usize
        ensures { result ≡ items_at self.now }
    {
        28 + 5 * self.skills()
    }

    pub fn results_at(&self) -> usize
        ensures { result ≡ results_at self.now }
    {
        self.items_at() + 12 * self.items()
    }

    pub fn ids_at(&self) -> usize
        ensures { result ≡ ids_at self.now }
    {
        self.results_at() + 4 * (self.results() + 2)
    }

    pub fn values_at(&self) -> usize
        ensures { result ≡ values_at self.now }
    {
        self.ids_at() + 4 * self.attributes()
    }

    // How many attributes result j has.
    pub fn count_at(&self, j: usize) -> usize
        requires { j < result_count self.now + 2 }
        ensures { (result ≡ count_at self.now j) × (result < 65536) }
    {
        count_at(self.bytes, self.results_at(), j)
    }
}

// How many attributes result j has, where the results begin at `first`.
pub fn count_at(fit: &[u8], first: usize, j: usize) -> usize
    requires { (first ≡ results_at fit.now) × (first + 4 * j + 4 ≤ length fit.now) }
    ensures { (result ≡ count_at fit.now j) × (result < 65536) }
{
    image::u16_at(fit, first + 4 * j + 2) as usize
}
