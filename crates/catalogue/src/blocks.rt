// Where the blocks of a catalogue's image are: document 01, "Records".
ghost use Rattle.std.specs.Prelude.{◌≡◌, ◌+◌, ◌*◌, ◌<◌, ◌≤◌, length, take, drop};
ghost use Rattle.image.specs.Bytes.{u32_at};
ghost use Rattle.catalogue.specs.Catalogue.{name_count, effect_count, type_count, link_count, base_count};
ghost use Rattle.catalogue.specs.Catalogue.{names_at, effects_at, types_at, links_at, bases_at, base_values_at};

use std::marker::Model;

// A block: where it begins, and how many records it has. Two numbers: that it stands within an image is a fact of both and stays a clause;
// a block that held its bytes would have to be made of each image's accepted and refused form.
#[derive(Clone, Copy)]
pub struct Block {
    pub at: usize,
    pub n: usize,
}

// The block behind another, whose records take `width` bytes each; its size stands at a place.
fn behind(catalogue: &[u8], b: Block, width: usize, size_at: usize) -> Block
    requires { (b.at + width * b.n ≤ length catalogue.now) × (size_at + 4 ≤ length catalogue.now) }
    ensures { (result.at ≡ b.at + width * b.n) × (result.n ≡ u32_at catalogue.now size_at) }
{
    Block {
        at: b.at + width * b.n,
        n: image::size_at(catalogue, size_at),
    }
}

// An image that has room for all that its sizes tell but the values of its bases: one that is not refused has it, and the old form of P10,
// whose values are shorter.
#[derive(Drop)]
pub struct Blocks<'a> {
    bytes: &'a [u8],
}

impl<'a> Model for Blocks<'a> {
    ghost use Rattle.std.specs.Prelude.{List, ℕ, ◌≤◌, length};
    ghost use Rattle.catalogue.specs.Catalogue.{base_values_at};

    ghost Value = { List ℕ };

    ghost view = { λ s. s.bytes.now };

    ghost invariant = { λ s. base_values_at s.bytes.now ≤ length s.bytes.now };
}

impl<'a> Blocks<'a> {
    pub fn new(bytes: &'a [u8]) -> Self
        requires { base_values_at bytes.now ≤ length bytes.now }
        ensures { result ≡ bytes.now }
    {
        Blocks { bytes }
    }

    // The image itself.
    pub fn bytes(&self) -> &'a [u8]
        ensures { (result.now ≡ self.now) × (base_values_at self.now ≤ length self.now) }
    {
        self.bytes
    }

    pub fn names(&self) -> Block
        ensures { (result.at ≡ names_at self.now) × (result.n ≡ name_count self.now) × (result.at + 4 * result.n ≤ length self.now) }
    {
        Block {
            at: 20,
            n: image::size_at(self.bytes, 0),
        }
    }

    pub fn effects(&self) -> Block
        ensures { (result.at ≡ effects_at self.now) × (result.n ≡ effect_count self.now) × (result.at + 4 * result.n ≤ length self.now) }
    {
        behind(self.bytes, self.names(), 8, 4)
    }

    pub fn types(&self) -> Block
        ensures { (result.at ≡ types_at self.now) × (result.n ≡ type_count self.now) × (result.at + 4 * result.n ≤ length self.now) }
    {
        behind(self.bytes, self.effects(), 8, 8)
    }

    pub fn links(&self) -> Block
        ensures { (result.at ≡ links_at self.now) × (result.n ≡ link_count self.now) × (result.at + 4 * result.n ≤ length self.now) }
    {
        behind(self.bytes, self.types(), 20, 12)
    }

    pub fn bases(&self) -> Block
        ensures { (result.at ≡ bases_at self.now) × (result.n ≡ base_count self.now) × (result.at + 4 * result.n ≤ length self.now) }
    {
        behind(self.bytes, self.links(), 8, 16)
    }

    // The keys of a block.
    pub fn keys_of(&self, b: Block) -> &'a [u8]
        requires { b.at + 4 * b.n ≤ length self.now }
        ensures { (result.now ≡ take (4 * b.n) (drop b.at self.now)) × (length result.now ≡ 4 * b.n) }
    {
        image::part(self.bytes, b.at, 4 * b.n)
    }
}
