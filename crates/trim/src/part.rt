// The three blocks of which a trimmed catalogue keeps some records. The records of all three stand at places: types first, then links,
// then bases.
ghost use Rattle.std.specs.Prelude.{◌≡◌, ◌+◌, ◌≤◌};
ghost use Rattle.numbers.specs.Sizes as Sizes;
ghost use Rattle.keys.specs.Blocks.{KeysOf};
ghost use Rattle.trim.specs.Parts.{at_of, size_of, first_of, width_of};

use catalogue::Catalogue;
use catalogue::blocks::Block;
use keys::Keys;

#[derive(Clone, Copy, PartialEq, Eq)]
pub enum Part {
    Types,
    Links,
    Bases,
}

impl Part {
    // The block itself.
    #[tactic(auto, unfolding(crate::specs::Parts::at_of, crate::specs::Parts::size_of))]
    pub(crate) fn block(self, catalogue: &Catalogue) -> Block
        ensures { (result.at ≡ at_of catalogue.now self) × (result.n ≡ size_of catalogue.now self) }
    {
        let blocks = catalogue.blocks();
        match self {
            Part::Types => blocks.types(),
            Part::Links => blocks.links(),
            Part::Bases => blocks.bases(),
        }
    }

    // Its keys, which are in order.
    #[tactic(auto, unfolding(crate::specs::Parts::at_of, crate::specs::Parts::size_of))]
    pub(crate) fn keys<'a>(self, catalogue: &Catalogue<'a>) -> Keys<'a>
        ensures { KeysOf catalogue.now (at_of catalogue.now self) (size_of catalogue.now self) result }
    {
        match self {
            Part::Types => catalogue.type_keys(),
            Part::Links => catalogue.link_keys(),
            Part::Bases => catalogue.base_keys(),
        }
    }

    // The place of its first record. No place is past the image.
    #[tactic(auto, unfolding(crate::specs::Parts::first_of, crate::specs::Parts::size_of))]
    pub(crate) fn first(self, catalogue: &Catalogue) -> usize
        ensures { (result ≡ first_of catalogue.now self) × (result + size_of catalogue.now self ≤ Sizes.most_catalogue_bytes) }
    {
        catalogue.is_sound();
        let blocks = catalogue.blocks();
        match self {
            Part::Types => 0,
            Part::Links => blocks.types().n,
            Part::Bases => blocks.types().n + blocks.links().n,
        }
    }

    // How many bytes a value takes.
    #[tactic(auto, unfolding(crate::specs::Parts::width_of))]
    pub(crate) fn width(self) -> usize
        ensures { result ≡ width_of self }
    {
        match self {
            Part::Types => 16,
            Part::Links => 4,
            Part::Bases => 12,
        }
    }
}
