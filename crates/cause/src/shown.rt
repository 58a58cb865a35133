// The entry at a position of the list: the list is run once, and the entry is read back from its bytes.
ghost use Rattle.std.specs.Prelude.{◌≡◌, ◌+◌, ◌*◌, ◌≤◌, ◌<◌, length};
ghost use Rattle.catalogue.specs.Catalogue.{catalogue_of};
ghost use Rattle.fit.specs.Fit.{fit_of};
ghost use Rattle.lists.specs.Terms.{main};
ghost use Rattle.lists.specs.Lists.{whole_list, most_entries};
ghost use Rattle.cause.specs.Decided.{own_at, shown_at, Read};

use context::Context;
use lists::Asked;
use numbers::readers::Reader;
use numbers::sizes;
use profile::Profile;

// What tells an entry's rule and whom it is about: the number of its pair, if it is about one, and the numbers of rule and sub.
#[derive(Clone, Copy)]
pub struct Shown {
    pub own: Option<usize>,
    pub rule: u8,
    pub sub: u8,
}

// The pair that the entry at a place is about.
fn own_at(b: &[u8], at: usize) -> Option<usize>
    requires { at + 8 ≤ length b.now }
    ensures { result ≡ own_at b.now at }
{
    if image::u8_at(b, at) == 0 {
        return None;
    }
    Some(image::size_at(b, at + 4))
}

pub fn read(b: &[u8], at: usize) -> Shown
    requires { at + 8 ≤ length b.now }
    ensures { result ≡ shown_at b.now at }
{
    Shown {
        own: own_at(b, at),
        rule: image::u8_at(b, at + 1),
        sub: image::u8_at(b, at + 2),
    }
}

// The entry at a position of the officer's list without a profile, where the list reaches it. The place holds any list.
fn listed_in(
    context: &Context,
    hints: &mut [u32],
    position: usize,
    place: &mut [u8],
) -> Option<Shown>
    requires { 24 * most_entries ≤ length place.old }
    ensures { let es = whole_list main (catalogue_of context.now.catalogue.now) (fit_of context.now.fit.now) in
        Read context.now es position result }
{
    let none = [0u8; 0];
    let profile = Profile::new(&none);
    let asked = Asked {
        reader: Reader::Officer as u32,
        allowance: 0,
    };
    let count = lists::write(asked, &profile, context, hints, place);
    if count <= position {
        return None;
    }
    Some(read(place, sizes::ENTRY_SIZE * position))
}

pub fn shown_at(context: &Context, hints: &mut [u32], position: usize) -> Option<Shown>
    ensures { let es = whole_list main (catalogue_of context.now.catalogue.now) (fit_of context.now.fit.now) in
        Read context.now es position result }
{
    let mut place = [0u8; calls::ANY_LIST];
    listed_in(context, hints, position, &mut place)
}
