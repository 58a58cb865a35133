// A league profile: groups that a tournament's host bans or prices. Document 02, P2.
#![tactic(auto)]

ghost use Rattle.std.specs.Prelude.{◌≡◌, ◌+◌, ◌*◌, ◌≤◌, ◌<◌, eqb, length};
ghost use Rattle.words.specs.Words.{table, any_of};
ghost use Rattle.numbers.specs.Refused.{number_of};
ghost use Rattle.image.specs.Bytes.{u32_at};
ghost use Rattle.profile.specs.Profile.{group_count, points_at, prices_of, too_dear, bad_profile, bad_prices, profile_refusal, points_of};
ghost use Rattle.profile.specs.Sound.{Sized, Sound};

use keys::Keys;
use numbers::refusals::Refusal;
use numbers::sizes;
use std::marker::Model;

// 11: over 4,096 groups, or a length unlike its size.
fn bad_profile(profile: &[u8]) -> bool
    ensures { result ≡ bad_profile profile.now }
{
    if profile.len() == 0 {
        return false;
    }
    if profile.len() < 4 {
        return true;
    }
    let n = image::size_at(profile, 0);
    if sizes::MOST_GROUPS < n {
        return true;
    }
    profile.len() != 4 + 8 * n
}

// How many groups it has; none where it has no bytes.
fn group_count(profile: &[u8]) -> usize
    requires { Sized profile.now }
    ensures { result ≡ group_count profile.now }
{
    if profile.len() < 4 {
        return 0;
    }
    image::size_at(profile, 0)
}

// Points over 1,000,000 that are no ban.
fn too_dear(points: u32) -> bool
    ensures { result ≡ too_dear points }
{
    (sizes::MOST_POINTS < points) & (points != sizes::BANNED)
}

// Whether any group's points are. Like an order check it runs to its end; a loop of its own, as `catalogue_refusals::any_above` is.
fn any_too_dear(profile: &[u8], n: usize) -> bool
    requires { (n ≡ group_count profile.now) × (n ≤ 4096) × (4 + 8 * n ≤ length profile.now) }
    ensures { let b = profile.now in
        result ≡ any_of too_dear (table (group_count b) (λ i. u32_at b (points_at b + 4 * i))) }
{
    let mut found = false;
    for i in 0..n {
        found |= too_dear(image::u32_at(profile, 4 + 4 * n + 4 * i));
    }
    found
}

// 12: groups that do not ascend, or points out of range.
fn bad_prices(profile: &[u8]) -> bool
    requires { Sized profile.now }
    ensures { result ≡ bad_prices (prices_of profile.now) }
{
    let n = group_count(profile);
    if n == 0 {
        return false;
    }
    let groups = image::part(profile, 4, 4 * n);
    if keys::ascend(groups) {
        return any_too_dear(profile, n);
    }
    true
}

// The first of refusals 11 and 12 that holds.
pub fn check(profile: &[u8]) -> Result<(), Refusal>
    ensures { number_of result ≡ profile_refusal profile.now }
{
    if bad_profile(profile) {
        return Err(Refusal::BadProfile);
    }
    if bad_prices(profile) {
        return Err(Refusal::BadPrices);
    }
    Ok(())
}

// A profile that is not refused: its bytes are known to be sound.
#[derive(Drop)]
pub struct Profile<'a> {
    bytes: &'a [u8],
}

impl<'a> Model for Profile<'a> {
    ghost use Rattle.std.specs.Prelude.{List, ℕ};
    ghost use Rattle.profile.specs.Sound.{Sound};

    ghost Value = { List ℕ };

    ghost view = { λ s. s.bytes.now };

    ghost invariant = { λ s. Sound s.bytes.now };
}

impl<'a> Profile<'a> {
    // Of bytes that `check` passed. `new` and `is_sound` stand at each of the three images, whose invariants are not alike.
    pub fn new(bytes: &'a [u8]) -> Self
        requires { Sound bytes.now }
        ensures { result ≡ bytes.now }
    {
        Profile { bytes }
    }

    // What every value of this type is: for a proof that asks for it.
    pub fn is_sound(&self)
        ensures { Sound self.now }
    {
        let _ = &self.bytes;
    }

    // Most calls bring no profile.
    pub fn is_empty(&self) -> bool
        ensures { result ≡ eqb (length self.now) 0 }
    {
        self.bytes.is_empty()
    }

    // The points of a group; 0 where it is not listed.
    pub fn points_of(&self, group: i32) -> u32
        ensures { result ≡ points_of (prices_of self.now) group }
    {
        let bytes = self.bytes;
        let n = group_count(bytes);
        if n == 0 {
            return 0;
        }
        let groups = image::part(bytes, 4, 4 * n);
        match Keys::new(groups, n).place_of(group) {
            Some(i) => image::u32_at(bytes, 4 + 4 * n + 4 * i),
            None => 0,
        }
    }
}
