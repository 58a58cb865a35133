// The catalogue: how it is read. Document 01, "Records".
#![tactic(auto)]

pub mod blocks;

ghost use Rattle.std.specs.Prelude.{◌≡◌, cond, ◌+◌, ◌*◌, ◌<◌, ◌≤◌, length, take, drop, eqb};
ghost use mathlib.Core.List.{foldl};
ghost use Rattle.std.specs.Prelude.{ℕ, pos, None, Some, slice_index_or};
ghost use Rattle.words.specs.Words.{given, same};
ghost use Rattle.image.specs.Bytes.{u32_at, i32_at};
ghost use Rattle.keys.specs.Keys.{Parts, place_of};
ghost use Rattle.floats.specs.Floats.{zero_f, f32_at};
ghost use Rattle.catalogue.specs.Catalogue.{catalogue_of, size_of, name_count, effect_count, type_count, link_count, base_count};
ghost use Rattle.catalogue.specs.Catalogue.{names_at, effects_at, types_at, links_at};
ghost use Rattle.catalogue.specs.Catalogue.{bases_at, effect_at, type_at, link_at};
ghost use Rattle.catalogue.specs.Lookups.{name_id, type_of, effect_mark, rack_of, hardpoint_of};
ghost use Rattle.catalogue.specs.Sound.{Sound};
ghost use Rattle.catalogue.specs.Answers.{info_of_type};
ghost use Rattle.keys.specs.Blocks.{KeysOf};
ghost use Rattle.catalogue.specs.Walks.{Ends, SpanOf, span_value, in_rack, on_hardpoint, link_marks};

use blocks::{Block, Blocks};
use keys::Keys;
use numbers::{marks, names};
use std::marker::Model;

// What a type is. Its volume is 0 where none is given.
#[derive(Clone, Copy)]
pub struct TypeInfo {
    pub group: i32,
    pub category: i32,
    pub volume: f64,
}

// What a type asks for. Numbers, as the slot in a fit's byte, which rules compare with them.
#[derive(Clone, Copy)]
pub struct SlotMarks {
    pub rack: Option<u8>,
    pub hardpoint: Option<u8>,
}

// The bases of a type, by their places.
#[derive(Clone, Copy)]
pub struct Span {
    pub from: usize,
    pub to: usize,
}

// ---- searches among the keys of a block

// Where `hints`, 8,192 or 64 of them, has an id of the block at a place. By the upper bits of a product, which spread ids that are
// evenly apart.
fn hint_of(at: usize, id: i32, hints: usize) -> usize {
    let spread = (image::bits(id).wrapping_mul(2654435761) / 524288) as usize;
    let k = (spread + at % 8192) % 8192;
    if hints < 8192 { k / 128 } else { k }
}

// Hints at a place.
fn keep(hints: &mut [u32], k: usize, place: usize) {
    if let Some(hint) = hints.get_mut(k) {
        *hint = (place % 4294967296) as u32;
    }
}

// How many keys of the block at a place are under an id. A hint says where it stood when it was looked for before; it is tried first and
// may be anything, so that no answer depends on hints. Out of line: a hall of clear fits took 2.5 % more instructions with it inlined.
#[inline(never)]
fn first_key(keys: &Keys, at: usize, id: i32, hints: &mut [u32]) -> usize
    ensures { Parts keys.now.bytes.now keys.now.n id result }
{
    let k = hint_of(at, id, hints.len());
    let Some(hint) = hints.get(k) else {
        return keys.first_from(id);
    };
    let r = keys.first_near(id, *hint as usize);
    keep(hints, k, r);
    r
}

// Looks for four ids at once, and leaves hints.
fn seek(keys: &Keys, at: usize, ids: &[i32; 4], hints: &mut [u32]) {
    let found = keys.each_from(ids);
    for j in 0..4 {
        keep(hints, hint_of(at, ids[j], hints.len()), found[j]);
    }
}

// Where an id stands among the keys of the block at a place.
fn find_key(keys: &Keys, at: usize, id: i32, hints: &mut [u32]) -> Option<usize>
    ensures { result ≡ place_of keys.now.bytes.now keys.now.n id }
{
    keys.place_at(id, first_key(keys, at, id, hints))
}

// The id behind key i of a block: a name's attribute, a link's effect.
fn id_at(catalogue: &[u8], b: Block, i: usize) -> i32
    requires { (b.at + 8 * b.n ≤ length catalogue.now) × (i < b.n) }
    ensures { result ≡ i32_at catalogue.now (b.at + 4 * b.n + 4 * i) }
{
    image::i32_at(catalogue, b.at + 4 * b.n + 4 * i)
}

// The volume of the type whose value begins at a place.
fn volume_at(catalogue: &[u8], at: usize) -> f64
    requires { at + 16 ≤ length catalogue.now }
    ensures { result ≡ cond (eqb (u32_at catalogue.now (at + 8)) 0) zero_f (f32_at catalogue.now (at + 12)) }
{
    let flag = image::u32_at(catalogue, at + 8);
    if flag == 0 {
        0.0
    } else {
        floats::f32_wide_at(catalogue, at + 12)
    }
}

// ---- what a catalogue says

// Whether the number at a place is an id.
fn is_id(catalogue: &[u8], at: usize, id: i32) -> bool
    requires { at + 4 ≤ length catalogue.now }
    ensures { result ≡ same (i32_at catalogue.now at) id }
{
    image::i32_at(catalogue, at) == id
}

// What an attribute starts at on the type of a span, in an image that is as long as its sizes say, accepted or not; a `Catalogue` asks
// through it.
pub fn base_value(catalogue: &[u8], span: Span, attribute: i32) -> Option<f64>
    requires catalogue_len { length catalogue.now ≡ size_of catalogue.now }
    requires from_le_to { (span.from ≤ span.to) × (span.to ≤ base_count catalogue.now) }
    ensures { result ≡ span_value catalogue.now span.from span.to attribute }
{
    let b = Blocks::new(catalogue).bases();
    let at = b.at + 4 * b.n;
    for i in span.from..span.to {
        if is_id(catalogue, at + 12 * i, attribute) {
            return Some(floats::f64_at(catalogue, at + 12 * i + 4));
        }
    }
    None
}

// A mark of a rack is 1 to 6, one of a hardpoint 7 or 8; mark m stands for slot m - 1.
fn with_mark(found: SlotMarks, mark: u8) -> SlotMarks
    ensures rack { result.rack ≡ in_rack found.rack mark }
    ensures hardpoint { result.hardpoint ≡ on_hardpoint found.hardpoint mark }
{
    match mark {
        marks::HI_POWER..=marks::SERVICE_SLOT => SlotMarks {
            rack: Some(mark - 1),
            ..found
        },
        marks::TURRET_FITTED..=marks::LAUNCHER_FITTED => SlotMarks {
            hardpoint: Some(mark - 1),
            ..found
        },
        _ => found,
    }
}

// The place behind the last of the keys from a place on that are an id.
fn run_end(catalogue: &[u8], b: Block, first: usize, id: i32) -> usize
    requires { (b.at + 4 * b.n ≤ length catalogue.now) × (first ≤ b.n) }
    ensures { Ends (λ k. i32_at catalogue.now (b.at + 4 * k)) b.n id first result }
{
    for i in first..b.n {
        if !is_id(catalogue, b.at + 4 * i, id) {
            return i;
        }
    }
    b.n
}

// A catalogue that is not refused: every rule reads it through this, and its bytes are known to be sound.
#[derive(Drop)]
pub struct Catalogue<'a> {
    blocks: Blocks<'a>,
}

impl<'a> Model for Catalogue<'a> {
    ghost use Rattle.std.specs.Prelude.{List, ℕ};
    ghost use Rattle.catalogue.specs.Sound.{Sound};

    ghost Value = { List ℕ };

    ghost view = { λ s. s.blocks };

    ghost invariant = { λ s. Sound s.blocks };
}

impl<'a> Catalogue<'a> {
    // Of bytes that `catalogue_refusals::check` passed.
    pub fn new(bytes: &'a [u8]) -> Self
        requires { Sound bytes.now }
        ensures { result ≡ bytes.now }
    {
        Catalogue {
            blocks: Blocks::new(bytes),
        }
    }

    // What every value of this type is: for a proof that asks for it.
    pub fn is_sound(&self)
        ensures { Sound self.now }
    {
        let _ = &self.blocks;
    }

    // Where its blocks are.
    pub fn blocks(&self) -> &Blocks<'a>
        ensures { result.now ≡ self.now }
    {
        &self.blocks
    }

    // The image itself, for who copies parts of it.
    pub fn bytes(&self) -> &'a [u8]
        ensures { (result.now ≡ self.now) × Sound self.now }
    {
        self.blocks.bytes()
    }

    // ---- the keys of each block: one function for all five would ask for the order of its block, which is what each knows

    fn name_keys(&self) -> Keys<'a>
        ensures { KeysOf self.now (names_at self.now) (name_count self.now) result }
    {
        let b = self.blocks.names();
        Keys::new(self.blocks.keys_of(b), b.n)
    }

    fn effect_keys(&self) -> Keys<'a>
        ensures { KeysOf self.now (effects_at self.now) (effect_count self.now) result }
    {
        let b = self.blocks.effects();
        Keys::new(self.blocks.keys_of(b), b.n)
    }

    pub fn type_keys(&self) -> Keys<'a>
        ensures { KeysOf self.now (types_at self.now) (type_count self.now) result }
    {
        let b = self.blocks.types();
        Keys::new(self.blocks.keys_of(b), b.n)
    }

    pub fn link_keys(&self) -> Keys<'a>
        ensures { KeysOf self.now (links_at self.now) (link_count self.now) result }
    {
        let b = self.blocks.links();
        Keys::new(self.blocks.keys_of(b), b.n)
    }

    pub fn base_keys(&self) -> Keys<'a>
        ensures { KeysOf self.now (bases_at self.now) (base_count self.now) result }
    {
        let b = self.blocks.bases();
        Keys::new(self.blocks.keys_of(b), b.n)
    }

    // ---- its records

    // The attribute of a name. Name numbers are at most 87, so that the order of the signed numbers is theirs; where all are there, each
    // stands at its own number.
    pub fn attribute_id(&self, name: u32) -> Option<i32>
        ensures { result ≡ name_id (catalogue_of self.now).names name }
    {
        let bytes = self.blocks.bytes();
        if names::REQUIRED_SKILL_6_LEVEL < name {
            return None;
        }
        let i = self.name_keys().place_near(name as i32, name as usize)?;
        Some(id_at(bytes, self.blocks.names(), i))
    }

    fn mark_at(&self, i: usize) -> u8
        requires { i < effect_count self.now }
        ensures { result ≡ (effect_at self.now i).mark }
    {
        let b = self.blocks.effects();
        image::u32_at(self.blocks.bytes(), b.at + 4 * b.n + 4 * i) as u8
    }

    // The mark of an effect.
    pub fn effect_mark(&self, id: i32, hints: &mut [u32]) -> Option<u8>
        ensures { result ≡ effect_mark (catalogue_of self.now) id }
    {
        let i = find_key(&self.effect_keys(), self.blocks.effects().at, id, hints)?;
        Some(self.mark_at(i))
    }

    fn type_at(&self, i: usize) -> TypeInfo
        requires { i < type_count self.now }
        ensures { result ≡ info_of_type (type_at self.now i) }
    {
        let bytes = self.blocks.bytes();
        let b = self.blocks.types();
        let at = b.at + 4 * b.n + 16 * i;
        TypeInfo {
            group: image::i32_at(bytes, at),
            category: image::i32_at(bytes, at + 4),
            volume: volume_at(bytes, at),
        }
    }

    // Looks for four types at once, and leaves hints for `type_of`.
    pub fn seek_types(&self, ids: &[i32; 4], hints: &mut [u32]) {
        seek(&self.type_keys(), self.blocks.types().at, ids, hints);
    }

    // What a type is, given how many types are under its id.
    fn type_found(&self, id: i32, at: usize) -> Option<TypeInfo>
        requires { let keys = take (4 * type_count self.now) (drop (types_at self.now) self.now) in
            Parts keys (type_count self.now) id at }
        ensures { result ≡ given (type_of (catalogue_of self.now) id) None (λ x. Some (info_of_type x)) }
    {
        let i = self.type_keys().place_at(id, at)?;
        Some(self.type_at(i))
    }

    // `get_type` of four types, looked for at once.
    pub fn four_types(&self, ids: &[i32; 4]) -> [Option<TypeInfo>; 4]
        ensures { let c = catalogue_of self.now in
            (j : ℕ) → j < 4 →
            slice_index_or result j None ≡ given (type_of c (slice_index_or ids.now j (pos 0))) None (λ x. Some (info_of_type x)) }
    {
        let found = self.type_keys().each_from(ids);
        let mut answers = [None; 4];
        for j in 0..4 {
            answers[j] = self.type_found(ids[j], found[j]);
        }
        answers
    }

    // `get_type`: what a type is. `hints` are any numbers: where ids stood that were looked for before with the same catalogue.
    pub fn type_of(&self, id: i32, hints: &mut [u32]) -> Option<TypeInfo>
        ensures { result ≡ given (type_of (catalogue_of self.now) id) None (λ x. Some (info_of_type x)) }
    {
        let at = first_key(&self.type_keys(), self.blocks.types().at, id, hints);
        self.type_found(id, at)
    }

    fn with_link(&self, found: SlotMarks, i: usize, hints: &mut [u32]) -> SlotMarks
        requires { i < link_count self.now }
        ensures rack { let ms = link_marks (catalogue_of self.now) (link_at self.now i) in
            result.rack ≡ foldl in_rack found.rack ms }
        ensures hardpoint { let ms = link_marks (catalogue_of self.now) (link_at self.now i) in
            result.hardpoint ≡ foldl on_hardpoint found.hardpoint ms }
    {
        let effect = id_at(self.blocks.bytes(), self.blocks.links(), i);
        match self.effect_mark(effect, hints) {
            Some(mark) => with_mark(found, mark),
            None => found,
        }
    }

    // Looks for the links of four types at once, and leaves hints for `slots_of`.
    pub fn seek_links(&self, ids: &[i32; 4], hints: &mut [u32]) {
        seek(&self.link_keys(), self.blocks.links().at, ids, hints);
    }

    // The slot effects EVE marks an item with, in the order of its links. `hints` as in `type_of`.
    pub fn slots_of(&self, id: i32, hints: &mut [u32]) -> SlotMarks
        ensures rack { result.rack ≡ rack_of (catalogue_of self.now) id }
        ensures hardpoint { result.hardpoint ≡ hardpoint_of (catalogue_of self.now) id }
    {
        let b = self.blocks.links();
        let mut found = SlotMarks {
            rack: None,
            hardpoint: None,
        };
        for i in first_key(&self.link_keys(), b.at, id, hints)..b.n {
            if !is_id(self.blocks.bytes(), b.at + 4 * i, id) {
                return found;
            }
            found = self.with_link(found, i, hints);
        }
        found
    }

    // The place behind the last record of a block that is under the id of the one at a place.
    pub fn run_end(&self, b: Block, first: usize) -> usize
        requires { (b.at + 4 * b.n ≤ length self.now) × (first < b.n) }
        ensures { let id = i32_at self.now (b.at + 4 * first) in
            Ends (λ k. i32_at self.now (b.at + 4 * k)) b.n id first result }
    {
        let bytes = self.blocks.bytes();
        run_end(bytes, b, first, image::i32_at(bytes, b.at + 4 * first))
    }

    // Where the bases of a type stand. A guess where they begin saves the search if it is right, and any may be given.
    pub fn bases_of(&self, id: i32, guess: usize) -> Span
        ensures { SpanOf self.now id result }
    {
        let b = self.blocks.bases();
        let from = self.base_keys().first_near(id, guess);
        Span {
            from,
            to: run_end(self.blocks.bytes(), b, from, id),
        }
    }

    // What an attribute starts at on the type of a span.
    pub fn base_value(&self, span: Span, attribute: i32) -> Option<f64>
        requires { (span.from ≤ span.to) × (span.to ≤ base_count self.now) }
        ensures { result ≡ span_value self.now span.from span.to attribute }
    {
        base_value(self.blocks.bytes(), span, attribute)
    }
}
