//! The designations of a data block (RFC 8536 section 3.2), in which types with the same name, or
//! with names of which one ends the other, share bytes.

ghost use Rattle.std.specs.Prelude.{◌≡◌, ◌<◌, ◌≤◌, ◌+◌, ◌++◌, [], length, All, List, MatchOption, Some, ℕ};
ghost use Rattle.{
  tz_base.specs.Names.{IsNameOrNone},
  tz_write.specs.FileDesignations.{name_of, AreNamesIn, AreShortest},
  tz_write.specs.Steps.LaidNames.{are_placed, before_last, begins, has_place, have_places, laid, laid_names, place_of, placed_otherwise},
  tz_write.specs.Steps.LaidNames.{placed_with, text_at, with_text, with_text_of, with_texts, HavePlaces},
};

use std::marker::Model;
use tz_info::LocalTimeType;

// The last text begins at 255 at most, and has seven bytes and a 0 byte.
const ROOM: usize = 263;

/// Designations, made in place.
#[derive(Drop)]
pub struct Designations {
    bytes: [u8; 263],
    len: usize,
}

impl Model for Designations {
    ghost use Rattle.std.specs.Prelude.{List, ℕ, take, ◌≤◌};

    ghost Value = { List ℕ };

    ghost view = { λ designations. take designations.len designations.bytes };

    ghost invariant = { λ designations. designations.len ≤ 263 };
}

impl Designations {
    fn new() -> Designations
        ensures { result ≡ [] }
    {
        Designations {
            bytes: [0; 263],
            len: 0,
        }
    }

    /// The bytes.
    pub fn as_slice(&self) -> &[u8]
        ensures bytes { result.now ≡ self.now }
        ensures room { length self.now ≤ 263 }
    {
        &self.bytes[..self.len]
    }

    fn push_all(&mut self, text: &[u8])
        requires { length self.old + length text.now ≤ 263 }
        ensures { self.new ≡ self.old ++ text.now }
    {
        let end = self.len + text.len();
        self.bytes[self.len..end].copy_from_slice(text);
        self.len = end;
    }
}

/// The name of a type, or nothing if it has none.
pub fn name_of(local: &LocalTimeType) -> &[u8]
    ensures text { result.now ≡ name_of local.now }
    ensures sound { IsNameOrNone local.now.name }
{
    match local.name() {
        Some(name) => name.as_bytes(),
        None => &[],
    }
}

#[tactic(auto, unfolding(crate::specs::Steps::LaidNames::begins))]
fn begins(text: &[u8], bytes: &[u8]) -> bool
    ensures { result ≡ begins text.now bytes.now }
{
    bytes.starts_with(text) && text.len() < bytes.len() && bytes[text.len()] == 0
}

/// Returns the first place of the text, or the end.
#[tactic(auto, using(crate::proofs::LaidNames::next_place))]
pub fn place_of(text: &[u8], designations: &[u8]) -> usize
    ensures { result ≡ place_of text.now designations.now }
{
    for place in 0..designations.len() {
        if begins(text, designations.split_at(place).1) {
            return place;
        }
    }
    designations.len()
}

// The text at that place.
fn text_at(designations: &[u8], place: usize) -> &[u8]
    requires { place ≤ length designations.now }
    ensures { result.now ≡ text_at designations.now place }
{
    let rest = designations.split_at(place).1;
    for end in 0..rest.len() {
        if rest[end] == 0 {
            return rest.split_at(end).0;
        }
    }
    rest
}

#[tactic(auto, unfolding(crate::specs::Steps::LaidNames::with_text))]
fn push_text(designations: &mut Designations, text: &[u8])
    ensures { designations.new ≡ with_text designations.old text.now }
{
    let end = designations.as_slice().len();
    if place_of(text, designations.as_slice()) < end || end + text.len() >= ROOM {
        return;
    }
    designations.push_all(text);
    designations.push_all(&[0]);
}

fn push_text_of(designations: &mut Designations, last: &[u8], local: &LocalTimeType, size: usize)
    ensures put { designations.new ≡ with_text_of last.now size designations.old local.now }
    ensures sound { IsNameOrNone local.now.name }
{
    let text = name_of(local);
    if text.len() == size && !last.ends_with(text) {
        push_text(designations, text);
    }
}

#[tactic(auto, using(std::proofs::lemmas::Grind::elements, std::proofs::lemmas::List::Sums::fold_more), unfolding(crate::specs::Steps::LaidNames::with_texts))]
fn push_texts(designations: &mut Designations, last: &[u8], types: &[LocalTimeType], size: usize)
    ensures put { designations.new ≡ with_texts last.now size designations.old types.now }
    ensures sound { All (λ t. IsNameOrNone t.name) types.now }
{
    for local in types {
        push_text_of(designations, last, local, size);
    }
}

// The names of the types, each followed by a 0 byte, the longest first; but that text is the last.
#[tactic(auto, unfolding(crate::specs::Steps::LaidNames::laid, crate::specs::Steps::LaidNames::before_last))]
fn laid(types: &[LocalTimeType], last: &[u8]) -> Designations
    ensures laid { result ≡ laid last.now types.now }
    ensures sound { All (λ t. IsNameOrNone t.name) types.now }
{
    let mut designations = Designations::new();
    push_texts(&mut designations, last, types, 7);
    push_texts(&mut designations, last, types, 6);
    push_texts(&mut designations, last, types, 5);
    push_texts(&mut designations, last, types, 4);
    push_texts(&mut designations, last, types, 3);
    push_text(&mut designations, last);
    designations
}

fn has_place(designations: &[u8], local: &LocalTimeType) -> bool
    ensures { result ≡ has_place designations.now local.now }
{
    let place = place_of(name_of(local), designations);
    place < designations.len() && place < 256
}

/// Returns whether the text of each type is in the designations, at a place that a byte can name.
pub fn have_places(designations: &[u8], types: &[LocalTimeType]) -> bool
    ensures places { result ≡ have_places designations.now types.now }
{
    types.iter().all(|local| has_place(designations, local))
}

// Whether each type has its place, and no more bytes are laid than in order.
#[tactic(auto, unfolding(crate::specs::Steps::LaidNames::are_placed))]
fn are_placed(designations: &[u8], types: &[LocalTimeType], most: usize) -> bool
    requires { most ≡ length (laid [] types.now) }
    ensures { result ≡ are_placed designations.now types.now }
{
    designations.len() <= most && have_places(designations, types)
}

// The names with the one at that place of those in order as the last. Names have three bytes.
#[tactic(auto, unfolding(crate::specs::Steps::LaidNames::placed_with))]
fn laid_from(types: &[LocalTimeType], in_order: &[u8], place: usize) -> Option<Designations>
    requires order { in_order.now ≡ laid [] types.now }
    requires place { place ≤ length in_order.now }
    ensures { result ≡ placed_with types.now (text_at in_order.now place) }
{
    let last = text_at(in_order, place);
    if last.len() < 3 {
        return None;
    }
    let designations = laid(types, last);
    if !are_placed(designations.as_slice(), types, in_order.len()) {
        return None;
    }
    Some(designations)
}

// With another name as the last: in order the last one, or a text that ends it, begins past byte
// 255.
#[tactic(auto, using(crate::proofs::LaidNames::next_text))]
fn laid_otherwise(types: &[LocalTimeType], in_order: &[u8]) -> Option<Designations>
    requires { in_order.now ≡ laid [] types.now }
    ensures { result ≡ placed_otherwise types.now in_order.now }
{
    for place in 0..in_order.len() {
        if let Some(designations) = laid_from(types, in_order, place) {
            return Some(designations);
        }
    }
    None
}

/// The designations of the types, if any has them at places that a byte can name.
#[tactic(auto, unfolding(crate::specs::Steps::LaidNames::laid_names))]
pub fn designations_of(types: &[LocalTimeType]) -> Option<Designations>
    ensures laid { result ≡ laid_names types.now }
    ensures sound { All (λ t. IsNameOrNone t.name) types.now }
{
    let in_order = laid(types, &[]);
    if have_places(in_order.as_slice(), types) {
        return Some(in_order);
    }
    laid_otherwise(types, in_order.as_slice())
}
