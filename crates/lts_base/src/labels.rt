//! The alphabet of a run: the labels of all its files, by number.
ghost use Rattle.std.specs.Prelude.{◌≡◌, ℕ, ◌<◌, ◌≤◌, length, Contains, MatchOption};
ghost use Rattle.lts_base.specs.Alphabet.{IsAlphabet, AreRising, text_at};
ghost use Rattle.lts_base.specs.Numbering.{item_at};

use crate::item::Item;
use crate::list::Text;
use std::marker::Model;

/// Distinct labels, the inputs first and the outputs after them, each part in the order of its
/// bytes. `split` alone makes one.
#[derive(Drop, Debug)]
pub struct Labels {
    texts: Vec<Text>,
    inputs: u32,
}

impl Model for Labels {
    ghost use Rattle.lts_base.specs.Alphabet.{Alphabet, IsAlphabet};

    ghost Value = { Alphabet };

    ghost view = { λ a. record { texts = a.texts.items; inputs = a.inputs } };

    ghost invariant = { λ a. IsAlphabet (record { texts = a.texts.items; inputs = a.inputs }) };
}

impl Labels {
    pub(crate) fn from_parts(texts: Vec<Text>, inputs: u32) -> Labels
        requires { IsAlphabet (record { texts = texts.items; inputs = inputs }) }
        ensures { result ≡ record { texts = texts.items; inputs = inputs } }
    {
        Labels { texts, inputs }
    }

    /// How many labels there are, at most 1,024.
    pub fn count(&self) -> u32
        ensures count { result ≡ length self.now.texts }
        ensures alphabet { IsAlphabet self.now }
    {
        self.texts.len() as u32
    }

    /// How many of the labels are inputs.
    pub fn inputs(&self) -> u32
        ensures inputs { result ≡ self.now.inputs }
        ensures alphabet { IsAlphabet self.now }
    {
        self.inputs
    }

    /// The number of a text, None exactly where it is no label.
    pub fn find(&self, text: &[u8]) -> Option<u32>
        ensures { MatchOption result (Contains self.now.texts text.now → ⊥) (λ k. (k < length self.now.texts) × (text_at self.now.texts k ≡ text.now)) }
    {
        let inputs = self.inputs as usize;
        if let Some(place) = place_of(&self.texts[..inputs], text) {
            return Some(place as u32);
        }
        match place_of(&self.texts[inputs..], text) {
            Some(place) => Some((inputs + place) as u32),
            None => None,
        }
    }

    /// The text of a label, its mark included.
    pub fn text(&self, label: u32) -> &[u8]
        requires { label < length self.now.texts }
        ensures { result.now ≡ text_at self.now.texts label }
    {
        self.texts[label as usize].as_slice()
    }

    /// The label as an item.
    pub fn item(&self, label: u32) -> Item
        requires { label < length self.now.texts }
        ensures { result ≡ item_at self.now.inputs label }
    {
        if label < self.inputs {
            Item::Input(label)
        } else {
            Item::Output(label)
        }
    }
}

/// The place of the text among texts that stand in the order of their bytes.
fn place_of(texts: &[Text], text: &[u8]) -> Option<usize>
    requires { AreRising texts.now }
    ensures { MatchOption result (Contains texts.now text.now → ⊥) (λ k. (k < length texts.now) × (text_at texts.now k ≡ text.now)) }
{
    match texts.binary_search_by(|t| t.as_slice().cmp(text)) {
        Ok(place) => Some(place),
        Err(_) => None,
    }
}
