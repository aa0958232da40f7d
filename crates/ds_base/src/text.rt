//! Byte strings and texts.
ghost use Rattle.std.specs.Prelude.{◌≡◌, ◌↔◌, IsTrue, [], refl, IsUtf8, ◌++◌, OnOk, OnErr, IfOk, List, ℕ, nat_eq, fold, Some};
ghost use Rattle.std.specs.String.{string_bytes};
ghost use Rattle.std.specs.Cmp.Lexicographic.{slice_cmp, pointwise, nat_list_cmp_total, nat_list_eq_equiv, texts_ties, texts_po};
ghost use Rattle.std.specs.Cmp.Lexicographic.{bytes_decides};
ghost use Rattle.std.specs.Cmp.{partial_equiv_from_equiv};
ghost use Rattle.std.specs.Ordering.{nat_cmp};
ghost use Rattle.std.specs.Hash as fed;

use crate::sequence::TryCopy;
use std::alloc::{AllocError, Global};
use std::cmp::Ordering;
use std::hash::{Hash, Hasher};
use std::marker::Model;

/// A list of bytes.
#[derive(Drop)]
pub struct ByteString {
    bytes: Vec<u8>,
}

impl Model for ByteString {
    ghost Value = { List ℕ };

    ghost view = { λ b. b.bytes.items };
}

impl ByteString {
    /// A copy of `bytes`.
    pub fn of(alloc: Global, bytes: &[u8]) -> Result<ByteString, AllocError>
        ensures { IfOk result (λ b. b ≡ bytes.now) }
    {
        Ok(ByteString {
            bytes: Vec::from_slice(alloc, bytes)?,
        })
    }

    /// The empty byte string. It takes no memory.
    pub fn new(alloc: Global) -> ByteString
        ensures { result ≡ [] }
    {
        ByteString {
            bytes: Vec::new(alloc),
        }
    }

    /// The byte string of these bytes, moved in.
    pub fn from_vec(bytes: Vec<u8>) -> ByteString
        ensures { result ≡ bytes.items }
    {
        ByteString { bytes }
    }

    /// The bytes, moved out.
    pub fn into_vec(self) -> Vec<u8>
        ensures { result.items ≡ self }
    {
        self.bytes
    }

    /// The bytes.
    pub fn bytes(&self) -> &[u8]
        ensures { result.now ≡ self.now }
    {
        self.bytes.as_slice()
    }

    /// Puts the bytes of `piece` at the end. A refusal changes nothing.
    pub fn append(&mut self, piece: &[u8]) -> Result<(), AllocError>
        ensures ok { OnOk result (self.new ≡ self.old ++ piece.now) }
        ensures err { OnErr result (self.new ≡ self.old) }
    {
        self.bytes.extend_from_slice(piece)
    }
}

/// A text: bytes that are UTF-8.
#[derive(Drop)]
pub struct TextString {
    text: String,
}

impl Model for TextString {
    ghost Value = { List ℕ };

    ghost view = { λ t. string_bytes t.text };
}

impl TextString {
    /// A copy of `text`.
    pub fn of(alloc: Global, text: &str) -> Result<TextString, AllocError>
        ensures { IfOk result (λ t. t ≡ text.now) }
    {
        Ok(TextString {
            text: String::from_str(alloc, text)?,
        })
    }

    /// The empty text. It takes no memory.
    pub fn new(alloc: Global) -> TextString
        ensures { result ≡ [] }
    {
        TextString {
            text: String::new(alloc),
        }
    }

    /// The text of this string, moved in.
    pub fn from_string(text: String) -> TextString
        ensures { result ≡ string_bytes text }
    {
        TextString { text }
    }

    /// The text.
    pub fn text(&self) -> &str
        ensures { result.now ≡ self.now }
    {
        self.text.as_str()
    }

    /// The bytes of the text, which are UTF-8.
    pub fn bytes(&self) -> &[u8]
        ensures value { result.now ≡ self.now }
        ensures utf8 { IsUtf8 result.now }
    {
        self.text.as_str().as_bytes()
    }
}

impl TryCopy for ByteString {
    fn copy(&self, alloc: Global) -> Result<ByteString, AllocError> {
        ByteString::of(alloc, self.bytes())
    }
}

impl TryCopy for TextString {
    fn copy(&self, alloc: Global) -> Result<TextString, AllocError> {
        TextString::of(alloc, self.text())
    }
}

impl PartialEq for TextString {
    ghost eq = { pointwise nat_eq };

    ghost laws = { partial_equiv_from_equiv nat_list_eq_equiv };

    fn eq(&self, other: &TextString) -> bool
        ensures value { result ≡ pointwise nat_eq self.now other.now }
        ensures same { IsTrue result ↔ (self.now ≡ other.now) }
    {
        self.text() == other.text()
    }
}

impl Eq for TextString {
    ghost laws = { nat_list_eq_equiv };
}

impl PartialOrd for TextString {
    ghost partial_cmp = { λ a b. Some (slice_cmp nat_cmp a b) };

    ghost laws = { texts_po };

    fn partial_cmp(&self, other: &TextString) -> Option<Ordering> {
        Some(self.cmp(other))
    }
}

impl Ord for TextString {
    ghost cmp = { slice_cmp nat_cmp };

    ghost total = { nat_list_cmp_total };

    ghost matches_partial_cmp = { λ x y. refl };

    ghost matches_eq = { texts_ties };

    fn cmp(&self, other: &TextString) -> Ordering
        ensures { result ≡ slice_cmp nat_cmp self.now other.now }
    {
        self.text().cmp(other.text())
    }
}

impl Hash for TextString {
    ghost hash_input = { fed.str };

    ghost respects_eq = { (fed.same_Alike fed.str bytes_decides).fed };

    /// Feeds the bytes, and then a byte that no text has.
    fn hash<H: Hasher>(&self, state: &mut H)
        ensures { state.new ≡ fold H.write state.old (fed.str self.now) }
    {
        self.text().hash(state);
    }
}

impl PartialEq for ByteString {
    ghost eq = { pointwise nat_eq };

    ghost laws = { partial_equiv_from_equiv nat_list_eq_equiv };

    fn eq(&self, other: &ByteString) -> bool
        ensures value { result ≡ pointwise nat_eq self.now other.now }
        ensures same { IsTrue result ↔ (self.now ≡ other.now) }
    {
        self.bytes() == other.bytes()
    }
}

impl Eq for ByteString {
    ghost laws = { nat_list_eq_equiv };
}

impl PartialOrd for ByteString {
    ghost partial_cmp = { λ a b. Some (slice_cmp nat_cmp a b) };

    ghost laws = { texts_po };

    fn partial_cmp(&self, other: &ByteString) -> Option<Ordering> {
        Some(self.cmp(other))
    }
}

impl Ord for ByteString {
    ghost cmp = { slice_cmp nat_cmp };

    ghost total = { nat_list_cmp_total };

    ghost matches_partial_cmp = { λ x y. refl };

    ghost matches_eq = { texts_ties };

    fn cmp(&self, other: &ByteString) -> Ordering
        ensures { result ≡ slice_cmp nat_cmp self.now other.now }
    {
        self.bytes().cmp(other.bytes())
    }
}
