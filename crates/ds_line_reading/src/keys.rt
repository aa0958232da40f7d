//! Keys: arrays of pairs, in the default namespace.
ghost use Rattle.std.specs.Prelude.{◌≡◌, [], Some, Ok, false, IfSome};
ghost use Rattle.serde_json.specs.Data.{Data};
ghost use Rattle.json.specs.Reads.{token_of};
ghost use Rattle.ds_json_reading.specs.Keys.{ident_of, elem_of, lawful_key, key_of, entity_key_of};
ghost use Rattle.ds_line_reading.specs.Parts.{IsRead, data_of};

use crate::form::LineForm;
use crate::lists::read_list;
use crate::scalars::{copied, natural, take_text};
use ds_base::{Elem, Elems, Ident, Key, TextString};
use json::{Reader, Token};
use std::alloc::Global;

/// A key. Reserved kinds and names are allowed.
#[derive(Drop)]
pub struct LineKeyForm;

impl LineForm for LineKeyForm {
    type Item = Key;

    ghost reads = { λ _. key_of };

    fn read(&self, alloc: Global, reader: &mut Reader<'_>, depth: usize) -> Option<Key> {
        let path = read_list(alloc, &ElemForm, reader, depth)?;
        lawful(alloc, path)
    }
}

/// Reads the key of an entity, of which no kind and no name is reserved, and whose last identifier isn't left open.
pub fn read_entity_path(alloc: Global, reader: &mut Reader<'_>, depth: usize) -> Option<Key>
    ensures { IfSome result (λ k. IsRead depth entity_key_of reader.old (k, false) reader.new) }
{
    let path = read_list(alloc, &ElemForm, reader, depth)?;
    let key = lawful(alloc, path)?;
    if !key.writable() {
        return None;
    }
    Some(key)
}

fn lawful(alloc: Global, path: Elems) -> Option<Key>
    ensures { IfSome result (λ k. lawful_key [] path ≡ Ok k) }
{
    match Key::within(TextString::new(alloc), path) {
        Ok(key) => Some(key),
        Err(_) => None,
    }
}

/// An element of a path: a kind and an identifier.
#[derive(Drop)]
struct ElemForm;

impl LineForm for ElemForm {
    type Item = Elem;

    ghost reads = { λ _. elem_of };

    fn read(&self, alloc: Global, reader: &mut Reader<'_>, depth: usize) -> Option<Elem> {
        if depth == 0 {
            return None;
        }
        let Some(Token::BeginArray) = reader.next() else {
            return None;
        };
        let kind = take_text(reader)?;
        let ident = reader.next()?;
        if !reader.take_end_array() {
            return None;
        }
        let ident = ident_of(alloc, ident)?;
        elem(alloc, kind, ident)
    }
}

fn elem(alloc: Global, kind: &str, ident: Ident) -> Option<Elem>
    ensures { IfSome result (λ e. e ≡ record { kind = kind.now; ident = ident }) }
{
    match TextString::of(alloc, kind) {
        Ok(kind) => Some(Elem { kind, ident }),
        Err(_) => None,
    }
}

/// The identifier of a token: an integer or a text.
fn ident_of(alloc: Global, token: Token<'_>) -> Option<Ident>
    ensures { IfSome result (λ i. (d : Data) × (data_of (token_of token.entry) ≡ Some d) × (ident_of d ≡ Ok i)) }
{
    match token {
        Token::Number(text) => match natural(text) {
            Some(id) => Some(Ident::Id(id)),
            None => None,
        },
        Token::String(name) => match copied(alloc, name) {
            Some(name) => Some(Ident::Name(name)),
            None => None,
        },
        _ => None,
    }
}
