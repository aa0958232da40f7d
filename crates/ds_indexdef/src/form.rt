//! What a line of an index file says.
ghost use Rattle.std.specs.Prelude.{◌≡◌, IfOk, nat_eq, option_map, bytes_eq, MatchOption, true, false};
ghost use Rattle.std.specs.List.{list_all, starts_with};
ghost use Rattle.std.specs.Str.{is_utf8};
ghost use Rattle.ds_indexdef.specs.Forms.{is_name_byte, is_plain, is_kind, is_property, spaced, behind};
ghost use Rattle.ds_indexdef.specs.Forms.{ancestor_form, direction_form, kind_form, name_form, item_form};
ghost use Rattle.ds_indexdef.specs.Forms.{dash_form, choice_form, form_of_cut, form_of};

use crate::lines::{cut, without_blanks};
use ds_base::{KEY_NAME, TextString, is_name, is_reserved};
use std::alloc::{AllocError, Global};

/// What a line says.
#[derive(Drop)]
pub(crate) enum Form {
    /// Nothing, but perhaps a comment.
    Blank,
    /// `indexes:`.
    Indexes,
    /// `- kind: NAME`.
    Kind(TextString),
    /// `ancestor: yes` or `ancestor: no`.
    Ancestor(bool),
    /// `properties:`.
    Properties,
    /// `- name: NAME`.
    Name(TextString),
    /// `direction: desc` or `direction: asc`; whether it is the former.
    Direction(bool),
    /// Nothing that stands in the grammar.
    Wrong,
}

/// What the line says. `Err` means out of memory for a name.
#[tactic(auto, unfolding(crate::specs::Forms::form_of))]
pub(crate) fn read_form(alloc: Global, line: &[u8]) -> Result<Form, AllocError>
    ensures { IfOk result (λ form. form ≡ form_of line.now) }
{
    match text_of(line) {
        Some(_) => cut_form(alloc, cut(line)),
        None => Ok(Form::Wrong),
    }
}

// What a line says whose comment and outer blanks are cut.
fn cut_form(alloc: Global, line: &[u8]) -> Result<Form, AllocError>
    ensures { IfOk result (λ form. form ≡ form_of_cut line.now) }
{
    if is(b"", line) {
        Ok(Form::Blank)
    } else if is(b"indexes:", line) {
        Ok(Form::Indexes)
    } else if is(b"properties:", line) {
        Ok(Form::Properties)
    } else {
        choice_form(alloc, line)
    }
}

fn choice_form(alloc: Global, line: &[u8]) -> Result<Form, AllocError>
    ensures { IfOk result (λ form. form ≡ choice_form line.now) }
{
    if let Some(word) = behind(b"ancestor:", line) {
        return Ok(ancestor_form(word));
    }
    match behind(b"direction:", line) {
        Some(word) => Ok(direction_form(word)),
        None => dash_form(alloc, line),
    }
}

fn dash_form(alloc: Global, line: &[u8]) -> Result<Form, AllocError>
    ensures { IfOk result (λ form. form ≡ dash_form line.now) }
{
    match behind(b"-", line) {
        Some(rest) => item_form(alloc, rest),
        None => Ok(Form::Wrong),
    }
}

fn ancestor_form(word: &[u8]) -> Form
    ensures { result ≡ ancestor_form word.now }
{
    if is(b"yes", word) {
        Form::Ancestor(true)
    } else if is(b"no", word) {
        Form::Ancestor(false)
    } else {
        Form::Wrong
    }
}

fn direction_form(word: &[u8]) -> Form
    ensures { result ≡ direction_form word.now }
{
    if is(b"desc", word) {
        Form::Direction(true)
    } else if is(b"asc", word) {
        Form::Direction(false)
    } else {
        Form::Wrong
    }
}

// What a line says that begins with `-`, by what follows that.
fn item_form(alloc: Global, rest: &[u8]) -> Result<Form, AllocError>
    ensures { IfOk result (λ form. form ≡ item_form rest.now) }
{
    if let Some(name) = behind(b"kind:", rest) {
        return kind_form(alloc, name);
    }
    match behind(b"name:", rest) {
        Some(name) => name_form(alloc, name),
        None => Ok(Form::Wrong),
    }
}

fn kind_form(alloc: Global, name: &[u8]) -> Result<Form, AllocError>
    ensures { IfOk result (λ form. form ≡ kind_form name.now) }
{
    match text_of(name) {
        Some(text) => {
            if is_kind(text) {
                Ok(Form::Kind(TextString::of(alloc, text)?))
            } else {
                Ok(Form::Wrong)
            }
        }
        None => Ok(Form::Wrong),
    }
}

fn name_form(alloc: Global, name: &[u8]) -> Result<Form, AllocError>
    ensures { IfOk result (λ form. form ≡ name_form name.now) }
{
    match text_of(name) {
        Some(text) => {
            if is_property(text) {
                Ok(Form::Name(TextString::of(alloc, text)?))
            } else {
                Ok(Form::Wrong)
            }
        }
        None => Ok(Form::Wrong),
    }
}

// What follows a word and one or more spaces or tabs, where the line begins with these.
fn behind<'a>(word: &[u8], line: &'a [u8]) -> Option<&'a [u8]>
    ensures { option_map (λ rest. rest.now) result ≡ behind word.now line.now }
{
    if line.starts_with(word) {
        spaced(&line[word.len()..])
    } else {
        None
    }
}

// What follows one or more spaces or tabs.
fn spaced(text: &[u8]) -> Option<&[u8]>
    ensures { option_map (λ rest. rest.now) result ≡ spaced text.now }
{
    match text {
        [b' ' | b'\t', rest @ ..] => Some(without_blanks(rest)),
        _ => None,
    }
}

fn is(word: &[u8], text: &[u8]) -> bool
    ensures { result ≡ bytes_eq text.now word.now }
{
    text == word
}

// The bytes as a text; `None` exactly where they aren't UTF-8.
fn text_of(bytes: &[u8]) -> Option<&str>
    ensures { MatchOption result (is_utf8 bytes.now ≡ false) (λ text. (text.now ≡ bytes.now) × (is_utf8 bytes.now ≡ true)) }
{
    match std::str::from_utf8(bytes) {
        Ok(text) => Some(text),
        Err(_) => None,
    }
}

/// Whether the text may be the name of a kind: 1 to 1,500 bytes without space, tab, newline, carriage return, quote or `#`,
/// and not reserved.
pub(crate) fn is_kind(name: &str) -> bool
    ensures { result ≡ is_kind name.now }
{
    is_plain(name) && !is_reserved(name.as_bytes())
}

/// Whether the text may be the name of a property, which is as that of a kind, or `__key__`.
pub(crate) fn is_property(name: &str) -> bool
    ensures { result ≡ is_property name.now }
{
    is_plain(name) && (!is_reserved(name.as_bytes()) || name == KEY_NAME)
}

fn is_plain(name: &str) -> bool
    ensures { result ≡ is_plain name.now }
{
    is_name(name.as_bytes()) && has_name_bytes(name.as_bytes())
}

fn has_name_bytes(name: &[u8]) -> bool
    ensures { result ≡ list_all is_name_byte name.now }
{
    name.iter().all(|b| is_name_byte(*b))
}

fn is_name_byte(b: u8) -> bool
    ensures { result ≡ is_name_byte b }
{
    !matches!(b, b' ' | b'\t' | b'\n' | b'\r' | b'"' | b'\'' | b'#')
}
