//! Values, as literals or as bindings.
ghost use Rattle.std.specs.Prelude.{◌≡◌, ◌+◌, [], ◌∷◌, length, true, false};
ghost use Rattle.std.specs.List.{list_all};
ghost use Rattle.ds_base.specs.Keys.{is_elem, is_ident};
ghost use Rattle.ds_base.specs.declared.value.Value.TheVariants as value;
ghost use Rattle.ds_tokens.specs.Pieces.{fixed, numbered};
ghost use Rattle.ds_gql_printing.specs.Printers.{Puts, is_lawful};
ghost use Rattle.ds_gql_printing.specs.Printing.{is_default, key_operand, operand_of, operands_of, truth, has_literal};
ghost use Rattle.ds_gql.specs.Sentences.{comma, others, led_by, ident_piece, elem_pieces, key_pieces, operand_pieces};
ghost use Rattle.ds_tokens.specs.declared.token.Mark.TheVariants as mark;

use crate::printer::Printer;
use ds_base::{Elem, Ident, Key, TryCopy, Value};
use ds_tokens::Mark;
use std::alloc::Global;

impl Printer {
    /// A value: a literal, or a binding where the language has none for it.
    pub(super) fn put_value(&mut self, alloc: Global, value: &Value)
        ensures { Puts (operand_pieces (operand_of (length self.old.args) value.now)) (value.now ∷ []) self.old self.new }
    {
        match value {
            Value::Null => self.put_mark(Mark::Null),
            Value::Int(n) => self.put_integer(*n),
            Value::Bool(b) => self.put_truth(*b),
            Value::Str(text) => self.put_string(text.text()),
            Value::Key(key) => self.put_key(alloc, key),
            Value::Date(_) | Value::Rating(_) | Value::Bytes(_) | Value::Text(_) | Value::Blob(_) =>
                self.put_copy(alloc, value),
        }
    }

    /// Further values, each behind a comma.
    pub(super) fn put_further_values(&mut self, alloc: Global, values: &[Value])
        ensures { Puts (others comma operand_pieces (operands_of (length self.old.args) values.now)) values.now self.old self.new }
    {
        for value in values {
            self.put_mark(Mark::Comma);
            self.put_value(alloc, value);
        }
    }

    fn put_truth(&mut self, holds: bool)
        ensures { Puts (truth holds ∷ []) [] self.old self.new }
    {
        if holds {
            self.put_mark(Mark::True);
        } else {
            self.put_mark(Mark::False);
        }
    }

    /// The next binding, which stands for a copy of this value.
    fn put_copy(&mut self, alloc: Global, value: &Value)
        requires bound { has_literal value.now ≡ false }
        requires lawful { is_lawful value.now ≡ true }
        ensures { Puts (numbered (length self.old.args + 1) ∷ []) (value.now ∷ []) self.old self.new }
    {
        match value.copy(alloc) {
            Ok(copy) => self.put_argument(copy),
            Err(_) => self.refused = true,
        }
    }

    /// A key: KEY with its path where it has the default namespace, else a binding.
    pub(super) fn put_key(&mut self, alloc: Global, key: &Key)
        ensures { Puts (operand_pieces (key_operand (length self.old.args) key.now)) (value.Key key.now ∷ []) self.old self.new }
    {
        if is_default(key.namespace().bytes()) {
            self.put_path(key.elems().as_slice());
        } else {
            match key.copy(alloc) {
                Ok(copy) => self.put_argument(Value::Key(copy)),
                Err(_) => self.refused = true,
            }
        }
    }

    /// A key literal of this path.
    fn put_path(&mut self, path: &[Elem])
        requires { list_all is_elem path.now ≡ true }
        ensures { Puts (key_pieces path.now) [] self.old self.new }
    {
        self.put_elems(path);
        self.put_mark(Mark::Close);
    }

    fn put_elems(&mut self, path: &[Elem])
        requires { list_all is_elem path.now ≡ true }
        ensures { Puts (led_by (fixed mark.Key ∷ fixed mark.Open ∷ []) comma elem_pieces path.now) [] self.old self.new }
    {
        match path {
            [] => {}
            [first, rest @ ..] => {
                self.put_mark(Mark::Key);
                self.put_mark(Mark::Open);
                self.put_elem(first);
                self.put_further_elems(rest);
            }
        }
    }

    fn put_further_elems(&mut self, path: &[Elem])
        requires { list_all is_elem path.now ≡ true }
        ensures { Puts (others comma elem_pieces path.now) [] self.old self.new }
    {
        for elem in path {
            self.put_mark(Mark::Comma);
            self.put_elem(elem);
        }
    }

    fn put_elem(&mut self, elem: &Elem)
        requires { is_elem elem.now ≡ true }
        ensures { Puts (elem_pieces elem.now) [] self.old self.new }
    {
        self.put_string(elem.kind.text());
        self.put_mark(Mark::Comma);
        self.put_ident(&elem.ident);
    }

    fn put_ident(&mut self, ident: &Ident)
        requires { is_ident ident.now ≡ true }
        ensures { Puts (ident_piece ident.now ∷ []) [] self.old self.new }
    {
        match ident {
            Ident::Id(id) => self.put_natural(*id),
            Ident::Name(name) => self.put_string(name.text()),
        }
    }
}

/// Whether a namespace is the default one, which is empty.
pub(crate) fn is_default(namespace: &[u8]) -> bool
    ensures { result ≡ is_default namespace.now }
{
    match namespace {
        [] => true,
        [_, ..] => false,
    }
}
