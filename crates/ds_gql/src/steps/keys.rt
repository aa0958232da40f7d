//! Key literals.
ghost use Rattle.std.specs.Prelude.{◌≡◌, IfOk, OnOk};
ghost use Rattle.ds_gql.specs.Taking.{Takes, TakesUnlessNoMemory};
ghost use Rattle.ds_gql.specs.Steps as spec;
ghost use Rattle.ds_tokens.specs.Pieces.{seen};

use crate::draft::{Draft, KeyFor, Phase};
use crate::steps::operands::{ident_in, key_text};
use ds_base::limits::MAX_PATH_LENGTH;
use ds_base::{Elem, Elems, Ident, Key, NoMemory, TextString, Value};
use ds_tokens::{Mark, Piece};
use std::alloc::{AllocError, Global};

impl Draft {
    /// KEY was read, for this purpose.
    pub(super) fn begin_key(&mut self, alloc: Global, purpose: KeyFor) -> bool
        ensures { Takes (spec.key_begins purpose self.old) result self.new }
    {
        self.key_for = purpose;
        self.path = Elems::new(alloc);
        self.go(Phase::KeyOpen)
    }

    /// The kind of an element.
    pub(super) fn at_key_kind(&mut self, alloc: Global, piece: Piece<'_>) -> Result<bool, NoMemory>
        ensures { TakesUnlessNoMemory (spec.elem_kind_by self.old (spec.key_text (seen piece.entry))) result self.new }
    {
        match key_text(alloc, piece)? {
            Some(kind) => {
                self.elem_kind = kind;
                Ok(self.go(Phase::KeyComma))
            }
            None => Ok(false),
        }
    }

    /// The identifier of an element.
    pub(super) fn at_key_ident(&mut self, alloc: Global, piece: Piece<'_>) -> Result<bool, NoMemory>
        ensures { TakesUnlessNoMemory (spec.ident_by self.old (spec.ident_in (seen piece.entry))) result self.new }
    {
        match ident_in(alloc, piece)? {
            Some(ident) => self.put_elem(alloc, ident),
            None => Ok(false),
        }
    }

    fn put_elem(&mut self, alloc: Global, ident: Ident) -> Result<bool, NoMemory>
        ensures { TakesUnlessNoMemory (spec.ident_by self.old (Some ident)) result self.new }
    {
        let kind = std::mem::replace(&mut self.elem_kind, TextString::new(alloc));
        match self.path.push(Elem { kind, ident }) {
            Ok(()) => Ok(self.go(Phase::ElemRead)),
            Err(_) => Err(AllocError),
        }
    }

    /// A comma, behind which one more element stands, or the end of the key.
    pub(super) fn at_elem_read(&mut self, alloc: Global, piece: Piece<'_>) -> Result<bool, NoMemory>
        ensures { TakesUnlessNoMemory (spec.at_elem_read self.old (seen piece.entry)) result self.new }
    {
        if piece.is(Mark::Comma) {
            let more = self.path.len() < MAX_PATH_LENGTH;
            return Ok(self.go_if(more, Phase::KeyKind));
        }
        if piece.is(Mark::Close) {
            return self.end_key(alloc);
        }
        Ok(false)
    }

    /// The key is whole.
    fn end_key(&mut self, alloc: Global) -> Result<bool, NoMemory>
        ensures { TakesUnlessNoMemory (spec.key_read self.old) result self.new }
    {
        let path = std::mem::replace(&mut self.path, Elems::new(alloc));
        match Key::new(alloc, path) {
            Ok(key) => {
                self.put_key(alloc, key)?;
                Ok(true)
            }
            Err(_) => Ok(false),
        }
    }

    /// Puts the key where it was read for.
    fn put_key(&mut self, alloc: Global, key: Key) -> Result<(), NoMemory>
        ensures { OnOk result (self.new ≡ spec.key_read_for self.old.key_for self.old key) }
    {
        match self.key_for {
            KeyFor::Operand => self.put_operand(alloc, Value::Key(key)),
            KeyFor::Listed => self.put_listed(Value::Key(key)),
            KeyFor::Ancestor => {
                self.put_ancestor(key);
                Ok(())
            }
        }
    }
}
