//! What is selected, and of which kind.
ghost use Rattle.std.specs.Prelude.{◌≡◌, IfOk, bytes_eq};
ghost use Rattle.ds_gql.specs.Taking.{Takes, TakesUnlessNoMemory};
ghost use Rattle.ds_gql.specs.Steps as spec;
ghost use Rattle.ds_tokens.specs.Pieces.{seen, name_in};

use crate::draft::{Draft, Phase};
use ds_base::{KEY_NAME, NoMemory, TextString, is_name};
use ds_query::Select;
use ds_tokens::{Mark, Piece};
use std::alloc::{AllocError, Global};

impl Draft {
    /// `*`, `__key__`, or the first name of a projection.
    pub(super) fn at_what(&mut self, alloc: Global, piece: Piece<'_>) -> Result<bool, NoMemory>
        ensures { TakesUnlessNoMemory (spec.at_what self.old (seen piece.entry)) result self.new }
    {
        if piece.is(Mark::Star) {
            return Ok(self.go(Phase::Selected));
        }
        match piece.name() {
            Some(name) => {
                if name == KEY_NAME {
                    self.select = Select::Keys;
                    Ok(self.go(Phase::Selected))
                } else {
                    self.put_name(alloc, name)
                }
            }
            None => Ok(false),
        }
    }

    /// One more name of a projection; `__key__` stands alone.
    pub(super) fn at_next_name(&mut self, alloc: Global, piece: Piece<'_>) -> Result<bool, NoMemory>
        ensures { TakesUnlessNoMemory (spec.next_named self.old (name_in (seen piece.entry))) result self.new }
    {
        match piece.name() {
            Some(name) => {
                if name == KEY_NAME {
                    Ok(false)
                } else {
                    self.put_name(alloc, name)
                }
            }
            None => Ok(false),
        }
    }

    fn put_name(&mut self, alloc: Global, name: &str) -> Result<bool, NoMemory>
        ensures { TakesUnlessNoMemory (spec.projected self.old name.now) result self.new }
    {
        let name = TextString::of(alloc, name)?;
        match self.names.push(name) {
            Ok(()) => Ok(self.go(Phase::NameRead)),
            Err(_) => Err(AllocError),
        }
    }

    /// A comma, or what may stand behind the selection.
    pub(super) fn at_name_read(&mut self, piece: Piece<'_>) -> bool
        ensures { Takes (spec.at_name_read self.old (seen piece.entry)) result self.new }
    {
        if piece.is(Mark::Comma) {
            self.go(Phase::NextName)
        } else {
            self.at_kind(piece)
        }
    }

    /// FROM, or what may stand behind the kind.
    pub(super) fn at_kind(&mut self, piece: Piece<'_>) -> bool
        ensures { Takes (spec.at_kind self.old (seen piece.entry)) result self.new }
    {
        if piece.is(Mark::From) {
            self.go(Phase::From)
        } else {
            self.at_conditions(piece)
        }
    }

    /// The kind: a name of at most 1,500 bytes.
    pub(super) fn at_from(&mut self, alloc: Global, piece: Piece<'_>) -> Result<bool, NoMemory>
        ensures { TakesUnlessNoMemory (spec.kind_named self.old (name_in (seen piece.entry))) result self.new }
    {
        match piece.name() {
            Some(name) => {
                if is_name(name.as_bytes()) {
                    self.kind = Some(TextString::of(alloc, name)?);
                    Ok(self.go(Phase::KindRead))
                } else {
                    Ok(false)
                }
            }
            None => Ok(false),
        }
    }
}
