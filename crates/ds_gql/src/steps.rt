//! One token more.
ghost use Rattle.std.specs.Prelude.{◌≡◌, IfOk};
ghost use Rattle.ds_gql.specs.Taking.{Takes, TakesUnlessNoMemory};
ghost use Rattle.ds_gql.specs.Steps as spec;
ghost use Rattle.ds_tokens.specs.Pieces.{seen};

mod conditions;
mod keys;
mod limits;
mod operands;
mod orders;
pub(crate) mod selection;

use crate::arguments::Arguments;
use crate::draft::{Draft, Phase};
use ds_base::NoMemory;
use ds_tokens::{Mark, Piece};
use std::alloc::Global;

impl Draft {
    /// Takes one more token, and says whether a statement goes on so.
    #[tactic(auto, unfolding(crate::specs::Steps::step))]
    pub(crate) fn step(
        &mut self,
        alloc: Global,
        arguments: &Arguments<'_>,
        piece: Piece<'_>,
    ) -> Result<bool, NoMemory>
        ensures { TakesUnlessNoMemory (spec.step arguments.now self.old (seen piece.entry)) result self.new }
    {
        match self.phase {
            Phase::Start => Ok(self.go_if(piece.is(Mark::Select), Phase::What)),
            Phase::What => self.at_what(alloc, piece),
            Phase::Selected => Ok(self.at_kind(piece)),
            Phase::NameRead => Ok(self.at_name_read(piece)),
            Phase::NextName => self.at_next_name(alloc, piece),
            Phase::From => self.at_from(alloc, piece),
            Phase::KindRead => Ok(self.at_conditions(piece)),
            Phase::Condition => self.at_condition(alloc, piece),
            Phase::Compare => Ok(self.at_compare(alloc, piece)),
            Phase::Operand => self.at_operand(alloc, arguments, piece),
            Phase::ListOpen => Ok(self.go_if(piece.is(Mark::Open), Phase::Listed)),
            Phase::Listed => self.at_listed(alloc, arguments, piece),
            Phase::ListedRead => self.at_listed_read(alloc, piece),
            Phase::AncestorIs => Ok(self.go_if(piece.is(Mark::Is), Phase::AncestorKey)),
            Phase::AncestorKey => self.at_ancestor_key(alloc, arguments, piece),
            Phase::KeyOpen => Ok(self.go_if(piece.is(Mark::Open), Phase::KeyKind)),
            Phase::KeyKind => self.at_key_kind(alloc, piece),
            Phase::KeyComma => Ok(self.go_if(piece.is(Mark::Comma), Phase::KeyIdent)),
            Phase::KeyIdent => self.at_key_ident(alloc, piece),
            Phase::ElemRead => self.at_elem_read(alloc, piece),
            Phase::ConditionRead => Ok(self.at_condition_read(piece)),
            Phase::OrderBy => Ok(self.go_if(piece.is(Mark::By), Phase::Order)),
            Phase::Order => self.at_order(alloc, piece),
            Phase::OrderRead => self.at_order_read(alloc, piece),
            Phase::DirectionRead => Ok(self.at_direction_read(piece)),
            Phase::Limit => Ok(self.at_limit(piece)),
            Phase::LimitRead => Ok(self.at_limit_read(piece)),
            Phase::PairedLimit => Ok(self.at_paired_limit(piece)),
            Phase::Offset => Ok(self.at_offset(piece)),
            Phase::Whole => Ok(self.at_end(piece)),
            Phase::Ended => Ok(false),
        }
    }

    /// The next phase, behind a token that has no part of its own.
    fn go(&mut self, next: Phase) -> bool
        ensures { Takes (spec.on next self.old) result self.new }
    {
        self.phase = next;
        true
    }

    fn go_if(&mut self, goes: bool, next: Phase) -> bool
        ensures { Takes (spec.on_if goes next self.old) result self.new }
    {
        if goes { self.go(next) } else { false }
    }
}
