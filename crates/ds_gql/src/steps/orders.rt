//! Orders.
ghost use Rattle.std.specs.Prelude.{◌≡◌, IfOk, OnOk};
ghost use Rattle.ds_gql.specs.Taking.{Takes, TakesUnlessNoMemory};
ghost use Rattle.ds_gql.specs.Steps as spec;
ghost use Rattle.ds_tokens.specs.Pieces.{seen, name_in};

use crate::draft::{Draft, Phase};
use ds_base::{Column, NoMemory, TextString};
use ds_tokens::{Mark, Piece};
use std::alloc::{AllocError, Global};

impl Draft {
    /// ORDER, or what may stand behind orders.
    pub(super) fn at_orders(&mut self, piece: Piece<'_>) -> bool
        ensures { Takes (spec.at_orders self.old (seen piece.entry)) result self.new }
    {
        if piece.is(Mark::Order) {
            self.go(Phase::OrderBy)
        } else {
            self.at_limits(piece)
        }
    }

    /// The name of an order, which goes up until DESC is read.
    pub(super) fn at_order(&mut self, alloc: Global, piece: Piece<'_>) -> Result<bool, NoMemory>
        ensures { TakesUnlessNoMemory (spec.order_named self.old (name_in (seen piece.entry))) result self.new }
    {
        match piece.name() {
            Some(name) => {
                self.property = TextString::of(alloc, name)?;
                Ok(self.go(Phase::OrderRead))
            }
            None => Ok(false),
        }
    }

    /// A direction, or what may stand behind it.
    pub(super) fn at_order_read(
        &mut self,
        alloc: Global,
        piece: Piece<'_>,
    ) -> Result<bool, NoMemory>
        ensures { TakesUnlessNoMemory (spec.at_order_read self.old (seen piece.entry)) result self.new }
    {
        self.put_order(alloc, piece.is(Mark::Desc))?;
        if piece.is(Mark::Asc) || piece.is(Mark::Desc) {
            Ok(true)
        } else {
            Ok(self.at_direction_read(piece))
        }
    }

    /// Puts the order that was read behind the others.
    fn put_order(&mut self, alloc: Global, descending: bool) -> Result<(), NoMemory>
        ensures { OnOk result (self.new ≡ spec.with_order self.old descending) }
    {
        let name = std::mem::replace(&mut self.property, TextString::new(alloc));
        match self.orders.push(Column { name, descending }) {
            Ok(()) => {
                self.phase = Phase::DirectionRead;
                Ok(())
            }
            Err(_) => Err(AllocError),
        }
    }

    /// A comma, or what may stand behind orders.
    pub(super) fn at_direction_read(&mut self, piece: Piece<'_>) -> bool
        ensures { Takes (spec.at_direction_read self.old (seen piece.entry)) result self.new }
    {
        if piece.is(Mark::Comma) {
            self.go(Phase::Order)
        } else {
            self.at_limits(piece)
        }
    }
}
