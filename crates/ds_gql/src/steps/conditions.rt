//! Conditions.
ghost use Rattle.std.specs.Prelude.{◌≡◌, [], ◌∷◌, IfOk, OnOk};
ghost use Rattle.ds_gql.specs.Taking.{Takes, TakesUnlessNoMemory};
ghost use Rattle.ds_gql.specs.Steps as spec;
ghost use Rattle.ds_tokens.specs.Pieces.{seen};

use crate::arguments::Arguments;
use crate::draft::{Draft, KeyFor, Phase};
use crate::steps::operands::{compare_in, value_of};
use ds_base::{Key, NoMemory, TextString, Value, Values};
use ds_query::{Filter, Op};
use ds_tokens::{Mark, Piece};
use std::alloc::{AllocError, Global};

impl Draft {
    /// WHERE, or what may stand behind conditions.
    pub(super) fn at_conditions(&mut self, piece: Piece<'_>) -> bool
        ensures { Takes (spec.at_conditions self.old (seen piece.entry)) result self.new }
    {
        if piece.is(Mark::Where) {
            self.go(Phase::Condition)
        } else {
            self.at_orders(piece)
        }
    }

    /// ANCESTOR, once, or the property of a condition.
    pub(super) fn at_condition(&mut self, alloc: Global, piece: Piece<'_>) -> Result<bool, NoMemory>
        ensures { TakesUnlessNoMemory (spec.at_condition self.old (seen piece.entry)) result self.new }
    {
        if piece.is(Mark::Ancestor) {
            let first = self.lacks_ancestor();
            return Ok(self.go_if(first, Phase::AncestorIs));
        }
        match piece.name() {
            Some(name) => {
                self.property = TextString::of(alloc, name)?;
                Ok(self.go(Phase::Compare))
            }
            None => Ok(false),
        }
    }

    fn lacks_ancestor(&self) -> bool
        ensures { result ≡ spec.no_ancestor self.now.ancestor }
    {
        match &self.ancestor {
            None => true,
            Some(_) => false,
        }
    }

    /// IN, or another operator.
    pub(super) fn at_compare(&mut self, alloc: Global, piece: Piece<'_>) -> bool
        ensures { Takes (spec.at_compare self.old (seen piece.entry)) result self.new }
    {
        if piece.is(Mark::In) {
            self.op = Op::OneOf;
            self.values = Values::new(alloc);
            return self.go(Phase::ListOpen);
        }
        match compare_in(piece) {
            Some(op) => {
                self.op = op;
                self.go(Phase::Operand)
            }
            None => false,
        }
    }

    /// The value of a condition.
    pub(super) fn at_operand(
        &mut self,
        alloc: Global,
        arguments: &Arguments<'_>,
        piece: Piece<'_>,
    ) -> Result<bool, NoMemory>
        ensures { TakesUnlessNoMemory (spec.at_operand arguments.now self.old (seen piece.entry)) result self.new }
    {
        if piece.is(Mark::Key) {
            return Ok(self.begin_key(alloc, KeyFor::Operand));
        }
        match value_of(alloc, arguments, piece)? {
            Some(value) => {
                self.put_operand(alloc, value)?;
                Ok(true)
            }
            None => Ok(false),
        }
    }

    /// A value of a list.
    pub(super) fn at_listed(
        &mut self,
        alloc: Global,
        arguments: &Arguments<'_>,
        piece: Piece<'_>,
    ) -> Result<bool, NoMemory>
        ensures { TakesUnlessNoMemory (spec.at_listed arguments.now self.old (seen piece.entry)) result self.new }
    {
        if piece.is(Mark::Key) {
            return Ok(self.begin_key(alloc, KeyFor::Listed));
        }
        match value_of(alloc, arguments, piece)? {
            Some(value) => {
                self.put_listed(value)?;
                Ok(true)
            }
            None => Ok(false),
        }
    }

    /// A comma, or the end of the list.
    pub(super) fn at_listed_read(
        &mut self,
        alloc: Global,
        piece: Piece<'_>,
    ) -> Result<bool, NoMemory>
        ensures { TakesUnlessNoMemory (spec.at_listed_read self.old (seen piece.entry)) result self.new }
    {
        if piece.is(Mark::Comma) {
            return Ok(self.go(Phase::Listed));
        }
        if piece.is(Mark::Close) {
            self.put_filter(alloc)?;
            return Ok(true);
        }
        Ok(false)
    }

    /// The ancestor: a key literal, or a binding whose value is a key.
    pub(super) fn at_ancestor_key(
        &mut self,
        alloc: Global,
        arguments: &Arguments<'_>,
        piece: Piece<'_>,
    ) -> Result<bool, NoMemory>
        ensures { TakesUnlessNoMemory (spec.at_ancestor_key arguments.now self.old (seen piece.entry)) result self.new }
    {
        if piece.is(Mark::Key) {
            return Ok(self.begin_key(alloc, KeyFor::Ancestor));
        }
        match value_of(alloc, arguments, piece)? {
            Some(Value::Key(key)) => {
                self.put_ancestor(key);
                Ok(true)
            }
            _ => Ok(false),
        }
    }

    /// AND, or what may stand behind conditions.
    pub(super) fn at_condition_read(&mut self, piece: Piece<'_>) -> bool
        ensures { Takes (spec.at_condition_read self.old (seen piece.entry)) result self.new }
    {
        if piece.is(Mark::And) {
            self.go(Phase::Condition)
        } else {
            self.at_orders(piece)
        }
    }

    /// The condition has this one value.
    pub(super) fn put_operand(&mut self, alloc: Global, value: Value) -> Result<(), NoMemory>
        ensures { OnOk result (self.new ≡ spec.with_filter self.old (value ∷ [])) }
    {
        self.values = one_value(alloc, value)?;
        self.put_filter(alloc)
    }

    /// Puts a value at the end of the list.
    pub(super) fn put_listed(&mut self, value: Value) -> Result<(), NoMemory>
        ensures { OnOk result (self.new ≡ spec.with_listed self.old value) }
    {
        match self.values.push(value) {
            Ok(()) => {
                self.phase = Phase::ListedRead;
                Ok(())
            }
            Err(_) => Err(AllocError),
        }
    }

    /// Makes a filter of the condition, whose values are all read.
    fn put_filter(&mut self, alloc: Global) -> Result<(), NoMemory>
        ensures { OnOk result (self.new ≡ spec.with_filter self.old self.old.values) }
    {
        let property = std::mem::replace(&mut self.property, TextString::new(alloc));
        let values = std::mem::replace(&mut self.values, Values::new(alloc));
        let filter = Filter {
            property,
            op: self.op,
            values,
        };
        match self.filters.push(filter) {
            Ok(()) => {
                self.phase = Phase::ConditionRead;
                Ok(())
            }
            Err(_) => Err(AllocError),
        }
    }

    /// The ancestor is this key.
    pub(super) fn put_ancestor(&mut self, key: Key)
        ensures { self.new ≡ spec.with_ancestor self.old key }
    {
        self.ancestor = Some(key);
        self.phase = Phase::ConditionRead;
    }
}

fn one_value(alloc: Global, value: Value) -> Result<Values, NoMemory>
    ensures { IfOk result (λ values. values ≡ value ∷ []) }
{
    let mut values = Values::new(alloc);
    match values.push(value) {
        Ok(()) => Ok(values),
        Err(_) => Err(AllocError),
    }
}
