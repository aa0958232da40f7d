//! Conditions, the ancestor's first.
ghost use Rattle.std.specs.Prelude.{◌≡◌, [], ◌∷◌, ◌++◌, length, true};
ghost use Rattle.std.specs.List.{list_all};
ghost use Rattle.ds_query.specs.Filters.{enough_values, has_operands};
ghost use Rattle.ds_tokens.specs.Pieces.{fixed};
ghost use Rattle.ds_gql_printing.specs.Printers.{Puts, operator_pieces};
ghost use Rattle.ds_gql_printing.specs.Printing.{is_written_name, has_written_properties, sign_of, operands_of, condition_of};
ghost use Rattle.ds_gql_printing.specs.Printing.{conditions_of};
ghost use Rattle.ds_gql_printing.specs.Printing.{all_conditions, ancestor_values, filter_values};
ghost use Rattle.ds_gql.specs.Sentences.{others, led_by, condition_pieces};
ghost use Rattle.ds_tokens.specs.declared.token.Mark.TheVariants as mark;
ghost use Rattle.ds_query.specs.declared.query.Op.TheVariants as op;

use crate::printer::Printer;
use ds_base::{Key, Value};
use ds_query::{Filter, Op};
use ds_tokens::Mark;
use std::alloc::Global;

impl Printer {
    /// The conditions of a statement.
    pub(super) fn put_conditions(
        &mut self,
        alloc: Global,
        ancestor: &Option<Key>,
        filters: &[Filter],
    )
        requires names { has_written_properties filters.now ≡ true }
        requires values { list_all has_operands filters.now ≡ true }
        ensures { Puts (led_by (fixed mark.Where ∷ []) (fixed mark.And) condition_pieces
            (all_conditions (length self.old.args) ancestor.now filters.now))
            (ancestor_values ancestor.now ++ filter_values filters.now) self.old self.new }
    {
        match ancestor {
            Some(key) => {
                self.put_mark(Mark::Where);
                self.put_mark(Mark::Ancestor);
                self.put_mark(Mark::Is);
                self.put_key(alloc, key);
                self.put_further_filters(alloc, filters);
            }
            None => self.put_filters(alloc, filters),
        }
    }

    fn put_filters(&mut self, alloc: Global, filters: &[Filter])
        requires names { has_written_properties filters.now ≡ true }
        requires values { list_all has_operands filters.now ≡ true }
        ensures { Puts (led_by (fixed mark.Where ∷ []) (fixed mark.And) condition_pieces (conditions_of (length self.old.args) filters.now))
            (filter_values filters.now) self.old self.new }
    {
        match filters {
            [] => {}
            [first, rest @ ..] => {
                self.put_mark(Mark::Where);
                self.put_filter(alloc, first);
                self.put_further_filters(alloc, rest);
            }
        }
    }

    /// Further filters, each behind AND.
    fn put_further_filters(&mut self, alloc: Global, filters: &[Filter])
        requires names { has_written_properties filters.now ≡ true }
        requires values { list_all has_operands filters.now ≡ true }
        ensures { Puts (others (fixed mark.And) condition_pieces (conditions_of (length self.old.args) filters.now))
            (filter_values filters.now) self.old self.new }
    {
        for filter in filters {
            self.put_mark(Mark::And);
            self.put_filter(alloc, filter);
        }
    }

    fn put_filter(&mut self, alloc: Global, filter: &Filter)
        requires name { is_written_name filter.now.property ≡ true }
        requires values { has_operands filter.now ≡ true }
        ensures { Puts (condition_pieces (condition_of (length self.old.args) filter.now)) filter.now.values self.old self.new }
    {
        self.put_name(filter.property.text());
        self.put_mark(sign_of(filter.op));
        self.put_operands(alloc, filter.op, filter.values.as_slice());
    }

    /// What stands behind the sign: a list in parentheses behind IN, else one value.
    fn put_operands(&mut self, alloc: Global, op: Op, values: &[Value])
        requires { enough_values op (length values.now) ≡ true }
        ensures { Puts (operator_pieces op (operands_of (length self.old.args) values.now)) values.now self.old self.new }
    {
        match values {
            [] => {}
            [first, rest @ ..] => match op {
                Op::OneOf => self.put_list(alloc, first, rest),
                Op::Equal
                | Op::Less
                | Op::LessEqual
                | Op::Greater
                | Op::GreaterEqual
                | Op::NotEqual => self.put_value(alloc, first),
            },
        }
    }

    fn put_list(&mut self, alloc: Global, first: &Value, rest: &[Value])
        ensures { Puts (operator_pieces op.OneOf (operands_of (length self.old.args) (first.now ∷ rest.now)))
            (first.now ∷ rest.now) self.old self.new }
    {
        self.put_mark(Mark::Open);
        self.put_value(alloc, first);
        self.put_further_values(alloc, rest);
        self.put_mark(Mark::Close);
    }
}

/// How an operator is written.
fn sign_of(op: Op) -> Mark
    ensures { result ≡ sign_of op }
{
    match op {
        Op::Equal => Mark::Equal,
        Op::Less => Mark::Less,
        Op::LessEqual => Mark::LessEqual,
        Op::Greater => Mark::Greater,
        Op::GreaterEqual => Mark::GreaterEqual,
        Op::NotEqual => Mark::NotEqual,
        Op::OneOf => Mark::In,
    }
}
