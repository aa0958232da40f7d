//! What a statement selects, its kind, its orders and its limits; and the whole of it.
ghost use Rattle.std.specs.Prelude.{◌≡◌, ◌≤◌, [], ◌∷◌, Some, None, map, true};
ghost use Rattle.std.specs.List.{list_all};
ghost use Rattle.ds_query.specs.Filters.{has_operands};
ghost use Rattle.ds_tokens.specs.Pieces.{fixed};
ghost use Rattle.ds_gql_printing.specs.Printers.{Puts, statement_pieces};
ghost use Rattle.ds_gql_printing.specs.Printing.{is_written_name, selected_names, kind_names, has_written_orders, has_written_names};
ghost use Rattle.ds_gql_printing.specs.Printing.{what_of};
ghost use Rattle.ds_gql_printing.specs.Printing.{is_selection, order_of, limits_of, values_of};
ghost use Rattle.ds_gql.specs.Sentences.{comma, others, led_by, name_pieces, what_pieces, kind_pieces, direction_pieces, order_pieces};
ghost use Rattle.ds_gql.specs.Sentences.{limits_pieces};
ghost use Rattle.ds_tokens.specs.declared.token.Mark.TheVariants as mark;
ghost use Rattle.ds_query.specs.declared.query.Select.TheVariants as select;

use crate::printer::Printer;
use ds_base::{Column, KEY_NAME, TextString};
use ds_gql::Statement;
use ds_query::Select;
use ds_tokens::Mark;
use std::alloc::Global;

impl Printer {
    /// What stands behind SELECT, where nothing is cited yet.
    pub(crate) fn put_statement(&mut self, alloc: Global, statement: &Statement)
        requires first { self.old.args ≡ [] }
        requires names { has_written_names statement.now ≡ true }
        requires selection { is_selection statement.now.query.select ≡ true }
        requires values { list_all has_operands statement.now.query.filters ≡ true }
        ensures { Puts (statement_pieces statement.now) (values_of statement.now) self.old self.new }
    {
        let query = &statement.query;
        self.put_what(&query.select);
        self.put_kind(&query.kind);
        self.put_conditions(alloc, &query.ancestor, query.filters.as_slice());
        self.put_orders(query.orders.as_slice());
        self.put_limits(statement.limit, statement.offset);
    }

    fn put_what(&mut self, select: &Select)
        requires names { list_all is_written_name (selected_names select.now) ≡ true }
        requires selection { is_selection select.now ≡ true }
        ensures { Puts (what_pieces (what_of select.now)) [] self.old self.new }
    {
        match select {
            Select::Entities => self.put_mark(Mark::Star),
            Select::Keys => self.put_name(KEY_NAME),
            Select::Projection(names) => self.put_names(names.as_slice()),
        }
    }

    fn put_names(&mut self, names: &[TextString])
        requires names { list_all is_written_name names.now ≡ true }
        requires selection { is_selection (select.Projection names.now) ≡ true }
        ensures { Puts (what_pieces (what_of (select.Projection names.now))) [] self.old self.new }
    {
        match names {
            [] => {}
            [first, rest @ ..] => {
                self.put_name(first.text());
                self.put_further_names(rest);
            }
        }
    }

    /// Further names, each behind a comma.
    fn put_further_names(&mut self, names: &[TextString])
        requires { list_all is_written_name names.now ≡ true }
        ensures { Puts (others comma name_pieces names.now) [] self.old self.new }
    {
        for name in names {
            self.put_mark(Mark::Comma);
            self.put_name(name.text());
        }
    }

    fn put_kind(&mut self, kind: &Option<TextString>)
        requires { list_all is_written_name (kind_names kind.now) ≡ true }
        ensures { Puts (kind_pieces kind.now) [] self.old self.new }
    {
        match kind {
            Some(kind) => {
                self.put_mark(Mark::From);
                self.put_name(kind.text());
            }
            None => {}
        }
    }

    fn put_orders(&mut self, orders: &[Column])
        requires { has_written_orders orders.now ≡ true }
        ensures { Puts (led_by (fixed mark.Order ∷ fixed mark.By ∷ []) comma order_pieces (map order_of orders.now)) [] self.old self.new }
    {
        match orders {
            [] => {}
            [first, rest @ ..] => {
                self.put_mark(Mark::Order);
                self.put_mark(Mark::By);
                self.put_order(first);
                self.put_further_orders(rest);
            }
        }
    }

    /// Further orders, each behind a comma.
    fn put_further_orders(&mut self, orders: &[Column])
        requires { has_written_orders orders.now ≡ true }
        ensures { Puts (others comma order_pieces (map order_of orders.now)) [] self.old self.new }
    {
        for order in orders {
            self.put_mark(Mark::Comma);
            self.put_order(order);
        }
    }

    fn put_order(&mut self, order: &Column)
        requires { is_written_name order.now.name ≡ true }
        ensures { Puts (order_pieces (order_of order.now)) [] self.old self.new }
    {
        self.put_name(order.name.text());
        self.put_direction(order.descending);
    }

    fn put_direction(&mut self, descending: bool)
        ensures { Puts (direction_pieces (Some descending)) [] self.old self.new }
    {
        if descending {
            self.put_mark(Mark::Desc);
        } else {
            self.put_mark(Mark::Asc);
        }
    }

    fn put_limits(&mut self, limit: Option<u32>, offset: u32)
        ensures { Puts (limits_pieces (limits_of limit offset)) [] self.old self.new }
    {
        match limit {
            Some(count) => {
                self.put_mark(Mark::Limit);
                self.put_natural(u64::from(count));
                self.put_offset(offset);
            }
            None => self.put_offset(offset),
        }
    }

    /// The offset, where it isn't 0.
    fn put_offset(&mut self, offset: u32)
        ensures { Puts (limits_pieces (limits_of None offset)) [] self.old self.new }
    {
        if offset != 0 {
            self.put_mark(Mark::Offset);
            self.put_natural(u64::from(offset));
        }
    }
}
