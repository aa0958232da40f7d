//! What a query or a statement searches for.
ghost use Rattle.std.specs.Prelude.{◌≡◌, ◌⊎◌, ℕ, Some, Ok, Err, option_map, IfOk, IfErr, IsTrue};
ghost use Rattle.ds_base.specs.Keys.{root_of};
ghost use Rattle.ds_gql.specs.Statements.{statement_of};
ghost use Rattle.ds_request.specs.Lawful.{IsLawfulCall};
ghost use Rattle.ds_model.specs.Asked.{search_of, statement_search};
ghost use Rattle.ds_protocol.specs.Refused.{operation_body};
ghost use Rattle.ds_protocol.specs.Searches.{IsSearchOf, search_parts, has_operands_of};

use crate::operations::OperationRefused;
use ds_base::{Key, NoMemory, TextString};
use ds_gql::laws::statements_have_values;
use ds_gql::{Bindings, GqlRefused, Statement, parse};
use ds_query::Query;
use ds_request::Call;
use std::alloc::Global;

/// A query with its window as a request or a statement asks for it: numbers of results, and the texts of cursors.
#[derive(Drop)]
pub struct Search {
    /// Whether it was written as a statement, so that its reply is a statement's.
    pub statement: bool,
    /// The query.
    pub query: Query,
    /// How many results are skipped.
    pub offset: u32,
    /// How many results are given at most; all where there is none.
    pub limit: Option<u32>,
    /// The text of the cursor after which results begin.
    pub start: Option<TextString>,
    /// The text of the cursor up to which results are given.
    pub end: Option<TextString>,
    /// Whether the reply is to tell the cursor of its last result.
    pub cursor: bool,
}

/// What a query or a statement searches for. The parts of a query are moved; a statement is read, in the namespace of its request, and
/// its cursors work as a query's. `BadGql` comes exactly where its text is no statement; `NoMemory` means out of memory, and what any other
/// call is told, which is none.
pub(crate) fn search_of(alloc: Global, call: Call) -> Result<Search, OperationRefused>
    requires { IsLawfulCall call }
    ensures ok { IfOk result (IsSearchOf call) }
    ensures refused { IfErr result (λ e. (e ≡ OperationRefused.NoMemory) ⊎ (search_of call ≡ Some (Err (operation_body e)))) }
{
    match call {
        Call::Query {
            namespace,
            kind,
            ancestor,
            filters,
            orders,
            select,
            offset,
            limit,
            start,
            end,
            cursor,
        } => {
            let cursors = start.is_some() || end.is_some() || cursor;
            Ok(Search {
                statement: false,
                query: Query {
                    namespace,
                    kind,
                    ancestor,
                    filters,
                    orders,
                    select,
                    cursors,
                },
                offset,
                limit,
                start,
                end,
                cursor,
            })
        }
        call => statement_search_of(alloc, call),
    }
}

/// What a statement searches for; `NoMemory` is what any other call is told, too.
fn statement_search_of(alloc: Global, call: Call) -> Result<Search, OperationRefused>
    requires { IsLawfulCall call }
    ensures ok { IfOk result (IsSearchOf call) }
    ensures refused { IfErr result (λ e. (e ≡ OperationRefused.NoMemory) ⊎ (search_of call ≡ Some (Err (operation_body e)))) }
{
    match call {
        Call::Gql {
            namespace,
            text,
            args,
            names,
            start,
            end,
            cursor,
        } => {
            match read(alloc, &text, Bindings { args, names }) {
                Ok(statement) => Ok(search_in(namespace, statement, start, end, cursor)),
                Err(refused) => Err(refused),
            }
        }
        _ => Err(OperationRefused::NoMemory),
    }
}

/// The statement that a text is, or where it is none.
fn read(alloc: Global, text: &TextString, bindings: Bindings) -> Result<Statement, OperationRefused>
    ensures ok { IfOk result (λ s. statement_of text.now bindings ≡ Ok s) }
    ensures lawful { IfOk result has_operands_of }
    ensures refused { IfErr result (λ e. (e ≡ OperationRefused.NoMemory)
        ⊎ ((place : ℕ) × (statement_of text.now bindings ≡ Err place) × (e ≡ OperationRefused.BadGql place))) }
{
    // A law, which does nothing: the proof alone needs it.
    statements_have_values();
    match parse(alloc, text.text(), &bindings) {
        Ok(statement) => Ok(statement),
        Err(GqlRefused::At(place)) => Err(OperationRefused::BadGql { place }),
        Err(GqlRefused::NoMemory) => Err(OperationRefused::NoMemory),
    }
}

/// What a statement searches for in a namespace, with the cursors of its request.
fn search_in(
    namespace: TextString,
    statement: Statement,
    start: Option<TextString>,
    end: Option<TextString>,
    cursor: bool,
) -> Search
    ensures parts { search_parts result ≡ statement_search namespace start end cursor statement }
    ensures statement { IsTrue result.statement }
{
    let query = statement.query;
    let cursors = start.is_some() || end.is_some() || cursor;
    Search {
        statement: true,
        query: Query {
            namespace,
            cursors,
            ..query
        },
        offset: statement.offset,
        limit: statement.limit,
        start,
        end,
        cursor,
    }
}

/// The entity group that a search with an ancestor reads: that of the ancestor. `None` where there is no ancestor.
pub fn group_of(alloc: Global, search: &Search) -> Result<Option<Key>, NoMemory>
    ensures { IfOk result (λ group. group ≡ option_map root_of search.now.query.ancestor) }
{
    match &search.query.ancestor {
        Some(ancestor) => Ok(Some(ancestor.root(alloc)?)),
        None => Ok(None),
    }
}
