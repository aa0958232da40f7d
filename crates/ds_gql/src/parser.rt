//! From a text to a statement.
ghost use Rattle.ds_gql.specs.Statements.{IsReadAs, statement_of};

use crate::arguments::Arguments;
use crate::draft::Draft;
use crate::statement::{Bindings, GqlRefused, Statement};
use ds_tokens::{Mark, first, skip_blanks};
use std::alloc::Global;

/// The statement that a text is: the one that `specs/Statements` defines. `At` comes exactly where the text is none, with the
/// byte that the definition names; `NoMemory` only when out of memory.
///
/// The text is read once from its front, token by token; strings and names are copied once. The names of arguments are put in
/// order first, so that each is found without a look at the others.
pub fn parse(alloc: Global, text: &str, bindings: &Bindings) -> Result<Statement, GqlRefused>
    ensures { IsReadAs (statement_of text.now bindings.now) result }
{
    let arguments = Arguments::of(alloc, bindings)?;
    read(alloc, text, &arguments)
}

fn read(alloc: Global, text: &str, arguments: &Arguments<'_>) -> Result<Statement, GqlRefused>
    ensures { IsReadAs (statement_of text.now arguments.now) result }
{
    let mut draft = Draft::new(alloc);
    let mut rest = text;
    'tokens: loop {
        let here = skip_blanks(rest);
        let found = first(here);
        let taken = draft.step(alloc, arguments, found.piece)?;
        if !taken {
            return Err(GqlRefused::At((text.len() - here.len()) as u64));
        }
        if found.piece.is(Mark::End) {
            return Ok(draft.into_statement(alloc));
        }
        rest = found.rest;
    }
}
