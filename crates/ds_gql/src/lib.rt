//! GQL, the Datastore's query language: from a text to a statement.
//!
//! It stands on `ds_base` (keys, values, named values), `ds_query` (queries) and `ds_tokens` (what stands in a text); `ds_gql_printing`
//! writes a statement as a text. The definitions are in `specs/`: `Sentences` says what the grammar's sentences are and say, `Steps`
//! which token may stand behind what has been read, and `Statements` which statement a text is, or at which byte it stops being one.
//! `GqlLaws` says how they meet: `laws` has a function for each law.
//!
//! Begin with `statement` (what is read) and `parser` (the public call). A text is read token by token, and each token takes one step
//! (`steps`) of a draft (`draft`), which holds what was read and which tokens may come next; the arguments that it cites are looked up
//! in an index (`arguments`). There is no recursion, and nothing is read twice.
//!
//! A caller reads a text with its arguments:
//!
//!     let bindings = Bindings { args, names };
//!     match parse(alloc, "SELECT * FROM Task WHERE done = :1", &bindings) {
//!         Ok(statement) => {}                     // its query, offset and limit
//!         Err(GqlRefused::At(at)) => {}           // the byte at which no statement goes on
//!         Err(GqlRefused::NoMemory) => {}
//!     }
#![tactic(auto)]

mod arguments;
mod draft;
pub mod laws;
pub mod parser;
pub mod statement;
mod steps;

pub use parser::parse;
pub use statement::{Bindings, GqlRefused, Statement};
