//! Statements of GQL as texts, which `ds_gql` reads as the same statements.
//!
//! It stands on `ds_base` (keys, values), `ds_query` (queries), `ds_tokens` and `ds_gql` (what a text is read as) and `itoa` (digits).
//! The definitions are in `specs/`: `Printing` says which text a statement is printed as, and with which arguments, and `Printers` what
//! the code promises of each token that it puts. `PrintLaws` says that every statement that a text says can be printed: `laws` has it.
//!
//! Begin with `printing` (the public calls). A statement is printed token by token (`printer`), and each token that is put is proved
//! to be read back.
//!
//! A caller prints a statement, and may read the text again with the arguments that it cites:
//!
//!     let Printed { text, args } = print(alloc, &statement)?;
//!     let bindings = Bindings { args, names: NamedValues::new(alloc) };
//!     let same = parse(alloc, text.text(), &bindings)?;
#![tactic(auto)]

pub mod laws;
mod printer;
pub mod printing;

pub use printing::{PrintRefused, Printed, can_print, print};
