//! Tokens of GQL texts: keywords, signs, names, integers, strings and bindings, with blanks between them.
//!
//! It stands on `ds_base` (texts). The definitions are in `specs/`: `Tokens` says what stands at the front of a text and which tokens a
//! text has, `Pieces` what a token is, and `Fronts` what the code promises of it. Of tokens the longest is taken, and nothing is read
//! twice.
//!
//! Begin with `token` (what a token is) and `lexer` (the token at the front of a text); `quotes` has what stands between the quotes of
//! a string. The grammar of statements is `ds_gql`'s.
#![tactic(auto)]

mod lexer;
mod quotes;
mod token;

pub use lexer::names::is_keyword;
pub use lexer::runs::{all_word_bytes, begins_word, byte_at};
pub use lexer::{Front, first, skip_blanks};
pub use quotes::{split_quote, undoubled};
pub use token::{Mark, Piece};
