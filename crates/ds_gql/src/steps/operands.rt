//! What single tokens stand for.
ghost use Rattle.std.specs.Prelude.{◌≡◌, IfOk, option_map};
ghost use Rattle.ds_gql.specs.Steps as spec;
ghost use Rattle.ds_tokens.specs.Pieces.{seen, undoubled};

use crate::arguments::Arguments;
use ds_base::limits::MAX_ID;
use ds_base::{Ident, NoMemory, TextString, Value, copy_of, is_name};
use ds_query::Op;
use ds_tokens::{Mark, Piece, undoubled};
use std::alloc::Global;

/// The operator that stands there, other than IN.
pub(super) fn compare_in(piece: Piece<'_>) -> Option<Op>
    ensures { result ≡ spec.compare_in (seen piece.entry) }
{
    match piece {
        Piece::Fixed(mark) => compare_of(mark),
        _ => None,
    }
}

fn compare_of(mark: Mark) -> Option<Op>
    ensures { result ≡ spec.compare_of mark }
{
    match mark {
        Mark::Equal => Some(Op::Equal),
        Mark::Less => Some(Op::Less),
        Mark::LessEqual => Some(Op::LessEqual),
        Mark::Greater => Some(Op::Greater),
        Mark::GreaterEqual => Some(Op::GreaterEqual),
        Mark::NotEqual => Some(Op::NotEqual),
        _ => None,
    }
}

/// The value that one token stands for, if it stands for one: an integer, a string, TRUE, FALSE, NULL, or a binding that is
/// given.
pub(super) fn value_of(
    alloc: Global,
    arguments: &Arguments<'_>,
    piece: Piece<'_>,
) -> Result<Option<Value>, NoMemory>
    ensures { IfOk result (λ value. value ≡ spec.value_of arguments.now (seen piece.entry)) }
{
    match piece {
        Piece::Fixed(mark) => Ok(constant_of(mark)),
        Piece::Name(_) => Ok(None),
        Piece::Integer(n) => Ok(Some(Value::Int(n))),
        Piece::Quoted(raw) => Ok(Some(Value::Str(undoubled(alloc, raw)?))),
        Piece::Numbered(n) => copy_of(alloc, arguments.numbered(n)),
        Piece::Named(name) => copy_of(alloc, arguments.named(name)),
        Piece::Strange => Ok(None),
    }
}

fn constant_of(mark: Mark) -> Option<Value>
    ensures { result ≡ spec.constant_of mark }
{
    match mark {
        Mark::True => Some(Value::Bool(true)),
        Mark::False => Some(Value::Bool(false)),
        Mark::Null => Some(Value::Null),
        _ => None,
    }
}

/// The kind or the name that a string is in a key literal: 1 to 1,500 bytes.
pub(super) fn key_text(alloc: Global, piece: Piece<'_>) -> Result<Option<TextString>, NoMemory>
    ensures { IfOk result (λ text. text ≡ spec.key_text (seen piece.entry)) }
{
    match piece {
        Piece::Quoted(raw) => name_of(alloc, raw),
        _ => Ok(None),
    }
}

fn name_of(alloc: Global, raw: &str) -> Result<Option<TextString>, NoMemory>
    ensures { IfOk result (λ text. text ≡ spec.name_of (undoubled raw.now)) }
{
    let name = undoubled(alloc, raw)?;
    if is_name(name.bytes()) {
        Ok(Some(name))
    } else {
        Ok(None)
    }
}

/// The identifier that a token is in a key literal: an integer from 1, or a string of 1 to 1,500 bytes.
pub(super) fn ident_in(alloc: Global, piece: Piece<'_>) -> Result<Option<Ident>, NoMemory>
    ensures { IfOk result (λ ident. ident ≡ spec.ident_in (seen piece.entry)) }
{
    match piece {
        Piece::Integer(n) => Ok(id_of(n)),
        Piece::Quoted(raw) => Ok(name_of(alloc, raw)?.map(|name| Ident::Name(name))),
        _ => Ok(None),
    }
}

fn id_of(n: i64) -> Option<Ident>
    ensures { result ≡ spec.id_of n }
{
    if n >= 1 && n as u64 <= MAX_ID {
        Some(Ident::Id(n as u64))
    } else {
        None
    }
}
