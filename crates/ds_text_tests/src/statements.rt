//! Texts with the statements that they are, and with the bytes at which they stop being one.

use crate::told::is_told;
use ds_base::{
    Elem, Elems, Ident, Key, NamedValue, NamedValues, NoMemory, TextString, Value, Values,
};
use ds_gql::{Bindings, parse};
use std::alloc::{AllocError, Global};
use std::test::Fail;

/// The key of the guestbook `default`.
fn guestbook(alloc: Global) -> Result<Key, NoMemory> {
    let mut path = Elems::new(alloc);
    let elem = Elem {
        kind: TextString::of(alloc, "Guestbook")?,
        ident: Ident::Name(TextString::of(alloc, "default")?),
    };
    if path.push(elem).is_err() {
        return Err(AllocError);
    }
    match Key::new(alloc, path) {
        Ok(key) => Ok(key),
        Err(_) => Err(AllocError),
    }
}

/// A key and 7.
fn arguments(alloc: Global) -> Result<Values, NoMemory> {
    let key = guestbook(alloc)?;
    Ok(Values::from(vec![in alloc; Value::Key(key), Value::Int(7)]?))
}

fn named(alloc: Global, name: &str, value: Value) -> Result<NamedValue, NoMemory> {
    let name = TextString::of(alloc, name)?;
    Ok(NamedValue { name, value })
}

fn names(alloc: Global) -> Result<NamedValues, NoMemory> {
    let one = Value::Str(TextString::of(alloc, "one")?);
    let x = named(alloc, "x", one)?;
    let select = named(alloc, "select", Value::Bool(true))?;
    Ok(NamedValues::from(vec![in alloc; x, select]?))
}

/// `:1` is a key, `:2` is 7; `:x` is `'one'`, `:select` is true.
pub(crate) fn bindings(alloc: Global) -> Result<Bindings, NoMemory> {
    let args = arguments(alloc)?;
    let names = names(alloc)?;
    Ok(Bindings { args, names })
}

/// The first text of which something else is told.
fn first_wrong<'a>(
    alloc: Global,
    rows: &'a [(&'static str, &'static str)],
) -> Result<Option<&'a str>, AllocError> {
    let given = bindings(alloc)?;
    for row in rows {
        if !is_told(alloc, parse(alloc, row.0, &given), row.1)? {
            return Ok(Some(row.0));
        }
    }
    Ok(None)
}

/// Statements, and what is told of them, and texts that are none, with the byte at which each stops being one.
const STATEMENTS: [(&str, &str); 43] = [
    (
        "SELECT * FROM Greeting WHERE ANCESTOR IS :1 ORDER BY date DESC LIMIT 1",
        "*|Greeting|/Guestbook 'default'||date-| 0+1",
    ),
    ("select\t*\r\n", "*|-|||| 0+"),
    ("SELECT __key__ FROM T", "keys|T|||| 0+"),
    ("SELECT \"__key__\"", "keys|-|||| 0+"),
    ("SELECT a,b.c FROM \"select\"", "a;b.c;|select|||| 0+"),
    (
        "SELECT * WHERE a = 1 AND b < -2 AND c <= 'x' AND d > TRUE AND e >= false AND f != NULL",
        "*|-||a=1;b<-2;c<='x';d>true;e>=false;f!=null;|| 0+",
    ),
    (
        "SELECT * WHERE a IN (1,:2 , :x,:select)",
        "*|-||a in 1;7;'one';true;|| 0+",
    ),
    ("SELECT * WHERE a = 'it''s '''", "*|-||a='it's '';|| 0+"),
    (
        "SELECT * WHERE ANCESTOR IS KEY('A', 1, 'B', 'x') AND b = KEY('C','y')",
        "*|-|/A 1/B 'x'|b=/C 'y';|| 0+",
    ),
    ("SELECT * ORDER BY a, b ASC, c DESC", "*|-|||a+b+c-| 0+"),
    ("SELECT * LIMIT 3, 5", "*|-|||| 3+5"),
    ("SELECT * LIMIT 3 OFFSET 5", "*|-|||| 5+3"),
    ("SELECT * OFFSET 2147483647", "*|-|||| 2147483647+"),
    // texts that are no statements
    ("SELECT * FROM T WHERE a OR b", "at 24"),
    ("SELECT * FROM", "at 13"),
    ("", "at 0"),
    ("  SELEC", "at 2"),
    ("SELECT * FROM T;", "at 15"),
    ("SELECT * FROM \"T", "at 14"),
    ("SELECT * FROM \"\"", "at 14"),
    ("SELECT * FROM from", "at 14"),
    ("SELECT a, __key__", "at 10"),
    ("SELECT __key__, a", "at 14"),
    ("SELECT * WHERE a = 'x", "at 19"),
    ("SELECT * WHERE a = 'a''b", "at 22"),
    ("SELECT * WHERE a = 9223372036854775808", "at 19"),
    ("SELECT * WHERE a = -9223372036854775809", "at 19"),
    ("SELECT * WHERE a ! 1", "at 17"),
    ("SELECT * WHERE a = :3", "at 19"),
    ("SELECT * WHERE a = :0", "at 19"),
    ("SELECT * WHERE a = :01", "at 19"),
    ("SELECT * WHERE a = :y", "at 19"),
    ("SELECT * WHERE ANCESTOR IS :2", "at 27"),
    ("SELECT * WHERE ANCESTOR IS :1 AND ANCESTOR IS :1", "at 34"),
    ("SELECT * WHERE a IN ()", "at 21"),
    ("SELECT * WHERE a = KEY('A')", "at 26"),
    ("SELECT * WHERE a = KEY('A', 0)", "at 28"),
    ("SELECT * WHERE a = KEY('', 1)", "at 23"),
    ("SELECT * LIMIT 5,", "at 17"),
    ("SELECT * LIMIT 5, OFFSET 1", "at 18"),
    ("SELECT * LIMIT 2147483648", "at 15"),
    ("SELECT * LIMIT 1 LIMIT 2", "at 17"),
    ("SELECT * AND AND AND", "at 9"),
];

/// A text of many names, each with a comma behind it.
fn many_names(alloc: Global, count: usize) -> Result<String, AllocError> {
    let mut text = String::from_str(alloc, "SELECT")?;
    for _ in 0..count {
        text.push_str(" a,")?;
    }
    Ok(text)
}

fn many_names_are_told(alloc: Global, count: usize, want: &str) -> Result<bool, AllocError> {
    let text = many_names(alloc, count)?;
    let given = bindings(alloc)?;
    is_told(alloc, parse(alloc, text.as_str(), &given), want)
}

/// A key literal of so many elements, in a statement.
fn long_key(alloc: Global, count: usize) -> Result<String, AllocError> {
    let mut text = String::from_str(alloc, "SELECT * WHERE a = KEY('A',1")?;
    for _ in 1..count {
        text.push_str(",'A',1")?;
    }
    text.push_str(")")?;
    Ok(text)
}

fn is_key_too_long(alloc: Global) -> Result<bool, AllocError> {
    let text = long_key(alloc, 101)?;
    let given = bindings(alloc)?;
    is_told(alloc, parse(alloc, text.as_str(), &given), "at 622")
}

fn is_long_key(alloc: Global) -> Result<bool, AllocError> {
    let text = long_key(alloc, 100)?;
    let given = bindings(alloc)?;
    Ok(parse(alloc, text.as_str(), &given).is_ok())
}

#[test]
fn statements_are_read(rt: HostRuntime) -> Result<(), Fail> {
    assert_eq!(rt; first_wrong(rt.alloc(), &STATEMENTS)?, None);
    assert!(rt; many_names_are_told(rt.alloc(), 100_000, "at 300006")?);
    assert!(rt; is_key_too_long(rt.alloc())?);
    assert!(rt; is_long_key(rt.alloc())?);
    Ok(())
}
