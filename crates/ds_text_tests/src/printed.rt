//! Statements as they are printed, and as they are read back.

use crate::statements::bindings;
use crate::told::is_told;
use ds_base::{Columns, NamedValues, NoMemory, TextString, Value, Values};
use ds_gql::{Bindings, Statement, parse};
use ds_gql_printing::{PrintRefused, Printed, can_print, print};
use ds_query::{Filters, Query, Select};
use std::alloc::{AllocError, Global};
use std::test::Fail;

/// The number of arguments and the text that a statement is printed as, or why it is refused.
fn show(
    alloc: Global,
    printed: Result<Printed, PrintRefused>,
    onto: &mut String,
) -> Result<(), AllocError> {
    match printed {
        Ok(printed) => show_printed(alloc, &printed, onto),
        Err(PrintRefused::Name) => onto.push_str("name"),
        Err(PrintRefused::NoMemory) => onto.push_str("no memory"),
    }
}

fn show_printed(alloc: Global, printed: &Printed, onto: &mut String) -> Result<(), AllocError> {
    let count = printed.args.len().to_string(alloc)?;
    onto.push_str(count.as_str())?;
    onto.push_str(" ")?;
    onto.push_str(printed.text.text())
}

/// Whether a statement is printed as this.
fn is_printed(alloc: Global, statement: &Statement, want: &str) -> Result<bool, AllocError> {
    let mut shown = String::new(alloc);
    if can_print(statement) {
        show(alloc, print(alloc, statement), &mut shown)?;
    }
    Ok(shown.as_str() == want)
}

/// Whether a text is read, and printed as this.
fn prints(alloc: Global, text: &str, given: &Bindings, want: &str) -> Result<bool, AllocError> {
    match parse(alloc, text, given) {
        Ok(statement) => is_printed(alloc, &statement, want),
        Err(_) => Ok(false),
    }
}

/// Two dates.
fn dates(alloc: Global) -> Result<Bindings, NoMemory> {
    let args = vec![in alloc; Value::Date(9), Value::Date(8)]?;
    Ok(Bindings {
        args: Values::from(args),
        names: NamedValues::new(alloc),
    })
}

/// Statements, and what they are printed as.
const STATEMENTS: [(&str, &str); 4] = [
    (
        "SELECT * FROM Greeting WHERE ANCESTOR IS :1 ORDER BY date DESC LIMIT 1",
        "0 SELECT * FROM Greeting WHERE ANCESTOR IS KEY ( 'Guestbook' , 'default' ) ORDER BY date DESC LIMIT 1",
    ),
    (
        "select a, \"b c\", \"from\" where x >= -5 and y in (1, 'it''s', :2)",
        "0 SELECT a , \"b c\" , \"from\" WHERE x >= -5 AND y IN ( 1 , 'it''s' , 7 )",
    ),
    (
        "select * where a = true and b != null order by z, k desc limit 2, 3",
        "0 SELECT * WHERE a = TRUE AND b != NULL ORDER BY z ASC , k DESC LIMIT 3 OFFSET 2",
    ),
    ("select __key__ offset 5", "0 SELECT __key__ OFFSET 5"),
];

/// The first statement that is printed otherwise.
fn first_wrong(alloc: Global) -> Result<Option<&'static str>, AllocError> {
    let given = bindings(alloc)?;
    for row in &STATEMENTS {
        if !prints(alloc, row.0, &given, row.1)? {
            return Ok(Some(row.0));
        }
    }
    Ok(None)
}

const CITED: &str = "SELECT * WHERE a = :2 AND b IN (:1, 1, :2)";

const CITED_PRINTED: &str = "3 SELECT * WHERE a = :1 AND b IN ( :2 , 1 , :3 )";

fn cites_dates(alloc: Global) -> Result<bool, AllocError> {
    let given = dates(alloc)?;
    prints(alloc, CITED, &given, CITED_PRINTED)
}

/// A statement of this kind and no more.
fn of_kind(alloc: Global, kind: &str) -> Result<Statement, NoMemory> {
    let kind = TextString::of(alloc, kind)?;
    Ok(Statement {
        query: Query {
            namespace: TextString::new(alloc),
            kind: Some(kind),
            ancestor: None,
            filters: Filters::new(alloc),
            orders: Columns::new(alloc),
            select: Select::Entities,
            cursors: false,
        },
        offset: 0,
        limit: None,
    })
}

/// Kinds, and what a statement of each is printed as.
const KINDS: [(&str, &str); 4] = [
    ("T", "0 SELECT * FROM T"),
    ("select", "0 SELECT * FROM \"select\""),
    ("a\"b", "name"),
    ("", "name"),
];

fn is_kind_printed(alloc: Global, kind: &str, want: &str) -> Result<bool, AllocError> {
    let statement = of_kind(alloc, kind)?;
    is_printed(alloc, &statement, want)
}

fn kinds_are_printed(alloc: Global) -> Result<bool, AllocError> {
    for row in &KINDS {
        if !is_kind_printed(alloc, row.0, row.1)? {
            return Ok(false);
        }
    }
    Ok(true)
}

/// Whether this is told of a printed statement that is read again.
fn is_read_back(
    alloc: Global,
    printed: Result<Printed, PrintRefused>,
    want: &str,
) -> Result<bool, AllocError> {
    match printed {
        Ok(printed) => {
            let given = Bindings {
                args: printed.args,
                names: NamedValues::new(alloc),
            };
            is_told(alloc, parse(alloc, printed.text.text(), &given), want)
        }
        Err(_) => Ok(false),
    }
}

fn reads_back(alloc: Global, kind: &str, want: &str) -> Result<bool, AllocError> {
    let statement = of_kind(alloc, kind)?;
    if can_print(&statement) {
        is_read_back(alloc, print(alloc, &statement), want)
    } else {
        Ok(false)
    }
}

#[test]
fn statements_are_printed(rt: HostRuntime) -> Result<(), Fail> {
    assert_eq!(rt; first_wrong(rt.alloc())?, None);
    assert!(rt; cites_dates(rt.alloc())?);
    assert!(rt; kinds_are_printed(rt.alloc())?);
    assert!(rt; reads_back(rt.alloc(), "a b", "*|a b|||| 0+")?);
    Ok(())
}
