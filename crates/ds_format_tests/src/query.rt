//! Queries and their normal forms, or why they have none. A query is written as clauses with `;` between them, and what
//! `normalize` gives is shown as text.
use ds_base::{
    Column, Columns, Elem, Elems, Ident, IndexValue, Key, Names, NoMemory, Sequence, TextString,
    Value, Values,
};
use ds_query::{
    Bound, Branch, Filter, Filters, Normal, Op, Query, QueryRefused, Reason, Select, normalize,
};
use std::alloc::{AllocError, Global};
use std::str::SplitWhitespace;
use std::test::Fail;

// ---- queries from text

fn put<T: Drop>(list: &mut Sequence<T>, item: T) -> Result<(), NoMemory> {
    match list.push(item) {
        Ok(()) => Ok(()),
        Err(_) => Err(AllocError),
    }
}

fn key(alloc: Global) -> Result<Key, NoMemory> {
    let kind = TextString::of(alloc, "T")?;
    let ident = Ident::Id(1);
    let path = Elems::from(vec![in alloc; Elem { kind, ident }]?);
    match Key::new(alloc, path) {
        Ok(key) => Ok(key),
        Err(_) => Err(AllocError),
    }
}

/// A number, `key` for a key, or `text` for a long text.
fn value(alloc: Global, word: &str) -> Result<Value, NoMemory> {
    match word {
        "text" => Ok(Value::Text(TextString::of(alloc, "t")?)),
        "key" => Ok(Value::Key(key(alloc)?)),
        _ => Ok(Value::Int(word.parse::<i64>().unwrap_or(0))),
    }
}

fn operator(word: &str) -> Op {
    match word {
        "<" => Op::Less,
        "<=" => Op::LessEqual,
        ">" => Op::Greater,
        ">=" => Op::GreaterEqual,
        "!=" => Op::NotEqual,
        "in" => Op::OneOf,
        _ => Op::Equal,
    }
}

fn values_of(alloc: Global, words: SplitWhitespace) -> Result<Values, NoMemory> {
    let mut values = Values::new(alloc);
    for word in words {
        put(&mut values, value(alloc, word)?)?;
    }
    Ok(values)
}

/// A filter as `a in 1 2`.
fn filter(alloc: Global, words: SplitWhitespace) -> Result<Filter, NoMemory> {
    let mut words = words;
    let name = words.next().unwrap_or("?");
    let op = operator(words.next().unwrap_or("?"));
    let values = values_of(alloc, words)?;
    let property = TextString::of(alloc, name)?;
    Ok(Filter {
        property,
        op,
        values,
    })
}

/// An order as `a desc`.
fn order(alloc: Global, words: SplitWhitespace) -> Result<Column, NoMemory> {
    let mut words = words;
    let name = TextString::of(alloc, words.next().unwrap_or("?"))?;
    let descending = words.next() == Some("desc");
    Ok(Column { name, descending })
}

fn nothing_asked(alloc: Global) -> Query {
    Query {
        namespace: TextString::new(alloc),
        kind: None,
        ancestor: None,
        filters: Filters::new(alloc),
        orders: Columns::new(alloc),
        select: Select::Keys,
        cursors: false,
    }
}

/// Adds what a clause asks, and the name that it selects to the names.
fn add_clause(
    alloc: Global,
    query: &mut Query,
    names: &mut Names,
    clause: &str,
) -> Result<(), NoMemory> {
    let mut words = clause.split_whitespace();
    match words.next().unwrap_or("") {
        "kind" => query.kind = Some(TextString::of(alloc, "T")?),
        "where" => return put(&mut query.filters, filter(alloc, words)?),
        "order" => return put(&mut query.orders, order(alloc, words)?),
        "select" => return put(names, TextString::of(alloc, words.next().unwrap_or("?"))?),
        "cursor" => query.cursors = true,
        _ => {}
    }
    Ok(())
}

fn select_of(names: Names) -> Select {
    if names.len() == 0 {
        Select::Keys
    } else {
        Select::Projection(names)
    }
}

/// Adds what the clauses ask, and gives the names that they select.
fn add_clauses(alloc: Global, query: &mut Query, text: &str) -> Result<Names, NoMemory> {
    let mut names = Names::new(alloc);
    for clause in text.split(';') {
        add_clause(alloc, query, &mut names, clause)?;
    }
    Ok(names)
}

/// The query of clauses as `kind T`, `where a in 1 2`, `order a desc`, `select a` and `cursor`.
fn query(alloc: Global, text: &str) -> Result<Query, NoMemory> {
    let mut query = nothing_asked(alloc);
    query.select = select_of(add_clauses(alloc, &mut query, text)?);
    Ok(query)
}

// ---- what is shown

fn show_value(alloc: Global, value: &IndexValue, onto: &mut String) -> Result<(), NoMemory> {
    match value {
        IndexValue::Num(n) => {
            let text = n.to_string(alloc)?;
            onto.push_str(text.as_str())
        }
        IndexValue::Key(_) => onto.push_str("key"),
        _ => onto.push_str("?"),
    }
}

/// A bound as `[1 ` or `1) `.
fn show_bound(
    alloc: Global,
    bound: &Option<Bound>,
    marks: (&str, &str),
    onto: &mut String,
) -> Result<(), NoMemory> {
    let Some(bound) = bound else {
        return Ok(());
    };
    onto.push_str(if bound.inclusive { marks.0 } else { marks.1 })?;
    show_value(alloc, &bound.value, onto)?;
    onto.push_str(" ")
}

fn show_columns(columns: &Columns, onto: &mut String) -> Result<(), NoMemory> {
    for column in columns.as_slice() {
        onto.push_str(column.name.text())?;
        onto.push_str(if column.descending { "- " } else { "+ " })?;
    }
    Ok(())
}

fn show_branch(alloc: Global, branch: &Branch, onto: &mut String) -> Result<(), NoMemory> {
    for pair in branch.equal.as_slice() {
        onto.push_str(pair.property.text())?;
        onto.push_str("=")?;
        show_value(alloc, &pair.value, onto)?;
        onto.push_str(" ")?;
    }
    show_bound(alloc, &branch.range.lower, (">=", ">"), onto)?;
    show_bound(alloc, &branch.range.upper, ("<=", "<"), onto)?;
    show_columns(&branch.columns, onto)
}

fn show_normal(alloc: Global, normal: &Normal, onto: &mut String) -> Result<(), NoMemory> {
    for branch in normal.branches.as_slice() {
        show_branch(alloc, branch, onto)?;
        onto.push_str("/ ")?;
    }
    show_columns(&normal.merged, onto)?;
    onto.push_str(if normal.several { "several" } else { "single" })
}

fn name_of(reason: Reason) -> &'static str {
    match reason {
        Reason::KeyValue => "key_value",
        Reason::UnindexedValue => "unindexed_value",
        Reason::Kindless => "kindless",
        Reason::Inequalities => "inequalities",
        Reason::EqualAndRange => "equal_and_range",
        Reason::FirstOrder => "first_order",
        Reason::ProjectionKey => "projection_key",
        Reason::ProjectionRepeat => "projection_repeat",
        Reason::ProjectionEqual => "projection_equal",
        Reason::SeveralCursor => "several_cursor",
    }
}

fn show_count(alloc: Global, count: u64, onto: &mut String) -> Result<(), NoMemory> {
    let text = count.to_string(alloc)?;
    onto.push_str(text.as_str())
}

fn show_answer(
    alloc: Global,
    answer: &Result<Normal, QueryRefused>,
    onto: &mut String,
) -> Result<(), NoMemory> {
    match answer {
        Ok(normal) => show_normal(alloc, normal, onto),
        Err(QueryRefused::Bad(reason)) => onto.push_str(name_of(*reason)),
        Err(QueryRefused::TooManySubqueries { count }) => show_count(alloc, *count, onto),
        Err(QueryRefused::NoMemory) => onto.push_str("no memory"),
    }
}

fn show_query(alloc: Global, query: &Query, onto: &mut String) -> Result<(), NoMemory> {
    if query.is_lawful() {
        show_answer(alloc, &normalize(alloc, query), onto)
    } else {
        onto.push_str("wrong number of values")
    }
}

/// The normal form of a query as text, or its refusal.
fn show(alloc: Global, text: &str, onto: &mut String) -> Result<(), NoMemory> {
    let query = query(alloc, text)?;
    show_query(alloc, &query, onto)
}

// ---- the tables

/// Queries, and what they are shown as.
const FORMS: [(&str, &str); 24] = [
    ("", "__key__+ / __key__+ single"),
    (
        "order __key__ asc; where __key__ > key",
        ">key __key__+ / __key__+ single",
    ),
    ("kind T; order v desc", "v- __key__+ / v- __key__+ single"),
    (
        "kind T; order a asc; order a desc; order __key__ desc; order b asc",
        "a+ __key__- / a+ __key__- single",
    ),
    (
        "kind T; where b = 2; where a = 3; where a = 1; where b = 2; order a desc; order c asc",
        "a=1 a=3 b=2 c+ __key__+ / c+ __key__+ single",
    ),
    (
        "kind T; where v > 3; where v < 6",
        ">3 <6 v+ __key__+ / v+ __key__+ single",
    ),
    (
        "kind T; where v >= 1; where v > 1; where v < 9; where v <= 5; order v desc",
        ">1 <=5 v- __key__+ / v- __key__+ single",
    ),
    (
        "kind T; where v > 1; where v >= 2; where v <= 5; where v < 5",
        ">=2 <5 v+ __key__+ / v+ __key__+ single",
    ),
    (
        "kind T; where q > 1; select p; select q",
        ">1 q+ p+ __key__+ / q+ p+ __key__+ single",
    ),
    (
        "kind T; where q > 1; order q asc; order r desc; select p; select r",
        ">1 q+ r- p+ __key__+ / q+ r- p+ __key__+ single",
    ),
    (
        "kind T; where __key__ = key; order __key__ desc",
        ">=key <=key __key__- / __key__- single",
    ),
    (
        "kind T; where a = 1; select b",
        "a=1 b+ __key__+ / b+ __key__+ single",
    ),
    (
        "kind T; where v in 1 2 1; order v asc",
        "v=1 __key__+ / v=2 __key__+ / v=1 __key__+ / v+ __key__+ several",
    ),
    (
        "kind T; where v in 1; order v asc; order v desc",
        "v=1 __key__+ / v+ __key__+ several",
    ),
    (
        "kind T; where v != 3; order v desc",
        "<3 v- __key__+ / >3 v- __key__+ / v- __key__+ several",
    ),
    (
        "kind T; where a in 1 2; where b != 5; where c in 7 8",
        "a=1 c=7 <5 b+ __key__+ / a=1 c=8 <5 b+ __key__+ / a=1 c=7 >5 b+ __key__+ / a=1 c=8 >5 b+ __key__+ \
        / a=2 c=7 <5 b+ __key__+ / a=2 c=8 <5 b+ __key__+ / a=2 c=7 >5 b+ __key__+ / a=2 c=8 >5 b+ __key__+ / b+ __key__+ several",
    ),
    (
        "kind T; where p in 1 2; where q > 0; order p desc; order q asc",
        "p=1 >0 q+ __key__+ / p=2 >0 q+ __key__+ / p- q+ __key__+ several",
    ),
    (
        "kind T; where p in 1; where p = 2; order p desc",
        "p=1 p=2 __key__+ / p- __key__+ several",
    ),
    (
        "kind T; where __key__ in key key",
        ">=key <=key __key__+ / >=key <=key __key__+ / __key__+ several",
    ),
    (
        "where __key__ != key",
        "<key __key__+ / >key __key__+ / __key__+ several",
    ),
    (
        "kind T; where v in 1 2 3 4 5 6 7 8 9 10 11 12 13 14 15 16 17 18 19 20 21 22 23 24 25 26 27 28 29 30 31",
        "31",
    ),
    (
        "kind T; where v in 1 2 3 4 5 6 7 8; where w != 1; where u in 1 2",
        "32",
    ),
    ("kind T; where v in", "wrong number of values"),
    ("kind T; where v = 1 2", "wrong number of values"),
];

/// What makes each reason hold and no earlier one; `kindless` holds where no kind is asked for.
const REASONS: [(&str, &str); 10] = [
    ("key_value", "where __key__ = 1"),
    ("unindexed_value", "where u = text"),
    ("kindless", "where w = 1"),
    ("inequalities", "where a > 1; where b > 1"),
    ("equal_and_range", "where c = 1; where c > 0"),
    ("first_order", "where c > 1; order d asc"),
    ("projection_key", "select p; select __key__"),
    ("projection_repeat", "select s; select s"),
    ("projection_equal", "where r = 1; select r"),
    ("several_cursor", "where e in 1; cursor"),
];

fn is_shown(alloc: Global, form: &(&str, &str)) -> Result<bool, NoMemory> {
    let mut text = String::new(alloc);
    show(alloc, form.0, &mut text)?;
    Ok(text.as_str() == form.1)
}

fn forms_are_shown(alloc: Global) -> Result<bool, NoMemory> {
    for form in &FORMS {
        if !is_shown(alloc, form)? {
            return Ok(false);
        }
    }
    Ok(true)
}

/// Whether the first of two reasons is told where both hold.
fn is_told(alloc: Global, first: &(&str, &str), second: &(&str, &str)) -> Result<bool, NoMemory> {
    let kindless = first.0 == "kindless" || second.0 == "kindless";
    let mut text = String::new(alloc);
    text.push_str(if kindless { "" } else { "kind T; " })?;
    text.push_str(first.1)?;
    text.push_str("; ")?;
    text.push_str(second.1)?;
    is_shown(alloc, &(text.as_str(), first.0))
}

/// Whether the first reason is told where one of those from a place on holds too.
fn later_are_silent(alloc: Global, first: &(&str, &str), from: usize) -> Result<bool, NoMemory> {
    for second in REASONS.iter().skip(from) {
        if !is_told(alloc, first, second)? {
            return Ok(false);
        }
    }
    Ok(true)
}

/// Each reason alone, and each two of them at once.
fn first_reasons_are_told(alloc: Global) -> Result<bool, NoMemory> {
    for (i, first) in REASONS.iter().enumerate() {
        if !is_told(alloc, first, &("", ""))? || !later_are_silent(alloc, first, i + 1)? {
            return Ok(false);
        }
    }
    Ok(true)
}

#[test]
fn queries_have_their_forms(rt: HostRuntime) -> Result<(), Fail> {
    let alloc = rt.alloc();
    assert!(rt; forms_are_shown(alloc)?);
    assert!(rt; first_reasons_are_told(alloc)?);
    Ok(())
}
