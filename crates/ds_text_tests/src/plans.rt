//! Queries over definitions, both written as text, and what is planned for them, shown as text.
ghost use Rattle.ds_query.specs.Lawful.{IsLawfulBranch, IsLawfulNormal};

use ds_base::{
    Column, Columns, Elem, Elems, Ident, IndexValue, Key, NoMemory, Sequence, TextString, Value,
    Values,
};
use ds_indexdef::{Defs, IndexDef};
use ds_planner::{PlanRefused, PlannedIndex, PlannedScan, ScanPlan, plan, suits};
use ds_query::{Branch, Constraint, Filter, Filters, Normal, Op, Pair, Query, Select, normalize};
use std::alloc::{AllocError, Global};
use std::str::SplitWhitespace;
use std::test::Fail;

// ---- queries and definitions from text

fn put<T: Drop>(list: &mut Sequence<T>, item: T) -> Result<(), NoMemory> {
    match list.push(item) {
        Ok(()) => Ok(()),
        Err(_) => Err(AllocError),
    }
}

/// A column as `a`, or `-a` where it descends.
fn column(alloc: Global, word: &str) -> Result<Column, NoMemory> {
    match word.strip_prefix('-') {
        Some(name) => named(alloc, name, true),
        None => named(alloc, word, false),
    }
}

fn named(alloc: Global, name: &str, descending: bool) -> Result<Column, NoMemory> {
    let name = TextString::of(alloc, name)?;
    Ok(Column { name, descending })
}

fn columns(alloc: Global, words: SplitWhitespace) -> Result<Columns, NoMemory> {
    let mut columns = Columns::new(alloc);
    for word in words {
        put(&mut columns, column(alloc, word)?)?;
    }
    Ok(columns)
}

/// An equality as `a 1`.
fn equality(alloc: Global, words: SplitWhitespace) -> Result<Filter, NoMemory> {
    let mut words = words;
    let property = TextString::of(alloc, words.next().unwrap_or("?"))?;
    let number = words.next().unwrap_or("?").parse::<i64>().unwrap_or(0);
    Ok(Filter {
        property,
        op: Op::Equal,
        values: Values::from(vec![in alloc; Value::Int(number)]?),
    })
}

fn root(alloc: Global) -> Result<Key, NoMemory> {
    let kind = TextString::of(alloc, "R")?;
    let ident = Ident::Id(1);
    match Key::new(alloc, Elems::from(vec![in alloc; Elem { kind, ident }]?)) {
        Ok(key) => Ok(key),
        Err(_) => Err(AllocError),
    }
}

fn nothing_asked(alloc: Global) -> Query {
    Query {
        namespace: TextString::new(alloc),
        kind: None,
        ancestor: None,
        filters: Filters::new(alloc),
        orders: Columns::new(alloc),
        select: Select::Keys,
        cursors: false,
    }
}

fn add_clause(alloc: Global, query: &mut Query, clause: &str) -> Result<(), NoMemory> {
    let mut words = clause.split_whitespace();
    match words.next().unwrap_or("") {
        "kind" => query.kind = Some(TextString::of(alloc, "T")?),
        "under" => query.ancestor = Some(root(alloc)?),
        "where" => return put(&mut query.filters, equality(alloc, words)?),
        "order" => query.orders = columns(alloc, words)?,
        _ => {}
    }
    Ok(())
}

/// The query of clauses as `kind T`, `under`, `where a 1` and `order -c d`.
fn query(alloc: Global, text: &str) -> Result<Query, NoMemory> {
    let mut query = nothing_asked(alloc);
    for clause in text.split(';') {
        add_clause(alloc, &mut query, clause)?;
    }
    Ok(query)
}

/// A definition as `T a -c`, or `T/ a -c` where it has the ancestor flag.
fn definition(alloc: Global, kind: &str, words: SplitWhitespace) -> Result<IndexDef, NoMemory> {
    let ancestor = kind.ends_with('/');
    let kind = TextString::of(alloc, if kind.starts_with('U') { "U" } else { "T" })?;
    Ok(IndexDef {
        kind,
        ancestor,
        columns: columns(alloc, words)?,
    })
}

/// The definitions of a text as `T a c; T/ b c`.
fn definitions(alloc: Global, text: &str) -> Result<Defs, NoMemory> {
    let mut defs = Defs::new(alloc);
    for entry in text.split(';') {
        let mut words = entry.split_whitespace();
        if let Some(kind) = words.next() {
            add(&mut defs, definition(alloc, kind, words)?)?;
        }
    }
    Ok(defs)
}

fn add(defs: &mut Defs, def: IndexDef) -> Result<(), NoMemory> {
    match defs.push(def) {
        Ok(()) => Ok(()),
        Err(_) => Err(AllocError),
    }
}

// ---- what is shown

fn show_pair(alloc: Global, pair: &Pair, onto: &mut String) -> Result<(), NoMemory> {
    onto.push_str(pair.property.text())?;
    onto.push_str("=")?;
    match &pair.value {
        IndexValue::Num(n) => {
            let text = n.to_string(alloc)?;
            onto.push_str(text.as_str())
        }
        _ => onto.push_str("?"),
    }
}

fn show_column(name: &TextString, descending: bool, onto: &mut String) -> Result<(), NoMemory> {
    onto.push_str(if descending { " -" } else { " " })?;
    onto.push_str(name.text())
}

fn show_index(alloc: Global, index: &PlannedIndex, onto: &mut String) -> Result<(), NoMemory> {
    match index {
        PlannedIndex::AllByKey => onto.push_str(" all"),
        PlannedIndex::KindByKey => onto.push_str(" kind"),
        PlannedIndex::Property { name, descending } => show_column(name, *descending, onto),
        PlannedIndex::Composite { position } => {
            let text = position.to_string(alloc)?;
            onto.push_str(" #")?;
            onto.push_str(text.as_str())
        }
    }
}

/// A scan as `#1(a=1 b=2 under)`.
fn show_scan(alloc: Global, scan: &PlannedScan, onto: &mut String) -> Result<(), NoMemory> {
    show_index(alloc, &scan.index, onto)?;
    onto.push_str("(")?;
    for pair in scan.equal.as_slice() {
        show_pair(alloc, pair, onto)?;
        onto.push_str(" ")?;
    }
    onto.push_str(if scan.ancestor.is_some() {
        "under)"
    } else {
        ")"
    })
}

fn show_plan(alloc: Global, plan: &ScanPlan, onto: &mut String) -> Result<(), NoMemory> {
    for scan in plan.scans.as_slice() {
        show_scan(alloc, scan, onto)?;
    }
    Ok(())
}

fn show_constraint(
    alloc: Global,
    constraint: &Constraint,
    onto: &mut String,
) -> Result<(), NoMemory> {
    match constraint {
        Constraint::Columns => onto.push_str("columns:"),
        Constraint::Ancestor => onto.push_str("ancestor:"),
        Constraint::Equal(pair) => {
            show_pair(alloc, pair, onto)?;
            onto.push_str(":")
        }
    }
}

fn show_definition(def: &IndexDef, onto: &mut String) -> Result<(), NoMemory> {
    onto.push_str(if def.ancestor { " T/" } else { " T" })?;
    for column in def.columns.as_slice() {
        show_column(&column.name, column.descending, onto)?;
    }
    onto.push_str(" then")
}

/// What is planned for the branch; where an index is missing, what is planned with the suggestion too.
fn show_branch(
    alloc: Global,
    branch: &Branch,
    defs: &mut Defs,
    onto: &mut String,
) -> Result<(), NoMemory>
    requires { IsLawfulBranch branch.now }
{
    match plan(alloc, branch, defs) {
        Ok(plan) => show_planned(alloc, &plan, branch, defs, onto),
        Err(PlanRefused::NoMemory) => onto.push_str("no memory"),
        Err(
            PlanRefused::MissingIndex {
                constraint,
                suggestion,
            },
        ) => {
            let missing = show_missing(alloc, &constraint, &suggestion, onto);
            both(missing, show_with(alloc, branch, defs, suggestion, onto))
        }
    }
}

/// That of two steps neither was refused.
fn both(first: Result<(), NoMemory>, second: Result<(), NoMemory>) -> Result<(), NoMemory> {
    first?;
    second
}

fn show_planned(
    alloc: Global,
    plan: &ScanPlan,
    branch: &Branch,
    defs: &Defs,
    onto: &mut String,
) -> Result<(), NoMemory>
    requires { IsLawfulBranch branch.now }
{
    show_plan(alloc, plan, onto)?;
    if suits(plan, branch, defs) {
        Ok(())
    } else {
        onto.push_str(" which doesn't suit")
    }
}

fn show_missing(
    alloc: Global,
    constraint: &Constraint,
    suggestion: &IndexDef,
    onto: &mut String,
) -> Result<(), NoMemory> {
    show_constraint(alloc, constraint, onto)?;
    show_definition(suggestion, onto)
}

/// What is planned once a definition is added.
fn show_with(
    alloc: Global,
    branch: &Branch,
    defs: &mut Defs,
    suggestion: IndexDef,
    onto: &mut String,
) -> Result<(), NoMemory>
    requires { IsLawfulBranch branch.now }
{
    add(defs, suggestion)?;
    match plan(alloc, branch, defs) {
        Ok(plan) => show_plan(alloc, &plan, onto),
        Err(_) => onto.push_str(" nothing"),
    }
}

fn show_branches(
    alloc: Global,
    normal: &Normal,
    defs: &mut Defs,
    onto: &mut String,
) -> Result<(), NoMemory>
    requires { IsLawfulNormal normal.now }
{
    for branch in normal.branches.as_slice() {
        show_branch(alloc, branch, defs, onto)?;
    }
    Ok(())
}

fn show_query(
    alloc: Global,
    query: &Query,
    defs: &mut Defs,
    onto: &mut String,
) -> Result<(), NoMemory> {
    if !query.is_lawful() {
        return Ok(());
    }
    match normalize(alloc, query) {
        Ok(normal) => show_branches(alloc, &normal, defs, onto),
        Err(_) => onto.push_str("no normal form"),
    }
}

/// What is planned for a query over definitions.
fn show(alloc: Global, asked: &str, defined: &str, onto: &mut String) -> Result<(), NoMemory> {
    let mut defs = definitions(alloc, defined)?;
    let query = query(alloc, asked)?;
    show_query(alloc, &query, &mut defs, onto)
}

// ---- the table

/// Queries, definitions, and what is planned.
const PLANS: [(&str, &str, &str); 24] = [
    // two indexes joined, one of all, and what is missing
    (
        "kind T; where a 1; where b 2; order c",
        "T a c; T b c",
        " #0(a=1 ) #1(b=2 )",
    ),
    (
        "kind T; where a 1; where b 2; order c",
        "T a c; T b c; T b a c",
        " #2(a=1 b=2 )",
    ),
    (
        "kind T; where a 1; where b 2; order c",
        "T a c",
        "b=2: T a b c then #1(a=1 b=2 )",
    ),
    (
        "kind T; where a 1; where a 2; where b 3; order c",
        "T b -a c",
        " #0(a=1 b=3 ) #0(a=2 b=3 )",
    ),
    // built-in indexes
    ("kind T", "", " kind()"),
    ("kind T; order -c", "", " -c()"),
    ("kind T; where a 1; where b 2", "", " a(a=1 ) b(b=2 )"),
    ("kind T; where a 1; where a 2", "", " a(a=1 ) a(a=2 )"),
    ("kind T; under; where a 1", "", " a(a=1 )"),
    // without a kind
    ("", "T a", " all()"),
    ("under", "T/", " all()"),
    // the three constraints, without an ancestor and with one
    ("kind T; order b c", "T b -c", "columns: T b c then #1()"),
    (
        "kind T; under; order b c",
        "T b -c",
        "columns: T/ b c then #1(under)",
    ),
    (
        "kind T; under; order c",
        "T/ c d",
        "ancestor: T/ c then #1(under)",
    ),
    ("kind T; where a 1; order c", "", "a=1: T a c then #0(a=1 )"),
    (
        "kind T; under; where a 1; order c",
        "T/ c",
        "a=1: T/ a c then #1(a=1 under)",
    ),
    // ancestors
    (
        "kind T; under; where a 1; order c",
        "T/ c; T a c",
        " #1(a=1 ) #0(under)",
    ),
    (
        "kind T; under; where a 1; order c",
        "T a c; T/ -a c",
        " #1(a=1 under)",
    ),
    (
        "kind T; where a 1; order c",
        "T/ a c",
        "a=1: T a c then #1(a=1 )",
    ),
    // `__key__` in both directions
    (
        "kind T; order -__key__",
        "",
        "columns: T -__key__ then #0()",
    ),
    (
        "kind T; where a 1; order -__key__",
        "T a; T a -__key__",
        " #1(a=1 )",
    ),
    (
        "kind T; where a 1; order b __key__",
        "T a b -__key__; T a b __key__",
        " #1(a=1 )",
    ),
    // an index with a property that isn't asked for, and one of another kind
    (
        "kind T; where a 1; order c",
        "T x a c; U a c; T a c",
        " #2(a=1 )",
    ),
    (
        "kind T; where a 1; order c",
        "T a x c; U a c",
        "a=1: T a c then #2(a=1 )",
    ),
];

fn is_planned(alloc: Global, row: &(&str, &str, &str)) -> Result<bool, NoMemory> {
    let mut text = String::new(alloc);
    show(alloc, row.0, row.1, &mut text)?;
    Ok(text.as_str() == row.2)
}

/// The place of the first row for which something else is planned.
fn first_wrong(alloc: Global) -> Result<Option<usize>, NoMemory> {
    for (place, row) in PLANS.iter().enumerate() {
        if !is_planned(alloc, row)? {
            return Ok(Some(place));
        }
    }
    Ok(None)
}

#[test]
fn plans_and_misses(rt: HostRuntime) -> Result<(), Fail> {
    assert_eq!(rt; first_wrong(rt.alloc())?, None);
    Ok(())
}
