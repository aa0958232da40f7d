//! Queries of a store, and answers that compare.
ghost use Rattle.std.specs.Prelude.{◌≡◌, ◌<◌, ◌≤◌, Bool, IfOk, IfSome, IsTrue};
ghost use Rattle.ds_query.specs.Lawful.{IsLawfulNormal, SuitsSeveral};

use crate::made::key;
use ds_base::{Columns, Ident, Key, NoMemory, TextString};
use ds_engine::EngineRefused;
use ds_entity::{Item, Seen};
use ds_io::{Gate, Steps};
use ds_query::{Filters, Normal, Query, Select, Window, normalize};
use ds_store::{Answer, Ledgers, Names, Pass, Store, StrongRefused};
use std::alloc::{AllocError, Global};
use std::marker::Brand;
use std::sync::Wait;
use std::sync::ledger::{Blank, Ledger};
use std::thread::Threads;

/// The normal form of the query for the keys of kind `T`, under an ancestor or anywhere.
fn keys(alloc: Global, ancestor: Option<Key>) -> Result<Normal, NoMemory>
    ensures { IfOk result IsLawfulNormal }
{
    let kind = TextString::of(alloc, "T")?;
    normal_of(alloc, &query_of(alloc, kind, ancestor))
}

/// The query for the keys of this kind, under an ancestor or anywhere.
fn query_of(alloc: Global, kind: TextString, ancestor: Option<Key>) -> Query {
    Query {
        namespace: TextString::new(alloc),
        kind: Some(kind),
        ancestor,
        filters: Filters::new(alloc),
        orders: Columns::new(alloc),
        select: Select::Keys,
        cursors: false,
    }
}

/// The normal form of a query.
fn normal_of(alloc: Global, query: &Query) -> Result<Normal, NoMemory>
    ensures { IfOk result IsLawfulNormal }
{
    if !query.is_lawful() {
        return Err(AllocError);
    }
    normalize(alloc, query).map_err(|_| AllocError)
}

/// All results.
fn all() -> Window
    ensures { (several : Bool) → SuitsSeveral several result }
{
    Window {
        start: None,
        end: None,
        offset: 0,
        limit: None,
    }
}

/// Whether these entities were found, and no others; the counts of all shards together, or the place; and what is told beside that.
pub(crate) type Asked = Option<(bool, u64, u64)>;

/// The answer that finds just the entities with the names that were handed over.
pub(crate) fn finds(seen: u64, beside: u64) -> Asked {
    Some((true, seen, beside))
}

fn told_if(found: &Result<Answer, EngineRefused>, names: &[&str]) -> Asked {
    match found {
        Ok(answer) => told_of(answer, names),
        Err(_) => None,
    }
}

fn told_of(answer: &Answer, names: &[&str]) -> Asked {
    let exact = are_named(answer.results.as_slice(), names);
    Some((exact, seen(&answer.seen), answer.beside))
}

fn seen(seen: &Seen) -> u64 {
    match seen {
        Seen::Counts(counts) => sum(counts.as_slice()),
        Seen::Place(place) => *place,
    }
}

fn sum(counts: &[u64]) -> u64 {
    let mut sum: u64 = 0;
    for count in counts {
        sum = sum.wrapping_add(*count);
    }
    sum
}

fn are_named(items: &[Item], names: &[&str]) -> bool {
    if items.len() != names.len() {
        return false;
    }
    for (item, name) in items.iter().zip(names) {
        if !is_named(&item.key, name) {
            return false;
        }
    }
    true
}

fn is_named(key: &Key, name: &str) -> bool {
    match key.elems().as_slice() {
        [elem] => match &elem.ident {
            Ident::Name(text) => text.text() == name,
            Ident::Id(_) => false,
        },
        _ => false,
    }
}

/// A query of all shards. There is no answer where an index is missing.
fn query<J: Names, H: Wait + Drop>(
    store: &Store<J, H>,
    ledgers: &Ledgers<J>,
    pass: &mut Pass<J>,
    normal: &Normal,
    names: &[&str],
) -> Asked
    requires { IsLawfulNormal normal.now }
{
    let found = counted::<J, Brand, H>(ledgers.blank(), store, pass, normal);
    told_if(&found, names)
}

fn counted<J: Names, L: Ledger, H: Wait + Drop>(
    blank: Blank,
    store: &Store<J, H>,
    pass: &mut Pass<J>,
    normal: &Normal,
) -> Result<Answer, EngineRefused>
    requires name { blank.name ≡ L.name }
    requires parts { blank.parts ≡ L.parts }
    requires some { 0 < blank.parts }
    requires ledger { L.parts ≡ J.ledger }
    requires lawful { IsLawfulNormal normal.now }
{
    let mut steps = Steps::<L>::new(blank);
    store.query(pass, normal, &all(), &mut steps)
}

/// The same by a search of all shards at once.
fn query_wide<J: Names, R: Threads + Sync, H: Wait + Drop, G: Gate + Sync>(
    rt: &R,
    store: &Store<J, H>,
    ledgers: &Ledgers<J>,
    pass: &mut Pass<J>,
    normal: &Normal,
    gate: &G,
    names: &[&str],
) -> Asked
    requires { IsLawfulNormal normal.now }
{
    let found = store.query_wide(rt, pass, normal, &all(), gate, ledgers);
    told_if(&found, names)
}

/// What a query with an ancestor gives, or how many entries lie below the touch place, how many are applied, and the commit of the
/// last of them.
pub(crate) type AskedStrongly = (Asked, Option<(u64, u64, u64)>);

fn is_seen(at: Option<u64>, place: u64) -> bool
    ensures { IsTrue result → IfSome at (λ touched. touched ≤ place) }
{
    match at {
        Some(touched) => touched <= place,
        None => true,
    }
}

/// A query with an ancestor, inside a transaction at its touch place, or outside one. There is no answer where an index is missing, or
/// that place is above the pass's.
fn strong_query<J: Names, R: Wait, H: Wait + Drop>(
    rt: &R,
    store: &Store<J, H>,
    ledgers: &Ledgers<J>,
    pass: &mut Pass<J>,
    normal: &Normal,
    at: Option<u64>,
    names: &[&str],
) -> AskedStrongly
    requires { IsLawfulNormal normal.now }
{
    if !is_seen(at, pass.place()) {
        return (None, None);
    }
    let found = counted_strongly::<J, Brand, R, H>(ledgers.blank(), rt, store, pass, normal, at);
    told_strongly(&found, names)
}

fn told_strongly(found: &Result<Answer, StrongRefused>, names: &[&str]) -> AskedStrongly {
    match found {
        Ok(answer) => (told_of(answer, names), None),
        Err(StrongRefused::Expired(e)) => (None, Some((e.snapshot, e.applied, e.commit))),
        Err(_) => (None, None),
    }
}

fn counted_strongly<J: Names, L: Ledger, R: Wait, H: Wait + Drop>(
    blank: Blank,
    rt: &R,
    store: &Store<J, H>,
    pass: &mut Pass<J>,
    normal: &Normal,
    at: Option<u64>,
) -> Result<Answer, StrongRefused>
    requires name { blank.name ≡ L.name }
    requires parts { blank.parts ≡ L.parts }
    requires some { 0 < blank.parts }
    requires ledger { L.parts ≡ J.ledger }
    requires lawful { IsLawfulNormal normal.now }
    requires at { IfSome at (λ place. place ≤ pass.old.place) }
{
    let mut steps = Steps::<L>::new(blank);
    store.strong_query(rt, pass, normal, &all(), at, &mut steps)
}

/// A query of all shards for what is of kind `T`.
pub(crate) fn find<J: Names, H: Wait + Drop>(
    alloc: Global,
    store: &Store<J, H>,
    ledgers: &Ledgers<J>,
    pass: &mut Pass<J>,
    names: &[&str],
) -> Result<Asked, NoMemory> {
    let anywhere = keys(alloc, None)?;
    Ok(query(store, ledgers, pass, &anywhere, names))
}

/// The same by a search of all shards at once.
pub(crate) fn find_wide<J: Names, R: Threads + Sync, H: Wait + Drop, G: Gate + Sync>(
    rt: &R,
    alloc: Global,
    store: &Store<J, H>,
    ledgers: &Ledgers<J>,
    pass: &mut Pass<J>,
    gate: &G,
    names: &[&str],
) -> Result<Asked, NoMemory> {
    let anywhere = keys(alloc, None)?;
    Ok(query_wide(rt, store, ledgers, pass, &anywhere, gate, names))
}

/// A query for what is under an ancestor, inside a transaction at its touch place, or outside one.
pub(crate) fn find_under<J: Names, R: Wait, H: Wait + Drop>(
    rt: &R,
    alloc: Global,
    store: &Store<J, H>,
    ledgers: &Ledgers<J>,
    pass: &mut Pass<J>,
    ancestor: &str,
    at: Option<u64>,
    names: &[&str],
) -> Result<AskedStrongly, NoMemory> {
    let under = keys_under(alloc, ancestor)?;
    Ok(strong_query(rt, store, ledgers, pass, &under, at, names))
}

fn keys_under(alloc: Global, ancestor: &str) -> Result<Normal, NoMemory>
    ensures { IfOk result IsLawfulNormal }
{
    let ancestor = key(alloc, ancestor)?;
    keys(alloc, Some(ancestor))
}
