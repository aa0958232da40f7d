//! The rows of a block, with their first bytes as numbers beside them, so that halving touches few rows.
ghost use Rattle.std.specs.Prelude.{◌≡◌, ℕ, ◌+◌, ◌<◌, ◌≤◌, Bool, List, [], ◌++◌, length, take, drop, slice_index_or, option_copied, IfOk};
ghost use Rattle.std.specs.Prelude.{OnErr, IsTrue, true};
ghost use Rattle.std.specs.List.{insert};
ghost use Rattle.ds_table.specs.Versions.{is_before};
ghost use Rattle.ds_table.specs.Places.{row_before, IsPlace, IsRising};
ghost use Rattle.ds_table.specs.Heads.{number_behind, head_of, heads_of, Shares, IsAlike};
ghost use Rattle.std.specs.List.{AllByRecursion as Each};
ghost use Rattle.ds_base.specs.KeyOrder.{bytes_cmp};
ghost use Rattle.std.specs.Vec.{vec_capacity};

use crate::block::MOST_VERSIONS;
use crate::places::is_before_row;
use ds_base::ByteString;
use ds_lanes::common_prefix;
use std::alloc::{AllocError, Global};
use std::cmp::Ordering;
use std::marker::Model;

/// Up to 256 rows, for which the room is taken when it is made. All begin with the same `shared` bytes; the eight bytes behind
/// them stand as a number, a row's head, in a column of their own. A search compares the shared bytes once, and then heads,
/// which lie side by side; it looks at a row only where the heads are the same.
#[derive(Drop)]
pub struct Rows {
    rows: Vec<ByteString>,
    heads: Vec<u64>,
    shared: usize,
}

impl Model for Rows {
    ghost use Rattle.std.specs.Prelude.{List, ℕ};
    ghost use Rattle.std.specs.Vec.{vec_capacity};
    ghost use Rattle.ds_table.specs.Heads.{IsRows};

    ghost Value = { List (List ℕ) };

    ghost view = { λ r. r.rows.items };

    ghost invariant = { λ r. IsRows r.rows.items r.heads.items r.shared (vec_capacity r.rows) (vec_capacity r.heads) };
}

impl Rows {
    /// No rows, with room for all that there may be. Refused: lack of memory.
    pub fn new(alloc: Global) -> Result<Rows, AllocError>
        ensures { IfOk result (λ r. r ≡ []) }
    {
        let rows = Vec::with_capacity(alloc, MOST_VERSIONS)?;
        let heads = Vec::with_capacity(alloc, MOST_VERSIONS)?;
        Ok(Rows {
            rows,
            heads,
            shared: 0,
        })
    }

    /// How many rows there are.
    pub fn len(&self) -> usize
        ensures { result ≡ length self.now }
    {
        self.rows.len()
    }

    /// The row at this place.
    pub fn row(&self, i: usize) -> &[u8]
        requires { i < length self.now }
        ensures { (d : List ℕ) → result.now ≡ slice_index_or self.now i d }
    {
        self.rows[i].bytes()
    }

    /// How many of the rows come before this one, or aren't above it where `same_too`.
    pub fn place(&self, row: &[u8], same_too: bool) -> usize
        requires { IsRising self.now }
        ensures { IsPlace (row_before row.now same_too) self.now result }
    {
        count_before(
            self.rows.as_slice(),
            self.heads.as_slice(),
            self.shared,
            row,
            same_too,
        )
    }

    /// How many of the rows are below the bound: all where there is none.
    pub fn place_of_bound(&self, below: Option<&[u8]>) -> usize
        requires { IsRising self.now }
        ensures { IsPlace (is_before (option_copied below.entry)) self.now result }
    {
        match below {
            Some(row) => self.place(row, false),
            None => self.rows.len(),
        }
    }

    /// Puts a row at this place. It takes no memory.
    pub fn insert(&mut self, i: usize, row: ByteString)
        requires place { i ≤ length self.old }
        requires room { length self.old < 256 }
        ensures { self.new ≡ insert self.old i row }
    {
        let shared = shared_with(self.rows.as_slice(), self.shared, row.bytes());
        settle(self.rows.as_slice(), &mut self.heads, self.shared, shared);
        self.shared = shared;
        let head = head_of(row.bytes(), shared);
        let _ = self.rows.insert(i, row);
        let _ = self.heads.insert(i, head);
    }

    /// Takes out the row at this place.
    pub fn remove(&mut self, i: usize)
        requires { i < length self.old }
        ensures { self.new ≡ take i self.old ++ drop (i + 1) self.old }
    {
        let _row = self.rows.remove(i);
        let _head = self.heads.remove(i);
    }

    /// Moves the rows from this place on into a list of their own. A refusal, which means out of memory, changes nothing.
    pub fn split(&mut self, alloc: Global, i: usize) -> Result<Rows, AllocError>
        requires place { i ≤ length self.old }
        requires few { length self.old ≤ 256 }
        ensures parts { IfOk result (λ rest. (self.new ≡ take i self.old) × (rest ≡ drop i self.old)) }
        ensures unchanged { OnErr result (self.new ≡ self.old) }
    {
        let heads = copy_behind(alloc, self.heads.as_slice(), i)?;
        let rows = move_behind(alloc, &mut self.rows, i)?;
        self.heads.truncate(i);
        let mut rest = Rows {
            rows,
            heads,
            shared: self.shared,
        };
        self.sharpen();
        rest.sharpen();
        Ok(rest)
    }

    /// Puts the rows of another list behind its own. It takes no memory.
    pub fn append(&mut self, other: Rows)
        requires { length self.old + length other ≤ 256 }
        ensures { self.new ≡ self.old ++ other }
    {
        let mut other = other;
        let _ = self.rows.append(&mut other.rows);
        let _ = self.heads.append(&mut other.heads);
        let shared = shared_by(self.rows.as_slice());
        set_heads(self.rows.as_slice(), &mut self.heads, shared);
        self.shared = shared;
    }

    /// Finds with how many bytes the rows begin alike, after many have gone.
    fn sharpen(&mut self)
        ensures { self.new ≡ self.old }
    {
        let shared = shared_by(self.rows.as_slice());
        settle(self.rows.as_slice(), &mut self.heads, self.shared, shared);
        self.shared = shared;
    }
}

/// The elements of a column from this place on, in a column with room for 256. Refused: lack of memory.
pub fn copy_behind(alloc: Global, column: &[u64], i: usize) -> Result<Vec<u64>, AllocError>
    requires place { i ≤ length column.now }
    requires few { length column.now ≤ 256 }
    ensures value { IfOk result (λ rest. rest.items ≡ drop i column.now) }
    ensures room { IfOk result (λ rest. 256 ≤ vec_capacity rest) }
{
    let mut rest = Vec::with_capacity(alloc, MOST_VERSIONS)?;
    let _ = rest.extend_from_slice(&column[i..]);
    Ok(rest)
}

/// Moves the rows from this place on into a list with room for 256. A refusal, which means out of memory, changes nothing.
fn move_behind(
    alloc: Global,
    rows: &mut Vec<ByteString>,
    i: usize,
) -> Result<Vec<ByteString>, AllocError>
    requires place { i ≤ length rows.old.items }
    requires few { length rows.old.items ≤ 256 }
    ensures parts { IfOk result (λ rest. (rows.new.items ≡ take i rows.old.items) × (rest.items ≡ drop i rows.old.items)) }
    ensures room { IfOk result (λ rest. 256 ≤ vec_capacity rest) }
    ensures same_room { vec_capacity rows.new ≡ vec_capacity rows.old }
    ensures unchanged { OnErr result (rows.new.items ≡ rows.old.items) }
{
    let mut rest = Vec::with_capacity(alloc, MOST_VERSIONS)?;
    let mut behind = rows.split_off(i)?;
    let _ = rest.append(&mut behind);
    Ok(rest)
}

/// With how many bytes each of the rows begins as this one does; of the rows it is known that they share `shared` bytes.
fn shared_with(rows: &[ByteString], shared: usize, row: &[u8]) -> usize
    requires { IsAlike shared rows.now }
    ensures long { result ≤ length row.now }
    ensures alike { Each (Shares result row.now) rows.now }
{
    let many = rows.len();
    if many == 0 {
        return row.len();
    }
    alike_with(rows[0].bytes(), row, shared)
}

/// With how many bytes, but no more than so many, the one row begins as the other does.
fn alike_with(row: &[u8], other: &[u8], most: usize) -> usize
    ensures within { result ≤ most }
    ensures within_row { result ≤ length row.now }
    ensures within_other { result ≤ length other.now }
    ensures same { take result row.now ≡ take result other.now }
{
    let alike = common_prefix(row, other);
    if alike < most { alike } else { most }
}

/// With how many bytes each of the rows begins as the first one does.
fn shared_by(rows: &[ByteString]) -> usize
    ensures { IsAlike result rows.now }
{
    let many = rows.len();
    if many == 0 {
        return 0;
    }
    let first = rows[0].bytes();
    let mut shared = first.len();
    for row in rows {
        shared = alike_with(first, row.bytes(), shared);
    }
    shared
}

/// Writes the heads of rows that share so many bytes, where these aren't as many as before.
fn settle(rows: &[ByteString], heads: &mut Vec<u64>, was: usize, shared: usize)
    requires long { Each (λ r. shared ≤ length r) rows.now }
    requires headed { heads.old.items ≡ heads_of was rows.now }
    ensures headed { heads.new.items ≡ heads_of shared rows.now }
    ensures room { vec_capacity heads.new ≡ vec_capacity heads.old }
{
    if shared != was {
        set_heads(rows, heads, shared);
    }
}

/// Writes the heads of rows that share so many bytes.
fn set_heads(rows: &[ByteString], heads: &mut Vec<u64>, shared: usize)
    requires long { Each (λ r. shared ≤ length r) rows.now }
    requires as_many { length heads.old.items ≡ length rows.now }
    ensures headed { heads.new.items ≡ heads_of shared rows.now }
    ensures room { vec_capacity heads.new ≡ vec_capacity heads.old }
{
    for i in 0..rows.len() {
        heads[i] = head_of(rows[i].bytes(), shared);
    }
}

/// The number that the eight bytes behind the shared ones are; where there are fewer, as if zeros followed.
fn head_of(row: &[u8], shared: usize) -> u64
    requires { shared ≤ length row.now }
    ensures { result ≡ head_of shared row.now }
{
    number_at_front(&row[shared..])
}

/// The number that the first eight bytes are, the highest first.
fn number_at_front(bytes: &[u8]) -> u64
    ensures { result ≡ number_behind 0 8 bytes.now }
{
    let mut number = 0u64;
    for i in 0..8usize {
        number = number * 256 + byte_at(bytes, i) as u64;
    }
    number
}

/// The byte at this place, 0 behind the last one.
fn byte_at(bytes: &[u8], i: usize) -> u8
    ensures { result ≡ slice_index_or bytes.now i 0 }
{
    if i < bytes.len() { bytes[i] } else { 0 }
}

/// How many of the rows, which share so many bytes, come before this one, or aren't above it where `same_too`.
fn count_before(
    rows: &[ByteString],
    heads: &[u64],
    shared: usize,
    row: &[u8],
    same_too: bool,
) -> usize
    requires alike { IsAlike shared rows.now }
    requires headed { heads.now ≡ heads_of shared rows.now }
    requires rising { IsRising rows.now }
    ensures { IsPlace (row_before row.now same_too) rows.now result }
{
    let many = rows.len();
    if many == 0 {
        return 0;
    }
    match compare_beginnings(row, rows[0].bytes(), shared) {
        Ordering::Less => 0,
        Ordering::Greater => many,
        Ordering::Equal => place_among(rows, heads, shared, row, same_too),
    }
}

/// Compares the first bytes of two rows, of each so many if there are.
fn compare_beginnings(row: &[u8], other: &[u8], most: usize) -> Ordering
    ensures { result ≡ bytes_cmp (take most row.now) (take most other.now) }
{
    beginning(row, most).cmp(beginning(other, most))
}

fn beginning(row: &[u8], most: usize) -> &[u8]
    ensures { result.now ≡ take most row.now }
{
    if most < row.len() { &row[..most] } else { row }
}

/// How many of the rows come before this one, with which they share so many bytes.
fn place_among(
    rows: &[ByteString],
    heads: &[u64],
    shared: usize,
    row: &[u8],
    same_too: bool,
) -> usize
    requires headed { heads.now ≡ heads_of shared rows.now }
    requires alike { Each (Shares shared row.now) rows.now }
    requires long { shared ≤ length row.now }
    requires rising { IsRising rows.now }
    ensures { IsPlace (row_before row.now same_too) rows.now result }
{
    let head = head_of(row, shared);
    if last_is_before(rows, heads, shared, row, head, same_too) {
        return rows.len();
    }
    let mut low = 0;
    let mut high = rows.len();
    while low < high {
        let middle = low + (high - low) / 2;
        if is_before_at(rows[middle].bytes(), heads[middle], row, head, same_too) {
            low = middle + 1;
        } else {
            high = middle;
        }
    }
    low
}

/// Whether all of the rows come before this one, or aren't above it where `same_too`: so it is where rows come in order.
fn last_is_before(
    rows: &[ByteString],
    heads: &[u64],
    shared: usize,
    row: &[u8],
    head: u64,
    same_too: bool,
) -> bool
    requires headed { heads.now ≡ heads_of shared rows.now }
    requires alike { Each (Shares shared row.now) rows.now }
    requires head { head ≡ head_of shared row.now }
    requires rising { IsRising rows.now }
    ensures { IsTrue result → Each (λ r. row_before row.now same_too r ≡ true) rows.now }
{
    if rows.len() == 0 {
        return false;
    }
    let last = rows.len() - 1;
    is_before_at(rows[last].bytes(), heads[last], row, head, same_too)
}

/// Whether a row comes before this one, or is the same where `same_too`; both come with their heads.
#[inline(always)]
fn is_before_at(own: &[u8], own_head: u64, row: &[u8], head: u64, same_too: bool) -> bool
    ensures { (shared : ℕ) → Shares shared row.now own.now → own_head ≡ head_of shared own.now → head ≡ head_of shared row.now
        → result ≡ row_before row.now same_too own.now }
{
    if own_head == head {
        return is_before_row(own, row, same_too);
    }
    own_head < head
}
