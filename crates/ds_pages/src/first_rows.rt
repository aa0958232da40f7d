//! Of rows that come one by one, the first of each mark.
ghost use Rattle.std.specs.Prelude.{◌≡◌, ℕ, List, [], ◌∷◌, ◌++◌, Option, length, map, IfOk, OnOk};
ghost use Rattle.ds_pages.specs.FirstRows.{with_row, AreMarks};
ghost use Rattle.std.specs.BTreeSet.{insert_key};
ghost use Rattle.ds_pages.specs.Marks.{mark_cmp, mark_of};
ghost use Rattle.ds_pages.specs.Slots.{slot_of};

use crate::marks::{Mark, mark_of, slots};
use ds_base::{Column, NoMemory, TextString};
use ds_query::{Row, RowList};
use std::alloc::Global;
use std::collections::BTreeSet;
use std::marker::Model;

/// Rows in the order in which they came, of each mark the first: the key, and where names are projected the key with the values of
/// these columns. Contracts see the rows, and where the projected values stand among those of a row.
#[derive(Drop)]
pub struct FirstRows {
    alloc: Global,
    slots: Vec<Option<usize>>,
    marks: BTreeSet<Mark>,
    rows: Vec<Row>,
}

impl Model for FirstRows {
    ghost use Rattle.ds_pages.specs.FirstRows.{FirstsParts, AreMarks};

    ghost Value = { FirstsParts };

    ghost view = { λ f. record { slots = f.slots.items; rows = f.rows.items } };

    ghost invariant = { λ f. AreMarks f.slots.items f.marks.keys f.rows.items };
}

impl FirstRows {
    /// No row yet, of rows of these columns with these names projected. Refused: lack of memory.
    pub fn new(
        alloc: Global,
        columns: &[Column],
        names: &[TextString],
    ) -> Result<FirstRows, NoMemory>
        ensures slots { IfOk result (λ f. f.slots ≡ map (slot_of columns.now) names.now) }
        ensures none { IfOk result (λ f. f.rows ≡ []) }
    {
        Ok(FirstRows {
            alloc,
            slots: slots(alloc, columns, names)?,
            marks: BTreeSet::new(alloc),
            rows: Vec::new(alloc),
        })
    }

    /// How many rows were kept. It takes no memory.
    pub fn len(&self) -> usize
        ensures { result ≡ length self.now.rows }
    {
        self.rows.len()
    }

    /// Keeps the row where no row of its mark was kept. It takes time in the logarithm of the number of marks. Refused: want of
    /// memory; the row is then left out.
    pub fn put(&mut self, row: Row) -> Result<(), NoMemory>
        ensures rows { OnOk result (self.new.rows ≡ with_row self.old.slots self.old.rows row) }
        ensures slots { self.new.slots ≡ self.old.slots }
    {
        let mark = mark_of(self.alloc, &row, self.slots.as_slice())?;
        if self.marks.contains(&mark) {
            return Ok(());
        }
        put_new(&mut self.marks, &mut self.rows, mark, row)
    }

    /// The rows that were kept, in the order in which they came. They are moved.
    pub fn finish(self) -> RowList
        ensures { result ≡ self.rows }
    {
        RowList::from(self.rows)
    }
}

/// Puts a new mark among the others, and its row behind the others; neither where it is refused.
fn put_new(
    marks: &mut BTreeSet<Mark>,
    rows: &mut Vec<Row>,
    mark: Mark,
    row: Row,
) -> Result<(), NoMemory>
    ensures marks { OnOk result (marks.new.keys ≡ insert_key mark_cmp marks.old.keys mark) }
    ensures rows { OnOk result (rows.new.items ≡ rows.old.items ++ row ∷ []) }
    ensures kept { (slots : List (Option ℕ)) → mark ≡ mark_of slots row → AreMarks slots marks.old.keys rows.old.items
        → AreMarks slots marks.new.keys rows.new.items }
{
    rows.push(row)?;
    if let Err(refused) = marks.insert(mark) {
        rows.pop();
        return Err(refused.into());
    }
    Ok(())
}
