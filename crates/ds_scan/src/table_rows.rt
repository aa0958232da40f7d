//! The rows of a table at a stamp.
ghost use Rattle.std.specs.Prelude.{◌≡◌};

use crate::rows::Rows;
use ds_io::Steps;
use ds_table::TableView;
use std::marker::{Model, PhantomData};
use std::sync::ledger::Ledger;

/// A view of a table as rows whose seeks count on one ledger. Contracts see the view.
#[derive(Drop)]
pub struct TableRows<'a, L> {
    view: TableView<'a>,
    counted_on: PhantomData<L>,
}

impl<'a, L> Model for TableRows<'a, L> {
    ghost use Rattle.ds_table.specs.Seen.{Seen};

    ghost Value = { Seen };

    ghost view = { λ r. r.view };
}

impl<'a, L> TableRows<'a, L> {
    /// The rows that the view sees, and those of the versions that it doesn't. It takes no memory.
    pub fn new(view: TableView<'a>) -> TableRows<'a, L>
        ensures { result ≡ view.entry }
    {
        TableRows {
            view,
            counted_on: PhantomData,
        }
    }
}

impl<'a, L: Ledger> Rows for TableRows<'a, L> {
    ghost use Rattle.ds_table.specs.Seen.{Seen};
    ghost use Rattle.ds_table.specs.Versions.{seen_rows, unseen_rows};

    ghost ledger = { L.name };

    ghost seen = { λ (s : Seen). seen_rows s.stamp s.versions };

    ghost unseen = { λ (s : Seen). unseen_rows s.stamp s.versions };

    fn seek<M: Ledger>(
        &self,
        at_least: &[u8],
        below: Option<&[u8]>,
        steps: &mut Steps<M>,
    ) -> Option<&[u8]> {
        let mut near = 0;
        self.seek_near(at_least, below, &mut near, steps)
    }

    fn seek_near<M: Ledger>(
        &self,
        at_least: &[u8],
        below: Option<&[u8]>,
        near: &mut u64,
        steps: &mut Steps<M>,
    ) -> Option<&[u8]> {
        self.view.seek_near(at_least, below, near, steps)
    }
}
