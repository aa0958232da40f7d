//! Tables at one stamp, as rows that range scans seek in.
ghost use Rattle.std.specs.Prelude.{◌≡◌, IsTrue};

use crate::rows::Rows;
use ds_io::Steps;
use ds_rows::Tables;
use std::marker::Model;
use std::sync::ledger::Ledger;

/// Tables at a stamp that they keep. Contracts see both.
#[derive(Drop)]
pub struct StampedTables<'a, T: Tables> {
    tables: &'a T,
    at: u64,
}

impl<'a, T: Tables> Model for StampedTables<'a, T> {
    ghost use Rattle.std.specs.Prelude.{IsTrue};
    ghost use Rattle.ds_scan.specs.Stamped.{Stamped};

    ghost Value = { Stamped T };

    ghost view = { λ s. record { tables = s.tables.now; stamp = s.at } };

    ghost invariant = { λ s. IsTrue (T.keeps s.tables.now s.at) };
}

impl<'a, T: Tables> StampedTables<'a, T> {
    /// The tables at the stamp. It takes no memory.
    pub(crate) fn new(tables: &'a T, at: u64) -> StampedTables<'a, T>
        requires { IsTrue (T.keeps tables.now at) }
        ensures { result ≡ record { tables = tables.now; stamp = at } }
    {
        StampedTables { tables, at }
    }
}

impl<'a, T: Tables> Rows for StampedTables<'a, T> {
    ghost use Rattle.ds_scan.specs.Stamped.{Stamped, rows_at, rows_not_at};

    ghost ledger = { T.ledger };

    ghost seen = { λ (s : Stamped T). rows_at (T.definitions s.tables) s.stamp (T.versions s.tables) };

    ghost unseen = { λ (s : Stamped T). rows_not_at (T.definitions s.tables) s.stamp (T.versions s.tables) };

    fn seek<L: Ledger>(
        &self,
        at_least: &[u8],
        below: Option<&[u8]>,
        steps: &mut Steps<L>,
    ) -> Option<&[u8]> {
        let mut near = 0;
        self.seek_near(at_least, below, &mut near, steps)
    }

    fn seek_near<L: Ledger>(
        &self,
        at_least: &[u8],
        below: Option<&[u8]>,
        near: &mut u64,
        steps: &mut Steps<L>,
    ) -> Option<&[u8]> {
        self.tables.seek_near(self.at, at_least, below, near, steps)
    }
}
