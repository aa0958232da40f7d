//! The rows of one branch of a query by index scans: at a stamp of any tables, sought and never walked, in counted steps.
//!
//! The Datastore answers a query from its indexes alone. The rows of an index that are bound to the values of equality filters, and
//! perhaps to an ancestor, begin alike, and what stands behind that beginning is the row's columns and its key, in the order of the
//! results. So each scan of a plan is a range of rows (`ds_scan`), the strings that all scans have are the branch's rows
//! (`ds_zigzag` leaps from one to the next), and each is read back into values and a key (`ds_bytes`). Begin with `answering`,
//! whose calls are `answer`, for a plan, and `branch_rows`, which plans itself. `collecting` walks over the scans, `kept` has what was
//! reached (of rows before an offset the bytes of their keys alone, `key_bytes`), `behind` is what is given of it, and `reading` reads a
//! row back. The definitions that the contracts cite are in `specs/`; `laws` has what is claimed of plans and their scans, as calls
//! that do nothing.
//!
//! A caller plans a branch once and asks each shard by that plan, within steps that one ledger counts:
//!
//!     let plan = ds_planner::plan(alloc, &branch, &defs)?;
//!     let tables = shard.tables();
//!     let rows = answer(alloc, &tables, shard.count(), &branch, &defs, &plan, start, end, Some(most), &mut steps)?;
//!
//! The rows have their places, so `ds_pages` makes a page of them, and `merge` one of the rows of several shards or branches: `merging`
//! unites lists, and `extending` puts the rows of a branch into the merged columns before. `ds_engine` answers whole queries so, over
//! shards.
#![tactic(auto)]

mod answering;
mod behind;
mod collecting;
pub mod extending;
mod kept;
mod key_bytes;
pub mod laws;
pub mod merging;
mod reading;
mod refused;

pub use answering::{answer, answer_behind, branch_rows};
pub use behind::RowsBehind;
pub use extending::extended;
pub use merging::{Merged, merge};
pub use reading::row_of;
pub use refused::EngineRefused;
