//! Where strong reads stand.
ghost use Rattle.std.specs.Prelude.{◌≡◌, Some, is_some, IsTrue};
ghost use Rattle.ds_model.specs.Groups.{with_transaction};
ghost use Rattle.ds_model.specs.Sessions.{Session};
ghost use Rattle.ds_session_state.specs.Sessions.{IsWithin};
ghost use Rattle.ds_session_state.specs.Standing.{AskedAt};
ghost use Rattle.ds_store.specs.Passes.{HasRead};

use ds_base::Key;
use ds_protocol::OpenTransaction;
use ds_store::{Names, Pass, Store};
use std::sync::Wait;

/// In a transaction the place at which a read of a group stands: its touch place, or the place of a touch that is made now; `None` outside
/// one.
pub fn touch_place<J: Names, R: Wait, H: Wait + Drop>(
    rt: &R,
    store: &Store<J, H>,
    pass: &mut Pass<J>,
    transaction: &OpenTransaction,
    group: &Key,
) -> Option<u64>
    ensures read { HasRead pass.old pass.new }
    ensures inside { is_some result ≡ is_some transaction.now.transaction }
    ensures stands { (seen : Session) → IsWithin (with_transaction transaction.now.transaction seen) pass.old
        → AskedAt result (with_transaction transaction.now.transaction seen) pass.new group.now }
{
    if !transaction.is_open() {
        return None;
    }
    if let Some(place) = transaction.place(group) {
        return Some(place);
    }
    Some(store.touch(rt, pass))
}

/// The place at which a read in a transaction stands.
pub fn touched(at: Option<u64>) -> u64
    requires { IsTrue (is_some at) }
    ensures { at ≡ Some result }
{
    match at {
        Some(place) => place,
        None => unreachable!(),
    }
}
