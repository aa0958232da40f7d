//! A session goes on over another store.
ghost use Rattle.std.specs.Prelude.{◌≡◌};
ghost use Rattle.ds_store.specs.Lower.{IsNoLower};

use crate::session::Session;
use ds_session_state::State;
use ds_store::{Names, Pass};

impl<J: Names> Session<J> {
    /// The session over another store, with a pass of it that has seen no less than the session's; and the pass that it had. It takes no
    /// memory.
    pub fn moved<K: Names>(self, pass: Pass<K>) -> (Session<K>, Pass<J>)
        requires { IsNoLower self.pass pass }
        ensures session { result.0 ≡ record self { pass = pass } }
        ensures old { result.1 ≡ self.pass }
    {
        let Session { state, room } = self;
        let State {
            client,
            pass: old,
            seen,
            transaction,
            text,
            alloc,
        } = state;
        let state = State {
            client,
            pass,
            seen,
            transaction,
            text,
            alloc,
        };
        (Session { state, room }, old)
    }
}
