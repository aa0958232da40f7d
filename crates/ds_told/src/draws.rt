//! Which replies tell drawn ids.
ghost use Rattle.std.specs.Prelude.{◌≡◌};
ghost use Rattle.ds_told.specs.Told.{draws_by, draws_of};

use ds_reply::Body;
use ds_request::{Call, Request};

/// Which ids the reply to a request may tell as drawn: none, that of the key it writes, or those of a range.
#[derive(Clone, Copy)]
pub enum Draws {
    /// None.
    Nothing,
    /// The last id of the key of an incomplete put.
    Key,
    /// The ids of `allocate_ids`.
    Range,
}

impl Draws {
    /// Those of what was read from a line: a request, or what the reply says instead.
    pub fn of(request: &Result<Request, Body>) -> Draws
        ensures { result ≡ draws_of request.now }
    {
        match request {
            Ok(request) => Draws::by(&request.call),
            Err(_) => Draws::Nothing,
        }
    }

    fn by(call: &Call) -> Draws
        ensures { result ≡ draws_by call.now }
    {
        match call {
            Call::Put {
                key: _,
                incomplete: true,
                properties: _,
            } => Draws::Key,
            Call::AllocateIds { count: _ } => Draws::Range,
            _ => Draws::Nothing,
        }
    }
}
