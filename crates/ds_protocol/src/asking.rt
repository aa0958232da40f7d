//! What a line asks.
ghost use Rattle.std.specs.Prelude.{◌≡◌, ◌≤◌, ◌⊎◌, Ok, Err, IsTrue, IfOk, IfErr, MatchResult};
ghost use Rattle.ds_base.specs.Limits.{greatest_client};
ghost use Rattle.ds_rounds.specs.Lines.{IsWithinLimit, handed};
ghost use Rattle.ds_request.specs.Lawful.{IsLawfulCall};
ghost use Rattle.ds_request.specs.Requests.{client_told};
ghost use Rattle.ds_model.specs.Asked.{asked, has_shard, refused_line, request_within};
ghost use Rattle.ds_protocol.specs.Quiet.{IsQuiet};

use ds_query::Field;
use ds_reply::Body;
use ds_request::{Call, Request, RequestRefused, read_request_with};
use ds_rounds::Line;
use json::Scratch;
use std::alloc::Global;

/// Why a line asks nothing: whose line it is, and what its reply says.
#[derive(Drop)]
pub struct Refused {
    /// The client that is told, from 0 to 15. Where there was no memory to read the line it isn't known, and is 0.
    pub client: u32,
    /// What the reply says.
    pub body: Body,
}

/// The request of a line to a server of so many shards, or the refusal that comes before anything else is looked at: what the tables of
/// requests say of its bytes, and a shard that isn't below the number of shards. A line that is too long is client 0's.
/// `scratch` is memory that is kept from line to line, and grows to the length of the longest.
///
/// `NoMemory` means out of memory alone; it doesn't tell whose line it is.
pub fn ask(
    alloc: Global,
    shards: u32,
    line: Line<'_>,
    scratch: &mut Scratch,
) -> Result<Request, Refused>
    requires { IsWithinLimit line }
    ensures ok { IfOk result (λ r. asked shards (handed line.entry) ≡ Ok r) }
    ensures lawful { IfOk result (λ r. IsLawfulCall r.call) }
    ensures shard { IfOk result (λ r. IsTrue (has_shard shards r.call)) }
    ensures client { MatchResult result (λ r. r.client ≤ greatest_client) (λ e. e.client ≤ greatest_client) }
    ensures refused { IfErr result (λ e. (e.body ≡ Body.NoMemory) ⊎ (asked shards (handed line.entry) ≡ Err (e.client, e.body))) }
    ensures quiet { IfErr result (λ e. IsQuiet e.body) }
{
    match line {
        Line::Kept(bytes) => match read_request_with(alloc, bytes, scratch) {
            Ok(request) => within(shards, request),
            Err(refused) => {
                let (client, body) = told(refused);
                Err(Refused { client, body })
            }
        },
        Line::TooLong => Err(Refused {
            client: 0,
            body: Body::LineTooLong,
        }),
    }
}

/// The request, where the shard that its call names, if it names one, is below the number of shards.
fn within(shards: u32, request: Request) -> Result<Request, Refused>
    ensures ok { IfOk result (λ r. request_within shards (Ok request) ≡ Ok r) }
    ensures same { IfOk result (λ r. r ≡ request) }
    ensures shard { IfOk result (λ r. IsTrue (has_shard shards r.call)) }
    ensures refused { IfErr result (λ e. request_within shards (Ok request) ≡ Err (e.client, e.body)) }
    ensures client { IfErr result (λ e. e.client ≡ request.client) }
    ensures quiet { IfErr result (λ e. IsQuiet e.body) }
{
    match request.call {
        Call::Apply { shard } if shard >= shards as u64 => Err(Refused {
            client: request.client,
            body: Body::BadRequest {
                field: Field::Shard,
            },
        }),
        _ => Ok(request),
    }
}

/// Whose a line is that is no request, and what its reply says.
fn told(refused: RequestRefused) -> (u32, Body)
    ensures told { result ≡ refused_line refused }
    ensures client { result.0 ≡ client_told refused }
    ensures quiet { IsQuiet result.1 }
{
    match refused {
        RequestRefused::BadJson => (0, Body::BadJson),
        RequestRefused::BadRequest { client, field } => (client, Body::BadRequest { field }),
        RequestRefused::BadKey { client, field } => (client, Body::BadKey { field }),
        RequestRefused::BadValue { client, field } => (client, Body::BadValue { field }),
        RequestRefused::NoMemory => (0, Body::NoMemory),
    }
}
