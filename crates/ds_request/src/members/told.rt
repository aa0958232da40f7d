//! Telling which member is wrong.
ghost use Rattle.std.specs.Prelude.{◌≡◌};
ghost use Rattle.ds_request.specs.Requests.{told_at};

use crate::call::RequestRefused;
use ds_json_reading::Refusal;
use ds_query::Field;

/// What was read of a member, or what is wrong with it, told with the client and the member.
pub(crate) fn told_at<T>(
    client: u32,
    field: Field,
    read: Result<T, Refusal>,
) -> Result<T, RequestRefused>
    ensures { result ≡ told_at client field read }
{
    match read {
        Ok(value) => Ok(value),
        Err(Refusal::Request) => Err(RequestRefused::BadRequest { client, field }),
        Err(Refusal::Key) => Err(RequestRefused::BadKey { client, field }),
        Err(Refusal::Value) => Err(RequestRefused::BadValue { client, field }),
        Err(Refusal::NoMemory) => Err(RequestRefused::NoMemory),
    }
}
