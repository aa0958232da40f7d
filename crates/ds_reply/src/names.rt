//! The names of the rules that a query may break.
ghost use Rattle.std.specs.Prelude.{◌≡◌};
ghost use Rattle.ds_reply.specs.Names.{reason_name};

use ds_query::Reason;

/// The name of the rule that a query breaks.
pub(crate) fn reason_name(reason: Reason) -> &'static [u8]
    ensures { result.now ≡ reason_name reason }
{
    match reason {
        Reason::KeyValue => b"key_value",
        Reason::UnindexedValue => b"unindexed_value",
        Reason::Kindless => b"kindless",
        Reason::Inequalities => b"inequalities",
        Reason::EqualAndRange => b"equal_and_range",
        Reason::FirstOrder => b"first_order",
        Reason::ProjectionKey => b"projection_key",
        Reason::ProjectionRepeat => b"projection_repeat",
        Reason::ProjectionEqual => b"projection_equal",
        Reason::SeveralCursor => b"several_cursor",
    }
}
