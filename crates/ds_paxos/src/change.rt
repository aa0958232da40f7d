//! What an event changes.
use crate::instance::Instance;
use crate::message::Message;
use ds_base::Sequence;

/// What an event leaves of an instance at its member, and the messages that are sent then.
#[derive(Drop)]
pub struct Change {
    /// The instance afterwards.
    pub instance: Instance,
    /// The messages, in the order of their numbers.
    pub sends: Sequence<Message>,
}
