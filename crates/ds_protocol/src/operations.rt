//! What a request asks, taken apart once.
ghost use Rattle.std.specs.Prelude.{◌≡◌, ◌⊎◌, Some, IfErr, IfOk};
ghost use Rattle.ds_request.specs.Lawful.{IsLawfulCall};
ghost use Rattle.ds_protocol.specs.Operations.{IsAlwaysRefused, IsLawfulOperation, IsOperationOf};
ghost use Rattle.ds_protocol.specs.Refused.{operation_body};

use crate::searching::{Search, search_of};
use ds_base::Key;
use ds_entity::{Entity, EntityRefused};
use ds_query::Field;
use ds_reply::Body;
use ds_request::Call;
use std::alloc::Global;

/// What a request asks: the entity of a put is made, and a statement is read, so that neither is done twice. The other parts are the
/// request's own.
#[derive(Drop)]
pub enum Operation {
    /// Writes an entity; where its key is incomplete a drawn id replaces the last one.
    Put {
        /// The entity.
        entity: Entity,
        /// Whether its last id is to be drawn.
        incomplete: bool,
    },
    /// Deletes the entity of a key.
    Delete {
        /// The key.
        key: Key,
    },
    /// Asks for the entity of a key.
    Get {
        /// The key.
        key: Key,
    },
    /// Asks for the results of a query or a statement.
    Find(Search),
    /// Begins a transaction.
    Begin {
        /// Whether it may touch several entity groups.
        several_groups: bool,
    },
    /// Commits the transaction.
    Commit,
    /// Drops the transaction.
    Rollback,
    /// Applies every committed write.
    Settle,
    /// Draws ids.
    AllocateIds {
        /// How many, at least one.
        count: u64,
    },
    /// Applies the next entry of a shard.
    Apply {
        /// The shard's number, counted from 0.
        shard: u64,
    },
}

/// Why a call asks nothing that could be done, whatever the index definitions and the client's session. It comes before all other refusals.
#[derive(Clone, Copy)]
pub enum OperationRefused {
    /// The entity's key can't be written.
    BadKey,
    /// One of the entity's values can't be written.
    BadValue,
    /// The entity is too large: its size, in bytes.
    TooLarge {
        /// The size.
        size: u64,
    },
    /// The text is no statement: where that shows, in bytes from the front.
    BadGql {
        /// The place.
        place: u64,
    },
    /// There was no memory.
    NoMemory,
}

impl OperationRefused {
    /// What the reply says.
    pub fn body(&self) -> Body
        ensures { result ≡ operation_body self.now }
    {
        let field = Field::Entity;
        match self {
            OperationRefused::BadKey => Body::BadKey { field },
            OperationRefused::BadValue => Body::BadValue { field },
            OperationRefused::TooLarge { size } => Body::TooLarge { size: *size },
            OperationRefused::BadGql { place } => Body::BadGql { at: *place },
            OperationRefused::NoMemory => Body::NoMemory,
        }
    }
}

/// What a call asks. Its parts are moved.
///
/// The refusals are those that need neither definitions nor a session: an entity that is too large (`TooLarge`), and a text that is no
/// statement (`BadGql`). `NoMemory` means out of memory alone.
pub fn operation_of(alloc: Global, call: Call) -> Result<Operation, OperationRefused>
    requires { IsLawfulCall call }
    ensures ok { IfOk result (IsOperationOf call) }
    ensures lawful { IfOk result IsLawfulOperation }
    ensures refused { IfErr result (λ e. (e ≡ OperationRefused.NoMemory) ⊎ IsAlwaysRefused call (operation_body e)) }
{
    match call {
        Call::Put {
            key,
            incomplete,
            properties,
        } => match Entity::new(key, properties) {
            Ok(entity) => Ok(Operation::Put { entity, incomplete }),
            Err(EntityRefused::BadKey) => Err(OperationRefused::BadKey),
            Err(EntityRefused::BadValue { .. }) => Err(OperationRefused::BadValue),
            Err(EntityRefused::TooLarge { size }) => Err(OperationRefused::TooLarge { size }),
            Err(EntityRefused::NoMemory) => Err(OperationRefused::NoMemory),
        },
        Call::Delete { key } => Ok(Operation::Delete { key }),
        Call::Get { key } => Ok(Operation::Get { key }),
        Call::Begin { xg } => Ok(Operation::Begin { several_groups: xg }),
        Call::Commit => Ok(Operation::Commit),
        Call::Rollback => Ok(Operation::Rollback),
        Call::Settle => Ok(Operation::Settle),
        Call::AllocateIds { count } => Ok(Operation::AllocateIds { count }),
        Call::Apply { shard } => Ok(Operation::Apply { shard }),
        call => Ok(Operation::Find(search_of(alloc, call)?)),
    }
}
