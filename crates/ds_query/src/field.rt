//! The members of a request, and their names.
ghost use Rattle.std.specs.Prelude.{◌≡◌};

/// The member of a request that a refusal tells, or the whole line.
#[derive(Clone, Copy, PartialEq, Eq)]
pub enum Field {
    /// The line as a whole.
    Line,
    /// Who asks.
    Client,
    /// What is asked.
    Op,
    /// The namespace of a query.
    Namespace,
    /// What a put writes.
    Entity,
    /// What a get or a delete is about.
    Key,
    /// A query's kind.
    Kind,
    /// A query's ancestor.
    Ancestor,
    /// A query's filters.
    Filters,
    /// A query's orders.
    Orders,
    /// What a query gives of each result.
    Select,
    /// How many results a query skips.
    Offset,
    /// How many results a query gives at most.
    Limit,
    /// The cursor after which a query begins.
    Start,
    /// The cursor at which a query ends.
    End,
    /// Whether a query gives a cursor.
    Cursor,
    /// The text of a query in the query language.
    Text,
    /// The values that such a text cites by number.
    Args,
    /// The values that such a text cites by name.
    Names,
    /// Whether a transaction may touch several groups.
    Xg,
    /// How many ids are asked for.
    Count,
    /// Which shard is to apply an entry.
    Shard,
}

impl Field {
    ghost use Rattle.ds_query.specs.Fields.{field_name};

    /// The name by which requests have the member, and refusals tell it.
    pub fn name(self) -> &'static str
        ensures { result.now ≡ field_name self }
    {
        match self {
            Field::Line => "line",
            Field::Client => "client",
            Field::Op => "op",
            Field::Namespace => "namespace",
            Field::Entity => "entity",
            Field::Key => "key",
            Field::Kind => "kind",
            Field::Ancestor => "ancestor",
            Field::Filters => "filters",
            Field::Orders => "orders",
            Field::Select => "select",
            Field::Offset => "offset",
            Field::Limit => "limit",
            Field::Start => "start",
            Field::End => "end",
            Field::Cursor => "cursor",
            Field::Text => "text",
            Field::Args => "args",
            Field::Names => "names",
            Field::Xg => "xg",
            Field::Count => "count",
            Field::Shard => "shard",
        }
    }
}
