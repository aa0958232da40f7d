//! A query as a request writes it.
ghost use Rattle.std.specs.Prelude.{◌≡◌, ◌&&◌};
ghost use Rattle.std.specs.List.{list_all};
ghost use Rattle.ds_base.specs.Keys.{is_namespace};
ghost use Rattle.ds_query.specs.Filters.{has_operands, projected};

use ds_base::{Columns, Key, Names, Sequence, TextString, TryCopy, Values, is_namespace};
use std::alloc::{AllocError, Global};

/// How a filter compares a property with its values.
#[derive(Clone, Copy, PartialEq, Eq)]
pub enum Op {
    /// One of the property's values is this one.
    Equal,
    /// It comes before this value.
    Less,
    /// It comes before this value or is it.
    LessEqual,
    /// It comes after this value.
    Greater,
    /// It comes after this value or is it.
    GreaterEqual,
    /// It comes before or after this value.
    NotEqual,
    /// One of the property's values is one of these.
    OneOf,
}

/// A condition on a property, or on the key by the name `__key__`.
#[derive(Drop)]
pub struct Filter {
    /// The property's name, or `__key__`.
    pub property: TextString,
    /// How its values compare.
    pub op: Op,
    /// At least one value for `OneOf`, and one for every other operator.
    pub values: Values,
}

/// Filters in their order; all of them must hold.
pub type Filters = Sequence<Filter>;

/// What a query gives of each result.
#[derive(Drop)]
pub enum Select {
    /// Whole entities.
    Entities,
    /// Keys alone.
    Keys,
    /// The key with one index value per name.
    Projection(Names),
}

/// A query as it is written.
#[derive(Drop)]
pub struct Query {
    /// It sees the entities of this namespace alone.
    pub namespace: TextString,
    /// The kind of its entities; any where there is none.
    pub kind: Option<TextString>,
    /// What its entities lie under, itself among them; anything where there is none.
    pub ancestor: Option<Key>,
    /// What its entities meet.
    pub filters: Filters,
    /// What its results are sorted by, as far as it is written.
    pub orders: Columns,
    /// What is given of each result.
    pub select: Select,
    /// Whether the request names a start, an end, or asks for a cursor.
    pub cursors: bool,
}

impl Query {
    /// Whether `normalize` takes the query: its namespace has at most 100 bytes, each an ASCII letter, a digit, `.`, `_` or
    /// `-`, and its filters have at least one value for `in` and one for every other operator.
    pub fn is_lawful(&self) -> bool
        ensures { result ≡ (is_namespace self.now.namespace && list_all has_operands self.now.filters) }
    {
        is_namespace(self.namespace.bytes()) && have_operands(self.filters.as_slice())
    }
}

fn have_operands(filters: &[Filter]) -> bool
    ensures { result ≡ list_all has_operands filters.now }
{
    filters.iter().all(|filter| filter.has_operands())
}

impl Filter {
    /// Whether it has as many values as its operator takes: at least one for `in`, and one for every other.
    pub fn has_operands(&self) -> bool
        ensures { result ≡ has_operands self.now }
    {
        match self.op {
            Op::OneOf => self.values.len() >= 1,
            _ => self.values.len() == 1,
        }
    }
}

impl Select {
    /// The names of a projection; none otherwise.
    pub fn projected(&self) -> &[TextString]
        ensures { result.now ≡ projected self.now }
    {
        match self {
            Select::Projection(names) => names.as_slice(),
            _ => &[],
        }
    }
}

impl TryCopy for Filter {
    fn copy(&self, alloc: Global) -> Result<Filter, AllocError> {
        Ok(Filter {
            property: self.property.copy(alloc)?,
            op: self.op,
            values: self.values.copy(alloc)?,
        })
    }
}

impl TryCopy for Select {
    fn copy(&self, alloc: Global) -> Result<Select, AllocError> {
        Ok(match self {
            Select::Entities => Select::Entities,
            Select::Keys => Select::Keys,
            Select::Projection(names) => Select::Projection(names.copy(alloc)?),
        })
    }
}
