//! The arguments of a text, with an index of those that have names.
ghost use Rattle.std.specs.Prelude.{◌≡◌, IfOk, option_map};
ghost use Rattle.ds_gql.specs.Arguments.{IsIndex};
ghost use Rattle.ds_gql.specs.Steps as spec;

use crate::statement::Bindings;
use ds_base::{NamedValue, NamedValues, NoMemory, Value, Values};
use std::alloc::Global;
use std::collections::BTreeMap;
use std::marker::Model;

/// The arguments that a text may cite. A name is found in an ordered map, so that a text of thousands of names isn't compared
/// with thousands of arguments each time.
#[derive(Drop)]
pub(crate) struct Arguments<'a> {
    pub(crate) args: &'a Values,
    names: &'a NamedValues,
    index: BTreeMap<&'a str, &'a Value>,
}

impl<'a> Model for Arguments<'a> {
    ghost use Rattle.ds_gql.specs.declared.statement.Bindings.{Bindings};
    ghost use Rattle.ds_gql.specs.Arguments.{IsIndex};

    ghost Value = { Bindings };

    ghost view = { λ a. record { args = a.args.now; names = a.names.now } };

    ghost invariant = { λ a. IsIndex a.names.now a.index };
}

impl<'a> Arguments<'a> {
    /// These arguments. Of several with one name the first counts.
    pub(crate) fn of(alloc: Global, bindings: &'a Bindings) -> Result<Arguments<'a>, NoMemory>
        ensures { IfOk result (λ a. a ≡ bindings.now) }
    {
        let index = index_of(alloc, bindings.names.as_slice())?;
        Ok(Arguments {
            args: &bindings.args,
            names: &bindings.names,
            index,
        })
    }

    /// The argument with this number, counted from 1.
    pub(crate) fn numbered(&self, number: u64) -> Option<&Value>
        ensures { option_map (λ v. v.now) result ≡ spec.argument self.now.args number }
    {
        if number == 0 {
            return None;
        }
        self.args.get((number - 1) as usize)
    }

    /// The first argument of this name.
    pub(crate) fn named(&self, name: &str) -> Option<&Value>
        ensures { option_map (λ v. v.now) result ≡ spec.first_named self.now.names name.now }
    {
        match self.index.get(name) {
            Some(value) => Some(*value),
            None => None,
        }
    }
}

/// The first value of each name: the list is read from its end, and an earlier value takes the place of a later one.
fn index_of<'a>(
    alloc: Global,
    names: &'a [NamedValue],
) -> Result<BTreeMap<&'a str, &'a Value>, NoMemory>
    ensures { IfOk result (IsIndex names.now) }
{
    let mut index = BTreeMap::new(alloc);
    let mut left = names.len();
    while left > 0 {
        left -= 1;
        let named = &names[left];
        index.insert(named.name.text(), &named.value)?;
    }
    Ok(index)
}
