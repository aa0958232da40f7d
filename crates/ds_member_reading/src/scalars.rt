//! Texts, truth values and numbers.
ghost use Rattle.ds_member_reading.specs.Forms.{text_of, name_of, namespace_of, flag_of, results_of, count_of, shard_of};

use ds_base::limits::MAX_RESULTS;
use ds_base::{TextString, is_namespace};
use ds_json_reading::{Form, Refusal, natural, up_to};
use serde_json::Value;
use std::alloc::Global;

/// Any text.
#[derive(Drop)]
pub struct TextForm;

impl Form for TextForm {
    type Item = TextString;

    ghost reads = { λ _. text_of };

    fn read(&self, _alloc: Global, value: Value) -> Result<TextString, Refusal> {
        match value {
            Value::String(text) => Ok(TextString::from_string(text)),
            _ => Err(Refusal::Request),
        }
    }
}

/// A kind or a property's name: a text of at least one byte.
#[derive(Drop)]
pub struct NameForm;

impl Form for NameForm {
    type Item = TextString;

    ghost reads = { λ _. name_of };

    fn read(&self, alloc: Global, value: Value) -> Result<TextString, Refusal> {
        let name = TextForm.read(alloc, value)?;
        if name.bytes().is_empty() {
            return Err(Refusal::Request);
        }
        Ok(name)
    }
}

/// A namespace: a text of at most 100 bytes out of ASCII letters, digits, `.`, `_` and `-`.
#[derive(Drop)]
pub struct NamespaceForm;

impl Form for NamespaceForm {
    type Item = TextString;

    ghost reads = { λ _. namespace_of };

    fn read(&self, alloc: Global, value: Value) -> Result<TextString, Refusal> {
        let namespace = TextForm.read(alloc, value)?;
        if !is_namespace(namespace.bytes()) {
            return Err(Refusal::Request);
        }
        Ok(namespace)
    }
}

/// `true` or `false`.
#[derive(Drop)]
pub struct FlagForm;

impl Form for FlagForm {
    type Item = bool;

    ghost reads = { λ _. flag_of };

    fn read(&self, _alloc: Global, value: Value) -> Result<bool, Refusal> {
        value.as_bool().ok_or(Refusal::Request)
    }
}

/// A number of results: an offset or a limit.
#[derive(Drop)]
pub struct ResultsForm;

impl Form for ResultsForm {
    type Item = u32;

    ghost reads = { λ _. results_of };

    fn read(&self, _alloc: Global, value: Value) -> Result<u32, Refusal> {
        up_to(MAX_RESULTS, &value).ok_or(Refusal::Request)
    }
}

/// A number of ids, at least 1.
#[derive(Drop)]
pub struct CountForm;

impl Form for CountForm {
    type Item = u64;

    ghost reads = { λ _. count_of };

    fn read(&self, _alloc: Global, value: Value) -> Result<u64, Refusal> {
        match natural(&value) {
            Some(count) if count >= 1 => Ok(count),
            _ => Err(Refusal::Request),
        }
    }
}

/// The number of a shard, whether there is such a shard or not.
#[derive(Drop)]
pub struct ShardForm;

impl Form for ShardForm {
    type Item = u64;

    ghost reads = { λ _. shard_of };

    fn read(&self, _alloc: Global, value: Value) -> Result<u64, Refusal> {
        natural(&value).ok_or(Refusal::Request)
    }
}
