//! Keys: a namespace and a path of elements from the root, whose first element names the entity group.
ghost use Rattle.std.specs.Prelude.{◌≡◌, ◌≤◌, ◌↔◌, IsTrue, IfOk};

use crate::limits::{MAX_ID, MAX_NAME_BYTES, MAX_NAMESPACE_BYTES, MAX_PATH_LENGTH};
use crate::sequence::{Sequence, TryCopy};
use crate::text::TextString;
use std::alloc::{AllocError, Global};
use std::marker::Model;

/// What tells an element among those of its kind.
#[derive(Drop)]
pub enum Ident {
    /// A number from 1 to 2^63 - 1, given by the writer or drawn by the server.
    Id(u64),
    /// A name of 1 to 1,500 bytes.
    Name(TextString),
}

/// One step of a path: a kind of 1 to 1,500 bytes, and an identifier.
#[derive(Drop)]
pub struct Elem {
    /// The kind of the entity that the path leads to up to here.
    pub kind: TextString,
    /// The identifier, by which entities of one kind under one parent differ.
    pub ident: Ident,
}

/// The path of a key, the root first.
pub type Elems = Sequence<Elem>;

/// A namespace and a path that make no key.
#[derive(Drop, Debug)]
pub struct BadKey;

/// A key: a namespace of at most 100 bytes and a path of 1 to 100 elements.
///
/// Contracts see it as these two. Two keys are equal exactly where both are; they compare by namespace, and then element
/// by element: kind by bytes, ids before names, ids numerically, names by bytes. A path comes before its extensions.
#[derive(Drop)]
pub struct Key {
    namespace: TextString,
    path: Elems,
}

impl Model for Key {
    ghost use Rattle.std.specs.Prelude.{IsTrue};
    ghost use Rattle.ds_base.specs.Keys.{KeyParts, is_key};

    ghost Value = { KeyParts };

    ghost view = { λ k. record { namespace = k.namespace; elems = k.path } };

    ghost invariant = { λ k. IsTrue (is_key (record { namespace = k.namespace; elems = k.path })) };
}

impl Key {
    ghost use Rattle.std.specs.Prelude.{[], IsOk};
    ghost use Rattle.ds_base.specs.Limits.{greatest_id};
    ghost use Rattle.ds_base.specs.Keys.{KeyParts, is_key, is_path, is_namespace, is_writable, root_of, renumbered};
    ghost use Rattle.ds_base.specs.KeyOrder.{is_ancestor};

    /// The key of this path in the default namespace. `BadKey` comes exactly where the path has no element or more than
    /// 100, a kind or name is empty or longer than 1,500 bytes, or an id isn't from 1 to 2^63 - 1. It takes no memory.
    pub fn new(alloc: Global, path: Elems) -> Result<Key, BadKey>
        ensures ok { IfOk result (λ k. k ≡ record { namespace = []; elems = path }) }
        ensures refused { IsOk result ↔ IsTrue (is_path path) }
    {
        if is_path(&path) {
            Ok(Key {
                namespace: TextString::new(alloc),
                path,
            })
        } else {
            Err(BadKey)
        }
    }

    /// The key of this path in this namespace. `BadKey` comes exactly where `new` answers it for the path, or the
    /// namespace is longer than 100 bytes or has a byte other than an ASCII letter, a digit, `.`, `_` or `-`. It takes no
    /// memory.
    pub fn within(namespace: TextString, path: Elems) -> Result<Key, BadKey>
        ensures ok { IfOk result (λ k. k ≡ record { namespace = namespace; elems = path }) }
        ensures refused { IsOk result ↔ IsTrue (is_key (record { namespace = namespace; elems = path })) }
    {
        if is_namespace(namespace.bytes()) && is_path(&path) {
            Ok(Key { namespace, path })
        } else {
            Err(BadKey)
        }
    }

    /// The path, the root first.
    pub fn elems(&self) -> &Elems
        ensures value { result.now ≡ self.now.elems }
        ensures lawful { IsTrue (is_key self.now) }
    {
        &self.path
    }

    /// The namespace; empty for the default one.
    pub fn namespace(&self) -> &TextString
        ensures value { result.now ≡ self.now.namespace }
        ensures lawful { IsTrue (is_key self.now) }
    {
        &self.namespace
    }

    /// Whether an entity with this key may be written: false exactly where a kind or a name of the path is reserved, so has
    /// at least four bytes and begins and ends with two underscores.
    pub fn writable(&self) -> bool
        ensures { result ≡ is_writable self.now }
    {
        !has_reserved(&self.path)
    }

    /// The key of the entity group: the first element alone, in the same namespace.
    pub fn root(&self, alloc: Global) -> Result<Key, AllocError>
        ensures { IfOk result (λ root. root ≡ root_of self.now) }
    {
        let namespace = self.namespace.copy(alloc)?;
        let elems = self.path.as_slice();
        let first = elems[0].copy(alloc)?;
        let path = Elems::of_one(alloc, first)?;
        Ok(Key { namespace, path })
    }

    /// Whether `of` lies under this key: one namespace, and this path begins that of `of`. Each key is its own ancestor.
    pub fn is_ancestor(&self, of: &Key) -> bool
        ensures { result ≡ is_ancestor self.now of.now }
    {
        self.namespace == of.namespace && of.path.as_slice().starts_with(self.path.as_slice())
    }

    /// Gives the last identifier the number `id`; nothing else changes. It takes no memory.
    pub fn renumber(&mut self, id: u64)
        requires ends_in_id { IsTrue (ends_in_id self.old.elems) }
        requires positive { 1 ≤ id }
        requires bounded { id ≤ greatest_id }
        ensures { self.new ≡ renumbered self.old id }
    {
        set_last_id(&mut self.path, id);
    }
}

ghost use Rattle.ds_base.specs.Keys.{is_name, is_ident, is_elem, is_path, is_namespace, is_namespace_byte, is_reserved};
ghost use Rattle.ds_base.specs.Keys.{is_reserved_elem, ends_in_id, with_last_id};
ghost use Rattle.std.specs.List.{list_all, list_any};

/// Whether a kind, a key name or a property name has 1 to 1,500 bytes.
pub fn is_name(name: &[u8]) -> bool
    ensures { result ≡ is_name name.now }
{
    1 <= name.len() && name.len() <= MAX_NAME_BYTES
}

/// Whether a name is reserved: at least four bytes that begin and end with two underscores.
pub fn is_reserved(name: &[u8]) -> bool
    ensures { result ≡ is_reserved name.now }
{
    name.len() >= 4 && name.starts_with(b"__") && name.ends_with(b"__")
}

/// Whether a namespace has at most 100 bytes, each an ASCII letter, a digit, `.`, `_` or `-`.
pub fn is_namespace(namespace: &[u8]) -> bool
    ensures { result ≡ is_namespace namespace.now }
{
    namespace.len() <= MAX_NAMESPACE_BYTES && all_namespace_bytes(namespace)
}

fn all_namespace_bytes(bytes: &[u8]) -> bool
    ensures { result ≡ list_all is_namespace_byte bytes.now }
{
    bytes.iter().all(|b| is_namespace_byte(*b))
}

fn is_namespace_byte(b: u8) -> bool
    ensures { result ≡ is_namespace_byte b }
{
    b.is_ascii_lowercase()
        || b.is_ascii_uppercase()
        || b.is_ascii_digit()
        || b == b'.'
        || b == b'_'
        || b == b'-'
}

fn is_ident(ident: &Ident) -> bool
    ensures { result ≡ is_ident ident.now }
{
    match ident {
        Ident::Id(id) => 1 <= *id && *id <= MAX_ID,
        Ident::Name(name) => is_name(name.bytes()),
    }
}

fn is_elem(elem: &Elem) -> bool
    ensures { result ≡ is_elem elem.now }
{
    is_name(elem.kind.bytes()) && is_ident(&elem.ident)
}

fn is_path(path: &Elems) -> bool
    ensures { result ≡ is_path path.now }
{
    1 <= path.len() && path.len() <= MAX_PATH_LENGTH && all_elems(path.as_slice())
}

fn all_elems(path: &[Elem]) -> bool
    ensures { result ≡ list_all is_elem path.now }
{
    path.iter().all(|elem| is_elem(elem))
}

fn is_reserved_elem(elem: &Elem) -> bool
    ensures { result ≡ is_reserved_elem elem.now }
{
    is_reserved(elem.kind.bytes())
        || match &elem.ident {
            Ident::Id(_) => false,
            Ident::Name(name) => is_reserved(name.bytes()),
        }
}

fn set_last_id(path: &mut Elems, id: u64)
    requires { IsTrue (ends_in_id path.old) }
    ensures { path.new ≡ with_last_id path.old id }
{
    let last = path.len() - 1;
    let elem = &mut path.items[last];
    elem.ident = Ident::Id(id);
}

fn has_reserved(path: &Elems) -> bool
    ensures { result ≡ list_any is_reserved_elem path.now }
{
    path.as_slice().iter().any(|elem| is_reserved_elem(elem))
}

impl TryCopy for Ident {
    fn copy(&self, alloc: Global) -> Result<Ident, AllocError> {
        Ok(match self {
            Ident::Id(id) => Ident::Id(*id),
            Ident::Name(name) => Ident::Name(name.copy(alloc)?),
        })
    }
}

impl TryCopy for Elem {
    fn copy(&self, alloc: Global) -> Result<Elem, AllocError> {
        Ok(Elem {
            kind: self.kind.copy(alloc)?,
            ident: self.ident.copy(alloc)?,
        })
    }
}

impl TryCopy for Key {
    fn copy(&self, alloc: Global) -> Result<Key, AllocError> {
        let namespace = self.namespace.copy(alloc)?;
        let path = self.path.copy(alloc)?;
        Ok(Key { namespace, path })
    }
}
