//! The bytes that tell the parts of encodings apart. Their order is that of the parts.

/// The classes of values, in their order.
pub(crate) const NULL: u8 = 0x10;

pub(crate) const NUMBER: u8 = 0x20;

pub(crate) const TRUTH: u8 = 0x30;

pub(crate) const SEQUENCE: u8 = 0x40;

pub(crate) const KEY: u8 = 0x50;

/// The end of a path is below what stands before each of its elements, so that a path comes before its extensions. A
/// namespace other than the default stands before the path; it is above both.
pub(crate) const PATH_END: u8 = 0x01;

pub(crate) const ELEMENT: u8 = 0x02;

pub(crate) const NAMESPACE: u8 = 0x03;

/// Ids come before names.
pub(crate) const ID: u8 = 0x10;

pub(crate) const NAME: u8 = 0x20;

/// A zero byte of a text is followed by `STAYS`, and a zero byte and `TEXT_END` end it: so a text comes before its
/// extensions.
pub(crate) const ZERO: u8 = 0x00;

pub(crate) const STAYS: u8 = 0xff;

pub(crate) const TEXT_END: u8 = 0x01;
