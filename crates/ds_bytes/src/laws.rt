//! What is claimed of the bytes of values, keys and rows: laws of the definitions, for readers and for the crates above to
//! cite. The functions do nothing.
ghost use Rattle.ds_bytes.specs.Laws.{EncodingsAreOrdered, EncodingsAreReadOnce, KeysUnderOneBeginAlike};

/// The bytes of values, of keys and of rows have the order of the values, the keys and the rows, in the direction in which they
/// are written.
pub fn encodings_are_ordered()
    ensures { EncodingsAreOrdered }
{}

/// Different values, keys and rows have different bytes, and what follows them never turns one into another: no encoding of
/// one direction begins another one.
pub fn encodings_are_read_once()
    ensures { EncodingsAreReadOnce }
{}

/// The bytes of the keys under an ancestor, and of no other key, begin with the bytes of the ancestor without their last one.
pub fn keys_under_one_begin_alike()
    ensures { KeysUnderOneBeginAlike }
{}
