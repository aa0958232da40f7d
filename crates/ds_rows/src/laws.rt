//! What is claimed of the bytes of rows: laws of the definitions, for the crates above to cite. The functions do nothing.
ghost use Rattle.ds_rows.specs.Laws.{RowsAreItsOwn, RowsAreApart, RowsAreOrdered, RowsStandTogether, RowsAreCounted};

/// The rows of an entity are rows of its indexes, and each ends in its key.
pub fn rows_are_its_own()
    ensures { RowsAreItsOwn }
{}

/// Rows of different indexes have different bytes, and so have different rows of one index; so entities with different keys
/// never share a row.
pub fn rows_are_apart()
    ensures { RowsAreApart }
{}

/// Within one index, namespace and kind the order of the bytes of rows is that of the ancestor, where the index has one, the
/// columns, each in its direction, and the key.
pub fn rows_are_ordered()
    ensures { RowsAreOrdered }
{}

/// The rows of one index in one namespace and kind stand together: they begin alike, no other row begins so, and what stands
/// between two strings that begin so begins so too.
pub fn rows_stand_together()
    ensures { RowsStandTogether }
{}

/// An entity has one row more than are counted: that in the index of all entities.
pub fn rows_are_counted()
    ensures { RowsAreCounted }
{}
