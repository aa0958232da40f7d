//! What is claimed of keys and entities that are shown in replies, commits and other texts: laws of the definitions, for readers and for
//! the crates above to cite. The functions do nothing.
ghost use Rattle.ds_journal_text.specs.ReadingBack.{EntitiesAreReadBack, KeysAreReadBack};

/// A key that a reply or a commit shows is read back as that key.
pub fn keys_are_read_back()
    ensures { KeysAreReadBack }
{}

/// An entity that a reply or a commit shows is read back as that entity: its key, and its properties with all their values.
pub fn entities_are_read_back()
    ensures { EntitiesAreReadBack }
{}
