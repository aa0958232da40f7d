//! How an audit ends.
ghost use Rattle.std.specs.Prelude.{◌≡◌};
ghost use Rattle.ds_audit.specs.Exits.{exit_of};

/// How an audit ends.
#[derive(Clone, Copy, PartialEq, Eq, Debug)]
pub enum AuditStatus {
    /// The run is legal, and that is printed.
    Legal,
    /// The words leave their form.
    Usage,
    /// The index file leaves its form at this line.
    IndexFile {
        /// Counted from 1.
        line: u64,
    },
    /// The journal's text isn't one from this line on.
    Journal {
        /// Counted from 1.
        line: u64,
    },
    /// The verdict couldn't be printed.
    WriteFault,
    /// A file couldn't be loaded.
    FileFault,
    /// There was no memory.
    NoMemory,
    /// The run isn't legal, and why is printed.
    NotLegal,
}

impl AuditStatus {
    /// The program's exit status.
    pub fn exit_number(&self) -> u8
        ensures { result ≡ exit_of self.now }
    {
        match self {
            AuditStatus::Legal => 0,
            AuditStatus::Usage => 1,
            AuditStatus::IndexFile { line: _ } => 2,
            AuditStatus::Journal { line: _ } => 3,
            AuditStatus::WriteFault => 4,
            AuditStatus::FileFault => 5,
            AuditStatus::NoMemory => 6,
            AuditStatus::NotLegal => 7,
        }
    }
}
