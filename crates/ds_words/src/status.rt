//! How a run of the server ends.
ghost use Rattle.std.specs.Prelude.{◌≡◌};
ghost use Rattle.ds_words.specs.Exits.{exit_of};

/// How a run ended.
#[derive(Clone, Copy, Debug, PartialEq, Eq)]
pub enum Status {
    /// The input was read to its end, and every reply was taken.
    Done,
    /// The words of the command line leave their form.
    Usage,
    /// The index file leaves its grammar at this line, counted from 1.
    IndexFile { line: u64 },
    /// A read failed.
    ReadFault,
    /// A write failed.
    WriteFault,
    /// The index file could not be read.
    FileFault,
    /// There was no memory.
    NoMemory,
    /// So many bytes were taken as are taken of an input, `MAX_INPUT_BYTES` of `ds_base`'s limits.
    InputLimit,
}

impl Status {
    /// The number with which the program ends, 0 exactly for `Done`.
    pub fn exit_number(&self) -> u8
        ensures { result ≡ exit_of self.now }
    {
        match self {
            Status::Done => 0,
            Status::Usage => 1,
            Status::IndexFile { line: _ } => 2,
            Status::ReadFault => 3,
            Status::WriteFault => 4,
            Status::FileFault => 5,
            Status::NoMemory => 6,
            Status::InputLimit => 7,
        }
    }
}
