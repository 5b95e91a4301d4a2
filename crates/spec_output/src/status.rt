//! The statuses with which the program ends.

/// How a run of the program ends.
#[derive(Clone, Copy, Debug, PartialEq, Eq)]
pub enum Status {
    /// What the words ask for was written.
    Done,
    /// The words have none of the forms.
    Usage,
    /// A file could not be read.
    ReadFault,
    /// The output took no more.
    WriteFault,
    OutOfMemory,
    /// The grammar is refused.
    Grammar,
    /// A query is refused.
    Query,
    /// The script is refused.
    Script,
    /// There is no file at a path.
    Absent,
    /// A text is too large, or is not UTF-8.
    Text,
}
