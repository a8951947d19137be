//! Why sinks have no files.

/// Why sinks have no files; what they had written is gone.
#[derive(Clone, Copy, Debug, PartialEq, Eq)]
pub enum KeepErr {
    /// Memory ran out for a file's last block.
    NoMemory,
    /// The files have more rows together than a line may.
    TooManyRows,
}
