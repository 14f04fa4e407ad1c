//! How a session ends.

/// Why a session ended.
#[derive(Debug, Clone, Copy, PartialEq, Eq)]
pub enum Ended {
    /// The link came to its end, and each of its lines was served.
    End,
    /// A line `quit` came, and each line before it was served.
    Quit,
    /// The link failed as a source: its count of faults rose.
    ReadFault,
    /// The link failed as a sink: its count of faults rose.
    WriteFault,
    /// 1,048,576 lines were served, which is as many as one session may have.
    LinesSpent,
    /// Memory ran out for a line, for its reply, or for the session itself.
    Memory,
}
