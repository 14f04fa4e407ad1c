//! The tokens of a text, as they stand in it.

/// A token of a text in the relaxed spelling.
#[derive(Debug, Clone, Copy)]
pub(crate) enum Token<'a> {
    /// One of the bytes `{ } [ ] : ,`.
    Mark(u8),
    /// A string: its quote, `"` or `'`, and what stands between its quotes.
    Quoted(u8, &'a str),
    /// A run of letters, digits, `_`, `$`, `+`, `-` and `.`.
    Word(&'a str),
}

/// What a text begins with: a token, or a space or a comment.
#[derive(Debug, Clone, Copy)]
pub(crate) struct Piece<'a> {
    /// The token, and `None` for a space or a comment.
    pub token: Option<Token<'a>>,
    /// The number of its bytes.
    pub len: usize,
}
