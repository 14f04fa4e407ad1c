//! Which bytes stand in which tokens.

ghost use Rattle.std.specs.Prelude.{◌≡◌};
ghost use Rattle.cm_text.specs.Bytes as bytes;

/// Whether the byte is one of `{ } [ ] : ,`.
pub(crate) fn is_mark(byte: u8) -> bool
    ensures { result ≡ bytes.is_mark byte }
{
    matches!(byte, b'{' | b'}' | b'[' | b']' | b':' | b',')
}

/// Whether the byte is a space, a tab, a line feed or a carriage return.
pub(crate) fn is_space(byte: u8) -> bool
    ensures { result ≡ bytes.is_space byte }
{
    matches!(byte, b' ' | b'\t' | b'\n' | b'\r')
}

/// Whether the byte opens a string.
pub(crate) fn is_quote(byte: u8) -> bool
    ensures { result ≡ bytes.is_quote byte }
{
    matches!(byte, b'"' | b'\'')
}

/// Whether a key with no quotes may begin with the byte: a letter, `_` or `$`.
pub(crate) fn begins_key(byte: u8) -> bool
    ensures { result ≡ bytes.begins_key byte }
{
    matches!(byte, b'a'..=b'z' | b'A'..=b'Z' | b'_' | b'$')
}

/// Whether the byte may stand in a key with no quotes: a letter, a digit, `_` or `$`.
pub(crate) fn continues_key(byte: u8) -> bool
    ensures { result ≡ bytes.continues_key byte }
{
    begins_key(byte) || matches!(byte, b'0'..=b'9')
}

/// Whether the byte may stand in a word: a letter, a digit, `_`, `$`, `+`, `-` or `.`.
pub(crate) fn is_word_byte(byte: u8) -> bool
    ensures { result ≡ bytes.is_word_byte byte }
{
    continues_key(byte) || matches!(byte, b'+' | b'-' | b'.')
}
