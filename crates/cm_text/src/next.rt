//! What a text begins with, for a reader that takes it apart by itself.

ghost use Rattle.std.specs.Prelude.{◌≡◌, ◌<◌, length, take_while, IfSome};
ghost use Rattle.cm_text.specs.Bytes as spec;
ghost use Rattle.cm_text.specs.Next.{BehindBlank, BehindKey};

use crate::bytes::{continues_key, is_word_byte};
use crate::scan::first_piece;
use crate::writer::first_begins_key;

/// What stands after the space or the comment that is next.
pub fn behind_blank(text: &str) -> Option<&str>
    ensures blank { IfSome result (λ rest. BehindBlank text.now rest.now) }
    ensures shorter { IfSome result (λ rest. length rest.now < length text.now) }
{
    if text.is_empty() {
        return None;
    }
    let Ok(piece) = first_piece(text, 0) else {
        return None;
    };
    match piece.token {
        None => Some(&text[piece.len..]),
        Some(_) => None,
    }
}

/// How many bytes of the prefix may stand in a key with no quotes.
fn key_len(bytes: &[u8]) -> usize
    ensures { result ≡ length (take_while spec.continues_key bytes.now) }
{
    bytes
        .iter()
        .take_while(|byte| continues_key(**byte))
        .count()
}

/// Whether the first byte may stand in a word.
fn begins_word(bytes: &[u8]) -> bool
    ensures { result ≡ spec.begins_with spec.is_word_byte bytes.now }
{
    match bytes {
        [first, ..] => is_word_byte(*first),
        [] => false,
    }
}

/// The key without quotes that is next, and what stands after it.
pub fn bare_key(text: &str) -> Option<(&str, &str)>
    ensures key { IfSome result (λ read. BehindKey text.now read.0.now read.1.now) }
    ensures shorter { IfSome result (λ read. length read.1.now < length text.now) }
{
    let bytes = text.as_bytes();
    if !first_begins_key(bytes) {
        return None;
    }
    let len = key_len(bytes);
    if begins_word(&bytes[len..]) {
        return None;
    }
    Some((&text[..len], &text[len..]))
}
