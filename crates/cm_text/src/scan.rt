//! The first piece of a text: a token, a space or a comment.

ghost use Rattle.std.specs.Prelude.{◌≡◌, ◌<◌, ◌==◌, false, Some, None, IsTrue, length, take_while};
ghost use Rattle.std.specs.Option.{option_map};
ghost use Rattle.cm_text.specs.Bytes as spec;
ghost use Rattle.cm_text.specs.Pieces.{comment};
ghost use Rattle.cm_text.specs.Scan.{close_place, outline, first_of_text, piece_outline, result_outline};

use crate::TextFault;
use crate::bytes::{is_mark, is_quote, is_space, is_word_byte};
use crate::token::{Piece, Token};

/// How many bytes of the prefix may stand in a word.
fn word_len(bytes: &[u8]) -> usize
    ensures { result ≡ length (take_while spec.is_word_byte bytes.now) }
{
    bytes.iter().take_while(|byte| is_word_byte(**byte)).count()
}

/// How many bytes stand before the first line feed.
fn line_len(bytes: &[u8]) -> usize
    ensures { result ≡ length (take_while spec.is_in_line bytes.now) }
{
    bytes.iter().take_while(|byte| **byte != b'\n').count()
}

/// Whether the bytes begin with `*/`, which ends a comment.
fn closes_comment(bytes: &[u8]) -> bool
    ensures { result ≡ spec.closes_comment bytes.now }
{
    matches!(bytes, [b'*', b'/', ..])
}

/// How many bytes stand before the first `*/`, where there is one.
fn comment_len(bytes: &[u8]) -> Option<usize>
    ensures { result ≡ option_map length (comment bytes.now) }
{
    for i in 0..bytes.len() {
        if closes_comment(&bytes[i..]) {
            return Some(i);
        }
    }
    None
}

/// How many bytes stand before the first `quote` that no backslash takes, where there is one.
fn string_len(quote: u8, bytes: &[u8]) -> Option<usize>
    ensures { result ≡ close_place quote false bytes.now }
{
    let mut behind_backslash = false;
    for (i, byte) in bytes.iter().enumerate() {
        if behind_backslash {
            behind_backslash = false;
        } else if *byte == quote {
            return Some(i);
        } else {
            behind_backslash = *byte == b'\\';
        }
    }
    None
}

/// The comment that a slash begins.
///
/// The fault at `place` is `BadToken` where no comment begins, and `Unclosed` where a `/*` has
/// no `*/`.
fn comment_piece(text: &str, place: u32) -> Result<Piece<'_>, TextFault>
    requires { IsTrue (spec.begins_with (λ b. b == 47) text.now) }
    ensures { result_outline result ≡ outline place (first_of_text text.now) }
{
    match text.as_bytes() {
        [_, b'/', behind @ ..] => Ok(Piece {
            token: None,
            len: 2 + line_len(behind),
        }),
        [_, b'*', behind @ ..] => match comment_len(behind) {
            Some(len) => Ok(Piece {
                token: None,
                len: 4 + len,
            }),
            None => Err(TextFault::Unclosed(place)),
        },
        _ => Err(TextFault::BadToken(place)),
    }
}

/// The string that a quote begins, or `Unclosed` at `place` where it never ends.
fn string_piece(text: &str, place: u32) -> Result<Piece<'_>, TextFault>
    requires { IsTrue (spec.begins_with spec.is_quote text.now) }
    ensures { result_outline result ≡ outline place (first_of_text text.now) }
{
    let bytes = text.as_bytes();
    let quote = bytes[0];
    match string_len(quote, &bytes[1..]) {
        Some(len) => {
            let inside = &text[1..1 + len];
            Ok(Piece {
                token: Some(Token::Quoted(quote, inside)),
                len: 2 + len,
            })
        }
        None => Err(TextFault::Unclosed(place)),
    }
}

/// The word that a text begins with.
fn word_piece(text: &str) -> Piece<'_>
    requires { IsTrue (spec.begins_with spec.is_word_byte text.now) }
    ensures { piece_outline result ≡ outline 0 (first_of_text text.now) }
{
    let len = word_len(text.as_bytes());
    Piece {
        token: Some(Token::Word(&text[..len])),
        len,
    }
}

/// The piece that a text begins with, or its fault at `place`.
pub(crate) fn first_piece(text: &str, place: u32) -> Result<Piece<'_>, TextFault>
    requires { 0 < length text.now }
    ensures { result_outline result ≡ outline place (first_of_text text.now) }
{
    let first = text.as_bytes()[0];
    if is_mark(first) {
        Ok(Piece {
            token: Some(Token::Mark(first)),
            len: 1,
        })
    } else if is_space(first) {
        Ok(Piece {
            token: None,
            len: 1,
        })
    } else if is_quote(first) {
        string_piece(text, place)
    } else if is_word_byte(first) {
        Ok(word_piece(text))
    } else if first == b'/' {
        comment_piece(text, place)
    } else {
        Err(TextFault::BadToken(place))
    }
}
