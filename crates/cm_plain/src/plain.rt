//! Plain texts: JSON texts that have no escapes, numbers or words.
//!
//! Most manifests are such texts. Here they are read in one pass over their bytes, with no memory but
//! that of lists and objects, since texts are borrowed; the reader of all JSON texts clears 16 KB for
//! each text before it begins. A manifest that is plain itself, in the relaxed spelling, needs no JSON
//! written for it.

ghost use Rattle.std.specs.Prelude.{◌≡◌, ◌≤◌, ◌<◌, ◌∷◌, length, take_while, Some, IfSome};
ghost use Rattle.std.specs.Prelude.{◌&&◌, ◌++◌, Bool, true, false};
ghost use Rattle.std.specs.List.{list_all};
ghost use Rattle.json.specs.Lex.{class, operator, operator_lexeme, lex, between, token};
ghost use Rattle.json.specs.Token.{string};
ghost use Rattle.serde_json.specs.Read.{read as read_text};
ghost use Rattle.cm_text.specs.Bytes as bytes;
ghost use Rattle.cm_text.specs.Json as json_text;
ghost use Rattle.cm_plain.specs.Plain as spec;
ghost use Rattle.cm_plain.specs.Plain.{HasValue, HasItems, HasMembers, AddsItem, AddsMember};
ghost use Rattle.cm_plain.specs.Plain.{PassesPieces, ReadsAsJson};
ghost use Rattle.cm_plain.specs.JsonTree.{view, items_view, members_view};

use crate::tree::JsonTree;
use std::alloc::Global;

/// How deep the arrays and objects that are read here may nest: as deep as a JSON text's may.
pub(crate) const MAX_DEPTH: usize = 127;

/// Whether the text begins with this byte.
pub(crate) fn is_next(text: &[u8], byte: u8) -> bool
    ensures { result ≡ spec.begins byte text.now }
{
    match text {
        [first, ..] => *first == byte,
        [] => false,
    }
}

/// Whether the byte is a space, a tab, a line feed or a carriage return.
fn is_space(byte: u8) -> bool
    ensures { result ≡ bytes.is_space byte }
{
    matches!(byte, b' ' | b'\t' | b'\n' | b'\r')
}

/// Whether the text begins with a byte that only parts tokens (a space, a tab or a line's end), which both
/// readers pass over.
pub(crate) fn begins_space(text: &[u8]) -> bool
    ensures { result ≡ bytes.begins_with bytes.is_space text.now }
{
    match text {
        [first, ..] => is_space(*first),
        [] => false,
    }
}

/// What stands after this byte of ASCII, where it is next.
pub(crate) fn behind_byte(text: &str, byte: u8) -> Option<&str>
    requires { byte < 128 }
    ensures { IfSome result (λ rest. text.now ≡ byte ∷ rest.now) }
{
    if !is_next(text.as_bytes(), byte) {
        return None;
    }
    Some(&text[1..])
}

/// What stands after a space that is next.
fn behind_one_space(text: &str) -> Option<&str>
    ensures lexed { IfSome result (λ rest. lex between rest.now ≡ lex between text.now) }
    ensures passed { IfSome result (λ rest. (c : Bool) → PassesPieces c text.now c rest.now) }
    ensures shorter { IfSome result (λ rest. length rest.now < length text.now) }
{
    if !begins_space(text.as_bytes()) {
        return None;
    }
    Some(&text[1..])
}

/// What stands after the spaces that come first.
fn behind_space(text: &str) -> &str
    ensures lexed { lex between result.now ≡ lex between text.now }
    ensures passed { (c : Bool) → PassesPieces c text.now c result.now }
    ensures shorter { length result.now ≤ length text.now }
{
    let mut left = text;
    while let Some(rest) = behind_one_space(left) {
        left = rest;
    }
    left
}

/// What stands after a mark that is next.
#[tactic(auto, using(crate::proofs::lemmas::Plain::mark_passed))]
fn behind_mark(text: &str, mark: u8) -> Option<&str>
    requires operates { class mark ≡ operator }
    requires ascii { mark < 128 }
    ensures lexed { IfSome result
        (λ rest. lex between text.now ≡ operator_lexeme mark ∷ lex between rest.now) }
    ensures passed { IfSome result (λ rest. (c : Bool) → (c && json_text.is_closing mark) ≡ false
        → PassesPieces c text.now (json_text.is_comma mark) rest.now) }
    ensures shorter { IfSome result (λ rest. length rest.now < length text.now) }
{
    let rest = behind_byte(behind_space(text), mark)?;
    Some(rest)
}

/// Whether the byte stands for itself in a string with this quote.
fn is_inside(quote: u8, byte: u8) -> bool
    ensures { result ≡ spec.is_inside quote byte }
{
    !(byte == quote || byte == b'\\' || byte < b' ')
}

/// How many bytes of the prefix stand for themselves in a string with this quote.
fn inside_len(text: &[u8], quote: u8) -> usize
    ensures { result ≡ length (take_while (spec.is_inside quote) text.now) }
{
    text.iter()
        .take_while(|byte| is_inside(quote, **byte))
        .count()
}

/// What stands before the quote that closes a string without escapes, and after it.
#[inline(always)]
pub(crate) fn split_string(text: &str, quote: u8) -> Option<(&str, &str)>
    requires { quote < 128 }
    ensures parts { IfSome result (λ parts. text.now ≡ parts.0.now ++ quote ∷ parts.1.now) }
    ensures plain { IfSome result (λ parts. list_all (spec.is_inside quote) parts.0.now ≡ true) }
{
    let bytes = text.as_bytes();
    let len = inside_len(bytes, quote);
    if !is_next(&bytes[len..], quote) {
        return None;
    }
    Some((&text[..len], &text[len + 1..]))
}

/// The string that is next, if it is plain, and what stands after it.
fn read_string(text: &str) -> Option<(&str, &str)>
    ensures lexed { IfSome result (λ read.
        lex between text.now ≡ token (string read.0.now) ∷ lex between read.1.now) }
    ensures passed { IfSome result (λ read. (c : Bool) → PassesPieces c text.now false read.1.now) }
    ensures shorter { IfSome result (λ read. length read.1.now < length text.now) }
{
    let inside = behind_byte(behind_space(text), b'"')?;
    let (plain, rest) = split_string(inside, b'"')?;
    Some((plain, rest))
}

/// The value that is next, and what stands after it, unless there is more to it or memory runs out.
#[cycle(read_value)]
fn read_value(alloc: Global, text: &str, depth: usize) -> Option<(JsonTree<'_>, &str)>
    ensures value { IfSome result (λ read. HasValue depth text.now (view read.0) read.1.now) }
    ensures passed { IfSome result (λ read. (c : Bool) → PassesPieces c text.now false read.1.now) }
    ensures shorter { IfSome result (λ read. length read.1.now < length text.now) }
{
    if let Some((string, rest)) = read_string(text) {
        return Some((JsonTree::Text(string), rest));
    }
    if depth == 0 {
        return None;
    }
    if let Some(inside) = behind_mark(text, b'{') {
        let (members, rest) = read_members(alloc, inside, depth - 1)?;
        return Some((JsonTree::Object(members), rest));
    }
    let inside = behind_mark(text, b'[')?;
    let (items, rest) = read_items(alloc, inside, depth - 1)?;
    Some((JsonTree::Array(items), rest))
}

/// Reads the item that is next.
#[cycle(read_value)]
fn read_item<'a>(
    alloc: Global,
    text: &'a str,
    depth: usize,
    found: &mut Vec<JsonTree<'a>>,
) -> Option<&'a str>
    ensures value { IfSome result
        (λ rest. AddsItem depth text.now found.old.items found.new.items rest.now) }
    ensures passed { IfSome result (λ rest. (c : Bool) → PassesPieces c text.now false rest.now) }
    ensures shorter { IfSome result (λ rest. length rest.now < length text.now) }
{
    let (item, rest) = read_value(alloc, text, depth)?;
    found.push(item).ok()?;
    Some(rest)
}

/// The items up to their closing bracket, and what stands after it.
#[cycle(read_value)]
fn read_items(alloc: Global, text: &str, depth: usize) -> Option<(Vec<JsonTree<'_>>, &str)>
    ensures items { IfSome result
        (λ read. HasItems depth text.now (items_view read.0.items) read.1.now) }
    ensures passed { IfSome result (λ read. PassesPieces false text.now false read.1.now) }
    ensures shorter { IfSome result (λ read. length read.1.now < length text.now) }
{
    let mut found = Vec::new(alloc);
    if let Some(rest) = behind_mark(text, b']') {
        return Some((found, rest));
    }
    let mut left = read_item(alloc, text, depth, &mut found)?;
    'items: while let Some(behind) = behind_mark(left, b',') {
        left = read_item(alloc, behind, depth, &mut found)?;
    }
    let rest = behind_mark(left, b']')?;
    Some((found, rest))
}

/// Reads the member that is next.
#[cycle(read_value)]
fn read_member<'a>(
    alloc: Global,
    text: &'a str,
    depth: usize,
    found: &mut Vec<(&'a str, JsonTree<'a>)>,
) -> Option<&'a str>
    ensures value { IfSome result (λ rest. AddsMember depth text.now
        (members_view found.old.items) (members_view found.new.items) rest.now) }
    ensures passed { IfSome result (λ rest. (c : Bool) → PassesPieces c text.now false rest.now) }
    ensures shorter { IfSome result (λ rest. length rest.now < length text.now) }
{
    let (key, behind) = read_string(text)?;
    let behind = behind_mark(behind, b':')?;
    let (member, rest) = read_value(alloc, behind, depth)?;
    found.push((key, member)).ok()?;
    Some(rest)
}

/// The members up to their closing brace, and what stands after it.
#[cycle(read_value)]
fn read_members(
    alloc: Global,
    text: &str,
    depth: usize,
) -> Option<(Vec<(&str, JsonTree<'_>)>, &str)>
    ensures members { IfSome result
        (λ read. HasMembers depth text.now (members_view read.0.items) read.1.now) }
    ensures passed { IfSome result (λ read. PassesPieces false text.now false read.1.now) }
    ensures shorter { IfSome result (λ read. length read.1.now < length text.now) }
{
    let mut found = Vec::new(alloc);
    if let Some(rest) = behind_mark(text, b'}') {
        return Some((found, rest));
    }
    let mut left = read_member(alloc, text, depth, &mut found)?;
    'members: while let Some(behind) = behind_mark(left, b',') {
        left = read_member(alloc, behind, depth, &mut found)?;
    }
    let rest = behind_mark(left, b'}')?;
    Some((found, rest))
}

/// The value of a JSON text: where there is none, where it has an escape, a number or a word, or
/// where memory runs out, nothing. Where there is one, the text reads as its JSON, too: it has marks,
/// plain strings and spaces alone, and no comma before a closing mark.
#[tactic(auto, using(crate::proofs::lemmas::Plain::text_read))]
pub fn read_plain(alloc: Global, text: &str) -> Option<JsonTree<'_>>
    ensures value { IfSome result (λ value. read_text text.now ≡ Some (view value)) }
    ensures json { IfSome result (λ _. ReadsAsJson text.now) }
{
    let (value, rest) = read_value(alloc, text, MAX_DEPTH)?;
    if !behind_space(rest).is_empty() {
        return None;
    }
    Some(value)
}
