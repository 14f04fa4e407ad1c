//! Texts in the relaxed spelling that have no escapes, and no numbers or words but keys without quotes.
//!
//! Most manifest sources are such texts. They are read here token by token, in one pass over their bytes,
//! and their JSON isn't written. The JSON of a text that is read says the same.

ghost use Rattle.std.specs.Prelude.{◌≡◌, ◌≤◌, ◌<◌, ◌∷◌, [], length, true, IfSome};
ghost use Rattle.json.specs.Lex.{class, operator};
ghost use Rattle.cm_text.specs.Bytes.{is_quote};
ghost use Rattle.cm_text.specs.Token.{mark};
ghost use Rattle.cm_plain.specs.JsonTree.{view, items_view, members_view};
ghost use Rattle.cm_plain.specs.Relaxed.{PassesTokens, HasString, HasKey, GivesValue, GivesItems};
ghost use Rattle.cm_plain.specs.Relaxed.{GivesMembers, TakesItem, TakesMember, JsonReads};

use crate::plain::{MAX_DEPTH, begins_space, behind_byte, is_next, split_string};
use crate::tree::JsonTree;
use cm_text::{bare_key, behind_blank};
use std::alloc::Global;

/// What stands after a space or a comment that is next.
#[tactic(auto, using(crate::proofs::lemmas::Loose::passes_space, crate::proofs::lemmas::Loose::passes_blank))]
fn behind_one(text: &str) -> Option<&str>
    ensures passed { IfSome result (λ rest. PassesTokens text.now [] rest.now) }
    ensures shorter { IfSome result (λ rest. length rest.now < length text.now) }
{
    if begins_space(text.as_bytes()) {
        return Some(&text[1..]);
    }
    if !is_next(text.as_bytes(), b'/') {
        return None;
    }
    let rest = behind_blank(text)?;
    Some(rest)
}

/// What stands after the spaces and comments that come first.
fn behind_gap(text: &str) -> &str
    ensures passed { PassesTokens text.now [] result.now }
    ensures shorter { length result.now ≤ length text.now }
{
    let mut left = text;
    while let Some(rest) = behind_one(left) {
        left = rest;
    }
    left
}

/// What stands after a mark that is next, and after the gap behind it.
#[tactic(auto, using(crate::proofs::lemmas::Loose::mark_read))]
fn behind_mark(text: &str, sign: u8) -> Option<&str>
    requires operates { class sign ≡ operator }
    requires ascii { sign < 128 }
    ensures passed { IfSome result (λ rest. PassesTokens text.now (mark sign ∷ []) rest.now) }
    ensures shorter { IfSome result (λ rest. length rest.now < length text.now) }
{
    let rest = behind_byte(text, sign)?;
    Some(behind_gap(rest))
}

/// The string in these quotes that is next, if it has no escape, and what stands after it and the gap.
fn read_quoted(text: &str, quote: u8) -> Option<(&str, &str)>
    requires { is_quote quote ≡ true }
    ensures string { IfSome result (λ read. HasString text.now read.0.now read.1.now) }
    ensures shorter { IfSome result (λ read. length read.1.now < length text.now) }
{
    let inside = behind_byte(text, quote)?;
    let (string, rest) = split_string(inside, quote)?;
    Some((string, behind_gap(rest)))
}

/// Whether the byte opens a string.
fn is_quote(byte: u8) -> bool
    ensures { result ≡ is_quote byte }
{
    matches!(byte, b'"' | b'\'')
}

/// The quote that is next.
fn next_quote(text: &[u8]) -> Option<u8>
    ensures { IfSome result (λ quote. is_quote quote ≡ true) }
{
    match text {
        [first, ..] if is_quote(*first) => Some(*first),
        _ => None,
    }
}

/// The string that is next, if it has no escape, and what stands after it and after the spaces and comments
/// behind it.
fn read_string(text: &str) -> Option<(&str, &str)>
    ensures string { IfSome result (λ read. HasString text.now read.0.now read.1.now) }
    ensures shorter { IfSome result (λ read. length read.1.now < length text.now) }
{
    let quote = next_quote(text.as_bytes())?;
    read_quoted(text, quote)
}

/// The key that is next, and what stands after it and the gap.
#[tactic(auto, using(crate::proofs::lemmas::Loose::string_is_key, crate::proofs::lemmas::Loose::key_read))]
fn read_key(text: &str) -> Option<(&str, &str)>
    ensures key { IfSome result (λ read. HasKey text.now read.0.now read.1.now) }
    ensures shorter { IfSome result (λ read. length read.1.now < length text.now) }
{
    if let Some((string, rest)) = read_string(text) {
        return Some((string, rest));
    }
    let (key, rest) = bare_key(text)?;
    Some((key, behind_gap(rest)))
}

/// The value that is next, and what stands after it and the gap, unless there is more to it or memory
/// runs out.
#[cycle(read_value)]
fn read_value(alloc: Global, text: &str, depth: usize) -> Option<(JsonTree<'_>, &str)>
    ensures value { IfSome result (λ read. GivesValue depth text.now (view read.0) read.1.now) }
    ensures shorter { IfSome result (λ read. length read.1.now < length text.now) }
{
    if let Some((string, rest)) = read_string(text) {
        return Some((JsonTree::Text(string), rest));
    }
    if depth == 0 {
        return None;
    }
    if let Some(inside) = behind_mark(text, b'{') {
        let (members, rest) = read_members(alloc, inside, depth - 1)?;
        return Some((JsonTree::Object(members), rest));
    }
    let inside = behind_mark(text, b'[')?;
    let (items, rest) = read_items(alloc, inside, depth - 1)?;
    Some((JsonTree::Array(items), rest))
}

/// Reads the item that is next.
#[cycle(read_value)]
fn read_item<'a>(
    alloc: Global,
    text: &'a str,
    depth: usize,
    found: &mut Vec<JsonTree<'a>>,
) -> Option<&'a str>
    ensures value { IfSome result
        (λ rest. TakesItem depth text.now found.old.items found.new.items rest.now) }
    ensures shorter { IfSome result (λ rest. length rest.now < length text.now) }
{
    let (item, rest) = read_value(alloc, text, depth)?;
    found.push(item).ok()?;
    Some(rest)
}

/// The items up to their closing bracket, and what stands after it and the gap.
#[cycle(read_value)]
fn read_items(alloc: Global, text: &str, depth: usize) -> Option<(Vec<JsonTree<'_>>, &str)>
    ensures items { IfSome result
        (λ read. GivesItems depth text.now (items_view read.0.items) read.1.now) }
    ensures shorter { IfSome result (λ read. length read.1.now < length text.now) }
{
    let mut found = Vec::new(alloc);
    if let Some(rest) = behind_mark(text, b']') {
        return Some((found, rest));
    }
    let mut left = read_item(alloc, text, depth, &mut found)?;
    'items: while let Some(behind) = behind_mark(left, b',') {
        if let Some(rest) = behind_mark(behind, b']') {
            return Some((found, rest));
        }
        left = read_item(alloc, behind, depth, &mut found)?;
    }
    let rest = behind_mark(left, b']')?;
    Some((found, rest))
}

/// Reads the member that is next.
#[cycle(read_value)]
fn read_member<'a>(
    alloc: Global,
    text: &'a str,
    depth: usize,
    found: &mut Vec<(&'a str, JsonTree<'a>)>,
) -> Option<&'a str>
    ensures value { IfSome result (λ rest. TakesMember depth text.now
        (members_view found.old.items) (members_view found.new.items) rest.now) }
    ensures shorter { IfSome result (λ rest. length rest.now < length text.now) }
{
    let (key, behind) = read_key(text)?;
    let behind = behind_mark(behind, b':')?;
    let (member, rest) = read_value(alloc, behind, depth)?;
    found.push((key, member)).ok()?;
    Some(rest)
}

/// The members up to their closing brace, and what stands after it and the gap.
#[cycle(read_value)]
fn read_members(
    alloc: Global,
    text: &str,
    depth: usize,
) -> Option<(Vec<(&str, JsonTree<'_>)>, &str)>
    ensures members { IfSome result
        (λ read. GivesMembers depth text.now (members_view read.0.items) read.1.now) }
    ensures shorter { IfSome result (λ read. length read.1.now < length text.now) }
{
    let mut found = Vec::new(alloc);
    if let Some(rest) = behind_mark(text, b'}') {
        return Some((found, rest));
    }
    let mut left = read_member(alloc, text, depth, &mut found)?;
    'members: while let Some(behind) = behind_mark(left, b',') {
        if let Some(rest) = behind_mark(behind, b'}') {
            return Some((found, rest));
        }
        left = read_member(alloc, behind, depth, &mut found)?;
    }
    let rest = behind_mark(left, b'}')?;
    Some((found, rest))
}

/// The value of a text in the relaxed spelling, which its JSON has: where it has none, where it has an
/// escape, a number or a word that is no key, or where memory runs out, nothing.
pub fn read_relaxed(alloc: Global, text: &str) -> Option<JsonTree<'_>>
    ensures { IfSome result (λ value. JsonReads text.now (view value)) }
{
    let (value, rest) = read_value(alloc, behind_gap(text), MAX_DEPTH)?;
    if !rest.is_empty() {
        return None;
    }
    Some(value)
}
