//! The writer of a text's JSON, token by token.

ghost use Rattle.std.specs.Prelude.{◌≡◌, ◌++◌, ◌∷◌, ℕ, List, [], false, Some, None, option_map, IsTrue, IfOk};
ghost use Rattle.std.specs.Prelude.{OnOk, string_bytes};
ghost use Rattle.std.specs.List.{list_all};
ghost use Rattle.cm_text.specs.Token.{quoted, Token as SpecToken};
ghost use Rattle.cm_text.specs.Split.{is_token};
ghost use Rattle.cm_text.specs.Json as spec;
ghost use Rattle.cm_text.specs.Bytes as bytes_spec;
ghost use Rattle.cm_text.specs.Scan.{token_of, within};
ghost use Rattle.cm_text.specs.Spelling.{are_chars, char_text, chars_json, is_pending, spelling_behind_space};
ghost use Rattle.cm_text.specs.Spelling.{is_same};

use crate::bytes::{begins_key, continues_key};
use crate::token::Token;
use std::alloc::{AllocError, Global};

/// Whether a key with no quotes may begin with the first byte.
pub(crate) fn first_begins_key(bytes: &[u8]) -> bool
    ensures { result ≡ bytes_spec.begins_with bytes_spec.begins_key bytes.now }
{
    match bytes {
        [first, ..] => begins_key(*first),
        [] => false,
    }
}

/// Whether each byte may stand in a key with no quotes.
fn all_continue_key(bytes: &[u8]) -> bool
    ensures { result ≡ list_all bytes_spec.continues_key bytes.now }
{
    bytes.iter().all(|byte| continues_key(*byte))
}

/// Whether a word may be a key with no quotes.
fn is_bare_key(word: &str) -> bool
    ensures { result ≡ spec.is_bare_key word.now }
{
    let bytes = word.as_bytes();
    first_begins_key(bytes) && all_continue_key(bytes)
}

/// Whether a comma is left out: before `}` or `]`, after a token other than `{`, `[` and `,`.
fn is_needless(before: Option<Token<'_>>, token: Token<'_>, after: Option<Token<'_>>) -> bool
    ensures { result ≡ spec.is_needless (option_map token_of before.entry) (token_of token.entry)
        (option_map token_of after.entry) }
{
    let is_comma = matches!(token, Token::Mark(b','));
    let closes = matches!(after, Some(Token::Mark(b'}' | b']')));
    let behind_item = !matches!(before, None | Some(Token::Mark(b'{' | b'[' | b',')));
    is_comma && closes && behind_item
}

/// Whether a token is a colon.
fn is_colon(token: Option<Token<'_>>) -> bool
    ensures { result ≡ spec.is_mark_of spec.is_colon (option_map token_of token.entry) }
{
    matches!(token, Some(Token::Mark(b':')))
}

/// Writes a text between double quotes.
fn write_in_quotes(json: &mut String, text: &str) -> Result<(), AllocError>
    ensures { OnOk result (string_bytes json.new ≡ string_bytes json.old ++ spec.in_quotes text.now) }
{
    json.push('"')?;
    json.push_str(text)?;
    json.push('"')
}

/// Writes a character of a string in single quotes, which stands after a backslash or not.
fn write_char(json: &mut String, c: char, taken: bool) -> Result<(), AllocError>
    ensures { OnOk result (string_bytes json.new ≡ string_bytes json.old ++ char_text taken c) }
{
    let needs_backslash = if taken { c != '\'' } else { c == '"' };
    if needs_backslash {
        json.push('\\')?;
    }
    json.push(c)
}

/// Writes what stands between single quotes as it is to stand between double quotes, character by
/// character.
fn write_each_char(json: &mut String, inside: &str) -> Result<(), AllocError>
    requires { IsTrue (are_chars false inside.now) }
    ensures { OnOk result (string_bytes json.new ≡ string_bytes json.old ++ chars_json false inside.now) }
{
    let mut taken = false;
    for c in inside.chars() {
        if c == '\\' && !taken {
            taken = true;
        } else {
            write_char(json, c, taken)?;
            taken = false;
        }
    }
    Ok(())
}

/// Whether the byte stands for itself between single and between double quotes.
fn is_same(byte: u8) -> bool
    ensures { result ≡ is_same byte }
{
    !(byte == b'"' || byte == b'\\')
}

/// Whether each byte stands for itself between single and between double quotes.
fn are_same(bytes: &[u8]) -> bool
    ensures { result ≡ list_all is_same bytes.now }
{
    bytes.iter().all(|byte| is_same(*byte))
}

/// Writes what stands between single quotes as it is to stand between double quotes.
fn write_chars(json: &mut String, inside: &str) -> Result<(), AllocError>
    requires { IsTrue (are_chars false inside.now) }
    ensures { OnOk result (string_bytes json.new ≡ string_bytes json.old ++ chars_json false inside.now) }
{
    if are_same(inside.as_bytes()) {
        json.push_str(inside)?;
        return Ok(());
    }
    write_each_char(json, inside)
}

/// Writes the JSON of a string, given its quote and what stands between its quotes.
fn write_quoted(json: &mut String, quote: u8, inside: &str) -> Result<(), AllocError>
    requires { IsTrue (is_token (quoted quote (within false inside.now))) }
    ensures { OnOk result (string_bytes json.new
        ≡ string_bytes json.old ++ spec.token_json false (quoted quote (within false inside.now))) }
{
    if quote == b'\'' {
        json.push('"')?;
        write_chars(json, inside)?;
        json.push('"')
    } else {
        write_in_quotes(json, inside)
    }
}

/// Adds the JSON of a token to the text; a word gets quotes where a colon follows it.
fn write_token(json: &mut String, token: Token<'_>, before_colon: bool) -> Result<(), AllocError>
    requires { IsTrue (is_token (token_of token)) }
    ensures { OnOk result (string_bytes json.new
        ≡ string_bytes json.old ++ spec.token_json before_colon (token_of token.entry)) }
{
    match token {
        Token::Mark(mark) => json.push(char::from(mark)),
        Token::Quoted(quote, inside) => write_quoted(json, quote, inside),
        Token::Word(word) if before_colon && is_bare_key(word) => write_in_quotes(json, word),
        Token::Word(word) => json.push_str(word),
    }
}

/// Writes a token between its neighbours, after a space where a token stands before it.
fn write_between(
    json: &mut String,
    before: Option<Token<'_>>,
    token: Token<'_>,
    after: Option<Token<'_>>,
) -> Result<(), AllocError>
    requires { IsTrue (is_token (token_of token)) }
    ensures { OnOk result (string_bytes json.new
        ≡ string_bytes json.old
        ++ spelling_behind_space (option_map token_of before.entry) (token_of token.entry)
        (option_map token_of after.entry)) }
{
    if is_needless(before, token, after) {
        return Ok(());
    }
    if before.is_some() {
        json.push(' ')?;
    }
    write_token(json, token, is_colon(after))
}

/// What is written of a text's JSON so far: the JSON of all its tokens but the last one read,
/// whose spelling depends on the token after it.
#[derive(Drop)]
pub(crate) struct JsonWriter<'a> {
    json: String,
    before: Option<Token<'a>>,
    pending: Option<Token<'a>>,
    ghost is_spelled: { IsTrue (is_pending before pending) },
}

impl<'a> JsonWriter<'a> {
    ghost use Rattle.cm_text.specs.Writing.{IsWritten, json_then};

    /// A writer that has written nothing.
    pub fn new(alloc: Global) -> JsonWriter<'a>
        ensures { (ts : List SpecToken) → json_then result ts ≡ spec.json_of_tokens ts }
    {
        JsonWriter {
            json: String::new(alloc),
            before: None,
            pending: None,
        }
    }

    /// Writes the pending token, whose neighbour is now known.
    fn write_pending(&mut self, after: Option<Token<'a>>) -> Result<(), AllocError>
        ensures { OnOk result (IsWritten self.old self.new (option_map token_of after.entry)) }
    {
        match self.pending {
            Some(token) => write_between(&mut self.json, self.before, token, after),
            None => Ok(()),
        }
    }

    /// Takes the next token.
    pub fn push(&mut self, token: Token<'a>) -> Result<(), AllocError>
        requires { IsTrue (is_token (token_of token)) }
        ensures { OnOk result ((ts : List SpecToken)
            → json_then self.new ts ≡ json_then self.old (token_of token.entry ∷ ts)) }
    {
        self.write_pending(Some(token))?;
        self.before = self.pending;
        self.pending = Some(token);
        Ok(())
    }

    /// The whole text's JSON, where no token follows.
    pub fn finish(mut self) -> Result<String, AllocError>
        ensures { IfOk result (λ json. string_bytes json ≡ json_then self.entry []) }
    {
        self.write_pending(None)?;
        let JsonWriter {
            json,
            before: _,
            pending: _,
        } = self;
        Ok(json)
    }
}
