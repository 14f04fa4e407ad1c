//! Absolute URLs.

ghost use Rattle.std.specs.Prelude.{◌≡◌, ◌++◌, None, Ok, IfOk, IfErr, IfSome, IsTrue, length, take_while};
ghost use Rattle.url.specs.Parser.{Parsed};
ghost use Rattle.url.specs.Parser as url;
ghost use Rattle.url.specs.Parts.{Parts};
ghost use Rattle.cm_repo.specs.Answers.{GivesUnless, IsRepoRefusal};
ghost use Rattle.cm_repo.specs.Resolved.{IsResolvedUrl};
ghost use Rattle.cm_repo.specs.Urls.{accepted, text_of, key_of, begins_with_hash, joined_to, absolute_of};
ghost use Rattle.cm_repo.specs.UrlsInside as inside;
ghost use Rattle.cm_repo.specs.declared.fault.UrlFault.TheVariants.{Memory};

use crate::{Repository, ResolvedUrl, UrlFault};
use cm_names::Text;
use cm_names::url::is_url_text;
use std::alloc::Global;
use url::{ParseError, ParseResult, Url};

/// The URL that was read, or why there is none: a URL of 4 GB counts as out of memory.
fn accepted(given: ParseResult<Url>) -> Result<Url, UrlFault>
    ensures { (expected : Parsed Parts) → url.Gives given expected →
        GivesUnless Memory result (accepted expected) }
{
    match given {
        Ok(url) => Ok(url),
        Err(ParseError::OutOfMemory) => Err(UrlFault::Memory),
        Err(ParseError::Overflow) => Err(UrlFault::Memory),
        Err(_) => Err(UrlFault::BadUrl),
    }
}

/// The text of a URL that a manifest or a command can have too, and that names a manifest.
fn text_of(alloc: Global, url: &Url) -> Result<Text, UrlFault>
    ensures { GivesUnless Memory result (text_of url.now) }
{
    if !is_url_text(url.as_str()) {
        return Err(UrlFault::BadUrl);
    }
    match url.fragment() {
        Some(fragment) if !fragment.is_empty() => Ok(Text::from_str(alloc, url.as_str())?),
        _ => Err(UrlFault::NoFragment),
    }
}

/// Whether the text is a fragment alone, which is joined to a base.
fn begins_with_hash(url: &str) -> bool
    ensures { result ≡ begins_with_hash url.now }
{
    matches!(url.as_bytes(), [b'#', ..])
}

/// The text of the URL that stands alone: the key of a block of this URL.
#[tactic(auto, unfolding(crate::specs::Urls::key_of))]
pub(crate) fn key(alloc: Global, url: &str) -> Result<Text, UrlFault>
    ensures { GivesUnless Memory result (key_of url.now) }
{
    let url = accepted(Url::parse(alloc, url))?;
    text_of(alloc, &url)
}

/// Whether the byte begins neither a fragment nor a query.
fn in_prefix(byte: u8) -> bool
    ensures { result ≡ inside.in_prefix byte }
{
    !(byte == b'#' || byte == b'?')
}

/// How many bytes stand before the first that begins a fragment or a query.
fn prefix_len(bytes: &[u8]) -> usize
    ensures { result ≡ length (take_while inside.in_prefix bytes.now) }
{
    bytes.iter().take_while(|byte| in_prefix(**byte)).count()
}

/// Whether the bytes begin with a fragment.
fn begins_fragment(bytes: &[u8]) -> bool
    ensures { result ≡ begins_with_hash bytes.now }
{
    matches!(bytes, [b'#', ..])
}

/// What stands before the fragment of a text that has one, and no query before it.
fn prefix_of(text: &str) -> Option<&str>
    ensures { IfSome result (λ prefix. inside.IsUrlPrefix prefix.now text.now) }
{
    let bytes = text.as_bytes();
    let len = prefix_len(bytes);
    if !begins_fragment(&bytes[len..]) {
        return None;
    }
    Some(&text[..len])
}

/// What stands before the fragment of a base, where a fragment is joined to that base by putting it in the
/// place of the base's own.
#[tactic(auto, using(crate::proofs::lemmas::Url::plain))]
pub(crate) fn plain_prefix<'a>(base: &'a str, url: &str) -> Option<&'a str>
    ensures { IfSome result (λ prefix. inside.IsPlainPrefix prefix.now base.now url.now) }
{
    if !is_url_text(base) {
        return None;
    }
    if !is_url_text(url) {
        return None;
    }
    let prefix = prefix_of(base)?;
    Some(prefix)
}

/// The text of a URL that is joined to any base.
fn joined_to(alloc: Global, base: &str, url: &str) -> Result<Text, UrlFault>
    ensures { GivesUnless Memory result (joined_to base.now url.now) }
{
    let base = accepted(Url::parse(alloc, base))?;
    let url = accepted(base.join(url))?;
    text_of(alloc, &url)
}

/// The text of the absolute URL that `url` is on `base`, which is the URL of the component that
/// names it, and empty where there is none.
///
/// A URL that begins with `#` is joined to the base; any other is read alone. URLs are read,
/// joined and written as the URL Standard says: `..` goes from a path and a space is written
/// `%20`. The faults are tried in this order:
///
/// - `BadUrl` where a URL that begins with `#` has no base or one that isn't a URL, where `url`
///   isn't one, and where the text that comes out is longer than 4,096 bytes or has a byte that
///   isn't a printing one of ASCII, as the space in `foo:a b#x`;
/// - `NoFragment` where the URL that comes out has no fragment or an empty one;
/// - `Memory`.
pub fn absolute(alloc: Global, base: &str, url: &str) -> Result<Text, UrlFault>
    ensures { GivesUnless Memory result (absolute_of base.now url.now) }
{
    let none = Repository::new(alloc);
    none.absolute(base, url)
}

impl Repository {
    /// The URL of this text, which is a key, with the bytes under it.
    fn resolved(&self, url: Text) -> ResolvedUrl<'_>
        ensures { IsResolvedUrl self.now (Ok url) result }
    {
        let bytes = self.find(url.as_str());
        ResolvedUrl { url, bytes }
    }

    /// The URL that stands alone, with the bytes under it. One under which a block came is its own text, and
    /// isn't parsed.
    fn resolve_alone(&self, url: Text) -> Result<ResolvedUrl<'_>, UrlFault>
        ensures ok { IfOk result (IsResolvedUrl self.now (key_of url)) }
        ensures err { IfErr result (λ fault. IsRepoRefusal Memory fault (key_of url)) }
    {
        if let Some(bytes) = self.find_verbatim(url.as_str()) {
            return Ok(ResolvedUrl {
                url,
                bytes: Some(bytes),
            });
        }
        let url = key(self.alloc, url.as_str())?;
        Ok(self.resolved(url))
    }

    /// The URL with this prefix and this fragment, with the bytes under it.
    fn resolve_with_fragment(&self, prefix: &str, url: &str) -> Result<ResolvedUrl<'_>, UrlFault>
        ensures ok { IfOk result (IsResolvedUrl self.now (key_of (prefix.now ++ url.now))) }
        ensures err { IfErr result (λ fault. IsRepoRefusal Memory fault (key_of (prefix.now ++ url.now))) }
    {
        let mut text = Text::from_str(self.alloc, prefix)?;
        text.push_str(url)?;
        self.resolve_alone(text)
    }

    /// The URL that a fragment is on a base, with the bytes under it: mostly the base has no query, and is
    /// taken with this fragment in the place of its own.
    #[tactic(auto, using(crate::proofs::lemmas::Url::joined_is_key))]
    fn resolve_joined(&self, base: &str, url: &str) -> Result<ResolvedUrl<'_>, UrlFault>
        requires { IsTrue (begins_with_hash url.now) }
        ensures ok { IfOk result (IsResolvedUrl self.now (joined_to base.now url.now)) }
        ensures err { IfErr result (λ fault. IsRepoRefusal Memory fault (joined_to base.now url.now)) }
    {
        match plain_prefix(base, url) {
            Some(prefix) => self.resolve_with_fragment(prefix, url),
            None => {
                let url = joined_to(self.alloc, base, url)?;
                Ok(self.resolved(url))
            }
        }
    }

    /// The absolute URL that `url` is on `base`, as [`absolute`] gives its text, with the bytes that stand
    /// under it: all that a resolve looks up. A URL under which a block came isn't parsed again. The faults
    /// are those of [`absolute`].
    #[tactic(auto, unfolding(crate::specs::Urls::absolute_of))]
    pub fn resolve(&self, base: &str, url: &str) -> Result<ResolvedUrl<'_>, UrlFault>
        ensures ok { IfOk result (IsResolvedUrl self.now (absolute_of base.now url.now)) }
        ensures err { IfErr result (λ fault. IsRepoRefusal Memory fault (absolute_of base.now url.now)) }
    {
        if !begins_with_hash(url) {
            return self.resolve_alone(Text::from_str(self.alloc, url)?);
        }
        self.resolve_joined(base, url)
    }

    /// The text of the absolute URL that `url` is on `base`, as [`absolute`] gives it.
    pub fn absolute(&self, base: &str, url: &str) -> Result<Text, UrlFault>
        ensures { GivesUnless Memory result (absolute_of base.now url.now) }
    {
        let found = self.resolve(base, url)?;
        Ok(found.url)
    }
}
