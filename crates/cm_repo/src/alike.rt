//! The text of a URL that is told by another one: both are a prefix and a fragment with nothing to escape.

ghost use Rattle.std.specs.Prelude.{◌≡◌, ◌++◌, ◌∷◌, Ok, IfSome, IsTrue};
ghost use Rattle.std.specs.List.{list_all};
ghost use Rattle.cm_repo.specs.Urls.{key_of};
ghost use Rattle.cm_repo.specs.UrlsInside as inside;

use crate::urls::plain_prefix;

/// Whether the byte isn't escaped in a fragment, if the text of a URL may have it at all.
fn is_unescaped(byte: u8) -> bool
    ensures { result ≡ inside.is_unescaped byte }
{
    !(byte == b'"' || byte == b'<' || byte == b'>' || byte == b'`')
}

/// Whether no byte is escaped in a fragment.
fn are_unescaped(bytes: &[u8]) -> bool
    ensures { result ≡ list_all inside.is_unescaped bytes.now }
{
    bytes.iter().all(|byte| is_unescaped(*byte))
}

/// What stands behind this prefix and a `#`, if the text begins with both.
fn fragment_behind<'a>(prefix: &str, text: &'a str) -> Option<&'a [u8]>
    ensures { IfSome result (λ fragment. text.now ≡ prefix.now ++ 35 ∷ fragment.now) }
{
    let bytes = text.as_bytes();
    let len = prefix.len();
    if bytes.len() <= len {
        return None;
    }
    if bytes[len] != b'#' {
        return None;
    }
    if &bytes[..len] != prefix.as_bytes() {
        return None;
    }
    Some(&bytes[len + 1..])
}

/// Whether the text is this prefix and, behind it, a fragment of at least one byte of which none is escaped.
fn has_plain_fragment(prefix: &str, text: &str) -> bool
    ensures { IsTrue result → inside.HasPlainFragment prefix.now text.now }
{
    match fragment_behind(prefix, text) {
        None => false,
        Some(fragment) => !fragment.is_empty() && are_unescaped(fragment),
    }
}

/// Whether the text of a URL is told by that of another one, which is its own: both have one prefix, and
/// nothing of either's fragment is escaped.
#[tactic(auto, using(crate::proofs::lemmas::Alike::is_alike_lem))]
pub(crate) fn is_alike(known: &str, url: &str) -> bool
    ensures { IsTrue result → key_of known.now ≡ Ok known.now → key_of url.now ≡ Ok url.now }
{
    let Some(prefix) = plain_prefix(known, url) else {
        return false;
    };
    if !has_plain_fragment(prefix, known) {
        return false;
    }
    has_plain_fragment(prefix, url)
}
