//! The text of a URL, as manifests and commands have it.

ghost use Rattle.std.specs.Prelude.{◌≡◌};
ghost use Rattle.std.specs.List.{list_all};
ghost use Rattle.cm_names.specs.Urls as spec;

use crate::limits::MAX_URL_BYTES;

/// Whether the byte may stand in the text of a URL: a printing one of ASCII other than the space.
pub fn is_url_byte(byte: u8) -> bool
    ensures { result ≡ spec.is_url_byte byte }
{
    byte >= 33 && byte <= 126
}

/// Whether the text is 1 to 4,096 bytes that may stand in a URL. Whether it is a URL isn't asked.
pub fn is_url_text(text: &str) -> bool
    ensures { result ≡ spec.is_url_text text.now }
{
    !text.is_empty() && text.len() <= MAX_URL_BYTES && has_url_bytes(text)
}

/// Whether each byte may stand in the text of a URL.
fn has_url_bytes(text: &str) -> bool
    ensures { result ≡ list_all spec.is_url_byte text.now }
{
    text.as_bytes().iter().all(|byte| is_url_byte(*byte))
}
