//! From the relaxed spelling to JSON.

ghost use Rattle.std.specs.Prelude.{◌≡◌, ◌<◌, ◌^◌, ◌⊎◌, Ok, Err, IfOk, IfErr, length};
ghost use Rattle.cm_text.specs.Json.{json_of};
ghost use Rattle.cm_text.specs.Split.{IsTextFault};
ghost use Rattle.cm_text.specs.Facts.{IsJsonOf};
ghost use Rattle.cm_text.specs.declared.fault.TextFault.TheVariants.{Memory as OutOfMemory};

use crate::TextFault;
use crate::scan::first_piece;
use crate::writer::JsonWriter;
use cm_names::Text;
use std::alloc::Global;

/// The JSON text of a text in the relaxed spelling: its tokens' JSON spellings, parted by one
/// space, as the crate's page says. A text with no tokens gives the empty text.
///
/// The text has fewer than 2^32 bytes, since faults say their places as a `u32`.
///
/// # Errors
///
/// - [`TextFault::BadToken`] or [`TextFault::Unclosed`], the first by its place, where the text
///   has no tokens.
/// - [`TextFault::Memory`] where memory runs out.
pub fn to_json(alloc: Global, text: &str) -> Result<Text, TextFault>
    requires has_places { length text.now < 2 ^ 32 }
    ensures json { IfOk result (λ json. IsJsonOf text.now json) }
    ensures computed { IfOk result (λ json. json_of text.now ≡ Ok json) }
    ensures fault { IfErr result (λ fault. (fault ≡ OutOfMemory) ⊎ IsTextFault text.now fault) }
    ensures computed_fault { IfErr result (λ fault. (fault ≡ OutOfMemory) ⊎ (json_of text.now ≡ Err fault)) }
{
    let mut writer = JsonWriter::new(alloc);
    let mut at = 0;
    while at < text.len() {
        let piece = first_piece(&text[at..], at as u32)?;
        if let Some(token) = piece.token {
            writer.push(token)?;
        }
        at += piece.len;
    }
    let json = writer.finish()?;
    let written = Text::from_string(json)?;
    Ok(written)
}
