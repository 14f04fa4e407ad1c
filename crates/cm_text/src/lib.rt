//! The relaxed spelling of JSON, in which component manifests are written, turned into JSON.
//!
//! Manifest sources (`.cml` files, Fuchsia's "Component manifest reference", fuchsia.dev) are
//! written with the liberties of JSON5 that people use by hand: comments, keys without quotes,
//! strings in single quotes, and a comma after the last item. [`to_json`] reads such a text as
//! tokens and writes the same tokens in plain JSON, parted by one space. It judges tokens alone:
//! whether they make up a JSON value is for a reader of JSON to say.
//!
//! - Tokens are the marks `{ } [ ] : ,`, strings in `"` or `'` in which a `\` takes the next
//!   character with it, and words: the longest runs of ASCII letters, digits and `_ $ + - .`.
//! - Between tokens stand spaces, tabs, line feeds, carriage returns, comments from `//` to the
//!   next line feed or the text's end, and comments from `/*` to the next `*/`.
//! - A comma before `}` or `]` is left out, unless it is the first token or stands right after
//!   `{`, `[` or `,`.
//! - A word before `:` that begins with a letter, `_` or `$` and has only letters, digits, `_`
//!   and `$` is put in double quotes.
//! - A string in single quotes is put in double quotes: a `"` that no `\` takes becomes `\"`, and
//!   `\'` becomes `'`. All else is copied.
#![tactic(auto)]

mod bytes;
mod fault;
pub mod laws;
mod next;
mod relaxed;
mod scan;
mod token;
mod writer;

pub use fault::TextFault;
pub use next::{bare_key, behind_blank};
pub use relaxed::to_json;
