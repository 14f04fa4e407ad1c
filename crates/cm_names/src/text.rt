//! Texts, which are valid UTF-8.

ghost use Rattle.std.specs.Prelude.{◌≡◌, ◌++◌, ◌↔◌, [], length, string_bytes, IsTrue, IfOk, OnOk, OnErr};
ghost use Rattle.std.specs.Fmt.{AppendsText};
ghost use Rattle.cm_names.specs.Text.{stored_bytes};

use crate::short::{MAX_SHORT_BYTES, Short};
use crate::{Memory, Plain};
use arrayvec::ArrayString;
use std::alloc::{AllocError, Global};
use std::cmp::Ordering;
use std::convert::AsStr;
use std::fmt;
use std::hash::{Hash, Hasher};
use std::marker::Model;
use std::sync::Arc;

/// The greatest number of bytes of a text that takes no more than one allocation.
const MAX_SMALL_BYTES: usize = 40;

/// A text, which contracts see as the list of its bytes.
///
/// Two texts are equal where their bytes are, and are ordered by their bytes. A text takes 16 bytes.
/// One of up to 14 bytes takes no memory beside itself. A longer one stands in an allocation, and one
/// of more than 40 bytes in two, which its copies share: a copy takes no memory.
pub struct Text {
    alloc: Global,
    stored: Stored,
}

/// Where the bytes of a text stand.
#[derive(Drop)]
pub(crate) enum Stored {
    /// In the text itself.
    Inline(Short),
    /// In an allocation of a fixed size.
    Small(Arc<ArrayString<MAX_SMALL_BYTES>>),
    /// In a string.
    Large(Arc<String>),
}

impl Model for Text {
    ghost use Rattle.std.specs.Prelude.{List as Seq, ℕ};
    ghost use Rattle.cm_names.specs.Text.{stored_bytes};

    ghost Value = { Seq ℕ };

    ghost view = { λ a. stored_bytes a.stored };
}

impl Drop for Text {
    /// Called where the value goes: gives back the memory of its parts.
    fn drop(self) {
        let Text {
            alloc: _,
            stored: _,
        } = self;
    }
}

impl Stored {
    /// The text, wherever its bytes stand.
    fn as_str(&self) -> &str
        ensures { result.now ≡ stored_bytes self.now }
    {
        match self {
            Stored::Inline(short) => short.as_str(),
            Stored::Small(shared) => shared.as_ref().as_str(),
            Stored::Large(shared) => shared.as_ref().as_str(),
        }
    }

    /// A place for the bytes of the text, which takes memory where they are more than 14. `Err(Memory)`
    /// comes where memory runs out.
    fn of(alloc: Global, text: &str) -> Result<Stored, Memory>
        ensures { IfOk result (λ made. stored_bytes made ≡ text.now) }
    {
        if text.len() <= MAX_SHORT_BYTES {
            return Ok(Stored::Inline(Short::of(text)));
        }
        Stored::join(alloc, text, "")
    }

    /// A place for the bytes of `prefix` and those of `back` after them, which takes memory where
    /// they are more than 14. `Err(Memory)` comes where memory runs out.
    fn join(alloc: Global, prefix: &str, back: &str) -> Result<Stored, Memory>
        ensures { IfOk result (λ made. stored_bytes made ≡ prefix.now ++ back.now) }
    {
        let count = prefix.len() + back.len();
        if count <= MAX_SHORT_BYTES {
            return Ok(Stored::Inline(Short::join(prefix, back)));
        }
        if count <= MAX_SMALL_BYTES {
            let mut small = ArrayString::new();
            small.push_str(prefix);
            small.push_str(back);
            return Ok(Stored::Small(Arc::new(alloc, small)?));
        }
        let mut large = String::with_capacity(alloc, count)?;
        large.push_str(prefix)?;
        large.push_str(back)?;
        Ok(Stored::Large(Arc::new(alloc, large)?))
    }

    /// A place for the bytes of a string, which is kept where they are more than 40.
    /// `Err(Memory)` comes where memory runs out.
    fn from_string(text: String) -> Result<Stored, Memory>
        ensures { IfOk result (λ made. stored_bytes made ≡ string_bytes text) }
    {
        if text.len() <= MAX_SMALL_BYTES {
            return Stored::of(*text.allocator(), text.as_str());
        }
        Ok(Stored::Large(Arc::new(*text.allocator(), text)?))
    }
}

impl Text {
    /// The empty text, which takes no memory.
    pub fn new(alloc: Global) -> Text
        ensures { result ≡ [] }
    {
        Text {
            alloc,
            stored: Stored::Inline(Short::of("")),
        }
    }

    /// A text of the same bytes as `text`. `Err(Memory)` comes where memory runs out.
    pub fn from_str(alloc: Global, text: &str) -> Result<Text, Memory>
        ensures { IfOk result (λ made. made ≡ text.now) }
    {
        let stored = Stored::of(alloc, text)?;
        Ok(Text { alloc, stored })
    }

    /// The text of a string, which is kept where it has more than 40 bytes. `Err(Memory)` comes
    /// where memory runs out, and the string is gone then.
    pub fn from_string(text: String) -> Result<Text, Memory>
        ensures { IfOk result (λ made. made ≡ string_bytes text) }
    {
        let alloc = *text.allocator();
        let stored = Stored::from_string(text)?;
        Ok(Text { alloc, stored })
    }

    /// The string of the text. `Err(Memory)` comes where memory runs out, and the text is gone
    /// then; the string of one that has more than 40 bytes and no copy is handed over.
    pub fn into_string(self) -> Result<String, Memory>
        ensures { IfOk result (λ text. string_bytes text ≡ self) }
    {
        let Text { alloc, stored } = self;
        match stored {
            Stored::Inline(short) => Ok(String::from_str(alloc, short.as_str())?),
            Stored::Small(shared) => Ok(String::from_str(alloc, shared.as_ref().as_str())?),
            Stored::Large(shared) => Ok(Arc::unwrap_or_clone(shared)?),
        }
    }

    /// The text, borrowed as the language's own type.
    pub fn as_str(&self) -> &str
        ensures { result.now ≡ self.now }
    {
        self.stored.as_str()
    }

    /// The number of bytes.
    pub fn len(&self) -> usize
        ensures { result ≡ length self.now }
    {
        self.as_str().len()
    }

    /// Whether there is no byte.
    pub fn is_empty(&self) -> bool
        ensures { IsTrue result ↔ (self.now ≡ []) }
    {
        self.as_str().is_empty()
    }

    /// Puts `text` at the end. `Err(Memory)` comes where memory runs out; then the text is as
    /// before.
    pub fn push_str(&mut self, text: &str) -> Result<(), Memory>
        ensures ok { OnOk result (self.new ≡ self.old ++ text.now) }
        ensures err { OnErr result (self.new ≡ self.old) }
    {
        match &mut self.stored {
            Stored::Inline(_) => {}
            Stored::Small(shared) => {
                if let Some(small) = Arc::get_mut(shared) {
                    if text.len() <= small.remaining_capacity() {
                        small.push_str(text);
                        return Ok(());
                    }
                }
            }
            Stored::Large(shared) => {
                if let Some(large) = Arc::get_mut(shared) {
                    large.push_str(text)?;
                    return Ok(());
                }
            }
        }
        let joined = Stored::join(self.alloc, self.stored.as_str(), text)?;
        self.stored = joined;
        Ok(())
    }

    /// Puts what `{}` writes of `value` at the end, as of `format_args!("{name} {number}")`.
    /// `Err(Memory)` comes where memory runs out; then the text is as before.
    pub fn push<D: fmt::Display + Drop>(&mut self, value: D) -> Result<(), Memory>
        ensures ok { OnOk result (AppendsText self.old self.new (D.output value)) }
        ensures err { OnErr result (self.new ≡ self.old) }
    {
        let mut written = String::new(self.alloc);
        written.write(value)?;
        self.push_str(written.as_str())
    }
}

/// `Err`, which callers take for lack of memory, comes where a text has more copies than can be
/// counted; no contract says so.
impl Clone for Text {
    ghost use Rattle.std.specs.Prelude.{◌≡◌};

    ghost is_clone = { λ a b. b ≡ a };

    /// A copy that shares the contents; it takes no memory.
    fn clone(&self) -> Result<Text, AllocError> {
        let stored = match &self.stored {
            Stored::Inline(short) => Stored::Inline(*short),
            Stored::Small(shared) => Stored::Small(Arc::try_clone(shared)?),
            Stored::Large(shared) => Stored::Large(Arc::try_clone(shared)?),
        };
        Ok(Text {
            alloc: self.alloc,
            stored,
        })
    }
}

impl Plain for Text {
    ghost exact = { λ a b same. same };
}

impl PartialEq for Text {
    ghost use Rattle.std.specs.Str.{bytes_eq};
    ghost use Rattle.std.specs.Cmp.{partial_equiv_from_equiv};
    ghost use Rattle.std.proofs.lemmas.Cmp.{nat_list_eq_equiv};

    ghost eq = { bytes_eq };

    ghost laws = { partial_equiv_from_equiv nat_list_eq_equiv };

    /// Equal where the bytes are, wherever they stand.
    fn eq(&self, other: &Text) -> bool {
        self.as_str() == other.as_str()
    }
}

impl Eq for Text {
    ghost use Rattle.std.proofs.lemmas.Cmp.{nat_list_eq_equiv};

    ghost laws = { nat_list_eq_equiv };
}

impl Hash for Text {
    ghost use Rattle.std.specs.Hash.{str as fed};
    ghost use Rattle.std.specs.Cmp.Rules.{hashing};
    ghost use Rattle.std.proofs.Common.{rules};

    ghost hash_input = { fed };

    ghost respects_eq = { Prim.search (hashing, rules) };

    /// Hashes the bytes, so that texts that are equal have one hash.
    fn hash<H: Hasher>(&self, state: &mut H) {
        self.as_str().hash(state);
    }
}

impl PartialOrd for Text {
    ghost use Rattle.std.specs.Prelude.{Some};
    ghost use Rattle.std.specs.Ordering.{nat_cmp};
    ghost use Rattle.std.specs.Cmp.Lexicographic.{slice_cmp};
    ghost use Rattle.std.specs.Cmp.Rules.{comparing};
    ghost use Rattle.std.proofs.Common.{rules};

    ghost partial_cmp = { λ x y. Some (slice_cmp nat_cmp x y) };

    ghost laws = { Prim.search (comparing, rules) };

    /// The order is total, so there always is an answer.
    fn partial_cmp(&self, other: &Text) -> Option<Ordering> {
        Some(self.cmp(other))
    }
}

impl Ord for Text {
    ghost use Rattle.std.specs.Ordering.{nat_cmp};
    ghost use Rattle.std.specs.Cmp.Lexicographic.{slice_cmp};
    ghost use Rattle.std.specs.Cmp.Rules.{comparing};
    ghost use Rattle.std.proofs.Common.{rules};

    ghost cmp = { slice_cmp nat_cmp };

    ghost total = { Prim.search (comparing, rules) };

    ghost matches_partial_cmp = { Prim.search (comparing, rules) };

    ghost matches_eq = { Prim.search (comparing, rules) };

    /// Texts are ordered by their bytes.
    fn cmp(&self, other: &Text) -> Ordering {
        self.as_str().cmp(other.as_str())
    }
}

impl fmt::Debug for Text {
    /// Writes the text in quotes, with escapes.
    fn fmt<W: fmt::Write>(&self, f: &mut fmt::Formatter<W>) -> fmt::Result {
        fmt::Debug::fmt(&self.as_str(), f)
    }
}

impl fmt::Display for Text {
    ghost use Rattle.std.specs.Prelude.{Some};

    ghost output = { λ t. Some t };

    /// Writes the text itself.
    fn fmt<W: fmt::Write>(&self, f: &mut fmt::Formatter<W>) -> fmt::Result {
        f.write_str(self.as_str())
    }
}

impl AsStr for Text {
    ghost text = { λ t. t };

    /// The text, for code that takes any such value.
    fn as_str(&self) -> &str {
        Text::as_str(self)
    }
}
