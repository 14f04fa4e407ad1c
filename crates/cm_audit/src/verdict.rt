//! What an audit comes to.

ghost use Rattle.std.specs.Prelude.{Some};

use cm_names::Text;
use std::fmt;

/// What a journal comes to.
///
/// It is written `legal COUNT`, `illegal NUMBER given TEXT expected TEXT` or `bad-text LINE`.
#[derive(Drop)]
pub enum Audit {
    /// Each line is in the grammar and each entry is legal, and there are so many of these.
    Legal(u64),
    /// The first entry that isn't legal.
    Illegal {
        /// The number that stands in its line.
        number: u64,
        /// The reply that stands there.
        given: Text,
        /// What is expected in its place, the first of these that applies: `number N` where the
        /// entry's number isn't the next one, N; `no-such-step` where the event isn't enabled there;
        /// `another-pick` for an event `pick`; and else the text of the reply that the event gets.
        expected: Text,
    },
    /// The first line that isn't in the grammar, counted from 1; the line after the last where no
    /// line `journal` or no line of a root has come; or the line with which the journal has more than
    /// 268,435,456 bytes.
    BadText(u32),
}

impl fmt::Display for Audit {
    ghost use Rattle.std.specs.Prelude.{Some};
    ghost use Rattle.cm_audit.specs.Verdict.{verdict_text};

    ghost output = { λ verdict. Some (verdict_text verdict) };

    /// Writes the verdict's words, as `audit` prints them.
    fn fmt<W: fmt::Write>(&self, f: &mut fmt::Formatter<W>) -> fmt::Result {
        match self {
            Audit::Legal(count) => write!(f, "legal {count}"),
            Audit::Illegal {
                number,
                given,
                expected,
            } => write!(f, "illegal {number} given {given} expected {expected}"),
            Audit::BadText(line) => write!(f, "bad-text {line}"),
        }
    }
}
