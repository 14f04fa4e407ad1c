//! The grammar of monikers, read byte by byte.

ghost use Rattle.std.specs.Prelude.{◌≡◌, ◌≤◌, length, IfSome, IfNone};
ghost use Rattle.cm_names.specs.Prefixes.{IsLongestPrefix};
ghost use Rattle.cm_names.specs.MonikerInside.{IsMonikerText};
ghost use Rattle.cm_names.specs.MonikerStates.{next, may_end, begin_name};

use crate::limits::{MAX_NAME_BYTES, MAX_PATH_BYTES};
use crate::name::{begins, continues};

/// The number of bytes that a name may have, as places count them.
const MAX_COUNT: u32 = MAX_NAME_BYTES as u32;

/// Where the text of a moniker stands after some of its bytes.
#[derive(Debug, Clone, Copy, PartialEq, Eq)]
pub enum MonikerState {
    /// Nothing yet.
    Start,
    /// The whole of it, a dot.
    Whole,
    /// A slash in front.
    Root,
    /// A slash between two parts.
    Part,
    /// So many bytes of a part's first name.
    First(u32),
    /// The colon of a part.
    Colon,
    /// So many bytes of a part's second name.
    Second(u32),
}

impl MonikerState {
    /// The place after one byte more, where the text of some moniker goes on with it. It leaves
    /// the moniker's length aside.
    pub fn next(self, byte: u8) -> Option<MonikerState>
        ensures { result ≡ next self byte }
    {
        match self {
            MonikerState::Start => match byte {
                b'.' => Some(MonikerState::Whole),
                b'/' => Some(MonikerState::Root),
                _ => first_at(byte),
            },
            MonikerState::Whole => None,
            MonikerState::Root | MonikerState::Part => first_at(byte),
            MonikerState::First(n) => {
                if byte == b':' {
                    Some(MonikerState::Colon)
                } else if byte == b'/' {
                    Some(MonikerState::Part)
                } else if continues(byte) && n < MAX_COUNT {
                    Some(MonikerState::First(n + 1))
                } else {
                    None
                }
            }
            MonikerState::Colon => {
                if begins(byte) {
                    Some(MonikerState::Second(1))
                } else {
                    None
                }
            }
            MonikerState::Second(n) => {
                if byte == b'/' {
                    Some(MonikerState::Part)
                } else if continues(byte) && n < MAX_COUNT {
                    Some(MonikerState::Second(n + 1))
                } else {
                    None
                }
            }
        }
    }

    /// Whether the text of some moniker ends here.
    pub fn may_end(self) -> bool
        ensures { result ≡ may_end self }
    {
        match self {
            MonikerState::Start | MonikerState::Part | MonikerState::Colon => false,
            MonikerState::Whole
            | MonikerState::Root
            | MonikerState::First(_)
            | MonikerState::Second(_) => true,
        }
    }
}

/// The state after the first byte of a part's first name, if a name may begin with it.
fn first_at(byte: u8) -> Option<MonikerState>
    ensures { result ≡ begin_name MonikerState.First byte }
{
    if begins(byte) {
        Some(MonikerState::First(1))
    } else {
        None
    }
}

/// The length of the longest prefix of the bytes that the text of some moniker begins with, where
/// they aren't such a text.
pub fn bad_place(bytes: &[u8]) -> Option<usize>
    requires { length bytes.now ≤ 4096 }
    ensures prefix { IfSome result (IsLongestPrefix IsMonikerText bytes.now) }
    ensures not_whole { IfSome result (λ _. IsMonikerText bytes.now → ⊥) }
    ensures whole { IfNone result (IsMonikerText bytes.now) }
{
    let mut place = MonikerState::Start;
    for (i, byte) in bytes.iter().enumerate() {
        match place.next(*byte) {
            Some(next) => {
                if i + 1 == MAX_PATH_BYTES && !next.may_end() {
                    return Some(i);
                }
                place = next;
            }
            None => return Some(i),
        }
    }
    if place.may_end() {
        None
    } else {
        Some(bytes.len())
    }
}
