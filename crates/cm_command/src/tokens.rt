//! The words of a line, read one by one.
//!
//! Each reader gives the value that the word is. `Err(Bad(n))` comes where the word is none of
//! that kind: n of its prefixes, the empty one and the word itself among them, are prefixes of some
//! word of the kind. `Err(Memory)` comes where memory runs out, and leaves it open whether the
//! word is of the kind.
//!
//! Names, paths, subdirectories, rights and origins are those of Fuchsia's component manifest
//! reference (fuchsia.dev), and monikers those of its component framework documentation. That an
//! incarnation is written as `@` and its number, and the limits of 4,096 bytes, are this project's
//! own choice.

ghost use Rattle.std.specs.Prelude.{◌≡◌, ◌≢◌, ◌<◌, ◌≤◌, ◌^◌, ◌+◌, ◌-◌, ◌*◌, ◌∷◌, ◌++◌, ℕ, length, take};
ghost use Rattle.std.specs.Prelude.{List as Seq, get_or, map, false, All, Contains, IsTrue, IfOk, IfSome};
ghost use Rattle.std.specs.Prelude.{MatchOption, MatchResult};
ghost use Rattle.std.specs.List.{take_while};
ghost use Rattle.std.specs.Str.{IsUtf8};
ghost use Rattle.cm_names.specs.Name.{IsName, continues_name};
ghost use Rattle.cm_names.specs.Path.{is_path, is_subdir, is_relative, parts_of};
ghost use Rattle.cm_names.specs.Moniker as moniker;
ghost use Rattle.cm_names.specs.MonikerInside as moniker_inside;
ghost use Rattle.cm_names.specs.Moniker.{IsChildName};
ghost use Rattle.cm_names.specs.MonikerInside.{IsChildText, IsMonikerText};
ghost use Rattle.cm_names.specs.Child.{child_text};
ghost use Rattle.cm_names.specs.Urls.{is_url_byte};
ghost use Rattle.cm_decl.specs.declared.origin.Origin.{Origin as OneOrigin};
ghost use Rattle.cm_world.specs.declared.event.Target.{Target as OneTarget};
ghost use Rattle.cm_command.specs.Counts.{CountsPrefixes, IsWordFault, IsSureFault, Fits, fault_behind};
ghost use Rattle.cm_command.specs.Counts.{either_fault};
ghost use Rattle.cm_command.specs.Numbers.{is_digit, IsNumberText};
ghost use Rattle.cm_command.specs.NumbersInside.{IsU64Text};
ghost use Rattle.cm_command.specs.PathPlaces.{path_prefix};
ghost use Rattle.cm_command.specs.Words as spec;
ghost use Rattle.cm_command.specs.WordsInside as spec_inside;
ghost use Rattle.cm_command.specs.Words.{IsOriginText, IsTargetText, IsUrlText};
ghost use Rattle.cm_command.specs.WordsInside.{IsChildOrigin, IsIncarnation};

use crate::words::{cut, is_digit, is_same, strip};
use cm_decl::Origin;
use cm_names::grammar::bad_place;
use cm_names::name::{begins, continues};
use cm_names::url::is_url_byte;
use cm_names::{
    CapPath, Chain, ChildName, List, Memory, Moniker, MonikerFault, Name, NameFault, PathFault,
    Shared, SubDir, Text,
};
use cm_world::Target;
use std::alloc::Global;

/// The most bytes of a URL, a moniker, a path and a subdirectory.
const LONGEST: usize = 4096;

/// The most bytes of a name.
const LONGEST_NAME: usize = 255;

/// Why a word may not stand at its place.
#[derive(Clone, Copy, Debug)]
pub enum WordFault {
    /// So many of its prefixes can be completed to a word that may. The empty prefix and the whole
    /// word count as prefixes.
    Bad(usize),
    /// Memory ran out.
    Memory,
}

impl From<Memory> for WordFault {
    ghost use Rattle.std.specs.Prelude.{◌≡◌};
    ghost use Rattle.cm_command.specs.declared.tokens.WordFault.TheVariants.{Memory as OutOfMemory};

    ghost from_gives = { λ _ e. e ≡ OutOfMemory };

    /// For `?` after a call that lacked memory.
    fn from(_: Memory) -> WordFault {
        WordFault::Memory
    }
}

/// The text with these bytes, or `None` where they are no UTF-8.
pub fn text_of(word: &[u8]) -> Option<&str>
    ensures { MatchOption result (IsUtf8 word.now → ⊥) (λ text. text.now ≡ word.now) }
{
    match str::from_utf8(word) {
        Ok(text) => Some(text),
        Err(_) => None,
    }
}

/// How many bytes it has in front that may stand in a name after the first one.
fn name_bytes(rest: &[u8]) -> usize
    ensures { result ≡ length (take_while continues_name rest.now) }
{
    rest.iter().take_while(|b| continues(**b)).count()
}

/// How many prefixes of the word some name begins with.
pub fn name_prefixes(word: &[u8]) -> usize
    ensures { CountsPrefixes IsName word.now result }
{
    match word {
        [] => 1,
        [first, rest @ ..] => {
            if begins(*first) {
                let bytes = name_bytes(rest);
                (bytes + 2).min(LONGEST_NAME + 1)
            } else {
                1
            }
        }
    }
}

/// The name that the word is, of at most 255 bytes.
pub fn read_name(alloc: Global, word: &[u8]) -> Result<Name, WordFault>
    ensures { MatchResult result (λ name. (name ≡ word.now) × IsName word.now)
        (λ e. IsWordFault IsName word.now e) }
{
    let Some(text) = text_of(word) else {
        return Err(WordFault::Bad(name_prefixes(word)));
    };
    match Name::read(alloc, text) {
        Ok(name) => Ok(name),
        Err(fault) => match fault {
            NameFault::Memory => Err(WordFault::Memory),
            _ => Err(WordFault::Bad(name_prefixes(word))),
        },
    }
}

/// How many bytes of a URL the word begins with.
fn url_bytes(word: &[u8]) -> usize
    ensures { result ≡ length (take_while is_url_byte word.now) }
{
    word.iter().take_while(|b| is_url_byte(**b)).count()
}

/// How many prefixes of the word some URL begins with.
fn url_prefixes(word: &[u8]) -> usize
    ensures prefixes { CountsPrefixes IsUrlText word.now result }
    ensures whole { 0 < length word.now → length word.now < result → IsUrlText word.now }
{
    let bytes = url_bytes(word);
    (bytes + 1).min(LONGEST + 1)
}

/// The URL that the word is: 1 to 4,096 printing bytes of ASCII other than the space.
pub fn read_url(alloc: Global, word: &[u8]) -> Result<Text, WordFault>
    ensures { MatchResult result (λ text. (text ≡ word.now) × IsUrlText word.now)
        (λ e. IsWordFault IsUrlText word.now e) }
{
    let prefixes = url_prefixes(word);
    if word.is_empty() {
        return Err(WordFault::Bad(prefixes));
    }
    if prefixes <= word.len() {
        return Err(WordFault::Bad(prefixes));
    }
    let Some(text) = text_of(word) else {
        return Err(WordFault::Bad(prefixes));
    };
    Ok(Text::from_str(alloc, text)?)
}

/// The fault of a word from that of its rest, which stands after `len` bytes.
pub fn behind(len: usize, fault: WordFault) -> WordFault
    requires { Fits len fault }
    ensures { result ≡ fault_behind len fault }
{
    match fault {
        WordFault::Bad(prefixes) => WordFault::Bad(len + prefixes),
        WordFault::Memory => WordFault::Memory,
    }
}

/// The fault of a word that is neither of two kinds, from those that it has as either.
pub fn fault_of_either(first: WordFault, second: WordFault) -> WordFault
    ensures { result ≡ either_fault first second }
{
    match first {
        WordFault::Bad(prefixes) => match second {
            WordFault::Bad(others) => WordFault::Bad(prefixes.max(others)),
            WordFault::Memory => WordFault::Memory,
        },
        WordFault::Memory => WordFault::Memory,
    }
}

/// How many first bytes of the word those of the literal equal.
fn common_len(literal: &[u8], word: &[u8]) -> usize
    ensures literal { result ≤ length literal.now }
    ensures word { result ≤ length word.now }
    ensures same { take result literal.now ≡ take result word.now }
    ensures differs { result < length literal.now → result < length word.now
        → get_or literal.now result 0 ≢ get_or word.now result 0 }
{
    let len = literal.len().min(word.len());
    for i in 0..len {
        if literal[i] != word[i] {
            return i;
        }
    }
    len
}

/// How many prefixes of the word the literal begins with.
pub fn text_prefixes(literal: &str, word: &[u8]) -> usize
    ensures { CountsPrefixes (λ t. t ≡ literal.now) word.now result }
{
    common_len(literal.as_bytes(), word) + 1
}

/// How many prefixes of the word one of the literals begins with.
pub fn literal_prefixes(literals: &[&str], word: &[u8]) -> usize
    ensures { CountsPrefixes (λ t. Contains (map (λ l. l.now) literals.now) t) word.now result }
{
    let mut prefixes = 0;
    for literal in literals {
        prefixes = prefixes.max(text_prefixes(literal, word));
    }
    prefixes
}

/// Where the text of a path stands after some of its bytes.
#[derive(Clone, Copy)]
enum PathState {
    /// At the beginning of a part.
    Slash,
    /// After a dot, which begins a part.
    Dot,
    /// After two dots, which begin a part.
    Dots,
    /// After a part's bytes that are no dots alone.
    Inside,
}

impl PathState {
    /// Whether parts of a path may end here.
    fn may_end(self) -> bool
        ensures { result ≡ is_relative (path_prefix self) }
    {
        match self {
            PathState::Slash | PathState::Dot | PathState::Dots => false,
            PathState::Inside => true,
        }
    }

    /// The place after one byte more, where some path goes on with it.
    fn next(self, byte: u8) -> Option<PathState>
        ensures { MatchOption result
            ((t : Seq ℕ) → is_relative (path_prefix self ++ byte ∷ t) ≡ false)
            (λ next. (t : Seq ℕ) → is_relative (path_prefix self ++ byte ∷ t)
            ≡ is_relative (path_prefix next ++ t)) }
    {
        if byte == b'/' {
            match self {
                PathState::Inside => Some(PathState::Slash),
                _ => None,
            }
        } else if byte < 33 || byte > 126 {
            None
        } else if byte == b'.' {
            match self {
                PathState::Slash => Some(PathState::Dot),
                PathState::Dot => Some(PathState::Dots),
                _ => Some(PathState::Inside),
            }
        } else {
            Some(PathState::Inside)
        }
    }
}

/// How many prefixes of the word some parts of a path begin with, in at most `limit` bytes.
fn part_prefixes(limit: usize, word: &[u8]) -> usize
    requires { 1 ≤ limit }
    ensures { CountsPrefixes (λ t. IsTrue (is_relative t) × (length t ≤ limit)) word.now result }
{
    let mut place = PathState::Slash;
    for (i, byte) in word.iter().enumerate() {
        match place.next(*byte) {
            Some(next) => {
                if i + 1 > limit {
                    return i + 1;
                }
                if i + 1 == limit && !next.may_end() {
                    return i + 1;
                }
                place = next;
            }
            None => return i + 1,
        }
    }
    word.len() + 1
}

/// How many prefixes of the word some path begins with.
fn path_prefixes(word: &[u8]) -> usize
    ensures { CountsPrefixes (λ t. IsTrue (is_path t)) word.now result }
{
    match strip(word, "/") {
        Some(parts) => part_prefixes(LONGEST - 1, parts) + 1,
        None => text_prefixes("/", word),
    }
}

/// The absolute path that the word is, of at most 4,096 bytes.
pub fn read_path(alloc: Global, word: &[u8]) -> Result<CapPath, WordFault>
    ensures { MatchResult result (λ path. (path ≡ word.now) × IsTrue (is_path word.now))
        (λ e. IsWordFault (λ t. IsTrue (is_path t)) word.now e) }
{
    let Some(text) = text_of(word) else {
        return Err(WordFault::Bad(path_prefixes(word)));
    };
    match CapPath::read(alloc, text) {
        Ok(path) => Ok(path),
        Err(fault) => match fault {
            PathFault::Memory => Err(WordFault::Memory),
            _ => Err(WordFault::Bad(path_prefixes(word))),
        },
    }
}

/// How many prefixes of the word some subdirectory begins with.
fn subdir_prefixes(word: &[u8]) -> usize
    ensures { CountsPrefixes (λ t. IsTrue (is_subdir t)) word.now result }
{
    part_prefixes(LONGEST, word)
}

/// The subdirectory that the word is, of at most 4,096 bytes.
pub fn read_subdir(alloc: Global, word: &[u8]) -> Result<SubDir, WordFault>
    ensures { MatchResult result (λ subdir. (subdir ≡ word.now) × IsTrue (is_subdir word.now))
        (λ e. IsWordFault (λ t. IsTrue (is_subdir t)) word.now e) }
{
    let Some(text) = text_of(word) else {
        return Err(WordFault::Bad(subdir_prefixes(word)));
    };
    match SubDir::read(alloc, text) {
        Ok(subdir) => Ok(subdir),
        Err(fault) => match fault {
            PathFault::Memory => Err(WordFault::Memory),
            _ => Err(WordFault::Bad(subdir_prefixes(word))),
        },
    }
}

/// The number with one digit more, or `None` where the byte is no digit or the number would need
/// more than 64 bits.
fn next_number(number: u64, byte: u8) -> Option<u64>
    ensures { MatchOption result (IsTrue (is_digit byte) → 2 ^ 64 ≤ number * 10 + (byte - 48))
        (λ next. IsTrue (is_digit byte) × (next ≡ number * 10 + (byte - 48)) × (next < 2 ^ 64)) }
{
    if !is_digit(byte) {
        return None;
    }
    number.checked_mul(10)?.checked_add(u64::from(byte - b'0'))
}

/// The number of 64 bits that the word is, in decimal digits without a needless zero in front.
///
/// `Err(Bad(n))` comes where the word is no such number, with the count of its prefixes that some
/// number begins with. It takes no memory, so `Err(Memory)` never comes.
pub fn read_number(word: &[u8]) -> Result<u64, WordFault>
    ensures { MatchResult result (λ n. IsNumberText word.now n)
        (λ e. IsSureFault IsU64Text word.now e) }
{
    let mut number: u64 = 0;
    for (i, byte) in word.iter().enumerate() {
        if i > 0 && number == 0 {
            return Err(WordFault::Bad(i + 1));
        }
        match next_number(number, *byte) {
            Some(next) => number = next,
            None => return Err(WordFault::Bad(i + 1)),
        }
    }
    if word.is_empty() {
        return Err(WordFault::Bad(1));
    }
    Ok(number)
}

/// The number of the incarnation that the word is: `@` and the number.
fn read_incarnation(word: &[u8]) -> Result<u64, WordFault>
    ensures { MatchResult result (λ n. IsTargetText word.now (Target.Inc n))
        (λ e. IsWordFault IsIncarnation word.now e) }
{
    let Some(digits) = strip(word, "@") else {
        return Err(WordFault::Bad(text_prefixes("@", word)));
    };
    match read_number(digits) {
        Ok(number) => Ok(number),
        Err(fault) => Err(behind(1, fault)),
    }
}

/// How many prefixes of the word some moniker begins with, or `None` where it is one.
fn moniker_prefixes(word: &[u8]) -> Option<usize>
    ensures { MatchOption result (IsMonikerText word.now)
        (λ n. (IsMonikerText word.now → ⊥) × CountsPrefixes IsMonikerText word.now n) }
{
    let prefix = &word[..word.len().min(LONGEST)];
    match bad_place(prefix) {
        Some(place) => Some(place + 1),
        None => {
            if word.len() > LONGEST {
                Some(LONGEST + 1)
            } else {
                None
            }
        }
    }
}

/// The moniker that the word is, or how it is none: it is judged first, byte by byte.
fn judge_moniker(alloc: Global, word: &[u8]) -> Result<Moniker, WordFault>
    ensures { MatchResult result (λ moniker. IsTargetText word.now (Target.Named moniker))
        (λ e. IsWordFault IsMonikerText word.now e) }
{
    if let Some(prefixes) = moniker_prefixes(word) {
        return Err(WordFault::Bad(prefixes));
    }
    let Some(text) = text_of(word) else {
        unreachable!();
    };
    match Moniker::read(alloc, text) {
        Ok(moniker) => Ok(moniker),
        Err(fault) => match fault {
            MonikerFault::Memory => Err(WordFault::Memory),
            _ => unreachable!(),
        },
    }
}

/// The word without a slash in front.
fn behind_slash(word: &[u8]) -> &[u8]
    ensures { result.now ≡ moniker_inside.behind_slash word.now }
{
    match word {
        [] => word,
        [first, rest @ ..] => { if *first == b'/' { rest } else { word } }
    }
}

/// What stands after the byte, where the bytes begin with it.
fn behind_byte(bytes: &[u8], byte: u8) -> Option<&[u8]>
    ensures { IfSome result (λ rest. bytes.now ≡ byte ∷ rest.now) }
{
    match bytes {
        [] => None,
        [first, rest @ ..] => { if *first == byte { Some(rest) } else { None } }
    }
}

/// The name of a child that the bytes begin with, up to the first byte that may not stand in one, and what
/// stands behind it. `None` says nothing of them.
fn cut_child(alloc: Global, bytes: &[u8]) -> Result<Option<(ChildName, &[u8])>, Memory>
    ensures { IfOk result (λ found. IfSome found (λ cut.
        IsChildName cut.0 × (bytes.now ≡ child_text cut.0 ++ cut.1.now))) }
{
    let Some((first, behind)) = Name::take_prefix(alloc, bytes)? else {
        return Ok(None);
    };
    let Some(more) = behind_byte(behind, b':') else {
        return Ok(Some((
            ChildName {
                coll: None,
                name: first,
            },
            behind,
        )));
    };
    match Name::take_prefix(alloc, more)? {
        Some((name, behind)) => Ok(Some((
            ChildName {
                coll: Some(first),
                name,
            },
            behind,
        ))),
        None => Ok(None),
    }
}

/// The names of children that stand between the slashes, or `None` where something else does.
fn children_in(alloc: Global, text: &[u8]) -> Result<Option<List<ChildName>>, Memory>
    ensures { IfOk result (λ found. IfSome found (λ parts.
        All IsChildName parts × (map child_text parts ≡ parts_of text.now))) }
{
    let slashes = text.iter().filter(|b| **b == b'/').count();
    let mut parts = List::with_capacity(alloc, slashes.saturating_add(1))?;
    let mut rest = text;
    'parts: loop {
        let Some((child, behind)) = cut_child(alloc, rest)? else {
            return Ok(None);
        };
        parts.push(child)?;
        if behind.is_empty() {
            return Ok(Some(parts));
        }
        let Some(more) = behind_byte(behind, b'/') else {
            return Ok(None);
        };
        rest = more;
    }
}

/// The moniker that the word is, of at most 4,096 bytes.
///
/// `Err(Bad(n))` comes where the word is no such moniker, with the count of its prefixes that some
/// moniker begins with. `Err(Memory)` comes where memory runs out.
pub fn read_moniker(alloc: Global, word: &[u8]) -> Result<Moniker, WordFault>
    ensures { MatchResult result (λ moniker. IsTargetText word.now (Target.Named moniker))
        (λ e. IsWordFault IsMonikerText word.now e) }
{
    if word.len() < 2 || word.len() > LONGEST {
        return judge_moniker(alloc, word);
    }
    match children_in(alloc, behind_slash(word))? {
        Some(parts) => Ok(Moniker {
            parts: Chain::from_list(Shared::new(alloc, parts)?),
        }),
        None => judge_moniker(alloc, word),
    }
}

/// The target that the word is: a moniker, or `@` and the number of an incarnation.
pub fn read_target(alloc: Global, word: &[u8]) -> Result<Target, WordFault>
    ensures { MatchResult result (λ target. IsTargetText word.now target)
        (λ e. IsWordFault (λ t. (target : OneTarget) × IsTargetText t target) word.now e) }
{
    match read_incarnation(word) {
        Ok(number) => Ok(Target::Inc(number)),
        Err(fault) => match read_moniker(alloc, word) {
            Ok(moniker) => Ok(Target::Named(moniker)),
            Err(other) => Err(fault_of_either(fault, other)),
        },
    }
}

/// The name of a child that the word is: a name, or two with a colon between them.
fn read_child(alloc: Global, word: &[u8]) -> Result<ChildName, WordFault>
    ensures { MatchResult result (λ child. IsChildName child × (word.now ≡ child_text child))
        (λ e. IsWordFault IsChildText word.now e) }
{
    let (first, second) = cut(word, b':');
    let len = first.len();
    let first = match read_name(alloc, first) {
        Ok(name) => name,
        Err(fault) => return Err(fault),
    };
    let Some(second) = second else {
        return Ok(ChildName {
            coll: None,
            name: first,
        });
    };
    match read_name(alloc, second) {
        Ok(name) => Ok(ChildName {
            coll: Some(first),
            name,
        }),
        Err(fault) => Err(behind(len + 1, fault)),
    }
}

/// The origin that is no child and that the word is.
fn read_named_origin(word: &[u8]) -> Result<Origin, WordFault>
    ensures { MatchResult result (λ origin. IsOriginText word.now origin)
        (λ e. IsWordFault (Contains spec_inside.origin_words) word.now e) }
{
    if is_same(word, "parent") {
        return Ok(Origin::Parent);
    }
    if is_same(word, "self") {
        return Ok(Origin::Own);
    }
    if is_same(word, "framework") {
        return Ok(Origin::Framework);
    }
    if is_same(word, "void") {
        return Ok(Origin::Void);
    }
    Err(WordFault::Bad(literal_prefixes(&["parent", "self", "framework", "void"], word)))
}

/// The name of the child that the word is: `#` and that name.
fn read_child_origin(alloc: Global, word: &[u8]) -> Result<ChildName, WordFault>
    ensures { MatchResult result (λ child. IsOriginText word.now (Origin.Child child))
        (λ e. IsWordFault IsChildOrigin word.now e) }
{
    let Some(child) = strip(word, "#") else {
        return Err(WordFault::Bad(text_prefixes("#", word)));
    };
    match read_child(alloc, child) {
        Ok(child) => Ok(child),
        Err(fault) => Err(behind(1, fault)),
    }
}

/// The origin that the word is: `parent`, `self`, `framework`, `void`, or `#` and the name of a
/// child.
pub fn read_origin(alloc: Global, word: &[u8]) -> Result<Origin, WordFault>
    ensures { MatchResult result (λ origin. IsOriginText word.now origin)
        (λ e. IsWordFault (λ t. (origin : OneOrigin) × IsOriginText t origin) word.now e) }
{
    match read_named_origin(word) {
        Ok(origin) => Ok(origin),
        Err(fault) => match read_child_origin(alloc, word) {
            Ok(child) => Ok(Origin::Child(child)),
            Err(other) => Err(fault_of_either(fault, other)),
        },
    }
}
