//! Where an instance stands in the tree of components.

ghost use Rattle.std.specs.Prelude.{◌≡◌, ◌≢◌, ◌↔◌, ◌≤◌, [], ◌∷◌, ◌++◌, length, codes, map, All, IsTrue, IfOk};
ghost use Rattle.std.specs.Prelude.{IfErr, MatchOption, OnOk};
ghost use Rattle.cm_names.specs.Name.{IsName};
ghost use Rattle.cm_names.specs.Child.{child_text};
ghost use Rattle.cm_names.specs.Moniker.{moniker_text, IsChildName};
ghost use Rattle.cm_names.specs.MonikerInside.{IsChildText, IsMonikerFault};
ghost use Rattle.cm_names.specs.MonikerInside.{IsMonikerText};
ghost use Rattle.cm_names.specs.Moniker.{IsMonikerTextOf};
ghost use Rattle.cm_names.specs.MonikerInside.{behind_slash, MonikersReadOneWay, WritesItsText};
ghost use Rattle.cm_names.specs.MonikerInside.{MonikerStartsWith};
ghost use Rattle.cm_names.specs.Path.{parts_of};

use crate::grammar::bad_place;
use crate::{Chain, ChildName, List, MAX_PATH_BYTES, Memory, Name, NameFault, Plain, Shared, Text};
use std::alloc::Global;
use thiserror::Error;

/// Where an instance stands: the names of the children that lead to it, from the root down. The
/// root has no name.
///
/// This is the moniker of Fuchsia's component framework documentation (fuchsia.dev). The limit of
/// 4,096 bytes where it is read is this project's own, and so is that a slash may stand in front.
#[derive(Debug, Drop, Clone, PartialEq, Eq)]
pub struct Moniker {
    /// The children's names, that of the root's child first. A copy of a moniker shares them.
    pub parts: Chain,
}

impl Plain for Moniker {
    ghost use Rattle.std.proofs.Common.{rules};

    ghost exact = { Prim.search rules };
}

/// Why a text is no moniker. The first that holds, in this order.
#[derive(Clone, Copy, Debug, Error, PartialEq, Eq)]
pub enum MonikerFault {
    /// The text has more than 4,096 bytes.
    #[error("the moniker is longer than 4096 bytes")]
    TooLong,
    /// So many bytes are the longest prefix of the text that the text of some moniker begins with.
    #[error("no moniker goes on so behind byte {0}")]
    BadMoniker(u32),
    /// Memory ran out.
    #[error("out of memory")]
    Memory,
}

impl From<Memory> for MonikerFault {
    ghost use Rattle.std.specs.Prelude.{◌≡◌};
    ghost use Rattle.cm_names.specs.declared.moniker.MonikerFault.TheVariants.{Memory as OutOfMemory};

    ghost from_gives = { λ _ e. e ≡ OutOfMemory };

    /// For `?` after a call that lacked memory.
    fn from(_: Memory) -> MonikerFault {
        MonikerFault::Memory
    }
}

impl Moniker {
    /// The moniker that has this text: `.` or `/` for the root, else the children's names joined
    /// by `/`, with one more `/` in front or none. It has at most 4,096 bytes.
    ///
    /// `Err(TooLong)` comes where the text has more bytes. `Err(BadMoniker(n))` comes where it is
    /// the text of no moniker. `Err(Memory)` comes where memory runs out.
    pub fn read(alloc: Global, text: &str) -> Result<Moniker, MonikerFault>
        ensures ok { IfOk result (λ moniker. IsMonikerTextOf text.now moniker) }
        ensures short { IfOk result (λ _. length text.now ≤ 4096) }
        ensures fault { IfErr result (λ e. e ≢ MonikerFault.Memory → IsMonikerFault text.now e) }
        ensures none { IfErr result (λ e. e ≢ MonikerFault.Memory → IsMonikerText text.now → ⊥) }
    {
        if text.len() > MAX_PATH_BYTES {
            return Err(MonikerFault::TooLong);
        }
        if let Some(place) = bad_place(text.as_bytes()) {
            return Err(MonikerFault::BadMoniker(place as u32));
        }
        let moniker = read_whole(alloc, text)?;
        Ok(moniker)
    }

    /// The text of the moniker: `.` for the root, else the children's names joined by `/`. It may
    /// have more than 4,096 bytes. `Err(Memory)` comes where memory runs out.
    pub fn write(&self, alloc: Global) -> Result<Text, Memory>
        ensures text { IfOk result (λ text. text ≡ moniker_text self.now) }
        ensures grammar { IfOk result (λ text. IsMonikerTextOf text self.now) }
    {
        if self.is_root() {
            return Text::from_str(alloc, ".");
        }
        let parts = self.parts.items(alloc)?;
        let mut text = Text::new(alloc);
        for (i, part) in parts.iter().enumerate() {
            if i > 0 {
                text.push_str("/")?;
            }
            push_child(&mut text, part)?;
        }
        Ok(text)
    }

    /// The root's moniker.
    pub fn root(_alloc: Global) -> Moniker
        ensures { result ≡ record { parts = [] } }
    {
        Moniker {
            parts: Chain::new(),
        }
    }

    /// The moniker of this instance's child of that name. `Err(Memory)` comes where memory runs
    /// out.
    pub fn child(&self, alloc: Global, name: ChildName) -> Result<Moniker, Memory>
        ensures { IfOk result (λ child. child.parts ≡ self.now.parts ++ name ∷ []) }
    {
        let name = Shared::new(alloc, name)?;
        let parts = self.parts.with(alloc, name)?;
        Ok(Moniker { parts })
    }

    /// Whether it stands at `prefix` or below it: whether the way to it begins with that to
    /// `prefix`.
    pub fn starts_with(&self, prefix: &Moniker) -> bool
        ensures { IsTrue result ↔ MonikerStartsWith self.now.parts prefix.now.parts }
    {
        self.parts.starts_with(&prefix.parts)
    }

    /// Whether it is the root's.
    pub fn is_root(&self) -> bool
        ensures { IsTrue result ↔ (self.now.parts ≡ []) }
    {
        self.parts.is_empty()
    }
}

/// The name that is this text.
fn read_name(alloc: Global, text: &str) -> Result<Name, Memory>
    requires { IsName text.now }
    ensures { IfOk result (λ name. name ≡ text.now) }
{
    match Name::read(alloc, text) {
        Ok(name) => Ok(name),
        Err(fault) => match fault {
            NameFault::Memory => Err(Memory),
            _ => unreachable!(),
        },
    }
}

/// A child's name is cut at its colon, if it has one.
fn cut_at_colon(part: &str) -> Option<(&str, &str)>
    requires { IsChildText part.now }
    ensures { MatchOption result (IsName part.now) (λ cut. IsName cut.0.now × IsName cut.1.now
        × (part.now ≡ cut.0.now ++ (codes ":" ++ cut.1.now))) }
{
    part.split_once(':')
}

/// The child's name that has this text.
fn read_child(alloc: Global, part: &str) -> Result<ChildName, Memory>
    requires { IsChildText part.now }
    ensures is_child { IfOk result (λ child. IsChildName child) }
    ensures text { IfOk result (λ child. child_text child ≡ part.now) }
{
    match cut_at_colon(part) {
        None => {
            let name = read_name(alloc, part)?;
            Ok(ChildName { coll: None, name })
        }
        Some((coll, name)) => {
            let coll = read_name(alloc, coll)?;
            let name = read_name(alloc, name)?;
            let coll = Some(coll);
            Ok(ChildName { coll, name })
        }
    }
}

/// The children's names whose texts stand between the slashes.
fn read_parts(alloc: Global, text: &str) -> Result<List<ChildName>, Memory>
    requires { All IsChildText (parts_of text.now) }
    ensures names { IfOk result (λ parts. All IsChildName parts) }
    ensures texts { IfOk result (λ parts. map child_text parts ≡ parts_of text.now) }
{
    let mut parts = List::new(alloc);
    for part in text.split('/') {
        parts.push(read_child(alloc, part)?)?;
    }
    Ok(parts)
}

/// The text without a slash in front.
fn behind_slash(text: &str) -> &str
    ensures { result.now ≡ behind_slash text.now }
{
    match text.strip_prefix('/') {
        Some(rest) => rest,
        None => text,
    }
}

/// The moniker that has this text.
fn read_whole(alloc: Global, text: &str) -> Result<Moniker, Memory>
    requires { IsMonikerText text.now }
    ensures { IfOk result (λ moniker. IsMonikerTextOf text.now moniker) }
{
    if text == "." || text == "/" {
        return Ok(Moniker::root(alloc));
    }
    let parts = read_parts(alloc, behind_slash(text))?;
    Ok(Moniker {
        parts: Chain::from_list(Shared::new(alloc, parts)?),
    })
}

/// Puts the text of a child's name at the end.
fn push_child(text: &mut Text, child: &ChildName) -> Result<(), Memory>
    ensures text { OnOk result (text.new ≡ text.old ++ child_text child.now) }
    ensures is_child { OnOk result (IsChildName child.now) }
{
    if let Some(coll) = &child.coll {
        text.push_str(coll.as_str())?;
        text.push_str(":")?;
    }
    text.push_str(child.name.as_str())
}

/// Law: a text is the text of one moniker at most. So what [`Moniker::read`] gives for the text
/// that [`Moniker::write`] gave is the moniker that was written.
pub fn reads_one_way()
    ensures { MonikersReadOneWay }
{}

/// Law: the text of a moniker whose names are names is one of its texts.
pub fn writes_its_text()
    ensures { WritesItsText }
{}
