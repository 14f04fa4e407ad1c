//! The first fault of one row.
//!
//! Each function takes the index of a row, and how many rows at the start of its section are known
//! to stand apart, so that they needn't be compared with each other.

ghost use Rattle.std.specs.Prelude.{◌≡◌, ◌<◌, ◌||◌, not, length, option_map};
ghost use Rattle.cm_decl.specs.Breaks.{has_unknown_source};
ghost use Rattle.cm_decl.specs.declared.section.Section.TheVariants as section;
ghost use Rattle.cm_decl.specs.Clashes as clashes;
ghost use Rattle.cm_decl.specs.Rules as rule;
ghost use Rattle.cm_valid.specs.Parts.{ApartIn, At, FindsFault, rows_of};

use crate::clash;
use crate::found::FoundFault;
use crate::index::NameIndex;
use cm_decl::{Give, Offer, Origin, Section};
use cm_names::Name;

/// The first fault of a row of a section.
pub(crate) fn row_fault(
    index: &NameIndex,
    section: Section,
    row: usize,
    apart: usize,
) -> Option<FoundFault>
    requires within { row < rows_of index.now section }
    requires apart { ApartIn index.now section apart }
    ensures { FindsFault index.now (At section row) result }
{
    match section {
        Section::Children => child_fault(index, row, apart),
        Section::Collections => collection_fault(index, row, apart),
        Section::Capabilities => capability_fault(index, row, apart),
        Section::Uses => use_fault(index, row, apart),
        Section::Offers => offer_fault(index, row, apart),
        Section::Exposes => expose_fault(index, row, apart),
        Section::Manifest | Section::Program | Section::Environments | Section::Graph => None,
    }
}

/// The first fault of a child: 50 where an earlier child has its name.
fn child_fault(index: &NameIndex, row: usize, apart: usize) -> Option<FoundFault>
    requires within { row < length index.now.children }
    requires apart { ApartIn index.now section.Children apart }
    ensures { FindsFault index.now (At section.Children row) result }
{
    if row < apart {
        return None;
    }
    let children = index.decl().children.as_slice();
    let child = &children[row];
    let first = clash::child_named(&children[..row], &child.name);
    FoundFault::earlier(50, Section::Children, row, first)
}

/// The first fault of a collection: 50 where a child or an earlier collection has its name.
fn collection_fault(index: &NameIndex, row: usize, apart: usize) -> Option<FoundFault>
    requires within { row < length index.now.collections }
    requires apart { ApartIn index.now section.Collections apart }
    ensures { FindsFault index.now (At section.Collections row) result }
{
    let decl = index.decl();
    let collections = decl.collections.as_slice();
    let collection = &collections[row];
    if index.has_child(&collection.name) {
        let Some(first) = clash::child_named(decl.children.as_slice(), &collection.name) else {
            return None;
        };
        return Some(FoundFault::clash(50, Section::Collections, row, Section::Children, first));
    }
    if row < apart {
        return None;
    }
    let first = clash::collection_named(&collections[..row], &collection.name);
    FoundFault::earlier(50, Section::Collections, row, first)
}

/// The first fault of a capability: 50 where an earlier one, of either kind, has its name.
fn capability_fault(index: &NameIndex, row: usize, apart: usize) -> Option<FoundFault>
    requires within { row < length index.now.capabilities }
    requires apart { ApartIn index.now section.Capabilities apart }
    ensures { FindsFault index.now (At section.Capabilities row) result }
{
    if row < apart {
        return None;
    }
    let capabilities = index.decl().capabilities.as_slice();
    let capability = &capabilities[row];
    let first = clash::capability_named(&capabilities[..row], &capability.name);
    FoundFault::earlier(50, Section::Capabilities, row, first)
}

/// The first fault of a use:
///
/// - 51 where its source is a child that isn't declared;
/// - 52 where the component doesn't declare what is used from itself, or a directory is used
///   from the framework;
/// - 55 where an earlier use has its path;
/// - 56 where the path of an earlier use lies inside its path, or the other way round.
fn use_fault(index: &NameIndex, row: usize, apart: usize) -> Option<FoundFault>
    requires within { row < length index.now.uses }
    requires apart { ApartIn index.now section.Uses apart }
    ensures { FindsFault index.now (At section.Uses row) result }
{
    let uses = index.decl().uses.as_slice();
    let usage = &uses[row];
    if index.is_unknown(&usage.from) {
        return Some(FoundFault::alone(51, Section::Uses, row));
    }
    if index.is_undeclared(usage.kind, &usage.from, &usage.name) {
        return Some(FoundFault::alone(52, Section::Uses, row));
    }
    if row < apart {
        return None;
    }
    let earlier = &uses[..row];
    if let Some(first) = clash::same_path(earlier, &usage.path) {
        return Some(FoundFault::clash(55, Section::Uses, row, Section::Uses, first));
    }
    let first = clash::nested_path(earlier, &usage.path);
    FoundFault::earlier(56, Section::Uses, row, first)
}

/// The first fault of an offer:
///
/// - 51 where its source is a child that isn't declared, or its target is neither a child nor a
///   collection;
/// - 52 where the component doesn't declare what is offered from itself, or a directory is
///   offered from the framework;
/// - 53 where its source is its target;
/// - 54 where an earlier offer has its target and its target name;
/// - 57 where it is from void and its availability doesn't allow that.
fn offer_fault(index: &NameIndex, row: usize, apart: usize) -> Option<FoundFault>
    requires within { row < length index.now.offers }
    requires apart { ApartIn index.now section.Offers apart }
    ensures { FindsFault index.now (At section.Offers row) result }
{
    let offer = &index.decl().offers.as_slice()[row];
    let give = &offer.give;
    if has_unknown_end(index, offer) {
        return Some(FoundFault::alone(51, Section::Offers, row));
    }
    if index.is_undeclared(give.kind, &give.from, &give.source_name) {
        return Some(FoundFault::alone(52, Section::Offers, row));
    }
    if is_given_back(&give.from, &offer.to) {
        return Some(FoundFault::alone(53, Section::Offers, row));
    }
    if let Some(first) = offer_clash(index, row, apart) {
        return Some(FoundFault::clash(54, Section::Offers, row, Section::Offers, first));
    }
    if is_required_void(give) {
        return Some(FoundFault::alone(57, Section::Offers, row));
    }
    None
}

/// Whether the source is a child that isn't declared, or the target is neither a child nor a
/// collection.
fn has_unknown_end<'a>(index: &NameIndex<'a>, offer: &'a Offer) -> bool
    ensures { result ≡
        (has_unknown_source index.now offer.now.give ||
        not (rule.is_target index.now offer.now.to)) }
{
    index.is_unknown(&offer.give.from) || !index.is_target(&offer.to)
}

/// The first earlier offer that has the target and the target name of an offer.
fn offer_clash(index: &NameIndex, row: usize, apart: usize) -> Option<usize>
    requires within { row < length index.now.offers }
    requires apart { ApartIn index.now section.Offers apart }
    ensures { option_map (clashes.place section.Offers) result ≡
        clashes.clash index.now rule.RepeatedTarget section.Offers row }
{
    if row < apart {
        return None;
    }
    let offers = index.decl().offers.as_slice();
    clash::same_target(&offers[..row], &offers[row])
}

/// The first fault of an expose:
///
/// - 51 where its source is a child that isn't declared;
/// - 52 where the component doesn't declare what is exposed from itself, or a directory is
///   exposed from the framework;
/// - 54 where an earlier expose has its target name;
/// - 57 where it is from void and its availability doesn't allow that.
fn expose_fault(index: &NameIndex, row: usize, apart: usize) -> Option<FoundFault>
    requires within { row < length index.now.exposes }
    requires apart { ApartIn index.now section.Exposes apart }
    ensures { FindsFault index.now (At section.Exposes row) result }
{
    let give = &index.decl().exposes.as_slice()[row];
    if index.is_unknown(&give.from) {
        return Some(FoundFault::alone(51, Section::Exposes, row));
    }
    if index.is_undeclared(give.kind, &give.from, &give.source_name) {
        return Some(FoundFault::alone(52, Section::Exposes, row));
    }
    if let Some(first) = expose_clash(index, row, apart) {
        return Some(FoundFault::clash(54, Section::Exposes, row, Section::Exposes, first));
    }
    if is_required_void(give) {
        return Some(FoundFault::alone(57, Section::Exposes, row));
    }
    None
}

/// The first earlier expose that has the target name of an expose.
fn expose_clash(index: &NameIndex, row: usize, apart: usize) -> Option<usize>
    requires within { row < length index.now.exposes }
    requires apart { ApartIn index.now section.Exposes apart }
    ensures { option_map (clashes.place section.Exposes) result ≡
        clashes.clash index.now rule.RepeatedTarget section.Exposes row }
{
    if row < apart {
        return None;
    }
    let exposes = index.decl().exposes.as_slice();
    let give = &exposes[row];
    clash::expose_named(&exposes[..row], &give.target_name)
}

/// Whether the source is the very child that the target names.
fn is_given_back(from: &Origin, to: &Name) -> bool
    ensures { result ≡ rule.is_given_back from.now to.now }
{
    match from {
        Origin::Child(child) => child.coll.is_none() && child.name == *to,
        _ => false,
    }
}

/// Whether a capability that has to be there is from void.
fn is_required_void(give: &Give) -> bool
    ensures { result ≡ rule.is_required_void give.now }
{
    match give.from {
        Origin::Void => !give.availability.allows_void(),
        _ => false,
    }
}
