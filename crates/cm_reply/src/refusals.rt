//! The texts of refusals.

ghost use Rattle.std.specs.Prelude.{◌++◌, codes, decimal, OnOk};
ghost use Rattle.cm_reply.specs.Lists.{each_behind};
ghost use Rattle.cm_reply.specs.ListsInside.{GainsText};
ghost use Rattle.cm_decl.specs.Words.{node_text};
ghost use Rattle.cm_reply.specs.States as states;
ghost use Rattle.cm_reply.specs.Refusals as spec;

use crate::lists::{ListItem, push, push_each, push_moniker, push_value};
use crate::routes::push_failure;
use crate::states::push_outcome;
use crate::words::push_number;
use cm_decl::Node;
use cm_names::Memory;
use cm_world::{Outcome, Refusal};

/// It is written as `self` or as the child's name.
impl ListItem for Node {
    ghost use Rattle.cm_decl.specs.Words.{node_text};

    ghost written = { node_text };

    /// A node of a cycle: `self`, or the child's name.
    fn push_to(&self, text: &mut String) -> Result<(), Memory> {
        push_value(text, self)
    }
}

/// Puts a word and each node after a space at the end. `Err` where memory runs out.
pub fn push_cycle(text: &mut String, word: &str, nodes: &[Node]) -> Result<(), Memory>
    ensures { OnOk result (GainsText text.old text.new
        (word.now ++ each_behind (codes " ") node_text nodes.now)) }
{
    push(text, word)?;
    push_each(text, " ", nodes)
}

/// Puts at the end why a command was refused: `refused NUMBER WORD` and what belongs to it. Lack of
/// memory has no number.
///
/// `Err` where memory runs out.
pub fn push_refusal(text: &mut String, refusal: &Refusal) -> Result<(), Memory>
    ensures { OnOk result (GainsText text.old text.new (spec.refusal_text refusal.now)) }
{
    push(text, "refused ")?;
    push_refused(text, refusal)
}

/// Puts the number and the word of a refusal at the end, and what belongs to it.
fn push_refused(text: &mut String, refusal: &Refusal) -> Result<(), Memory>
    ensures { OnOk result (GainsText text.old text.new (spec.refusal_words refusal.now)) }
{
    match refusal {
        Refusal::CollectionNotFound => push(text, "60 collection-not-found"),
        Refusal::AlreadyExists(inc) => { push_number(text, "61 already-exists incarnation", *inc) }
        Refusal::DynamicOffersRefused => push(text, "62 dynamic-offers-refused"),
        Refusal::BadOffer(index, number) => push_bad_offer(text, *index, *number),
        Refusal::OfferCycle(nodes) => push_cycle(text, "64 offer-cycle", nodes.as_slice()),
        Refusal::ParentClosing(inc) => { push_number(text, "65 parent-closing incarnation", *inc) }
        Refusal::Full => push(text, "67 full"),
        Refusal::NotDynamic => push(text, "68 not-dynamic"),
        Refusal::HistoryFull => push(text, "69 history-full"),
        Refusal::NotFound(moniker) => {
            push(text, "80 not-found in ")?;
            push_moniker(text, moniker)
        }
        Refusal::Gone(inc) => push_number(text, "81 gone incarnation", *inc),
        Refusal::Shut(inc) => push_number(text, "82 shut incarnation", *inc),
        Refusal::CannotResolve(action, outcome) => {
            push_ended(text, "83 cannot-resolve action", *action, *outcome)
        }
        Refusal::CannotStart(action, outcome) => {
            push_ended(text, "84 cannot-start action", *action, *outcome)
        }
        Refusal::ClientOff => push(text, "85 client-off"),
        Refusal::NoSuchUse => push(text, "86 no-such-use"),
        Refusal::NoRoute(hop, why) => {
            push(text, "87 ")?;
            push_failure(text, hop.get(), *why)
        }
        Refusal::VoidSource(hop) => {
            push(text, "88 void at ")?;
            hop.get().push_to(text)
        }
        Refusal::SourceShut(inc) => { push_number(text, "89 source-shut incarnation", *inc) }
        Refusal::Memory => push(text, "want-of-memory"),
    }
}

/// Puts at the end which offer is bad, and the number of its fault.
fn push_bad_offer(text: &mut String, index: u32, number: u8) -> Result<(), Memory>
    ensures { OnOk result (GainsText text.old text.new (codes "63 bad-offer " ++ (decimal index
        ++ (codes " " ++ decimal number)))) }
{
    push_value(text, format_args!("63 bad-offer {index} {number}"))
}

/// Puts the words, the number of an action, and how it came out at the end.
fn push_ended(text: &mut String, words: &str, action: u64, outcome: Outcome) -> Result<(), Memory>
    ensures { OnOk result (GainsText text.old text.new (words.now ++ (codes " " ++ (decimal action
        ++ (codes " " ++ states.outcome_text outcome))))) }
{
    push_number(text, words, action)?;
    push(text, " ")?;
    push_outcome(text, outcome)
}
