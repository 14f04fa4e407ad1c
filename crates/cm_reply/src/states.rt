//! The texts of actions and of the states of instances.

ghost use Rattle.std.specs.Prelude.{◌≡◌, ◌++◌, codes, OnOk};
ghost use Rattle.cm_reply.specs.Lists.{when, when_some};
ghost use Rattle.cm_reply.specs.ListsInside.{GainsText};
ghost use Rattle.cm_reply.specs.States as spec;

use crate::lists::{ListItem, push, push_moniker, push_value};
use crate::words::push_incarnation;
use cm_names::{Memory, Text};
use cm_read::ReadFault;
use cm_world::{ActKind, FaultNote, HappenKind, Happening, Kid, Look, Outcome, SurveyRow};

/// The word for a kind of action.
pub fn act_word(kind: ActKind) -> &'static str
    ensures { result.now ≡ spec.act_word kind }
{
    match kind {
        ActKind::Resolve => "resolve",
        ActKind::Start => "start",
        ActKind::Stop => "stop",
    }
}

/// Puts the fault of a manifest at the end, as `invalid 51 offer 0`.
fn push_note(text: &mut String, note: FaultNote) -> Result<(), Memory>
    ensures { OnOk result (GainsText text.old text.new (spec.note_text note)) }
{
    let fault = ReadFault::Bad {
        number: note.number,
        section: note.section,
        index: note.index,
        field: Text::new(*text.allocator()),
    };
    push_value(text, fault)
}

/// Puts at the end what became of an action: a word, and for a manifest that isn't valid its fault.
/// `Err` where memory runs out.
pub fn push_outcome(text: &mut String, outcome: Outcome) -> Result<(), Memory>
    ensures { OnOk result (GainsText text.old text.new (spec.outcome_text outcome)) }
{
    match outcome {
        Outcome::Resolved => push(text, "resolved"),
        Outcome::Started => push(text, "started"),
        Outcome::Stopped => push(text, "stopped"),
        Outcome::Killed => push(text, "killed"),
        Outcome::Absent => push(text, "absent"),
        Outcome::BadUrl => push(text, "bad-url"),
        Outcome::Invalid(note) => push_note(text, note),
        Outcome::Declined => push(text, "declined"),
        Outcome::GateFailed => push(text, "gate-failed"),
        Outcome::Full => push(text, "full"),
        Outcome::NoMemory => push(text, "no-memory"),
    }
}

/// Whether an instance is resolved, in a word.
fn resolved_word(resolved: bool) -> &'static str
    ensures { result.now ≡ spec.resolved_word resolved }
{
    if resolved { "resolved" } else { "unresolved" }
}

/// Whether an instance's program is on, in a word after a space.
fn on_word(on: bool) -> &'static str
    ensures { result.now ≡ spec.on_word on }
{
    if on { " on" } else { " off" }
}

/// The text where that is so, else nothing.
pub fn when(holds: bool, text: &'static str) -> &'static str
    ensures { result.now ≡ when holds text.now }
{
    if holds { text } else { "" }
}

/// Puts the action that hasn't ended at the end, after ` pending `; nothing where there is none.
fn push_pending(text: &mut String, pending: Option<ActKind>) -> Result<(), Memory>
    ensures { OnOk result (GainsText text.old text.new (when_some spec.pending_words pending)) }
{
    match pending {
        None => Ok(()),
        Some(kind) => {
            push(text, " pending ")?;
            push(text, act_word(kind))
        }
    }
}

/// Puts at the end how an instance is, as `resolved on closing pending stop`. `Err` where memory
/// runs out.
pub fn push_look(text: &mut String, look: &Look) -> Result<(), Memory>
    ensures { OnOk result (GainsText text.old text.new (spec.look_text look.now)) }
{
    push(text, resolved_word(look.resolved))?;
    push(text, on_word(look.on))?;
    push(text, when(look.closing, " closing"))?;
    push(text, when(look.shut, " shut"))?;
    push_pending(text, look.pending)
}

/// Puts at the end how an instance of a survey is.
fn push_state(text: &mut String, row: &SurveyRow) -> Result<(), Memory>
    ensures { OnOk result (GainsText text.old text.new (spec.resolved_word row.now.resolved
        ++ (spec.on_word row.now.on ++ when row.now.shut (codes " shut")))) }
{
    push(text, resolved_word(row.resolved))?;
    push(text, on_word(row.on))?;
    push(text, when(row.shut, " shut"))
}

/// It is written as `MONIKER incarnation N` and how it is.
impl ListItem for SurveyRow {
    ghost use Rattle.cm_reply.specs.States.{survey_text};

    ghost written = { survey_text };

    /// A line of the answer to `survey`, and an item of the journal's reply `surveyed`: the moniker, the
    /// incarnation, and how the instance is.
    fn push_to(&self, text: &mut String) -> Result<(), Memory> {
        push_moniker(text, &self.moniker)?;
        push_incarnation(text, self.inc)?;
        push(text, " ")?;
        push_state(text, self)
    }
}

/// The word for what happened, after a space.
fn happen_word(kind: HappenKind) -> &'static str
    ensures { result.now ≡ spec.happen_word kind }
{
    match kind {
        HappenKind::Resolved => " resolved ",
        HappenKind::Started => " started ",
        HappenKind::Stopped => " stopped ",
        HappenKind::Destroyed => " destroyed ",
    }
}

/// It is written as `NUMBER KIND MONIKER incarnation N`.
impl ListItem for Happening {
    ghost use Rattle.cm_reply.specs.States.{happening_text};

    ghost written = { happening_text };

    /// A line of the answer to `events`, which journals don't have: the entry's number, what happened, and
    /// to which instance.
    fn push_to(&self, text: &mut String) -> Result<(), Memory> {
        push_value(text, self.number)?;
        push(text, happen_word(self.kind))?;
        push_moniker(text, &self.moniker)?;
        push_incarnation(text, self.inc)
    }
}

/// It is written as `NAME incarnation N`.
impl ListItem for Kid {
    ghost use Rattle.cm_reply.specs.States.{kid_text};

    ghost written = { kid_text };

    /// A line of the answer to `list`, and an item of the journal's reply `listed`: the child's name and its
    /// incarnation.
    fn push_to(&self, text: &mut String) -> Result<(), Memory> {
        push(text, self.name.as_str())?;
        push_incarnation(text, self.inc)
    }
}
