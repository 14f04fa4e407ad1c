//! The texts of routes.

ghost use Rattle.std.specs.Prelude.{◌≡◌, codes, OnOk};
ghost use Rattle.cm_reply.specs.Lists.{joined_by, when_some};
ghost use Rattle.cm_reply.specs.ListsInside.{GainsText};
ghost use Rattle.cm_reply.specs.Routes as spec;

use crate::lists::{ListItem, push, push_each, push_moniker};
use crate::words::push_incarnation;
use cm_names::{Memory, Rights};
use cm_world::{Hop, Provider, Route, StepKind, Why};

/// The word for a hop, by its kind.
fn step_word(step: StepKind) -> &'static str
    ensures { result.now ≡ spec.step_word step }
{
    match step {
        StepKind::UseHop => "use",
        StepKind::OfferHop => "offer",
        StepKind::ExposeHop => "expose",
        StepKind::CapabilityHop => "capability",
        StepKind::FrameworkHop => "framework",
        StepKind::BuiltinHop => "builtin",
    }
}

/// The word for the reason why there is no route.
fn why_word(why: Why) -> &'static str
    ensures { result.now ≡ spec.why_word why }
{
    match why {
        Why::NoOffer => "no-offer",
        Why::NoExpose => "no-expose",
        Why::NoInstance => "no-instance",
        Why::NoBuiltin => "no-builtin",
        Why::AvailabilityTooWeak(_, _) => "availability-too-weak",
        Why::RightsTooWeak(_, _) => "rights-too-weak",
    }
}

/// It is written as its word and where its instance stands, as `offer core`.
impl ListItem for Hop {
    ghost use Rattle.cm_reply.specs.Routes.{hop_text};

    ghost written = { hop_text };

    /// A hop of a route: its word, and its instance's moniker.
    fn push_to(&self, text: &mut String) -> Result<(), Memory> {
        push(text, step_word(self.step))?;
        push(text, " ")?;
        push_moniker(text, &self.moniker)
    }
}

/// Puts the hops at the end, with commas between them.
fn push_hops(text: &mut String, hops: &[Hop]) -> Result<(), Memory>
    ensures { OnOk result (GainsText text.old text.new (joined_by (codes ", ") spec.hop_text hops.now)) }
{
    let [first, others @ ..] = hops else {
        return Ok(());
    };
    first.push_to(text)?;
    push_each(text, ", ", others)
}

/// Puts who provides the capability at the end. `Err` where memory runs out.
pub fn push_source(text: &mut String, provider: &Provider) -> Result<(), Memory>
    ensures { OnOk result (GainsText text.old text.new (spec.source_text provider.now)) }
{
    match provider {
        Provider::Instance(inc, moniker) => {
            push_moniker(text, moniker)?;
            push_incarnation(text, *inc)
        }
        Provider::Framework => push(text, "framework"),
        Provider::Builtin => push(text, "builtin"),
    }
}

/// Puts the rights that a directory is opened with at the end, after ` rights `; nothing for a
/// protocol.
fn push_rights(text: &mut String, rights: Option<Rights>) -> Result<(), Memory>
    ensures { OnOk result (GainsText text.old text.new (when_some spec.rights_words rights)) }
{
    match rights {
        None => Ok(()),
        Some(rights) => {
            let words = rights.text(*text.allocator())?;
            push(text, " rights ")?;
            push(text, words.as_str())
        }
    }
}

/// Puts at the end where the route leads: `PATH at SOURCE`, with ` rights RIGHTS` for a directory.
/// `Err` where memory runs out.
pub fn push_place(text: &mut String, route: &Route) -> Result<(), Memory>
    ensures { OnOk result (GainsText text.old text.new (spec.place_text route.now)) }
{
    push(text, route.path.as_str())?;
    push(text, " at ")?;
    push_source(text, &route.provider)?;
    push_rights(text, route.rights)
}

/// Puts at the end where the route leads, then ` through ` and its hops, with commas between them.
/// `Err` where memory runs out.
pub fn push_route(text: &mut String, route: &Route) -> Result<(), Memory>
    ensures { OnOk result (GainsText text.old text.new (spec.route_text route.now)) }
{
    push_place(text, route)?;
    push(text, " through ")?;
    push_hops(text, route.hops.as_slice())
}

/// Puts at the end why there is no route: `WHY at HOP`, with the hop that fails. `Err` where memory
/// runs out.
pub fn push_failure(text: &mut String, hop: &Hop, why: Why) -> Result<(), Memory>
    ensures { OnOk result (GainsText text.old text.new (spec.failure_text hop.now why)) }
{
    push(text, why_word(why))?;
    push(text, " at ")?;
    hop.push_to(text)
}
