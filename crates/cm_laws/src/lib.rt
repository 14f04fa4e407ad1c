//! Laws of every history that is legal: of begins, ends and awaits, of openings, of shutdowns, and
//! of what is destroyed.
//!
//! A history is a list of entries, and it is legal where the tree that the entries before it leave
//! allows each entry. The functions of this crate do nothing: what each of them promises is a fact
//! about such histories, which its proof shows. `cm_steps` calls [`trees_stay_sound`] in its steps, and
//! `cm_manager` calls [`marks_stay`], [`shutdowns_last`], [`reaps_marked`], [`pickers_end`] and
//! [`outcomes_are_one`] for what it saw in earlier turns; its proofs use the lemmas of [`beginners_end`] and
//! [`joiners_await`]. No code calls the others, which say what holds of a legal history as a whole.
//!
//! The definitions of events, replies and histories are those of `cm_world`.
#![tactic(auto)]

ghost use Rattle.cm_laws.specs.Clients as clients;
ghost use Rattle.cm_laws.specs.ClientsInside as clients_inside;
ghost use Rattle.cm_laws.specs.Destroying as destroying;
ghost use Rattle.cm_laws.specs.DestroyingInside as destroying_inside;
ghost use Rattle.cm_laws.specs.Histories as histories;
ghost use Rattle.cm_laws.specs.HistoriesInside as histories_inside;
ghost use Rattle.cm_laws.specs.Lasting as lasting;
ghost use Rattle.cm_laws.specs.LastingInside as lasting_inside;
ghost use Rattle.cm_laws.specs.Laws as laws;
ghost use Rattle.cm_laws.specs.Shutdowns as shutdowns;
ghost use Rattle.cm_laws.specs.ShutdownsInside as shutdowns_inside;

/// Who began an action may end it, whatever other callers do in between.
pub fn beginners_end()
    ensures begins { laws.BeginnersMayEnd }
    ensures stays { laws.OthersLeaveEnds }
{}

/// Who joined an action may await its end, whatever other callers do in between.
pub fn joiners_await()
    ensures joins { laws.JoinersAreJoined }
    ensures stays { laws.OthersLeaveJoins }
{}

/// The route of each opening is a route in the tree of that very entry, from where its event
/// says, however long the call waited for others before.
///
/// The rights that are granted are within all that a hop states, and a provider that is an
/// instance is on in that tree.
pub fn routes_are_stable()
    ensures stable { lasting_inside.RoutesAreStable }
{}

/// Each action begins once and ends at most once, by the caller that began it.
///
/// Who joined it joined what was begun, and who awaits it gets the outcome that its end had.
pub fn outcomes_are_one()
    ensures one { lasting_inside.OutcomesAreOne }
{}

/// The tree that a legal history leaves is sound.
pub fn trees_stay_sound()
    ensures sound { shutdowns_inside.TreesStaySound }
{}

/// What is marked to be shut down or destroyed stays so until it has left the tree, whatever
/// callers do. A pick may be made for it.
pub fn marks_stay()
    ensures marks { shutdowns_inside.MarksMark }
    ensures stays { shutdowns_inside.MarksStay }
    ensures closes { shutdowns_inside.MarkedMayClose }
{}

/// What a reap names is marked to be destroyed.
pub fn reaps_marked()
    ensures { shutdowns_inside.ReapsMarked }
{}

/// Once a shutdown is done, all at and below its target stays shut, and what is to be destroyed
/// may be removed.
pub fn shutdowns_last()
    ensures done { shutdowns_inside.DoneIsOver }
    ensures stays { shutdowns_inside.OverStays }
    ensures purges { shutdowns_inside.OverMayPurge }
{}

/// A shutdown never comes to a dead end: in the tree that a legal history leaves, where an instance
/// that is being shut down isn't shut, some such instance may stop.
pub fn shutdowns_go_on()
    ensures { shutdowns_inside.ShutdownsGoOn }
{}

/// Who picked an instance to be stopped may end its stop; that others leave that so is promised
/// by `beginners_end`.
pub fn pickers_end()
    ensures picks { shutdowns_inside.PickersMayEnd }
{}

/// Clients stop before what they depend on: when an instance is picked, to be stopped or to be
/// shut since it is off, each of its clients that is being shut down with it is shut already.
///
/// A client uses something that the picked one provides, by a route of strong hops alone. Those at
/// and below the outermost closing instance above the picked one are being shut down with it; a
/// client that stands elsewhere is not, and this says nothing of it.
pub fn clients_stop_first()
    ensures first { clients_inside.ClientsStopFirst }
{}

/// What was doomed, since it was marked to be destroyed or went with an instance that stopped, and
/// all that is below it at any time from then on, is gone in each later tree.
///
/// Who asks it for an action, a child, a route, an opening or a report is told so, and gets
/// nothing else. No route that is opened passes it or ends at it, and only a reap, a pick or a
/// purge, which take it to its end, still name it in another reply. Once it is removed an exit of
/// it is told so too, no reply names it but this one, and no row ever has its incarnation again.
pub fn the_destroyed_stay_gone()
    ensures doomed { destroying_inside.DoomedAreDestroyed }
    ensures gone { destroying_inside.DestroyedStayGone }
{}

/// Every legal history keeps all these laws: that routes are stable, that each action has one
/// outcome, that clients stop first, that what is marked stays marked, that what a pick found done
/// stays shut, that a shutdown never comes to a dead end in any tree on the way, and that the
/// destroyed stay gone, also in the tree that the history leaves. That tree is sound.
pub fn histories_keep_laws()
    ensures { histories_inside.HistoriesKeepLaws }
{}
