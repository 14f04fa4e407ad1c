//! Laws of the definitions, and short histories that they allow.
//!
//! These functions do nothing, and no code calls them: what each of them promises is a fact about the
//! definitions in `specs/`, which its proof shows.

ghost use Rattle.std.specs.Prelude.{[], ◌∷◌, true, false};
ghost use Rattle.cm_names.specs.declared.availability.Availability.TheVariants.{Required, Optional};
ghost use Rattle.cm_names.specs.declared.availability.Availability.TheVariants.{Transitional, SameAsTarget};
ghost use Rattle.cm_world.specs.declared.action.ActKind.TheVariants as kind;
ghost use Rattle.cm_world.specs.declared.event.Event.TheVariants as event;
ghost use Rattle.cm_world.specs.declared.reply.Reply.TheVariants as reply;
ghost use Rattle.cm_world.specs.declared.route.Start.TheVariants as begin;
ghost use Rattle.cm_world.specs.declared.route.Walked.TheVariants as walked;
ghost use Rattle.cm_world.specs.declared.route.Why.TheVariants as why;
ghost use Rattle.cm_world.specs.Route.{IsWalked};
ghost use Rattle.cm_world.specs.Stopping.{MayStop};
ghost use Rattle.cm_world.specs.Step.{IsEnabled, Allowed};
ghost use Rattle.cm_world.specs.Legal.{Legal};
ghost use Rattle.cm_world.specs.Laws as laws;
ghost use Rattle.cm_world.specs.LawsInside as laws_inside;
ghost use Rattle.cm_world.specs.Worlds as worlds;
ghost use Rattle.cm_world.specs.Create.{child_with};
ghost use Rattle.cm_world.specs.Ending as ending;
ghost use Rattle.cm_world.specs.Examples.{route_entries, unoffered_entries, unexposed_entries, logger_look};
ghost use Rattle.cm_world.specs.Examples.{client_surveyed, x_unexposed, at_root, at_child, c, s, x, s_path};
ghost use Rattle.cm_world.specs.RouteExamples.{subdir_rows, subdir_route, weak_rows, weak_walk, void_rows};
ghost use Rattle.cm_world.specs.RouteExamples.{voided_rows, passing_rows, passed_walk, i_path, full_entries};
ghost use Rattle.cm_world.specs.ShutdownExamples.{doomed_entries, purged_entries, chain_rows, k, at_x};
ghost use Rattle.cm_world.specs.ExpiringExamples.{stopping_entries, expired_entries, closed_entries};
ghost use Rattle.cm_world.specs.ExpiringExamples.{once_entries};
ghost use Rattle.cm_world.specs.ActionExamples.{joined_entries, failed_entries, opened_entries, x_kid, given};

/// Every event but a pick gets at most one reply.
pub fn replies_once()
    ensures { laws_inside.RepliesOnce }
{}

/// A walk comes to at most one answer.
pub fn walks_once()
    ensures { laws_inside.WalksOnce }
{}

/// In an orderly tree every walk comes to an answer.
pub fn walks_end()
    ensures { ending.WalksEnd }
{}

/// A walk makes a bounded number of steps: from each station fewer are left than from the one
/// before, since it goes up, to rows with lower incarnations, and then down, to rows with higher
/// ones. Where it begins, and ever after, no expose leads up.
pub fn steps_fall()
    ensures begins { ending.BeginsDown }
    ensures falls { ending.StepsFall }
{}

/// A tree is sound when it is made.
pub fn starts_sound()
    ensures { laws_inside.StartsSound }
{}

/// A legal history goes on by any entry that the world allows which it leaves, and then leaves
/// the world after that entry.
pub fn goes_on()
    ensures legal { laws_inside.LegalGoesOn }
    ensures replay { laws_inside.ReplayGoesOn }
{}

/// Eleven entries find a route in a new realm: the root, the client and the provider are
/// resolved on the way. Where the first child is another, no other reply is allowed. Without the
/// offer, or without the expose, the route fails at what is missing.
pub fn finds_routes()
    ensures found { Legal worlds.fresh route_entries }
    ensures no_other { ¬ Allowed worlds.rooted 0 (event.Find (at_child c)) (reply.Found 1) }
    ensures no_offer { Legal worlds.fresh unoffered_entries }
    ensures no_expose { Legal worlds.fresh unexposed_entries }
{}

/// Subdirectories stand after the provider's path in the order from the provider to the client.
/// A hop without rights doesn't reset what is asked: the expose after it is too weak. An
/// optional use of what is offered from void comes to void, and a required one asks for more than
/// the offer states.
pub fn judges_routes()
    ensures subdirs { IsWalked subdir_rows [] (begin.UseAt 2 i_path) (walked.Given subdir_route) }
    ensures rights { IsWalked weak_rows [] (begin.UseAt 2 i_path) weak_walk }
    ensures optional { IsWalked (void_rows Optional) [] (begin.UseAt 1 s_path) worlds.left_out }
    ensures required { IsWalked (void_rows Required) [] (begin.UseAt 1 s_path) worlds.too_weak }
{}

/// A transitional use takes an optional offer from void, and an optional use asks for more than a
/// transitional offer. What an offer takes over from its target stands at it: after it a required
/// use finds an optional expose too weak, and an optional one doesn't.
pub fn judges_availability()
    ensures less { IsWalked (voided_rows Transitional Optional) [] (begin.UseAt 1 s_path) worlds.left_out }
    ensures more { IsWalked (voided_rows Optional Transitional) [] (begin.UseAt 1 s_path) worlds.more_sure }
    ensures passed { IsWalked (passing_rows Required SameAsTarget) [] (begin.UseAt 2 s_path) passed_walk }
{}

/// A resolve whose children don't fit in the limit of instances ends with `Full`.
pub fn fills()
    ensures { Legal worlds.small full_entries }
{}

/// A child is doomed while its start is pending, and its pick has to wait; then it is stopped,
/// shut and purged, and is gone.
pub fn destroys()
    ensures doomed { Legal worlds.fresh doomed_entries }
    ensures waits { ¬ IsEnabled worlds.doomed 1 (event.Pick 1) }
    ensures purged { Legal worlds.doomed purged_entries }
{}

/// A parent that stops loses its children in collections, unless it is being shut down. A child
/// that runs once goes when it exits. What goes is named by a reap, until it is removed.
pub fn expires()
    ensures stopping { Legal worlds.fresh stopping_entries }
    ensures expired { Legal worlds.stopping expired_entries }
    ensures closed { Legal worlds.stopping closed_entries }
    ensures once { Legal worlds.fresh once_entries }
{}

/// A caller joins the start that another began. Neither a stop nor the outcome can be had while
/// the start is pending; then it fails for both, and the joiner takes the outcome once.
pub fn joins()
    ensures joined { Legal worlds.resolved joined_entries }
    ensures waits { ¬ IsEnabled worlds.joined 1 (event.Await 4) }
    ensures other_kind { ¬ IsEnabled worlds.joined 1 (event.Begin kind.Stop 1) }
    ensures failed { Legal worlds.joined failed_entries }
    ensures once { ¬ IsEnabled worlds.failed 1 (event.Await 4) }
{}

/// A running client opens what it uses: the provider has to be started first. A provider that
/// ends by itself is off, and needs no stop.
pub fn opens()
    ensures { Legal worlds.resolved opened_entries }
{}

/// What a running client depends on may not stop, and the client may.
pub fn stops_clients_first()
    ensures provider { ¬ MayStop (chain_rows false false false) 3 }
    ensures client { MayStop (chain_rows false false false) 2 }
{}

/// Replies in a new realm: a start needs the declaration, a stop finds the root off.
pub fn answers_fresh()
    ensures start { Allowed worlds.fresh 0 (event.Begin kind.Start 0) (reply.Need 0) }
    ensures stop { Allowed worlds.fresh 0 (event.Begin kind.Stop 0) reply.Already }
    ensures listing { Allowed worlds.fresh 0 (event.Listing 0 k) (reply.Need 0) }
    ensures tail { Allowed worlds.fresh 0 (event.Tail 0 0) (reply.Tailed 0) }
{}

/// Replies in a realm whose instances are resolved and off.
pub fn answers_resolved()
    ensures resolve { Allowed worlds.resolved 0 (event.Begin kind.Resolve 1) reply.Already }
    ensures client { Allowed worlds.resolved 0 (event.OpenUse 2 s_path) reply.ClientOff }
    ensures unused { Allowed worlds.resolved 0 (event.Route 2 i_path) reply.NoSuchUse }
    ensures exposed { Allowed worlds.resolved 0 (event.OpenExposed 1 s) (reply.NeedStart 1) }
    ensures unexposed { Allowed worlds.resolved 0 (event.OpenExposed 1 x) x_unexposed }
    ensures static_child { Allowed worlds.resolved 0 (event.Mark true 1) reply.NotDynamic }
    ensures root { Allowed worlds.resolved 0 (event.Mark true 0) reply.NotDynamic }
    ensures closing { Allowed worlds.resolved 0 (event.Mark false 0) reply.Marked }
    ensures create { Allowed worlds.resolved 0 (event.Create 0 (child_with k x x [])) reply.NoCollection }
    ensures listing { Allowed worlds.resolved 0 (event.Listing 0 k) reply.NoCollection }
    ensures purge { Allowed worlds.resolved 0 (event.Purge 9) reply.PurgedBefore }
    ensures show { Allowed worlds.resolved 0 (event.Show 1) (reply.Shown logger_look) }
    ensures gone { Allowed worlds.resolved 0 (event.Show 9) (reply.Gone 9) }
    ensures survey { Allowed worlds.resolved 0 (event.Survey 2) client_surveyed }
    ensures exited { Allowed worlds.resolved 0 (event.Exited 1) reply.Already }
    ensures tail { Allowed worlds.resolved 0 (event.Tail 0 0) (reply.Tailed 10) }
{}

/// Replies in a realm with a child in a collection: before it is created, while it lives, once
/// it is doomed, and where its parent is closing.
pub fn answers_created()
    ensures offers { Allowed worlds.collecting 0 (event.Create 0 (child_with k x x given))
        reply.OffersRefused }
    ensures exists { Allowed worlds.created 0 (event.Create 0 (child_with k x x [])) (reply.Exists 1) }
    ensures listed { Allowed worlds.created 0 (event.Listing 0 k) (reply.Listed (x_kid ∷ [])) }
    ensures unlisted { Allowed worlds.doomed 0 (event.Listing 0 k) (reply.Listed []) }
    ensures unfound { Allowed worlds.doomed 0 (event.Find at_x) (reply.NotFound at_root) }
    ensures gone { Allowed worlds.doomed 0 (event.OpenUse 1 s_path) (reply.Gone 1) }
    ensures again { Allowed worlds.doomed 0 (event.Mark true 1) reply.Already }
    ensures closing { Allowed worlds.closing 0 (event.Create 0 (child_with k x x [])) (reply.Closing 0) }
    ensures shut { Allowed worlds.closing 0 (event.Begin kind.Start 0) (reply.Shut 0) }
{}
