//! Where instances look for what is registered, as it is kept from a parent to its children.

ghost use Rattle.std.specs.Prelude.{◌≡◌, ℕ, List, Some, All, option_map};
ghost use Rattle.cm_world.specs.declared.row.Row.{Row};
ghost use Rattle.cm_world.specs.Rows.{decl_of};
ghost use Rattle.cm_env.specs.declared.reach.Reach.TheVariants as reach;
ghost use Rattle.cm_env.specs.Looks.{FindsOrAsksParent};
ghost use Rattle.cm_env.specs.Reach.{IsReachOf, LooksThere};
ghost use Rattle.cm_env.specs.Scope as spec;

use crate::giver::{GivenEnvironment, Giver};
use crate::scope::{ParentLook, Which, find_registration, step_up};
use cm_decl::{Environment, Registration};
use cm_names::Name;
use cm_world::View;

/// Where an instance looks for what is registered.
#[derive(Clone, Copy)]
pub(crate) enum Reach<'a> {
    /// Nowhere.
    Nothing,
    /// In this environment of this instance above it, and where that extends its realm's, as that
    /// instance does. Where that one looks is kept at this place, if anywhere.
    From(u64, &'a Environment, usize),
    /// It isn't known.
    Unknown,
}

/// An instance, and where it looks.
#[derive(Clone, Copy)]
pub(crate) struct Looker<'a> {
    pub(crate) inc: u64,
    pub(crate) reach: Reach<'a>,
}

/// The root, above which nothing is registered.
pub(crate) fn root<'a, V: View>(view: &'a V) -> Looker<'a>
    ensures inc { result.inc ≡ 0 }
    ensures reaches { LooksThere (V.rows view.now) result }
{
    let reach = root_reach(view);
    Looker { inc: 0, reach }
}

/// Where the root looks: nowhere, or it isn't known where it has a parent.
fn root_reach<'a, V: View>(view: &'a V) -> Reach<'a>
    ensures { IsReachOf (V.rows view.now) 0 result }
{
    match view.place(0) {
        None => Reach::Nothing,
        Some(_) => Reach::Unknown,
    }
}

/// A child of an instance that has this declaration, by where that instance looks, which is kept at
/// this place.
pub(crate) fn child<'a, V: View>(
    view: &'a V,
    parent: Looker<'a>,
    place: usize,
    giver: &Giver<'a>,
    inc: u64,
) -> Looker<'a>
    requires reaches { LooksThere (V.rows view.now) parent }
    requires giver { Some giver.now ≡ decl_of (V.rows view.now) parent.inc }
    ensures inc { result.inc ≡ inc }
    ensures reaches { LooksThere (V.rows view.now) result }
{
    let reach = reach_below(view, parent, place, giver, inc);
    Looker { inc, reach }
}

/// Where a child of that instance looks.
fn reach_below<'a, V: View>(
    view: &'a V,
    parent: Looker<'a>,
    kept: usize,
    giver: &Giver<'a>,
    inc: u64,
) -> Reach<'a>
    requires reaches { LooksThere (V.rows view.now) parent }
    requires giver { Some giver.now ≡ decl_of (V.rows view.now) parent.inc }
    ensures { IsReachOf (V.rows view.now) inc result }
{
    let Some(place) = view.place(inc) else {
        return Reach::Nothing;
    };
    if place.parent != parent.inc {
        return Reach::Unknown;
    }
    match giver.given(place.name.get()) {
        GivenEnvironment::Realm => parent.reach,
        GivenEnvironment::Undeclared => Reach::Nothing,
        GivenEnvironment::In(environment) => Reach::From(place.parent, environment, kept),
    }
}

/// The registration by which an instance knows a runner or a debug protocol, and the instance whose
/// declaration has it. It is looked for as the instance does, and then as those do above it, of
/// which some are kept.
pub(crate) fn registered_by<'a, V: View>(
    view: &'a V,
    kept: &[Looker<'a>],
    stand: Looker<'a>,
    which: Which,
    name: &Name,
) -> Option<(u64, &'a Registration)>
    requires kept { All (LooksThere (V.rows view.now)) kept.now }
    requires reaches { LooksThere (V.rows view.now) stand }
    ensures { option_map (λ s. (s.0, s.1.now)) result
        ≡ spec.registered which (V.rows view.now) stand.entry.inc name.now }
{
    let mut at = stand;
    'up: loop {
        match step(view, at, which, name) {
            ParentLook::Here(owner, registration) => return Some((owner, registration)),
            ParentLook::Nowhere => return None,
            ParentLook::Above(above) => at = stand_above(kept, at, above),
        }
    }
}

/// What an instance finds registered by a name, by where it looks first.
fn step<'a, V: View>(view: &'a V, stand: Looker<'a>, which: Which, name: &Name) -> ParentLook<'a>
    requires { LooksThere (V.rows view.now) stand }
    ensures { FindsOrAsksParent which (V.rows view.now) stand.entry.inc name.now result }
{
    match stand.reach {
        Reach::Unknown => step_up(view, stand.inc, which, name),
        Reach::Nothing => ParentLook::Nowhere,
        Reach::From(owner, environment, _) => look_in(owner, environment, which, name),
    }
}

/// What those find registered by a name who look in this environment of this instance first.
fn look_in<'a>(
    owner: u64,
    environment: &'a Environment,
    which: Which,
    name: &Name,
) -> ParentLook<'a>
    ensures { (rows : List Row) (i place : ℕ) →
        IsReachOf rows i (reach.From owner environment.entry place)
        → FindsOrAsksParent which rows i name.now result }
{
    if let Some(registration) = find_registration(environment, which, name) {
        return ParentLook::Here(owner, registration);
    }
    if environment.extends {
        return ParentLook::Above(owner);
    }
    ParentLook::Nowhere
}

/// The instance `inc` above the lower one, and where it looks, if that is kept where the lower one
/// tells.
fn stand_above<'a>(kept: &[Looker<'a>], below: Looker<'a>, inc: u64) -> Looker<'a>
    ensures inc { result.inc ≡ inc }
    ensures reaches { (rows : List Row) → All (LooksThere rows) kept.now → LooksThere rows result }
{
    let Reach::From(_, _, place) = below.reach else {
        return unknown(inc);
    };
    let Some(stand) = kept.get(place) else {
        return unknown(inc);
    };
    if stand.inc != inc {
        return unknown(inc);
    }
    *stand
}

/// An instance of which isn't known where it looks.
pub(crate) fn unknown<'a>(inc: u64) -> Looker<'a>
    ensures inc { result.inc ≡ inc }
    ensures reaches { (rows : List Row) → LooksThere rows result }
{
    Looker {
        inc,
        reach: Reach::Unknown,
    }
}
