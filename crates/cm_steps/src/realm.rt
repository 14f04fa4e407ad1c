//! The realm.

ghost use Rattle.std.specs.Prelude.{◌≡◌, ◌↔◌, [], false, Some, None, IsTrue, IfOk, IfErr, OnOk, OnErr};
ghost use Rattle.cm_world.specs.World.{start};
ghost use Rattle.cm_world.specs.Begin.{begin_reply};
ghost use Rattle.cm_world.specs.Reports.{exit_reply};
ghost use Rattle.cm_world.specs.Legal.{Legal, IsStep, owed_by};
ghost use Rattle.cm_world.specs.After.{moved, with_action};
ghost use Rattle.cm_world.specs.AfterInside.{moves};
ghost use Rattle.cm_cache.specs.Keeping.{IsKeptNumber, asked_by};
ghost use Rattle.cm_cache.specs.Steps.{may_doom};
ghost use Rattle.cm_table.specs.Tree.{first_tree};
ghost use Rattle.cm_laws.specs.Story.{world_of, AddsEntry, entry_of};
ghost use Rattle.cm_steps.specs.Asking.{may_ask, event_of as event_by};
ghost use Rattle.cm_steps.specs.Tasks.{IsIdleAt};
ghost use Rattle.cm_steps.specs.Answers.{BeginsOrWaits, ExitsBy};
ghost use Rattle.cm_steps.specs.Requests.{Steps};
ghost use Rattle.cm_steps.specs.Steps.{RealmHasRoom, RefusesStep, RefusesQuiet};
ghost use Rattle.cm_steps.specs.Steps.{WaitsToBegin, WaitsToExit};

mod creating;
mod enabling;
mod ends;
mod marks;
mod picking;
mod stepping;

use crate::asking::{Asking, RouteAnswer, answer, asks, event_of, reply_of, tell_found, use_reply};
use crate::copies::copied;
use crate::expiring::expire;
use crate::nostep::NoStep;
use crate::records::Recorded;
use crate::replies::beginning::{BeginAnswer, begin_answer};
use crate::replies::finding::found;
use crate::replies::opening::open_exposed_reply;
use crate::replies::showing::{ExitAnswer, exit_answer, tailed};
use crate::request::{EventRef, Request};
use crate::rooms::{add_join, copy_in_room, make_room, next_action};
use crate::told::{LastTold, list_told};
use cm_book::Book;
use cm_cache::Keeper;
use cm_laws::trees_stay_sound;
use cm_names::{Boxed, CapPath, List, Memory, Moniker, Name, Text};
use cm_order::DescentPlan;
use cm_table::Table;
use cm_turn::Storied;
use cm_world::{Act, ActKind, Builtin, Entry, Event, Frame, Join, Limits, Reply};
use std::alloc::Global;
use std::marker::Model;

/// A realm tree with its history. Contracts see it as its frame, which is what it was made with
/// and what no step changes, and its entries.
pub struct Realm {
    frame: Boxed<Frame>,
    table: Table,
    acts: Vec<Act>,
    resolves: u32,
    joins: Vec<Join>,
    records: Recorded,
}

impl Drop for Realm {
    /// Called where the value goes: gives back the memory of its parts.
    fn drop(self) {
        let Realm {
            frame: _,
            table: _,
            acts: _,
            resolves: _,
            joins: _,
            records: _,
        } = self;
    }
}

impl Model for Realm {
    ghost use Rattle.cm_laws.specs.Story.{Story};

    ghost Value = { Story };

    ghost use Rattle.cm_steps.specs.Inside.{story_of, IsRealmInvariant};

    ghost view = { story_of };

    ghost invariant = { IsRealmInvariant };
}

impl Storied for Realm {
    /// The entries of the history.
    type Entry = Entry;

    /// What the realm was made with.
    type Frame = Frame;

    ghost story = { λ s. s.entries };

    ghost frame = { λ s. s.frame };

    ghost by = { λ e. e.caller };
}

impl Realm {
    /// The realm of one instance, the root, which isn't resolved, with an empty history. `Err`
    /// where memory runs out.
    pub fn new(
        alloc: Global,
        root: Text,
        builtins: List<Builtin>,
        limits: Limits,
    ) -> Result<Realm, Memory>
        ensures { IfOk result (λ made. made ≡ record {
          frame = record { root = root; builtins = builtins; limits = limits };
          entries = [];
        }) }
    {
        let table = first_table(alloc, &root, &builtins, limits.rows)?;
        let keeper = Keeper::new(alloc)?;
        let frame = Boxed::new(
            alloc,
            Frame {
                root,
                builtins,
                limits,
            },
        )?;
        Ok(Realm {
            frame,
            table,
            acts: Vec::new(alloc),
            resolves: 0,
            joins: Vec::new(alloc),
            records: Recorded {
                book: Book::new(alloc, limits.entries),
                keeper,
                plan: DescentPlan::new(alloc),
                last: LastTold::new(),
            },
        })
    }

    /// The history, which is legal, from the first entry on.
    pub fn entries(&self) -> &[Entry]
        ensures entries { result.now ≡ self.now.entries }
        ensures legal { Legal (start self.now.frame) self.now.entries }
    {
        let _table = &self.table;
        self.records.book.entries()
    }

    /// The tree that the history leaves.
    pub fn tree(&self) -> &Table
        ensures rows { result.now.rows ≡ (world_of self.now).rows }
        ensures builtins { result.now.builtins ≡ self.now.frame.builtins }
    {
        let _frame = &self.frame;
        &self.table
    }

    /// The history as a book, which takes as many entries as the realm does and keeps room for those
    /// that are owed.
    pub fn into_book(self) -> Book
        ensures entries { result.entries ≡ self.entries }
        ensures limit { result.limit ≡ self.frame.limits.entries }
        ensures reserved { result.reserved ≡ owed_by (world_of self) }
    {
        let Realm {
            frame: _,
            table: _,
            acts: _,
            resolves: _,
            joins: _,
            records,
        } = self;
        let Recorded {
            book,
            keeper: _,
            plan: _,
            last: _,
        } = records;
        book
    }

    /// How many routes and openings of the history were cache hits: asked for a use whose answer was
    /// kept. What a walk comes to is kept, unless it waits for a declaration or is a route of more than
    /// 64 hops; of 16,384 answers all go before one more. All go, too, where an instance is resolved,
    /// created, removed or doomed.
    pub fn kept(&self) -> u64
        ensures { IsKeptNumber self.now.frame self.now.entries result }
    {
        let _table = &self.table;
        self.records.keeper.number()
    }

    /// Whether the history takes so many entries more, besides those that are owed.
    fn has_room(&self, need: u32) -> bool
        ensures { IsTrue result ↔ RealmHasRoom self.now need }
    {
        let _acts = &self.acts;
        self.records.book.fits(need)
    }

    /// Records an event that changes no row, no action and no join, and is no route or opening that a
    /// walk answers, and hands its reply back. The history keeps a copy, which takes no more than it
    /// needs.
    fn tell(&mut self, caller: u32, event: Event, reply: Reply) -> Result<Reply, NoStep>
        requires quiet { moves event reply ≡ false }
        requires unasked { asked_by (world_of self.old) event ≡ None }
        requires step { IsStep (world_of self.old) (entry_of caller event reply) }
        ensures step { IfOk result (λ told. AddsEntry self.old self.new caller event told) }
        ensures room { OnOk result (RealmHasRoom self.old 1) }
        ensures refused { IfErr result (RefusesQuiet self.old) }
        ensures err { OnErr result (self.new ≡ self.old) }
    {
        match copy_in_room(&mut self.records.book, &reply) {
            Ok(kept) => {
                self.records.put_quiet(caller, event, kept);
                Ok(reply)
            }
            Err(fault) => {
                drop(event);
                drop(reply);
                Err(fault)
            }
        }
    }

    /// Answers who asks for a use of an instance: by what is kept, if the instance isn't gone and is
    /// resolved, and for an opening is on.
    fn ask(
        &mut self,
        alloc: Global,
        caller: u32,
        asking: Asking,
        inc: u64,
        path: &CapPath,
    ) -> Result<Reply, NoStep>
        ensures step { IfOk result (λ reply.
            AddsEntry self.old self.new caller (event_by asking inc path.now) reply) }
        ensures refused { IfErr result (RefusesQuiet self.old) }
        ensures err { OnErr result (self.new ≡ self.old) }
    {
        let path = path.clone()?;
        if asks(&self.table, asking, inc) {
            return self.answer(alloc, caller, asking, inc, path);
        }
        let reply = use_reply(alloc, &self.table, asking, inc, &path)?;
        let event = event_of(asking, inc, path);
        self.tell(caller, event, reply)
    }

    /// Answers who asks for a use of an instance that isn't gone and is resolved, and for an opening
    /// is on, by the answer that is kept, and else by a walk.
    fn answer(
        &mut self,
        alloc: Global,
        caller: u32,
        asking: Asking,
        inc: u64,
        path: CapPath,
    ) -> Result<Reply, NoStep>
        requires { IsTrue (may_ask asking (world_of self.old).rows inc) }
        ensures step { IfOk result (λ reply.
            AddsEntry self.old self.new caller (event_by asking inc path) reply) }
        ensures room { OnOk result (RealmHasRoom self.old 1) }
        ensures refused { IfErr result (RefusesQuiet self.old) }
        ensures err { OnErr result (self.new ≡ self.old) }
    {
        let answered = answer(alloc, &self.table, &self.records.keeper, inc, &path)?;
        let RouteAnswer { walked, found } = answered;
        let reply = reply_of(&self.table, asking, walked);
        let event = event_of(asking, inc, path);
        let told = tell_found(
            &mut self.records.book,
            &mut self.records.keeper,
            caller,
            event,
            reply,
            found,
        )?;
        Ok(told)
    }

    /// Which instance stands at the moniker: `Found` with its incarnation; `NotFound` with the
    /// part of the moniker that was found; or, where an instance on the way isn't resolved,
    /// `Need`, or `Shut` where it is shut or being shut down.
    ///
    /// - `HistoryFull` where one entry more doesn't fit, which is tried first;
    /// - `Memory` where memory runs out.
    pub fn find(&mut self, alloc: Global, caller: u32, moniker: Moniker) -> Result<Reply, NoStep>
        ensures { Steps self.old self.new caller (Event.Find moniker) result }
    {
        self.step(alloc, caller, EventRef::Find(&moniker))
    }

    /// Makes the step of a find, where there is room.
    fn find_at(&mut self, alloc: Global, caller: u32, moniker: Moniker) -> Result<Reply, NoStep>
        ensures step { IfOk result (λ reply.
            AddsEntry self.old self.new caller (Event.Find moniker) reply) }
        ensures refused { IfErr result (RefusesQuiet self.old) }
        ensures err { OnErr result (self.new ≡ self.old) }
    {
        trees_stay_sound();
        let reply = found(alloc, &self.table, &moniker)?;
        self.tell(caller, Event::Find(moniker), reply)
    }

    /// How an instance is: `Shown`, or `Gone` where it doesn't live, or it or one above it is
    /// being destroyed.
    ///
    /// - `HistoryFull` where one entry more doesn't fit, which is tried first;
    /// - `Memory` where memory runs out.
    pub fn show(&mut self, alloc: Global, caller: u32, inc: u64) -> Result<Reply, NoStep>
        ensures { Steps self.old self.new caller (Event.Show inc) result }
    {
        self.step(alloc, caller, EventRef::Ask(Request::Show, inc))
    }

    /// Which children an instance has in the collection: `Listed` with those that aren't being
    /// destroyed, by their incarnations; `NoCollection` where it declares no such collection;
    /// `Gone`, `Need` or `Shut` of the instance itself. This is `ListChildren` of
    /// `fuchsia.component.Realm`.
    ///
    /// - `HistoryFull` where one entry more doesn't fit, which is tried first;
    /// - `Memory` where memory runs out.
    pub fn list(
        &mut self,
        alloc: Global,
        caller: u32,
        inc: u64,
        coll: Name,
    ) -> Result<Reply, NoStep>
        ensures { Steps self.old self.new caller (Event.Listing inc coll) result }
    {
        self.step(alloc, caller, EventRef::Ask(Request::List(&coll), inc))
    }

    /// Makes the step of a listing, where there is room.
    fn list_at(
        &mut self,
        alloc: Global,
        caller: u32,
        inc: u64,
        coll: &Name,
    ) -> Result<Reply, NoStep>
        ensures step { IfOk result (λ reply.
            AddsEntry self.old self.new caller (Event.Listing inc coll.now) reply) }
        ensures refused { IfErr result (RefusesQuiet self.old) }
        ensures err { OnErr result (self.new ≡ self.old) }
    {
        let coll = coll.clone()?;
        let reply = list_told(alloc, &self.table, &mut self.records.last, inc, &coll)?;
        self.tell(caller, Event::Listing(inc, coll), reply)
    }

    /// How an instance and all below it are: `Surveyed` with those that aren't being destroyed,
    /// by their incarnations, each with its moniker and the paths that it uses; `Gone` of the
    /// instance itself.
    ///
    /// - `HistoryFull` where one entry more doesn't fit, which is tried first;
    /// - `Memory` where memory runs out.
    pub fn survey(&mut self, alloc: Global, caller: u32, inc: u64) -> Result<Reply, NoStep>
        ensures { Steps self.old self.new caller (Event.Survey inc) result }
    {
        self.step(alloc, caller, EventRef::Ask(Request::Survey, inc))
    }

    /// How long the history is: `Tailed` with the number of entries before this one, or `Gone`
    /// of the instance. The place that the caller reads the history from is kept with the event.
    ///
    /// - `HistoryFull` where one entry more doesn't fit, which is tried first;
    /// - `Memory` where memory runs out.
    pub fn tail(&mut self, caller: u32, inc: u64, from: u64) -> Result<Reply, NoStep>
        ensures { Steps self.old self.new caller (Event.Tail inc from) result }
    {
        let alloc = *self.acts.allocator();
        self.step(alloc, caller, EventRef::Ask(Request::Tail(from), inc))
    }

    /// Makes the step of a tail, where there is room.
    fn tail_at(&mut self, caller: u32, inc: u64, from: u64) -> Result<Reply, NoStep>
        ensures step { IfOk result (λ reply.
            AddsEntry self.old self.new caller (Event.Tail inc from) reply) }
        ensures refused { IfErr result (RefusesQuiet self.old) }
        ensures err { OnErr result (self.new ≡ self.old) }
    {
        let entries = self.records.book.entries().len() as u64;
        let reply = tailed(&self.table, inc, entries);
        self.tell(caller, Event::Tail(inc, from), reply)
    }

    /// Where what an instance uses at the path comes from: `Given` with the route, `Void`,
    /// `Failed`, or `NoSuchUse`. `Need` where an instance on the way has to be resolved first,
    /// `SourceShut` where it can't be any more; `Gone`, `Need` or `Shut` of the instance itself.
    ///
    /// - `HistoryFull` where one entry more doesn't fit, which is tried first;
    /// - `Memory` where memory runs out.
    pub fn route(
        &mut self,
        alloc: Global,
        caller: u32,
        inc: u64,
        path: CapPath,
    ) -> Result<Reply, NoStep>
        ensures { Steps self.old self.new caller (Event.Route inc path) result }
    {
        self.step(alloc, caller, EventRef::Ask(Request::Route(&path), inc))
    }

    /// Opens what an instance uses at the path: `Opened` with the route where the provider is
    /// on, `NeedStart` where it has to be started first, `ClientOff` where the instance is off;
    /// and otherwise as `route`.
    ///
    /// - `HistoryFull` where one entry more doesn't fit, which is tried first;
    /// - `Memory` where memory runs out.
    pub fn open_use(
        &mut self,
        alloc: Global,
        caller: u32,
        inc: u64,
        path: CapPath,
    ) -> Result<Reply, NoStep>
        ensures { Steps self.old self.new caller (Event.OpenUse inc path) result }
    {
        self.step(alloc, caller, EventRef::Ask(Request::OpenUse(&path), inc))
    }

    /// Opens what an instance exposes by the name, as `open_use`, but the instance needn't be
    /// on. This is `OpenExposedDir` of `fuchsia.component.Realm`.
    ///
    /// - `HistoryFull` where one entry more doesn't fit, which is tried first;
    /// - `Memory` where memory runs out.
    pub fn open_exposed(
        &mut self,
        alloc: Global,
        caller: u32,
        inc: u64,
        name: Name,
    ) -> Result<Reply, NoStep>
        ensures { Steps self.old self.new caller (Event.OpenExposed inc name) result }
    {
        self.step(
            alloc,
            caller,
            EventRef::Ask(Request::OpenExposed(&name), inc),
        )
    }

    /// Makes the step of an opening of what is exposed, where there is room.
    fn open_exposed_at(
        &mut self,
        alloc: Global,
        caller: u32,
        inc: u64,
        name: &Name,
    ) -> Result<Reply, NoStep>
        ensures step { IfOk result (λ reply.
            AddsEntry self.old self.new caller (Event.OpenExposed inc name.now) reply) }
        ensures refused { IfErr result (RefusesQuiet self.old) }
        ensures err { OnErr result (self.new ≡ self.old) }
    {
        let name = name.clone()?;
        let reply = open_exposed_reply(alloc, &self.table, inc, &name)?;
        self.tell(caller, Event::OpenExposed(inc, name), reply)
    }

    /// Begins an action at an instance: `Begun` with what is to be done, or `Joined` with the
    /// number of an action of that kind which is pending there; else `Gone`, `Already`, `Shut`
    /// or `Need`. Who began an action ends it, and who joined one awaits its end. These are
    /// `ResolveInstance`, `StartInstance` and `StopInstance` of
    /// `fuchsia.sys2.LifecycleController`, in two steps each.
    ///
    /// - `Busy` with the number of the action of another kind that is pending there;
    /// - `HistoryFull` where two entries more don't fit, which is tried first;
    /// - `Memory` where memory runs out.
    pub fn begin(
        &mut self,
        alloc: Global,
        caller: u32,
        kind: ActKind,
        inc: u64,
    ) -> Result<Reply, NoStep>
        ensures { Steps self.old self.new caller (Event.Begin kind inc) result }
    {
        self.step(alloc, caller, EventRef::Ask(Request::Begin(kind), inc))
    }

    /// Makes the step of a begin, where there is room.
    fn begin_at(
        &mut self,
        alloc: Global,
        caller: u32,
        kind: ActKind,
        inc: u64,
    ) -> Result<Reply, NoStep>
        requires room { RealmHasRoom self.old 2 }
        ensures step { IfOk result (λ reply.
            AddsEntry self.old self.new caller (Event.Begin kind inc) reply) }
        ensures refused { let waits = WaitsToBegin (world_of self.old) kind inc in
            IfErr result (RefusesStep self.old 2 waits) }
        ensures err { OnErr result (self.new ≡ self.old) }
    {
        let next = next_action(self.acts.as_slice());
        let answer = begin_answer(alloc, &self.table, next, kind, inc)?;
        self.begin_by(caller, kind, inc, answer)
    }

    /// Takes the step that a begin comes to, where there is room.
    fn begin_by(
        &mut self,
        caller: u32,
        kind: ActKind,
        inc: u64,
        answer: BeginAnswer,
    ) -> Result<Reply, NoStep>
        requires room { RealmHasRoom self.old 2 }
        requires answer { BeginsOrWaits (world_of self.old) kind inc answer }
        ensures step { IfOk result (λ reply.
            AddsEntry self.old self.new caller (Event.Begin kind inc) reply) }
        ensures refused { let waits = WaitsToBegin (world_of self.old) kind inc in
            IfErr result (RefusesStep self.old 2 waits) }
        ensures err { OnErr result (self.new ≡ self.old) }
    {
        match answer {
            BeginAnswer::Busy(action) => Err(NoStep::Busy(action)),
            BeginAnswer::Quiet(reply) => self.tell(caller, Event::Begin(kind, inc), reply),
            BeginAnswer::Joins(action) => self.join(caller, kind, inc, action),
            BeginAnswer::Begins(work) => {
                self.begin_action(
                    caller,
                    kind,
                    inc,
                    Event::Begin(kind, inc),
                    Reply::Begun(work),
                )
            }
        }
    }

    /// Puts down that a caller joins an action, with room for the entry of its await.
    fn join(&mut self, caller: u32, kind: ActKind, inc: u64, action: u64) -> Result<Reply, NoStep>
        requires { let w = world_of self.old in
            begin_reply w.rows w.next_action kind inc ≡ Some (Reply.Joined action) }
        ensures step { IfOk result (λ reply.
            AddsEntry self.old self.new caller (Event.Begin kind inc) reply) }
        ensures refused { IfErr result (RefusesStep self.old 2 (λ a. ⊥)) }
        ensures err { OnErr result (self.new ≡ self.old) }
    {
        add_join(&mut self.joins, &mut self.records.book, caller, action)?;
        self.records.put_down(
            caller,
            Event::Begin(kind, inc),
            Reply::Joined(action),
            false,
        );
        Ok(Reply::Joined(action))
    }

    /// Puts down an event by which an action begins at an instance, with room for the entry of
    /// its end, and hands its reply back. The history keeps a copy, which takes no more than it needs.
    fn begin_action(
        &mut self,
        caller: u32,
        kind: ActKind,
        inc: u64,
        event: Event,
        reply: Reply,
    ) -> Result<Reply, NoStep>
        requires step { IsStep (world_of self.old) (entry_of caller event reply) }
        requires begins { let w = world_of self.old in
            moved w caller event reply ≡ with_action w caller kind inc }
        requires idle { IsIdleAt (world_of self.old).rows kind inc }
        requires unasked { asked_by (world_of self.old) event ≡ None }
        requires undoomed { may_doom event reply ≡ false }
        ensures step { IfOk result (λ told. AddsEntry self.old self.new caller event told) }
        ensures same { IfOk result (λ told. told ≡ reply) }
        ensures refused { IfErr result (RefusesStep self.old 2 (λ a. ⊥)) }
        ensures err { OnErr result (self.new ≡ self.old) }
    {
        let Ok(kept) = copied(&reply) else {
            drop(event);
            drop(reply);
            return Err(NoStep::Memory);
        };
        let room = make_room(
            &mut self.acts,
            self.resolves,
            &mut self.table,
            &mut self.records.book,
            kind,
        );
        match room {
            Ok(resolves) => {
                let action = next_action(self.acts.as_slice());
                self.resolves = resolves;
                self.table.set_pending(inc, Some((kind, action)));
                self.acts.push_reserved(Act {
                    action,
                    kind,
                    inc,
                    by: caller,
                    outcome: None,
                });
                self.records.put_down(caller, event, kept, false);
                Ok(reply)
            }
            Err(fault) => {
                drop(kept);
                drop(event);
                drop(reply);
                Err(fault)
            }
        }
    }

    /// The program of an instance has ended by itself: `Left` with where the instance stands,
    /// and the program is off; `Already` where it was off, `Gone` where the instance doesn't
    /// live. This is the `on_stop` of a runner's `fuchsia.component.runner.ComponentController`.
    /// What goes with an instance that is stopped goes with it too.
    ///
    /// - `Busy` with the number of the action that is pending at the instance;
    /// - `HistoryFull` where one entry more doesn't fit, which is tried first;
    /// - `Memory` where memory runs out.
    pub fn exited(&mut self, alloc: Global, caller: u32, inc: u64) -> Result<Reply, NoStep>
        ensures { Steps self.old self.new caller (Event.Exited inc) result }
    {
        self.step(alloc, caller, EventRef::Ask(Request::Exited, inc))
    }

    /// Makes the step of an exit, where there is room.
    fn exit_at(&mut self, alloc: Global, caller: u32, inc: u64) -> Result<Reply, NoStep>
        requires room { RealmHasRoom self.old 1 }
        ensures step { IfOk result (λ reply.
            AddsEntry self.old self.new caller (Event.Exited inc) reply) }
        ensures refused { let waits = WaitsToExit (world_of self.old) inc in
            IfErr result (RefusesStep self.old 1 waits) }
        ensures err { OnErr result (self.new ≡ self.old) }
    {
        let answer = exit_answer(alloc, &self.table, inc)?;
        self.exit_by(caller, inc, answer)
    }

    /// Takes the step that an exit comes to, where there is room.
    fn exit_by(&mut self, caller: u32, inc: u64, answer: ExitAnswer) -> Result<Reply, NoStep>
        requires room { RealmHasRoom self.old 1 }
        requires answer { ExitsBy (world_of self.old) inc answer }
        ensures step { IfOk result (λ reply.
            AddsEntry self.old self.new caller (Event.Exited inc) reply) }
        ensures refused { let waits = WaitsToExit (world_of self.old) inc in
            IfErr result (RefusesStep self.old 1 waits) }
        ensures err { OnErr result (self.new ≡ self.old) }
    {
        match answer {
            ExitAnswer::Busy(action) => Err(NoStep::Busy(action)),
            ExitAnswer::Quiet(reply) => self.tell(caller, Event::Exited(inc), reply),
            ExitAnswer::Leaves(moniker) => self.leave(caller, inc, moniker),
        }
    }

    /// Puts down that the program of an instance has ended by itself. The history keeps a copy of
    /// where it stands, which takes no more than it needs.
    fn leave(&mut self, caller: u32, inc: u64, moniker: Moniker) -> Result<Reply, NoStep>
        requires { exit_reply (world_of self.old).rows inc ≡ Some (Reply.Left moniker) }
        ensures step { IfOk result (λ reply.
            AddsEntry self.old self.new caller (Event.Exited inc) reply) }
        ensures refused { IfErr result (RefusesQuiet self.old) }
        ensures err { OnErr result (self.new ≡ self.old) }
    {
        let kept = copy_in_room(&mut self.records.book, &moniker)?;
        self.table.set_on(inc, false);
        let doomed = expire(&mut self.table, inc);
        self.records
            .put_down(caller, Event::Exited(inc), Reply::Left(kept), doomed);
        Ok(Reply::Left(moniker))
    }
}

/// The table of the root alone, with copies of its URL and of what stands above it.
fn first_table(
    alloc: Global,
    root: &Text,
    builtins: &List<Builtin>,
    limit: u32,
) -> Result<Table, Memory>
    ensures { IfOk result (λ made. made ≡ first_tree root.now builtins.now limit) }
{
    let url = copied(root)?;
    let builtins = copied(builtins)?;
    Table::new(alloc, url, builtins, limit)
}
