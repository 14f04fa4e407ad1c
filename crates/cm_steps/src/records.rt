//! What a realm records: its history, with what is known beside it.

ghost use Rattle.std.specs.Prelude.{◌≡◌, ◌-◌, ◌<◌, ◌++◌, ◌∷◌, [], false};
ghost use Rattle.cm_cache.specs.Beside.{followed, is_emptied};
ghost use Rattle.cm_laws.specs.Story.{entry_of};
ghost use Rattle.cm_steps.specs.Planned.{IsPlannedBy};
ghost use Rattle.cm_steps.specs.LastTold.{nothing_told};

use crate::told::LastTold;
use cm_book::Book;
use cm_cache::Keeper;
use cm_order::DescentPlan;
use cm_world::{Entry, Event, Reply};

/// The history, and what goes on with each of its entries.
#[derive(Drop)]
pub(crate) struct Recorded {
    /// The history.
    pub book: Book,
    /// The answers of walks that are kept.
    pub keeper: Keeper,
    /// What is known of ways down for the next pick.
    pub plan: DescentPlan,
    /// What was told last of how instances are.
    pub last: LastTold,
}

impl Recorded {
    /// Puts down an event that asks for no use with its reply, in room that is reserved. What was told
    /// last stays. The answers that are kept, and what is known of ways down, are forgotten where the
    /// event changes what walks read; whether it dooms an instance is told.
    fn put(&mut self, caller: u32, event: Event, reply: Reply, doomed: bool)
        requires { 0 < self.old.book.reserved }
        ensures book { let was = self.old.book in
            let entries = was.entries ++ entry_of caller event reply ∷ [] in
            self.new.book ≡ record was { entries = entries; reserved = was.reserved - 1 } }
        ensures keeper { self.new.keeper ≡ followed event reply doomed self.old.keeper }
        ensures plan { let emptied = is_emptied event reply doomed in
            IsPlannedBy emptied self.old.plan self.new.plan }
        ensures last { self.new.last ≡ self.old.last }
    {
        if self.keeper.follow(&event, &reply, doomed) {
            self.plan.forget();
        }
        self.book.push_reserved(Entry {
            caller,
            event,
            reply,
        });
    }

    /// Puts down an event that asks for no use and may change an instance, as `put` does. What was told
    /// last is forgotten, too.
    pub(crate) fn put_down(&mut self, caller: u32, event: Event, reply: Reply, doomed: bool)
        requires { 0 < self.old.book.reserved }
        ensures book { let was = self.old.book in
            let entries = was.entries ++ entry_of caller event reply ∷ [] in
            self.new.book ≡ record was { entries = entries; reserved = was.reserved - 1 } }
        ensures keeper { self.new.keeper ≡ followed event reply doomed self.old.keeper }
        ensures plan { let emptied = is_emptied event reply doomed in
            IsPlannedBy emptied self.old.plan self.new.plan }
        ensures last { self.new.last ≡ nothing_told }
    {
        self.last = LastTold::new();
        self.put(caller, event, reply, doomed);
    }

    /// Puts down an event that changes no instance and asks for no use with its reply, in room that is
    /// reserved. What was told last stays.
    pub(crate) fn put_quiet(&mut self, caller: u32, event: Event, reply: Reply)
        requires { 0 < self.old.book.reserved }
        ensures book { let was = self.old.book in
            let entries = was.entries ++ entry_of caller event reply ∷ [] in
            self.new.book ≡ record was { entries = entries; reserved = was.reserved - 1 } }
        ensures keeper { self.new.keeper ≡ followed event reply false self.old.keeper }
        ensures plan { let emptied = is_emptied event reply false in
            IsPlannedBy emptied self.old.plan self.new.plan }
        ensures last { self.new.last ≡ self.old.last }
    {
        self.put(caller, event, reply, false);
    }
}
