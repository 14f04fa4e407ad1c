//! The manager of a realm.

ghost use Rattle.std.specs.Prelude.{◌≡◌, ◌<◌, ◌≤◌, ◌⊎◌, [], All, Some, IfOk, IfErr};
ghost use Rattle.cm_turn.specs.Passes.{new_passes, seen_up_to, AreAll, IsOwn};
ghost use Rattle.cm_turn.specs.History.{StartsWith};
ghost use Rattle.cm_laws.specs.Story.{IsLegal};
ghost use Rattle.cm_manager.specs.Managers.{BearsPassesOut, IsBookOf};
ghost use Rattle.cm_manager.specs.Closed.{HasEnds};
ghost use Rattle.cm_manager.specs.Asking.{frame_of};

use crate::permit::Permit;
use cm_book::Book;
use cm_names::{List, Text};
use cm_repo::Repository;
use cm_steps::Realm;
use cm_turn::{Pass, Turn};
use cm_world::{Entry, Frame};
use std::alloc::Global;
use std::marker::Model;

/// The manager of a realm, which many callers share.
///
/// It holds a turn lock round the realm, a permit in front of that lock, the manifests that were given
/// with it, and the name of the repository of which the gates are asked for others. Contracts see the
/// lock, the manifests and that name.
pub struct Manager {
    pub(crate) turn: Turn<Realm>,
    pub(crate) permit: Permit,
    pub(crate) repository: Repository,
    pub(crate) repo: Option<Text>,
}

impl Drop for Manager {
    /// Frees the turn lock with the realm inside, the manifests that were given with it, and the name
    /// of the repository.
    fn drop(self) {
        let Manager {
            turn: _,
            permit: _,
            repository: _,
            repo: _,
        } = self;
    }
}

impl Model for Manager {
    ghost use Rattle.cm_manager.specs.Managers.{ManagerView};

    ghost Value = { ManagerView };

    ghost view = { λ m. record {
      turn = m.turn;
      manifests = record { repo = m.repo; blocks = m.repository };
    } };
}

impl Manager {
    /// A manager of the realm, whose history is empty, with the passes of the callers from 0 to
    /// `passes` - 1, of which there are 1 to 64. The passes have the realm's frame, and have seen
    /// nothing.
    ///
    /// `Err` means that memory ran out, and gives the realm back; the repository is dropped.
    pub fn new(
        alloc: Global,
        realm: Realm,
        repository: Repository,
        repo: Option<Text>,
        passes: u32,
    ) -> Result<(Manager, List<Pass<Entry, Frame>>), Realm>
        requires passes { (0 < passes) × (passes ≤ 64) }
        requires empty { realm.entries ≡ [] }
        ensures count { IfOk result (λ made. made.0.turn.passes ≡ passes) }
        ensures new { IfOk result (λ made.
            made.1 ≡ new_passes made.0.turn.lock realm.frame passes) }
        ensures manifests { IfOk result (λ made.
            made.0.manifests ≡ record { repo = repo; blocks = repository }) }
        ensures err { IfErr result (λ back. back ≡ realm) }
    {
        let Ok(permit) = Permit::new(alloc) else {
            return Err(realm);
        };
        match Turn::new(alloc, realm, passes) {
            Ok((turn, list)) => {
                let manager = Manager {
                    turn,
                    permit,
                    repository,
                    repo,
                };
                Ok((manager, list))
            }
            Err(realm) => Err(realm),
        }
    }

    /// Lets two passes of this manager know what either has seen: afterwards both have seen the
    /// longer of the two histories. It waits for no turn.
    pub fn meet(&self, a: &mut Pass<Entry, Frame>, b: &mut Pass<Entry, Frame>)
        requires lock { let lock = self.now.turn.lock in
            (a.old.lock ≡ lock) × (b.old.lock ≡ lock) }
        ensures first { a.new ≡ seen_up_to a.new.seen a.old }
        ensures second { b.new ≡ seen_up_to b.new.seen b.old }
        ensures one { a.new.seen ≡ b.new.seen }
        ensures own { IsOwn (λ e. e.caller) a.new × IsOwn (λ e. e.caller) b.new }
        ensures longer { (StartsWith b.old.seen a.old.seen × (a.new.seen ≡ b.old.seen))
            ⊎ (StartsWith a.old.seen b.old.seen × (a.new.seen ≡ a.old.seen)) }
    {
        self.turn.meet(a, b);
    }

    /// Ends the manager and gives its history, once all its passes are given back, each once, in
    /// any order. Each action that a pass's caller began has its end among that caller's entries,
    /// as every call of the manager leaves it.
    ///
    /// The history bears each pass out, has no entry of anybody else, and keeps the laws of
    /// [`histories_keep_laws`](cm_laws::histories_keep_laws). Each action that was ever begun
    /// has its end in it. The book takes as many entries as the realm did, and keeps room for those
    /// that are owed.
    pub fn close(self, passes: List<Pass<Entry, Frame>>) -> Book
        requires passes { AreAll self.turn passes }
        requires ended { All (λ p. HasEnds p.mine) passes }
        ensures closes { BearsPassesOut result.entries passes }
        ensures ended { HasEnds result.entries }
        ensures book { All (λ p. IsBookOf (frame_of p) result) passes }
    {
        self.close_realm(passes).into_book()
    }

    /// Ends the manager as [`Manager::close`] does, and gives the realm with its history. The realm
    /// has the frame of each pass.
    pub fn close_realm(self, passes: List<Pass<Entry, Frame>>) -> Realm
        requires passes { AreAll self.turn passes }
        requires ended { All (λ p. HasEnds p.mine) passes }
        ensures closes { BearsPassesOut result.entries passes }
        ensures ended { HasEnds result.entries }
        ensures frames { All (λ p. p.frame ≡ Some result.frame) passes }
    {
        let Manager {
            turn,
            permit: _,
            repository: _,
            repo: _,
        } = self;
        let realm = turn.close(passes);
        check_history(&realm);
        realm
    }
}

/// Does nothing: that the history of a realm is legal is part of its type.
pub(crate) fn check_history(realm: &Realm)
    ensures { IsLegal realm.now }
{
    let _history = realm.entries();
}
