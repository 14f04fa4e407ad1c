//! Answers kept beside a history.

ghost use Rattle.std.specs.Prelude.{◌≡◌, ◌+◌, ◌<◌, ◌^◌, ℕ, IfOk, OnOk, OnErr, IsSome, IsTrue};
ghost use Rattle.cm_world.specs.declared.action.Finish.{Finish};
ghost use Rattle.cm_cache.specs.AnswersInside.{kept_at};
ghost use Rattle.cm_cache.specs.Beside.{nothing_held, found_by, is_new, is_emptied, followed, finding};
ghost use Rattle.cm_cache.specs.Keeping as keeping;

use crate::answer::CachedAnswer;
use crate::cache::Cache;
use cm_names::{CapPath, Memory};
use cm_world::{Event, Outcome, Reply, Walked};
use std::alloc::Global;
use std::marker::Model;

/// How many hops the longest route has that is kept.
const LONGEST: usize = 64;

/// What becomes of the answers that are kept with an entry that asks for a use.
#[derive(Drop)]
pub enum CacheLookup {
    /// The answer was there.
    Again,
    /// This answer is kept from now on.
    New(CachedAnswer),
    /// The answer isn't kept.
    Passing,
}

/// What becomes of the answers with an entry that asks for a use of which none is kept, and whose
/// walk comes to this: a copy of it is kept, unless it waits for a declaration or is a route of
/// more than 64 hops. `Err` where memory runs out for the copy.
pub fn found_by_walk(inc: u64, path: &CapPath, walked: &Walked) -> Result<CacheLookup, Memory>
    ensures found { IfOk result (λ found. found ≡ finding inc path.now walked.now) }
    ensures lasting { OnErr result (IsTrue (keeping.is_lasting walked.now)) }
{
    if !lasts(walked) {
        return Ok(CacheLookup::Passing);
    }
    let path = path.clone()?;
    let walked = walked.clone()?;
    Ok(CacheLookup::New(CachedAnswer { inc, path, walked }))
}

/// The answers that a history keeps, and how many of them were cache hits.
///
/// It is told of each entry of the history: [`Keeper::ask`] of those that ask for a use of an
/// instance that isn't gone and is resolved, and for an opening is on, [`Keeper::follow`] of all
/// others.
///
/// What it has stands in memory of its own, so that who has a keeper and is moved takes no more than
/// a pointer for it.
#[derive(Drop)]
pub struct Keeper {
    store: Box<KeeperParts>,
}

/// What a keeper has.
#[derive(Drop)]
struct KeeperParts {
    /// The answers that are kept.
    cache: Cache,
    /// How many answers were cache hits.
    number: u64,
}

impl Model for Keeper {
    ghost use Rattle.cm_cache.specs.Beside.{CacheContents};

    ghost Value = { CacheContents };

    ghost view = { λ a. record { answers = a.store.value.cache; number = a.store.value.number } };
}

impl Keeper {
    /// The keeper without an answer, beside a history without an entry. `Err` where memory runs out.
    pub fn new(alloc: Global) -> Result<Keeper, Memory>
        ensures { IfOk result (λ made. made ≡ nothing_held) }
    {
        let cache = Cache::new(alloc)?;
        let store = Box::new(alloc, KeeperParts { cache, number: 0 })?;
        Ok(Keeper { store })
    }

    /// How many answers were cache hits.
    pub fn number(&self) -> u64
        ensures { result ≡ self.now.number }
    {
        self.store.number
    }

    /// A copy of the answer that is kept for this use of an instance, or `None`. `Err` where memory
    /// runs out for the copy of one that is kept.
    pub fn recall(&self, inc: u64, path: &CapPath) -> Result<Option<Walked>, Memory>
        ensures found { IfOk result (λ found. found ≡ kept_at self.now.answers inc path.now) }
        ensures kept { OnErr result (IsSome (kept_at self.now.answers inc path.now)) }
    {
        match self.store.cache.get(inc, path) {
            None => Ok(None),
            Some(walked) => Ok(Some(walked.clone()?)),
        }
    }

    /// Goes on over an entry that asks for a use: counts an answer that was there, or keeps a new
    /// one.
    ///
    /// `Err` where memory runs out for a new one, and then all is as before.
    pub fn ask(&mut self, found: CacheLookup) -> Result<(), Memory>
        requires { self.old.number + 1 < 2 ^ 64 }
        ensures ok { OnOk result (self.new ≡ found_by found self.old) }
        ensures fresh { OnErr result (IsTrue (is_new found)) }
        ensures err { OnErr result (self.new ≡ self.old) }
    {
        match found {
            CacheLookup::Again => {
                self.store.number += 1;
                Ok(())
            }
            CacheLookup::New(answer) => {
                let CachedAnswer { inc, path, walked } = answer;
                self.store.cache.put(inc, path, walked)
            }
            CacheLookup::Passing => Ok(()),
        }
    }

    /// Goes on over an entry that asks for no use: forgets all answers where the entry resolves
    /// an instance, where one comes or goes by it, or where it is told that one is doomed by it.
    /// Whether it forgot them is told.
    pub fn follow(&mut self, event: &Event, reply: &Reply, doomed: bool) -> bool
        ensures follows { self.new ≡ followed event.now reply.now doomed self.old }
        ensures forgot { result ≡ is_emptied event.now reply.now doomed }
    {
        let emptied = resolves(event, reply) || comes_or_goes(reply) || doomed;
        if emptied {
            self.store.cache.forget_all();
        }
        emptied
    }
}

/// Whether an entry is the end of an action by which an instance is resolved.
fn resolves(event: &Event, reply: &Reply) -> bool
    ensures { result ≡ keeping.resolves event.now reply.now }
{
    match event {
        Event::End(_, _) => tells_resolved(reply),
        _ => false,
    }
}

/// Whether a reply to the end of an action tells that an instance is resolved.
fn tells_resolved(reply: &Reply) -> bool
    ensures { (a : ℕ) (finish : Finish) → result ≡ keeping.resolves (Event.End a finish) reply.now }
{
    match reply {
        Reply::Ended(Outcome::Resolved) => true,
        _ => false,
    }
}

/// Whether an instance came by an entry with that reply, or instances went.
fn comes_or_goes(reply: &Reply) -> bool
    ensures { result ≡ keeping.comes_or_goes reply.now }
{
    match reply {
        Reply::Created(_) => true,
        Reply::Purged(_) => true,
        _ => false,
    }
}

/// Whether what a walk came to is kept: not where it waits for a declaration, nor a route of more than
/// 64 hops.
fn lasts(walked: &Walked) -> bool
    ensures { result ≡ keeping.is_lasting walked.now }
{
    match walked {
        Walked::Need(_) => false,
        Walked::Given(route) => route.get().hops.len() <= LONGEST,
        _ => true,
    }
}
