//! Caches.

ghost use Rattle.std.specs.Prelude.{◌≡◌, [], ◌++◌, ◌∷◌, ◌<◌, length, None, IsOk, IfOk, OnOk, OnErr};
ghost use Rattle.std.specs.Option.{option_copied};
ghost use Rattle.cm_cache.specs.Answers.{most};
ghost use Rattle.cm_cache.specs.AnswersInside.{kept_at, put_in, answer_of};

use crate::answer::CachedAnswer;
use crate::places;
use crate::places::Paths;
use cm_names::{CapPath, Memory};
use cm_world::Walked;
use std::alloc::Global;
use std::collections::BTreeMap;
use std::marker::Model;

/// How many answers a cache keeps at most.
pub const MOST: usize = 16_384;

/// Answers that are kept, one for each use. Contracts see it as the list of its answers, in the
/// order in which their uses came.
#[derive(Drop)]
pub struct Cache {
    alloc: Global,
    answers: Vec<CachedAnswer>,
    places: BTreeMap<u64, Paths>,
}

impl Model for Cache {
    ghost use Rattle.std.specs.Prelude.{List as Seq};
    ghost use Rattle.cm_cache.specs.declared.answer.CachedAnswer.{CachedAnswer as KeptUses};

    ghost Value = { Seq KeptUses };

    ghost use Rattle.cm_cache.specs.Places.{IsIndexedByUse};

    ghost view = { λ a. a.answers.items };

    ghost invariant = { IsIndexedByUse };
}

impl Cache {
    /// The cache without an answer. It keeps the allocator, and takes no memory yet.
    pub fn new(alloc: Global) -> Result<Cache, Memory>
        ensures ok { IsOk result }
        ensures empty { IfOk result (λ made. made ≡ []) }
    {
        Ok(Cache {
            alloc,
            answers: Vec::new(alloc),
            places: BTreeMap::new(alloc),
        })
    }

    /// The answer that was put last for this use of an instance and hasn't been forgotten, or
    /// `None`.
    pub fn get(&self, inc: u64, path: &CapPath) -> Option<&Walked>
        ensures { option_copied result ≡ kept_at self.now inc path.now }
    {
        match places::find(&self.places, inc, path) {
            None => None,
            Some(place) => Some(&self.answers[place].walked),
        }
    }

    /// Puts an answer for the use of an instance.
    ///
    /// Where an answer of that use is kept, this one takes its place, and memory is never wanted.
    /// Else it joins the others; if there are 16,384 of them, they are all forgotten first.
    ///
    /// `Err` where memory runs out, and then the cache is as before.
    pub fn put(&mut self, inc: u64, path: CapPath, walked: Walked) -> Result<(), Memory>
        ensures ok { OnOk result (self.new ≡ put_in self.old inc path walked) }
        ensures absent { OnErr result (kept_at self.old inc path ≡ None) }
        ensures err { OnErr result (self.new ≡ self.old) }
    {
        match places::find(&self.places, inc, &path) {
            Some(place) => {
                self.answers[place].walked = walked;
                Ok(())
            }
            None => self.add(inc, path, walked),
        }
    }

    /// Forgets all answers; an entry may have changed walks.
    pub fn forget_all(&mut self)
        ensures { self.new ≡ [] }
    {
        self.answers.clear();
        self.places.clear();
    }

    /// Adds the answer to a use of which none is kept.
    fn add(&mut self, inc: u64, path: CapPath, walked: Walked) -> Result<(), Memory>
        requires { kept_at self.old inc path ≡ None }
        ensures ok { OnOk result (self.new ≡ put_in self.old inc path walked) }
        ensures err { OnErr result (self.new ≡ self.old) }
    {
        let count = self.answers.len();
        if count >= MOST {
            return self.begin_with(inc, path, walked);
        }
        self.join(inc, path, walked)
    }

    /// Forgets all answers but this one.
    fn begin_with(&mut self, inc: u64, path: CapPath, walked: Walked) -> Result<(), Memory>
        ensures ok { OnOk result (self.new ≡ answer_of inc path walked ∷ []) }
        ensures err { OnErr result (self.new ≡ self.old) }
    {
        let mut fresh = Cache::new(self.alloc)?;
        fresh.join(inc, path, walked)?;
        *self = fresh;
        Ok(())
    }

    /// Puts the answer to a use of which none is kept after the others.
    fn join(&mut self, inc: u64, path: CapPath, walked: Walked) -> Result<(), Memory>
        requires { kept_at self.old inc path ≡ None }
        ensures ok { OnOk result (self.new ≡ self.old ++ answer_of inc path walked ∷ []) }
        ensures err { OnErr result (self.new ≡ self.old) }
    {
        let key = path.clone()?;
        self.answers.reserve(1)?;
        let place = self.answers.len();
        places::put(self.alloc, &mut self.places, inc, key, place)?;
        self.answers
            .push_reserved(CachedAnswer { inc, path, walked });
        Ok(())
    }
}
