//! What was told last of instances, which is told again while nothing changes.

ghost use Rattle.std.specs.Prelude.{◌≡◌, List as Seq, Some, IsTrue, IfOk, IfSome, OnOk, OnErr};
ghost use Rattle.cm_world.specs.declared.row.Row.{Row};
ghost use Rattle.cm_world.specs.Reports as reports;
ghost use Rattle.cm_steps.specs.LastTold.{IsToldNow, nothing_told};

use crate::copies::copied;
use crate::replies::listing::listed;
use crate::replies::surveying::surveyed;
use cm_names::{Boxed, Memory, Name};
use cm_table::Table;
use cm_world::Reply;
use std::alloc::Global;

/// What was replied to a survey.
pub(crate) struct ToldSurvey {
    /// The instance that was asked about.
    pub inc: u64,
    /// The reply.
    pub reply: Reply,
}

impl Drop for ToldSurvey {
    fn drop(self) {
        let ToldSurvey { inc: _, reply: _ } = self;
    }
}

impl ToldSurvey {
    /// The reply, if it was asked about this instance.
    fn reply_at(&self, inc: u64) -> Option<&Reply>
        ensures { IfSome result (λ told. (told.now ≡ self.now.reply) × (self.now.inc ≡ inc)) }
    {
        if self.inc == inc {
            Some(&self.reply)
        } else {
            None
        }
    }
}

/// What was replied to who asked for the children in a collection.
pub(crate) struct ToldList {
    /// The instance that was asked about.
    pub inc: u64,
    /// The collection.
    pub coll: Name,
    /// The reply.
    pub reply: Reply,
}

impl Drop for ToldList {
    fn drop(self) {
        let ToldList {
            inc: _,
            coll: _,
            reply: _,
        } = self;
    }
}

impl ToldList {
    /// The reply, if it was asked about this instance and this collection.
    fn reply_at(&self, inc: u64, coll: &Name) -> Option<&Reply>
        ensures { IfSome result (λ told. (told.now ≡ self.now.reply)
            × (self.now.inc ≡ inc) × (self.now.coll ≡ coll.now)) }
    {
        if self.inc == inc && is_named(&self.coll, coll) {
            Some(&self.reply)
        } else {
            None
        }
    }
}

/// Whether both names are the same.
fn is_named(one: &Name, other: &Name) -> bool
    ensures { IsTrue result → one.now ≡ other.now }
{
    one.as_str() == other.as_str()
}

/// The last survey and the last list of children since the tree changed.
pub(crate) struct LastTold {
    /// The survey, if there was one.
    pub survey: Option<Boxed<ToldSurvey>>,
    /// The list, if there was one.
    pub list: Option<Boxed<ToldList>>,
}

impl Drop for LastTold {
    fn drop(self) {
        let LastTold { survey: _, list: _ } = self;
    }
}

impl LastTold {
    /// Nothing was told.
    pub(crate) fn new() -> LastTold
        ensures { result ≡ nothing_told }
    {
        LastTold {
            survey: None,
            list: None,
        }
    }

    /// The reply to a survey of the instance, if it was the last one.
    fn survey_of(&self, inc: u64) -> Option<&Reply>
        ensures { (rows : Seq Row) → IsToldNow rows self.now
            → IfSome result (λ told. told.now ≡ reports.survey_reply rows inc) }
    {
        match &self.survey {
            None => None,
            Some(told) => told.get().reply_at(inc),
        }
    }

    /// The reply to who asked for the children of the instance in the collection, if it was the last
    /// one.
    fn list_of(&self, inc: u64, coll: &Name) -> Option<&Reply>
        ensures { (rows : Seq Row) → IsToldNow rows self.now
            → IfSome result (λ told. told.now ≡ reports.list_reply rows inc coll.now) }
    {
        match &self.list {
            None => None,
            Some(told) => told.get().reply_at(inc, coll),
        }
    }

    /// Keeps a copy of the reply to a survey. `Err` where memory runs out.
    fn keep_survey(&mut self, alloc: Global, inc: u64, reply: &Reply) -> Result<(), Memory>
        ensures ok { let survey = Some (record { inc = inc; reply = reply.now }) in
            OnOk result (self.new ≡ record self.old { survey = survey }) }
        ensures err { OnErr result (self.new ≡ self.old) }
    {
        let reply = copied(reply)?;
        self.survey = Some(Boxed::new(alloc, ToldSurvey { inc, reply })?);
        Ok(())
    }

    /// Keeps a copy of the reply to who asked for children. `Err` where memory runs out.
    fn keep_list(
        &mut self,
        alloc: Global,
        inc: u64,
        coll: &Name,
        reply: &Reply,
    ) -> Result<(), Memory>
        ensures ok { let list = Some (record { inc = inc; coll = coll.now; reply = reply.now }) in
            OnOk result (self.new ≡ record self.old { list = list }) }
        ensures err { OnErr result (self.new ≡ self.old) }
    {
        let reply = copied(reply)?;
        let coll = copied(coll)?;
        self.list = Some(Boxed::new(alloc, ToldList { inc, coll, reply })?);
        Ok(())
    }
}

/// What is replied to who asks how an instance and all below it are: a copy of what was told last,
/// where it was the same. `Err` where memory runs out.
pub(crate) fn survey_told(
    alloc: Global,
    table: &Table,
    last: &mut LastTold,
    inc: u64,
) -> Result<Reply, Memory>
    requires { IsToldNow table.now.rows last.old }
    ensures reply { IfOk result (λ reply. reply ≡ reports.survey_reply table.now.rows inc) }
    ensures told { IsToldNow table.now.rows last.new }
{
    if let Some(told) = last.survey_of(inc) {
        return copied(told);
    }
    let reply = surveyed(alloc, table, inc)?;
    last.keep_survey(alloc, inc, &reply)?;
    Ok(reply)
}

/// What is replied to who asks for the children of an instance in a collection: a copy of what was
/// told last, where it was the same. `Err` where memory runs out.
pub(crate) fn list_told(
    alloc: Global,
    table: &Table,
    last: &mut LastTold,
    inc: u64,
    coll: &Name,
) -> Result<Reply, Memory>
    requires { IsToldNow table.now.rows last.old }
    ensures reply { IfOk result (λ reply. reply ≡ reports.list_reply table.now.rows inc coll.now) }
    ensures told { IsToldNow table.now.rows last.new }
{
    if let Some(told) = last.list_of(inc, coll) {
        return copied(told);
    }
    let reply = listed(alloc, table, inc, coll)?;
    last.keep_list(alloc, inc, coll, &reply)?;
    Ok(reply)
}
