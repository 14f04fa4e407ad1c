//! The check of all routes at and below an instance.

ghost use Rattle.std.specs.Prelude.{◌≡◌, []};
ghost use Rattle.cm_command.specs.declared.command.Command.TheVariants as command;
ghost use Rattle.cm_manager.specs.Asking.{frame_of};
ghost use Rattle.cm_manager.specs.Caller.{CallerPerforms, CallerRuns};
ghost use Rattle.cm_manager.specs.Contract.{IsSamePass};
ghost use Rattle.cm_manager.specs.Doctor.{GathersEach, OfPath, OfRow, Doctors};
ghost use Rattle.cm_manager.specs.DoctorInside.{Adding, Gathering, Surveying};
ghost use Rattle.cm_manager.specs.Gated.{PerformsWith};

use crate::Manager;
use crate::caller::Caller;
use cm_answers::{doctored, found_at, or_memory, route_in, rows_in, with_unresolved};
use cm_gate::Gates;
use cm_names::{CapPath, List, Shared};
use cm_steps::Request;
use cm_turn::Pass;
use cm_world::{Answer, Checked, Entry, Frame, Refusal, SurveyRow, Target};
use std::alloc::Global;
use std::sync::Wait;
use std::thread::Threads;

impl<'a, R: Threads + Wait + Sync, G: Gates> Caller<'a, R, G> {
    /// Surveys the instance of this incarnation and all below it.
    fn try_survey(&mut self, inc: u64) -> Result<Shared<List<SurveyRow>>, Refusal>
        ensures { CallerRuns (λ f c a b. Surveying f c inc a b result) self.old self.new }
    {
        rows_in(self.try_request(inc, Request::Survey))
    }

    /// Puts the line of a path that the instance uses behind the others.
    fn check_path(
        &mut self,
        row: &SurveyRow,
        path: &CapPath,
        lines: List<Checked>,
    ) -> Result<List<Checked>, Refusal>
        ensures { CallerRuns (λ f c a b. Adding (OfPath f c row.now path.now) lines a b result)
            self.old self.new }
    {
        let went = self.try_request(row.inc, Request::Route(path));
        found_at(lines, row, path, route_in(went))
    }

    /// Puts the lines of all paths that the instance uses behind the others. `Err` tells what
    /// ended the call among them: lack of memory, or of room in the history.
    fn check_paths(
        &mut self,
        row: &SurveyRow,
        lines: List<Checked>,
    ) -> Result<List<Checked>, Refusal>
        requires known { let p = self.old.pass in IsSamePass (frame_of p) p p }
        ensures { CallerRuns (λ f c a b.
            Gathering (GathersEach (OfPath f c row.now) row.now.paths) lines a b result) self.old self.new }
    {
        let mut all = lines;
        for path in row.paths.as_slice() {
            all = self.check_path(row, path, all)?;
        }
        Ok(all)
    }

    /// Puts the lines of an instance behind the others: one for each path that it uses, or only
    /// one where it isn't resolved.
    fn check_row(&mut self, row: &SurveyRow, lines: List<Checked>) -> Result<List<Checked>, Refusal>
        requires known { let p = self.old.pass in IsSamePass (frame_of p) p p }
        ensures { CallerRuns (λ f c a b. Adding (OfRow f c row.now) lines a b result) self.old self.new }
    {
        if !row.resolved {
            return or_memory(with_unresolved(lines, row));
        }
        self.check_paths(row, lines)
    }

    /// Gathers the lines of these instances in order. `Err` tells what ended the call among them:
    /// lack of memory, or of room in the history.
    fn check_rows(&mut self, rows: Shared<List<SurveyRow>>) -> Result<List<Checked>, Refusal>
        requires known { let p = self.old.pass in IsSamePass (frame_of p) p p }
        ensures { CallerRuns (λ f c a b. Gathering (GathersEach (OfRow f c) rows) [] a b result)
            self.old self.new }
    {
        let mut all = List::new(self.alloc);
        for row in rows.get().as_slice() {
            all = self.check_row(row, all)?;
        }
        Ok(all)
    }

    /// Checks the routes of the instance of this incarnation, and of all below it.
    fn doctor_at(&mut self, inc: u64) -> Result<Answer, Refusal>
        ensures { CallerRuns (λ f c a b. Doctors f c inc a b result) self.old self.new }
    {
        let rows = self.try_survey(inc)?;
        doctored(self.check_rows(rows))
    }

    /// Finds the instance that a target names, and checks the routes of it and of all below it.
    fn find_and_doctor(&mut self, target: &Target) -> Result<Answer, Refusal>
        ensures { CallerPerforms (command.Doctor target.now) self.old self.new result }
    {
        let inc = self.find_row(target)?;
        self.doctor_at(inc)
    }

    /// Makes the check of the routes at and below the instance that a target names, and gives the permit
    /// back.
    pub(crate) fn doctor(&mut self, target: &Target) -> Result<Answer, Refusal>
        ensures { CallerPerforms (command.Doctor target.now) self.old self.new result }
    {
        let answer = self.find_and_doctor(target);
        self.give_back();
        answer
    }
}

impl Manager {
    /// Checks the routes of all that an instance, and all below it, use: `Doctored` with a line
    /// for each path of each of them that is resolved, by their incarnations and in the order of
    /// their declarations, and one line without a path for each that isn't. It starts nothing.
    ///
    /// A line of a path has its route, or why it has none, as the call `route` tells it:
    ///
    /// - `Gone` where the instance doesn't live any more, or it or one above it is being destroyed;
    /// - `NoSuchUse` in the line of an instance that isn't resolved;
    /// - `NoRoute` with the hop that fails and why, `VoidSource` where it is left out on purpose;
    /// - `SourceShut` where an instance on the way can't be resolved any more;
    /// - `CannotResolve` with the action and its outcome, where a resolve failed.
    ///
    /// The call itself is refused with `Gone` also where the instance, or one above it, is being
    /// destroyed.
    pub fn doctor<R: Threads + Wait + Sync, G: Gates>(
        &self,
        rt: &R,
        alloc: Global,
        pass: Pass<Entry, Frame>,
        gates: &mut G,
        target: &Target,
    ) -> (Pass<Entry, Frame>, Result<Answer, Refusal>)
        requires lock { pass.lock ≡ self.now.turn.lock }
        ensures performs { PerformsWith G.log G.faults self.now.manifests (command.Doctor target.now)
            pass result.0 gates.old gates.new result.1 }
    {
        let mut caller = Caller::new(rt, alloc, self, pass, gates);
        let answer = caller.doctor(target);
        let (pass, _gates) = caller.into_parts();
        (pass, answer)
    }
}
