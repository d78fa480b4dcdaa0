ghost use Rattle.std.specs.Prelude.{◌≡◌, ℕ, IfOk, IfErr, OnOk, OnErr, false, [], replicate, slice_set, ◌↔◌, IsTrue};
ghost use Rattle.job_core.specs.declared.names.JobName.TheVariants.{Logic, Think};
ghost use Rattle.job_core.specs.declared.names.Event.TheVariants.{Ask, Spread, Hold, Finish, Emit};
ghost use Rattle.job_core.specs.Core.{Runs, IsLegal, IsLegalList, IsComplete};
ghost use Rattle.task_board.specs.Boards.{setup_in, state_in, Happens, IsDoneByLogic, IsTaken, IsTakeRefused, GivesJob, IsRefused, IsEmitRefused, IsShown, IsStopped, NoOther};
ghost use Rattle.frame_params.specs.BoardSteps.{IsToldIn};
ghost use Rattle.task_board.specs.HandedIn.{IsHandedIn, IsHandInRefused};
ghost use Rattle.task_board.specs.Dones.{game_done, job_done, IsOtherDone};
ghost use Rattle.task_board.specs.Parked.{IsOtherParked};
ghost use Rattle.task_board.specs.Given.{NothingToShow, NobodyStarts};
ghost use Rattle.job_board.specs.Playing.{IsOwn};

use super::works::Works;
use frame_params::{BoardStep, Parked, Task};
use game_session::Session;
use job_core::names::Event;
use job_scheduler::{BoardFault, OutOfMemory, Settings};
use std::alloc::Global;
use std::marker::Model;
use task_board::{Done, Refused, Shown, TaskBoard};

/// The jobs of a run over a session, handed out as a task board does, or done by the board itself for events that are
/// given. Each call that answers Ok, but for a `take` that gives nothing and a `stop` of a stopped board, does one event,
/// which was legal and is the last of `events` from then on; a call that is refused changes nothing.
pub struct Board<'t> {
    pub(crate) run: TaskBoard<'t>,
    // For each worker the work of the job that it runs, where `apply` has done it.
    pub(crate) works: Works<'t>,
}

impl<'t> Drop for Board<'t> {
    fn drop(self) {
        let Self { run: _, works: _ } = self;
    }
}

impl<'t> Model for Board<'t> {
    ghost use Rattle.std.specs.Prelude.{map, is_some};
    ghost use Rattle.job_board.specs.Playing.{Playing, playing_code};
    ghost use Rattle.job_board.specs.Works.{IsPlaying};

    ghost Value = { Playing };

    ghost coded = { playing_code };

    ghost view = { λ b. record { run = b.run; worked = map is_some b.works.places.items } };

    ghost invariant = { λ b. IsPlaying b.run b.works.places.items };
}

impl<'t> Board<'t> {
    /// A board on which nothing has happened.
    pub fn new(
        alloc: Global,
        session: &'t Session,
        settings: Settings,
    ) -> Result<Board<'t>, OutOfMemory>
        ensures run { IfOk result (λ board. board.run ≡ record { game = session.now; numbers = settings; events = [] }) }
        ensures worked { IfOk result (λ board. board.worked ≡ replicate settings.workers false) }
        ensures own { IfOk result IsOwn }
    {
        let run = TaskBoard::new(alloc, session, settings)?;
        let Ok(works) = Works::new(alloc, settings.workers()) else {
            return Err(OutOfMemory);
        };
        Ok(Board { run, works })
    }

    /// The level and the script that it plays.
    pub fn session(&self) -> &'t Session
        ensures { result.now ≡ self.now.run.game }
    {
        self.run.session()
    }

    /// The numbers that it was opened with.
    pub fn settings(&self) -> Settings
        ensures { result ≡ self.now.run.numbers }
    {
        self.run.settings()
    }

    /// What has happened, in order: a legal list.
    pub fn events(&self) -> &[Event]
        ensures events { result.now ≡ self.now.run.events }
        ensures lawful { IsLegalList (setup_in self.now.run) self.now.run.events }
    {
        self.run.events()
    }

    /// Whether it was stopped, so that nothing happens any more.
    pub fn is_stopped(&self) -> bool
        ensures { result ≡ (state_in self.now.run).stopped }
    {
        self.run.is_stopped()
    }

    /// Whether the events are a complete list.
    pub fn is_done(&self) -> bool
        ensures { IsTrue result ↔ IsComplete (setup_in self.now.run) self.now.run.events }
    {
        self.run.is_done()
    }

    /// A task for an idle worker: of the highest priority that has one, the job whose fiber is ready first, or else the
    /// first new job that may start. None only where the worker can neither start nor resume a job.
    pub fn take(&mut self, worker: u32) -> Result<Option<Task<'t>>, BoardFault>
        ensures ok { IfOk result (IsTaken self.old.run self.new.run worker) }
        ensures worked { OnOk result (self.new.worked ≡ self.old.worked) }
        ensures refused { IfErr result (IsTakeRefused self.old.run worker) }
        ensures unchanged { OnErr result (self.new ≡ self.old) }
    {
        self.run.take(worker)
    }

    /// Whether a `take` by an idle worker would give it a task, or ask for memory: what a worker that sleeps waits for. It
    /// says so too while all workers are busy.
    pub fn may_take(&self) -> bool
        ensures test { IsTrue result ↔ GivesJob self.now.run }
        ensures nobody { result ≡ false → NobodyStarts self.now.run }
    {
        self.run.may_take()
    }

    /// Whether a frame can be shown: an `emit` would show it, or ask for memory.
    pub fn may_show(&self) -> bool
        ensures { IsTrue result ↔ (frame : ℕ) × IsLegal (setup_in self.now.run) (state_in self.now.run) (Emit frame) }
    {
        self.run.may_show()
    }

    /// The worker's Logic, at its start, queues the thinks of its frame and waits for them.
    pub fn spread(&mut self, worker: u32) -> Result<(), BoardFault>
        ensures ok { OnOk result (IsDoneByLogic self.old.run self.new.run (λ f. Spread worker (Logic f))) }
        ensures worked { OnOk result (self.new.worked ≡ slice_set self.old.worked worker false) }
        ensures refused { IfErr result (IsRefused self.old.run worker NoOther (Spread worker)) }
        ensures unchanged { OnErr result (self.new ≡ self.old) }
    {
        self.run.spread(worker)?;
        self.works.clear(worker);
        Ok(())
    }

    /// The worker's Logic, at its start, waits until the frame is shown whose slot it needs.
    pub fn hold(&mut self, worker: u32) -> Result<(), BoardFault>
        ensures ok { OnOk result (IsDoneByLogic self.old.run self.new.run (λ f. Hold worker (Logic f))) }
        ensures worked { OnOk result (self.new.worked ≡ slice_set self.old.worked worker false) }
        ensures refused { IfErr result (IsRefused self.old.run worker NoOther (Hold worker)) }
        ensures unchanged { OnErr result (self.new ≡ self.old) }
    {
        self.run.hold(worker)?;
        self.works.clear(worker);
        Ok(())
    }

    /// The worker's Think asks the question at which its tick stands.
    pub fn ask(&mut self, worker: u32, parked: Parked<'t>) -> Result<(), Refused<Parked<'t>>>
        ensures ok { OnOk result (Happens self.old.run self.new.run (Ask worker (Think parked.entry.frame parked.entry.agent))) }
        ensures own { OnOk result (parked.entry.game ≡ self.old.run.game) }
        ensures next { OnOk result ((state_in self.old.run).phase (Think parked.entry.frame parked.entry.agent) ≡ Runs worker parked.entry.question) }
        ensures worked { OnOk result (self.new.worked ≡ slice_set self.old.worked worker false) }
        ensures refused { IfErr result (λ r. IsRefused self.old.run worker (IsOtherParked parked.entry self.old.run.game) (Ask worker) r.fault) }
        ensures back { IfErr result (λ r. r.value ≡ parked.entry) }
        ensures unchanged { OnErr result (self.new ≡ self.old) }
    {
        self.run.ask(worker, parked)?;
        self.works.clear(worker);
        Ok(())
    }

    /// The same for a tick of a task of this board, whose game is the board's: no sessions are compared.
    pub fn ask_own(&mut self, worker: u32, parked: Parked<'t>) -> Result<(), Refused<Parked<'t>>>
        requires { parked.game ≡ self.old.run.game }
        ensures ok { OnOk result (Happens self.old.run self.new.run (Ask worker (Think parked.entry.frame parked.entry.agent))) }
        ensures next { OnOk result ((state_in self.old.run).phase (Think parked.entry.frame parked.entry.agent) ≡ Runs worker parked.entry.question) }
        ensures worked { OnOk result (self.new.worked ≡ slice_set self.old.worked worker false) }
        ensures refused { IfErr result (λ r. IsRefused self.old.run worker (IsOtherParked parked.entry self.old.run.game) (Ask worker) r.fault) }
        ensures back { IfErr result (λ r. r.value ≡ parked.entry) }
        ensures unchanged { OnErr result (self.new ≡ self.old) }
    {
        self.run.ask_own(worker, parked)?;
        self.works.clear(worker);
        Ok(())
    }

    /// The worker's job is over, with what its work came to.
    pub fn finish(&mut self, worker: u32, done: Done<'t>) -> Result<(), Refused<Done<'t>>>
        ensures ok { OnOk result (Happens self.old.run self.new.run (Finish worker (job_done done.entry))) }
        ensures own { OnOk result (game_done done.entry ≡ self.old.run.game) }
        ensures worked { OnOk result (self.new.worked ≡ slice_set self.old.worked worker false) }
        ensures refused { IfErr result (λ r. IsRefused self.old.run worker (IsOtherDone done.entry self.old.run.game) (Finish worker) r.fault) }
        ensures back { IfErr result (λ r. r.value ≡ done.entry) }
        ensures unchanged { OnErr result (self.new ≡ self.old) }
    {
        self.run.finish(worker, done)?;
        self.works.clear(worker);
        Ok(())
    }

    /// The same for what came of a task of this board, whose game is the board's: no sessions are compared.
    pub fn finish_own(&mut self, worker: u32, done: Done<'t>) -> Result<(), Refused<Done<'t>>>
        requires { game_done done ≡ self.old.run.game }
        ensures ok { OnOk result (Happens self.old.run self.new.run (Finish worker (job_done done.entry))) }
        ensures worked { OnOk result (self.new.worked ≡ slice_set self.old.worked worker false) }
        ensures refused { IfErr result (λ r. IsRefused self.old.run worker (IsOtherDone done.entry self.old.run.game) (Finish worker) r.fault) }
        ensures back { IfErr result (λ r. r.value ≡ done.entry) }
        ensures unchanged { OnErr result (self.new ≡ self.old) }
    {
        self.run.finish_own(worker, done)?;
        self.works.clear(worker);
        Ok(())
    }

    /// Hands in what a worker's task came to: a frame that begins is spread, or held where it has no slot; a Think that
    /// has a question asks it; every other job is over. The step is of the board's own game, as what comes of a task is
    /// that `take` gave: no sessions are compared. Of a drawn band the board gets the mark alone.
    pub fn hand_in(
        &mut self,
        worker: u32,
        step: BoardStep<'t>,
    ) -> Result<(), Refused<BoardStep<'t>>>
        requires { IsToldIn self.old.run.game step }
        ensures ok { OnOk result (IsHandedIn self.old.run self.new.run worker step.entry) }
        ensures worked { OnOk result (self.new.worked ≡ slice_set self.old.worked worker false) }
        ensures refused { IfErr result (λ r. IsHandInRefused self.old.run worker step.entry r.fault) }
        ensures back { IfErr result (λ r. r.value ≡ step.entry) }
        ensures unchanged { OnErr result (self.new ≡ self.old) }
    {
        self.run.hand_in(worker, step)?;
        self.works.clear(worker);
        Ok(())
    }

    /// Shows the next frame, once its logic and all its draws are over.
    pub fn emit(&mut self) -> Result<Shown<'t>, BoardFault>
        ensures ok { IfOk result (IsShown self.old.run self.new.run) }
        ensures worked { OnOk result (self.new.worked ≡ self.old.worked) }
        ensures own { OnOk result (IsOwn self.old → IsOwn self.new) }
        ensures refused { IfErr result (IsEmitRefused self.old.run) }
        ensures unchanged { OnErr result (self.new ≡ self.old) }
    {
        self.run.emit()
    }

    /// Nothing happens any more; a second call changes nothing.
    pub fn stop(&mut self)
        ensures run { IsStopped self.old.run self.new.run }
        ensures worked { self.new.worked ≡ self.old.worked }
    {
        self.run.stop();
    }
}
