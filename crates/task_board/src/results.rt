ghost use Rattle.std.specs.Prelude.{◌≡◌, IfOk, IfErr, OnOk, OnErr};
ghost use Rattle.job_core.specs.declared.names.JobName.TheVariants.{Think};
ghost use Rattle.job_core.specs.declared.names.Event.TheVariants.{Ask, Finish};
ghost use Rattle.job_core.specs.Core.{Runs, IsLegal};
ghost use Rattle.job_scheduler.specs.declared.board_fault.BoardFault.TheVariants.{OutOfMemory};
ghost use Rattle.task_board.specs.Boards.{setup_in, state_in, Happens, IsRefused, IsEmitRefused, IsShown, IsStopped};
ghost use Rattle.task_board.specs.Dones.{game_done, job_done, IsOtherDone};
ghost use Rattle.task_board.specs.Parked.{IsOtherParked};

use super::board::TaskBoard;
use super::fitting::{is_of, is_parked_at};
use super::refused::Refused;
use crate::done::Done;
use crate::frame_store::next_of;
use crate::shown::Shown;
use frame_params::Parked;
use job_scheduler::BoardFault;

// The calls that hand a result in, and those that hand one out.
impl<'t> TaskBoard<'t> {
    /// The worker's Think asks the question at which its tick stands.
    pub fn ask(&mut self, worker: u32, parked: Parked<'t>) -> Result<(), Refused<Parked<'t>>>
        ensures ok { OnOk result (Happens self.old self.new (Ask worker (Think parked.entry.frame parked.entry.agent))) }
        ensures own { OnOk result (parked.entry.game ≡ self.old.game) }
        ensures next { OnOk result ((state_in self.old).phase (Think parked.entry.frame parked.entry.agent) ≡ Runs worker parked.entry.question) }
        ensures refused { IfErr result (λ r. IsRefused self.old worker (IsOtherParked parked.entry self.old.game) (Ask worker) r.fault) }
        ensures back { IfErr result (λ r. r.value ≡ parked.entry) }
        ensures unchanged { OnErr result (self.new ≡ self.old) }
    {
        match self.jobs.running(worker) {
            Ok(_) => {}
            Err(fault) => {
                return Err(Refused {
                    fault,
                    value: parked,
                });
            }
        }
        if !parked.session().is_same(self.session) {
            return Err(Refused {
                fault: BoardFault::WrongResult,
                value: parked,
            });
        }
        self.ask_own(worker, parked)
    }

    /// The same for a tick of a task of this board, whose game is the board's: no sessions are compared.
    #[inline(always)]
    pub fn ask_own(&mut self, worker: u32, parked: Parked<'t>) -> Result<(), Refused<Parked<'t>>>
        requires { parked.game ≡ self.old.game }
        ensures ok { OnOk result (Happens self.old self.new (Ask worker (Think parked.entry.frame parked.entry.agent))) }
        ensures next { OnOk result ((state_in self.old).phase (Think parked.entry.frame parked.entry.agent) ≡ Runs worker parked.entry.question) }
        ensures refused { IfErr result (λ r. IsRefused self.old worker (IsOtherParked parked.entry self.old.game) (Ask worker) r.fault) }
        ensures back { IfErr result (λ r. r.value ≡ parked.entry) }
        ensures unchanged { OnErr result (self.new ≡ self.old) }
    {
        let held = match self.jobs.running(worker) {
            Ok(held) => held,
            Err(fault) => {
                return Err(Refused {
                    fault,
                    value: parked,
                });
            }
        };
        if !is_parked_at(&parked, held) {
            return Err(Refused {
                fault: BoardFault::WrongResult,
                value: parked,
            });
        }
        match self.park(worker, parked) {
            Ok(()) => Ok(()),
            Err(value) => Err(Refused {
                fault: BoardFault::OutOfMemory,
                value,
            }),
        }
    }

    /// A Think asks the question at which its tick stands; refused for memory alone.
    #[inline(always)]
    pub fn park(&mut self, worker: u32, parked: Parked<'t>) -> Result<(), Parked<'t>>
        requires legal { IsLegal (setup_in self.old) (state_in self.old) (Ask worker (Think parked.frame parked.agent)) }
        requires runs { (state_in self.old).phase (Think parked.frame parked.agent) ≡ Runs worker parked.question }
        requires game { parked.game ≡ self.old.game }
        ensures ok { OnOk result (Happens self.old self.new (Ask worker (Think parked.entry.frame parked.entry.agent))) }
        ensures back { IfErr result (λ back. back ≡ parked.entry) }
        ensures unchanged { OnErr result (self.new ≡ self.old) }
    {
        let frame = parked.frame();
        let agent = parked.agent();
        let question = parked.question();
        // A tick asks at most as often as its tree has nodes.
        let nodes = self.session.tree_of(agent).size();
        prove!(u64::from(question) < nodes);
        let Ok(()) = self.jobs.ask(worker, frame, agent, question) else {
            return Err(parked);
        };
        self.frame_store.park(agent, parked);
        Ok(())
    }

    /// The worker's job is over, with what its work came to.
    pub fn finish(&mut self, worker: u32, done: Done<'t>) -> Result<(), Refused<Done<'t>>>
        ensures ok { OnOk result (Happens self.old self.new (Finish worker (job_done done.entry))) }
        ensures own { OnOk result (game_done done.entry ≡ self.old.game) }
        ensures refused { IfErr result (λ r. IsRefused self.old worker (IsOtherDone done.entry self.old.game) (Finish worker) r.fault) }
        ensures back { IfErr result (λ r. r.value ≡ done.entry) }
        ensures unchanged { OnErr result (self.new ≡ self.old) }
    {
        match self.jobs.running(worker) {
            Ok(_) => {}
            Err(fault) => return Err(Refused { fault, value: done }),
        }
        if !done.session().is_same(self.session) {
            return Err(Refused {
                fault: BoardFault::WrongResult,
                value: done,
            });
        }
        self.finish_own(worker, done)
    }

    // Whether this is the end of the worker's job, which may be over. Memory is all else that may be wanting.
    #[inline(always)]
    fn may_end(&self, worker: u32, done: &Done<'t>) -> Result<(), BoardFault>
        requires { game_done done.now ≡ self.now.game }
        ensures legal { OnOk result (IsLegal (setup_in self.now) (state_in self.now) (Finish worker (job_done done.now))) }
        ensures full { OnOk result (IsRefused self.now worker (IsOtherDone done.now self.now.game) (Finish worker) OutOfMemory) }
        ensures refused { IfErr result (IsRefused self.now worker (IsOtherDone done.now self.now.game) (Finish worker)) }
    {
        let held = self.jobs.running(worker)?;
        if !is_of(done, held.job) {
            return Err(BoardFault::WrongResult);
        }
        if !done.is_at(held.step) {
            return Err(BoardFault::Illegal);
        }
        Ok(())
    }

    /// The same for what came of a task of this board, whose game is the board's: no sessions are compared.
    #[inline(always)]
    pub fn finish_own(&mut self, worker: u32, done: Done<'t>) -> Result<(), Refused<Done<'t>>>
        requires { game_done done ≡ self.old.game }
        ensures ok { OnOk result (Happens self.old self.new (Finish worker (job_done done.entry))) }
        ensures refused { IfErr result (λ r. IsRefused self.old worker (IsOtherDone done.entry self.old.game) (Finish worker) r.fault) }
        ensures back { IfErr result (λ r. r.value ≡ done.entry) }
        ensures unchanged { OnErr result (self.new ≡ self.old) }
    {
        match self.may_end(worker, &done) {
            Ok(()) => {}
            Err(fault) => return Err(Refused { fault, value: done }),
        }
        match self.end(worker, done) {
            Ok(()) => Ok(()),
            Err(value) => Err(Refused {
                fault: BoardFault::OutOfMemory,
                value,
            }),
        }
    }

    /// A job is over; refused for memory alone.
    #[inline(always)]
    pub fn end(&mut self, worker: u32, done: Done<'t>) -> Result<(), Done<'t>>
        requires legal { IsLegal (setup_in self.old) (state_in self.old) (Finish worker (job_done done)) }
        requires game { game_done done ≡ self.old.game }
        ensures ok { OnOk result (Happens self.old self.new (Finish worker (job_done done.entry))) }
        ensures back { IfErr result (λ back. back ≡ done.entry) }
        ensures unchanged { OnErr result (self.new ≡ self.old) }
    {
        let mut done = done;
        let Ok(next) = next_of(self.alloc, &mut done) else {
            return Err(done);
        };
        let Ok(()) = self.jobs.finish(worker, done.name()) else {
            return Err(done);
        };
        self.frame_store.keep(done, next);
        Ok(())
    }

    /// Shows the next frame, once its logic and all its draws are over.
    pub fn emit(&mut self) -> Result<Shown<'t>, BoardFault>
        ensures ok { IfOk result (IsShown self.old self.new) }
        ensures refused { IfErr result (IsEmitRefused self.old) }
        ensures unchanged { OnErr result (self.new ≡ self.old) }
    {
        let frame = self.jobs.to_emit()?;
        let Ok(()) = self.jobs.emit(frame) else {
            return Err(BoardFault::OutOfMemory);
        };
        Ok(self.frame_store.show(frame))
    }

    /// Nothing happens any more; a second call changes nothing.
    pub fn stop(&mut self)
        ensures { IsStopped self.old self.new }
    {
        if self.jobs.is_stopped() {
            return;
        }
        self.jobs.stop();
    }
}
