ghost use Rattle.std.specs.Prelude.{◌≡◌, ◌↔◌, ◌+◌, ◌<◌, ◌≤◌, ℕ, MatchResult, MatchOption, IfOk, IfErr, IfSome, OnOk, OnErr, IsTrue, IsSomeAnd, count_by, option_map, [], None, Some};
ghost use Rattle.std.specs.Coded.{Coded-set, coded_option};
ghost use Rattle.game_rules.specs.Game.{Game};
ghost use Rattle.game_session.specs.GameCode.{game_code};
ghost use Rattle.job_core.specs.Core.{IsComplete, IsLegal};
ghost use Rattle.job_core.specs.Draws.{ends_draw};
ghost use Rattle.job_core.specs.declared.names.Event.TheVariants.{Emit};
ghost use Rattle.job_scheduler.specs.Numbers.{Numbers};
ghost use Rattle.frame_params.specs.BoardSteps.{IsToldIn};
ghost use Rattle.frame_params.specs.Leases.{IsLeaseOf};
ghost use Rattle.task_board.specs.Boards.{setup_in, state_in, GivesJob, IsTaken, IsTakeRefused, IsShown, IsEmitRefused, IsStopped};
ghost use Rattle.task_board.specs.HandedIn.{IsHandedIn, IsHandInRefused};
ghost use Rattle.task_board.specs.Setups.{setup_for};
ghost use Rattle.run_shared.specs.Counts.{names_worker, is_emit, draws_ended};
ghost use Rattle.run_shared.specs.Holds.{IsDone};

use crate::ledger::RunLedger;
use crate::run_task::RunTask;
use frame_params::{BoardStep, Lease};
use std::marker::Model;
use std::sync::ledger::{Book, Ledger, Share};
use task_board::{BoardFault, Event, Retired, Shown, TaskBoard};

/// The board of a run with three books: one of its events that name a worker, one of those that show a frame, one of those
/// that end a Draw. Each call that makes an event happen makes one, and adds one to a share of the thread that calls it, or to
/// two where a Draw ends; a call that is refused changes nothing. What changes it or looks at it is for a `Hold` alone.
#[derive(Drop)]
pub struct SharedBoard<'t, L: RunLedger, M: Ledger, D: Ledger> {
    board: TaskBoard<'t>,
    named: Book<L>,
    emitted: Book<M>,
    drawn: Book<D>,
    ghost game_is: { L.game ≡ Some board.game } by { Coded-set (coded_option game_code) L.game (Some board.game) },
    ghost numbers_are: { L.numbers ≡ Some board.numbers },
    ghost named_is: { named.total ≡ count_by names_worker board.events },
    ghost emitted_is: { emitted.total ≡ count_by is_emit board.events },
    ghost drawn_is: { drawn.total ≡ count_by ends_draw board.events },
}

impl<'t, L: RunLedger, M: Ledger, D: Ledger> Model for SharedBoard<'t, L, M, D> {
    ghost use Rattle.task_board.specs.Boards.{Played};
    ghost use Rattle.task_board.specs.BoardCode.{played_code};

    ghost Value = { Played };

    ghost coded = { played_code };

    ghost view = { λ b. b.board };
}

/// How many Draws end with what a board is told.
#[inline(always)]
pub fn draws_in(step: &BoardStep<'_>) -> u64
    ensures { result ≡ draws_ended step.now }
{
    match step {
        BoardStep::Draw(_) => 1,
        BoardStep::Logic(_) => 0,
        BoardStep::Think(_) => 0,
        BoardStep::Path(_) => 0,
    }
}

impl<'t, L: RunLedger, M: Ledger, D: Ledger> SharedBoard<'t, L, M, D> {
    /// A board on which nothing has happened, with empty books.
    pub fn new(
        board: TaskBoard<'t>,
        named: Book<L>,
        emitted: Book<M>,
        drawn: Book<D>,
    ) -> SharedBoard<'t, L, M, D>
        requires run { (L.game ≡ Some board.game) × (L.numbers ≡ Some board.numbers) }
        requires log { board.events ≡ [] }
        requires books { (named.total ≡ 0) × (emitted.total ≡ 0) × (drawn.total ≡ 0) }
        ensures { result ≡ board.entry }
    {
        SharedBoard {
            board,
            named,
            emitted,
            drawn,
        }
    }

    /// Takes a task for an idle worker, made out of its lease where that has its frame. None where it can neither start nor
    /// resume a job.
    #[inline(always)]
    pub(crate) fn take(
        &mut self,
        worker: u32,
        lease: &mut Lease<'t>,
        mine: &mut Share<L>,
    ) -> Result<Option<RunTask<'t, L>>, BoardFault>
        requires lease { IsSomeAnd L.game (λ g. IsLeaseOf g lease.old) }
        requires part { 0 < mine.old.parts }
        ensures taken { IfOk result (λ t. IsTaken self.old self.new worker (option_map (λ r. r.task) t)) }
        ensures refused { IfErr result (IsTakeRefused self.old worker) }
        ensures unchanged { OnErr result (self.new ≡ self.old) }
        ensures parts { mine.new.parts ≡ mine.old.parts }
        ensures lease { IsSomeAnd L.game (λ g. IsLeaseOf g lease.new) }
        ensures counted { MatchResult result (λ t. MatchOption t (mine.new.amount ≡ mine.old.amount) (λ _. mine.new.amount ≡ mine.old.amount + 1)) (λ _. mine.new.amount ≡ mine.old.amount) }
    {
        match self.board.take_leased(worker, lease) {
            Ok(Some(task)) => {
                self.named.add(mine, 1);
                Ok(Some(RunTask::new(task)))
            }
            Ok(None) => Ok(None),
            Err(fault) => Err(fault),
        }
    }

    /// Hands in what the work of a worker's job came to. At a Logic's beginning its thinks are spread, or it holds where
    /// that is illegal.
    #[inline(always)]
    pub(crate) fn hand_in(
        &mut self,
        worker: u32,
        step: BoardStep<'t>,
        mine: &mut Share<L>,
        draws: &mut Share<D>,
    ) -> Result<(), BoardFault>
        requires own { IsSomeAnd L.game (λ g. IsToldIn g step) }
        requires part { (0 < mine.old.parts) × (0 < draws.old.parts) }
        ensures handed_in { OnOk result (IsHandedIn self.old self.new worker step.entry) }
        ensures refused { IfErr result (IsHandInRefused self.old worker step.entry) }
        ensures unchanged { OnErr result (self.new ≡ self.old) }
        ensures parts { (mine.new.parts ≡ mine.old.parts) × (draws.new.parts ≡ draws.old.parts) }
        ensures counted { MatchResult result (λ _. mine.new.amount ≡ mine.old.amount + 1) (λ _. mine.new.amount ≡ mine.old.amount) }
        ensures drawn { MatchResult result (λ _. draws.new.amount ≡ draws.old.amount + draws_ended step.entry) (λ _. draws.new.amount ≡ draws.old.amount) }
    {
        let ended = draws_in(&step);
        let SharedBoard {
            board,
            named,
            drawn,
            ..
        } = self;
        match board.hand_in(worker, step) {
            Ok(()) => {
                named.add(mine, 1);
                drawn.add(draws, ended);
                Ok(())
            }
            Err(refused) => Err(refused.fault),
        }
    }

    /// Takes out what the last events have left over, to be let go with the lock free.
    #[inline(always)]
    pub(crate) fn take_retired(&mut self) -> Retired<'t>
        ensures { self.new ≡ self.old }
    {
        self.board.take_retired()
    }

    /// Shows the next frame. Whoever holds the whole share of frames knows which one that is.
    pub(crate) fn emit(&mut self, mine: &mut Share<M>) -> Result<Shown<'t>, BoardFault>
        requires mine { (mine.old.parts ≡ M.parts) × (0 < M.parts) }
        ensures shown { IfOk result (IsShown self.old self.new) }
        ensures refused { IfErr result (IsEmitRefused self.old) }
        ensures unchanged { OnErr result (self.new ≡ self.old) }
        ensures parts { mine.new.parts ≡ mine.old.parts }
        ensures counted { MatchResult result (λ _. mine.new.amount ≡ mine.old.amount + 1) (λ _. mine.new.amount ≡ mine.old.amount) }
        ensures next { IfOk result (λ shown. shown.frame ≡ mine.old.amount + 1) }
        ensures game { IfOk result (λ shown. L.game ≡ Some shown.game) }
        ensures within { IfOk result (λ shown. IsSomeAnd L.numbers (λ n. shown.frame ≤ n.frames)) }
    {
        let SharedBoard { board, emitted, .. } = self;
        emitted.audit(mine);
        match board.emit() {
            Ok(shown) => {
                emitted.add(mine, 1);
                Ok(shown)
            }
            Err(fault) => Err(fault),
        }
    }

    /// Nothing happens any more; a second call changes nothing.
    pub(crate) fn stop(&mut self)
        ensures { IsStopped self.old self.new }
    {
        self.board.stop();
    }

    /// The board, to be looked at.
    #[inline(always)]
    pub(crate) fn board(&self) -> &TaskBoard<'t>
        ensures { result.now ≡ self.now }
    {
        &self.board
    }

    /// The events, once all shares are joined; None where they are not a complete list.
    pub fn into_events(
        self,
        all: &mut Share<L>,
        emits: &mut Share<M>,
        draws: &mut Share<D>,
    ) -> Option<Vec<Event>>
        requires whole { (all.old.parts ≡ L.parts) × (emits.old.parts ≡ M.parts) × (draws.old.parts ≡ D.parts) }
        ensures complete { IfSome result (λ events. (g : Game) (n : Numbers) → L.game ≡ Some g → L.numbers ≡ Some n → IsComplete (setup_for g n) events.items) }
        ensures none { result ≡ None → IsDone self.entry → ⊥ }
        ensures named { IfSome result (λ events. count_by names_worker events.items ≡ all.old.amount) }
        ensures emitted { IfSome result (λ events. count_by is_emit events.items ≡ emits.old.amount) }
        ensures drawn { IfSome result (λ events. count_by ends_draw events.items ≡ draws.old.amount) }
    {
        let SharedBoard {
            board,
            mut named,
            mut emitted,
            mut drawn,
        } = self;
        named.audit(all);
        emitted.audit(emits);
        drawn.audit(draws);
        if board.is_done() {
            return Some(board.into_events());
        }
        None
    }
}
