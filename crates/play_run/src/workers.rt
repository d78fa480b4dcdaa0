ghost use Rattle.std.specs.Prelude.{◌≡◌, ◌+◌, ◌<◌, ◌≤◌, ℕ, true, get_or, length, vec_len, vec_capacity, Some, None, IfSome};
ghost use Rattle.band_mail.specs.Mails.{IsPutterOf, ArePuttersOf};
ghost use Rattle.play_run.specs.Puts.{bands_put};

use band_mail::{BandMail, Putter};
use game_session::Session;
use run_shared::{Cause, RunBand, RunLedger, Shared, Worked};
use run_worker::{Gate, work};
use std::alloc::Global;
use std::sync::Wait;
use std::sync::ledger::{Ledger, Share};
use std::thread::{Promise, PromisedHandle, Scope, Threads};

/// The promise that a worker's thread hands back this worker's Putter of this mail.
#[derive_where(Clone, Copy)]
pub struct HandsBack<'m, 't, L: RunLedger> {
    pub mail: &'m BandMail<RunBand<'t, L>>,
    pub worker: u32,
}

impl<'m, 't, L: RunLedger, D: Ledger> Promise<Worked<'t, L, D>> for HandsBack<'m, 't, L> {
    ghost use Rattle.std.specs.Prelude.{◌≡◌};
    ghost use Rattle.band_mail.specs.Mails.{IsPutterOf};

    ghost kept_by = { λ p r. IsPutterOf p.mail.now r.putter × (r.putter.worker ≡ p.worker) };
}

/// The handle of a worker's thread, with the promise of what it hands back once it is joined.
pub type WorkerHandle<'m, 't, L, D> = PromisedHandle<Worked<'t, L, D>, HandsBack<'m, 't, L>>;

/// What a worker's thread starts with: what all share, its own shares, and its Putter.
#[derive(Drop)]
pub struct WorkerStart<'h, 't, L: RunLedger, M: Ledger, D: Ledger> {
    pub shared: &'h Shared<'t, L, M, D>,
    pub share: Share<L>,
    pub draws: Share<D>,
    pub putter: Putter<RunBand<'t, L>>,
}

// A worker's thread.
fn work_from<'h, 't, L: RunLedger, M: Ledger, D: Ledger, G: Gate, R: Wait>(
    rt: &R,
    alloc: Global,
    session: &Session,
    start: WorkerStart<'h, 't, L, M, D>,
    gate: &G,
    worker: u32,
) -> Worked<'t, L, D>
    requires run { L.game ≡ Some session.now }
    requires part { (start.share.parts ≡ 1) × (start.draws.parts ≡ 1) }
    requires putter { IsPutterOf start.shared.now.mail start.putter }
    requires told { length start.putter.put ≤ start.draws.amount }
    ensures { IsPutterOf start.entry.shared.now.mail result.putter × (result.putter.worker ≡ start.entry.putter.worker) }
{
    let WorkerStart {
        shared,
        share,
        draws,
        putter,
    } = start;
    work(
        rt, alloc, session, shared, gate, worker, share, draws, putter,
    )
}

// Starts a worker's thread. None where it could not be started.
#[tactic(auto, using(crate::proofs::Leaving::shared_lent, crate::proofs::Leaving::session_sync))]
fn spawn<'s, 't, E, L, M, D, G, R>(
    scope: &Scope<'s, E>,
    rt: &'s R,
    alloc: Global,
    session: &'s Session,
    shared: &'s Shared<'t, L, M, D>,
    gate: &'s G,
    worker: u32,
    share: Share<L>,
    draws: Share<D>,
    putter: Putter<RunBand<'t, L>>,
) -> Option<WorkerHandle<'s, 't, L, D>>
where
    L: RunLedger + Send + Sync + 's,
    M: Ledger + Send + Sync + 's,
    D: Ledger + Send + Sync + 's,
    G: Gate,
    R: Threads + Wait + Sync,
    't: 's,
    requires run { L.game ≡ Some session.now }
    requires part { (share.parts ≡ 1) × (draws.parts ≡ 1) }
    requires putter { IsPutterOf shared.now.mail putter × (putter.worker ≡ worker) }
    requires told { length putter.put ≤ draws.amount }
    ensures handle { IfSome result (λ h. (h.promise.mail.now ≡ shared.now.mail) × (h.promise.worker ≡ worker)) }
{
    let start = WorkerStart {
        shared,
        share,
        draws,
        putter,
    };
    let job = move || -> Worked<L, D>
        requires run { L.game ≡ Some session.now }
        requires part { (start.share.parts ≡ 1) × (start.draws.parts ≡ 1) }
        requires putter { IsPutterOf start.shared.now.mail start.putter }
        requires told { length start.putter.put ≤ start.draws.amount }
        ensures { IsPutterOf start.entry.shared.now.mail result.putter × (result.putter.worker ≡ start.entry.putter.worker) }
    { work_from(rt, alloc, session, start, gate, worker) };
    let mail = &shared.mail;
    scope.spawn_with(HandsBack { mail, worker }, job).ok()
}

/// Starts a thread for each Putter, the last worker's first. False, with the board stopped, where one could not be started.
pub fn spawn_all<'s, 't, E, L, M, D, G, R>(
    scope: &Scope<'s, E>,
    rt: &'s R,
    alloc: Global,
    session: &'s Session,
    shared: &'s Shared<'t, L, M, D>,
    gate: &'s G,
    all: &mut Share<L>,
    draws: &mut Share<D>,
    putters: &mut Vec<Putter<RunBand<'t, L>>>,
    handles: &mut Vec<WorkerHandle<'s, 't, L, D>>,
) -> bool
where
    L: RunLedger + Send + Sync + 's,
    M: Ledger + Send + Sync + 's,
    D: Ledger + Send + Sync + 's,
    G: Gate,
    R: Threads + Wait + Sync,
    't: 's,
    requires run { L.game ≡ Some session.now }
    requires parts { (all.old.parts ≡ vec_len putters.old + 1) × (draws.old.parts ≡ vec_len putters.old + 1) }
    requires putters { ArePuttersOf shared.now.mail putters.old.items }
    requires nothing_put { bands_put putters.old.items ≡ 0 }
    requires room { (vec_len handles.old ≡ 0) × (vec_len putters.old ≤ vec_capacity handles.old) }
    ensures parts { result ≡ true → (all.new.parts ≡ 1) × (draws.new.parts ≡ 1) }
    ensures putters { result ≡ true → (vec_len putters.new ≡ 0) × (vec_capacity putters.new ≡ vec_capacity putters.old) }
    ensures many { result ≡ true → vec_len handles.new ≡ vec_len putters.old }
    ensures handles { (k : ℕ) (h : _) → k < vec_len handles.new → ((get_or handles.new.items k h).promise.mail.now ≡ shared.now.mail) × ((get_or handles.new.items k h).promise.worker + k + 1 ≡ vec_len putters.old) }
{
    while let Some(putter) = putters.pop() {
        let worker = putters.len() as u32;
        let share = all.split_off(1, 0);
        let drawn = draws.split_off(1, 0);
        match spawn(
            scope, rt, alloc, session, shared, gate, worker, share, drawn, putter,
        ) {
            Some(handle) => handles.push_reserved(handle),
            None => {
                shared.stop(rt);
                return false;
            }
        }
    }
    true
}

// The lower of two causes.
fn lower(a: Option<Cause>, b: Option<Cause>) -> Option<Cause>
    ensures { result ≡ None → (a ≡ None) × (b ≡ None) }
{
    match (a, b) {
        (Some(x), Some(y)) => Some(x.lower(y)),
        (Some(x), None) => Some(x),
        (None, y) => y,
    }
}

/// Joins the threads where not all could be started. The lowest of the causes that they met.
pub fn join_some<'t, L: RunLedger, D: Ledger, R: Threads>(
    rt: &R,
    handles: &mut Vec<WorkerHandle<'_, 't, L, D>>,
) -> Option<Cause> {
    let mut cause = None;
    while let Some(handle) = handles.pop() {
        cause = lower(cause, handle.join(rt).fault);
    }
    cause
}

/// Joins the threads, the first worker's first, so that the Putters come back in the order of their workers, and puts their
/// shares together. The lowest of the causes that they met. Where they met none, the board was told of all that they put.
pub fn join_all<'t, L: RunLedger, D: Ledger, R: Threads>(
    rt: &R,
    mail: &BandMail<RunBand<'t, L>>,
    handles: &mut Vec<WorkerHandle<'_, 't, L, D>>,
    putters: &mut Vec<Putter<RunBand<'t, L>>>,
    all: &mut Share<L>,
    draws: &mut Share<D>,
) -> Option<Cause>
    requires handles { (k : ℕ) (h : _) → k < vec_len handles.old → ((get_or handles.old.items k h).promise.mail.now ≡ mail.now) × ((get_or handles.old.items k h).promise.worker + k + 1 ≡ vec_len handles.old) }
    requires room { (vec_len putters.old ≡ 0) × (vec_len handles.old ≤ vec_capacity putters.old) }
    ensures putters { (vec_len putters.new ≡ vec_len handles.old) × ArePuttersOf mail.now putters.new.items }
    ensures parts { (all.new.parts ≡ all.old.parts + vec_len handles.old) × (draws.new.parts ≡ draws.old.parts + vec_len handles.old) }
    ensures told { result ≡ None → bands_put putters.new.items ≤ draws.new.amount }
{
    let mut cause = None;
    while let Some(handle) = handles.pop() {
        let Worked {
            share,
            draws: drawn,
            putter,
            fault,
        } = handle.join(rt);
        all.merge(share);
        draws.merge(drawn);
        putters.push_reserved(putter);
        cause = lower(cause, fault);
    }
    cause
}
