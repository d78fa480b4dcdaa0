//! A thread for each worker, and its Putter back.
ghost use Rattle.std.specs.Prelude.{◌≡◌, ◌<◌, ◌≤◌, ◌+◌, ℕ, IsTrue, get_or, vec_len, vec_capacity};
ghost use Rattle.band_mail.specs.Mails.{IsPutterOf, ArePuttersOf};

use band_mail::{BandMail, Putter};
use std::sync::Wait;
use std::thread;
use std::thread::{Promise, PromisedHandle, Scope, Threads};

/// What a worker's thread hands back: the Putter of this worker of this mail.
#[derive(Clone, Copy)]
pub struct SeatOf<'m> {
    pub mail: &'m BandMail<u32>,
    pub worker: u32,
}

impl<'m> Promise<Putter<u32>> for SeatOf<'m> {
    ghost use Rattle.std.specs.Prelude.{◌≡◌};
    ghost use Rattle.band_mail.specs.Mails.{IsPutterOf};

    ghost kept_by = { λ p r. IsPutterOf p.mail.now r × (r.worker ≡ p.worker) };
}

pub type Seat<'m> = PromisedHandle<Putter<u32>, SeatOf<'m>>;

/// Puts the numbers below the count, each again until there is room for it.
pub fn put_all<R: Wait>(
    rt: &R,
    mail: &BandMail<u32>,
    mut putter: Putter<u32>,
    count: u32,
) -> Putter<u32>
    requires { IsPutterOf mail.now putter }
    ensures { IsPutterOf mail.now result × (result.worker ≡ putter.worker) }
{
    for band in 0..count {
        for _ in rt.forever() {
            match mail.put(rt, &mut putter, band) {
                Ok(()) => break,
                Err(_) => thread::yield_now(),
            }
        }
    }
    putter
}

/// Starts a thread for each Putter, the last worker's first. It answers false where one could not be started.
pub fn hire<'s, E, R: Threads + Wait + Sync>(
    scope: &Scope<'s, E>,
    rt: &'s R,
    mail: &'s BandMail<u32>,
    count: u32,
    putters: &mut Vec<Putter<u32>>,
    crew: &mut Vec<Seat<'s>>,
) -> bool
    requires putters { ArePuttersOf mail.now putters.old.items }
    requires room { (vec_len crew.old ≡ 0) × (vec_len putters.old ≤ vec_capacity crew.old) }
    ensures putters { IsTrue result → (vec_len putters.new ≡ 0) × (vec_capacity putters.new ≡ vec_capacity putters.old) }
    ensures many { IsTrue result → vec_len crew.new ≡ vec_len putters.old }
    ensures crew { (k : ℕ) (h : _) → k < vec_len crew.new → ((get_or crew.new.items k h).promise.mail.now ≡ mail.now) × ((get_or crew.new.items k h).promise.worker + k + 1 ≡ vec_len putters.old) }
{
    while let Some(putter) = putters.pop() {
        let worker = putters.len() as u32;
        let job = move || -> Putter<u32>
            requires { IsPutterOf mail.now putter }
            ensures { IsPutterOf mail.entry.now result × (result.worker ≡ putter.worker) }
        { put_all(rt, mail, putter, count) };
        match scope.spawn_with(SeatOf { mail, worker }, job) {
            Ok(handle) => crew.push_reserved(handle),
            Err(_) => return false,
        }
    }
    true
}

/// Joins the threads, the first worker's first, so that the Putters come back in the order of their workers.
pub fn join_all<R: Threads>(
    rt: &R,
    mail: &BandMail<u32>,
    crew: &mut Vec<Seat<'_>>,
    putters: &mut Vec<Putter<u32>>,
)
    requires crew { (k : ℕ) (h : _) → k < vec_len crew.old → ((get_or crew.old.items k h).promise.mail.now ≡ mail.now) × ((get_or crew.old.items k h).promise.worker + k + 1 ≡ vec_len crew.old) }
    requires room { (vec_len putters.old ≡ 0) × (vec_len crew.old ≤ vec_capacity putters.old) }
    ensures { (vec_len putters.new ≡ vec_len crew.old) × ArePuttersOf mail.now putters.new.items }
{
    while let Some(handle) = crew.pop() {
        let putter = handle.join(rt);
        putters.push_reserved(putter);
    }
}
