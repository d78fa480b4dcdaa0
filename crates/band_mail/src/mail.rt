//! One queue for each worker, and one taker of all.
ghost use Rattle.std.specs.Prelude.{◌≡◌, ◌<◌, [], length, replicate, IfOk, IfErr, OnOk, OnErr, IfSome, MatchOption, vec_len};
ghost use Rattle.band_mail.specs.Mails.{IsPutterOf, IsAllDelivered, ArePuttersOf, AreAllPuttersOf, all_put, put_by, with_put, with_taken};

use crate::putter::Putter;
use crate::queue::{Queue, open, put};
use crate::queues::{drain_all, take_first};
use crate::taker::Taker;
use std::alloc::{AllocError, Global};
use std::marker::Model;
use std::sync::Wait;

/// A queue for each worker. Its value is the names of the queues, in the order of the workers.
#[derive(Drop)]
pub struct BandMail<T> {
    queues: Vec<Queue<T>>,
    capacity: u32,
    room: Vec<(u32, T)>,
}

impl<T> Model for BandMail<T> {
    ghost use Rattle.std.specs.Prelude.{◌≡◌, ◌<◌, ◌≤◌, ◌*◌, ◌^◌, [], vec_len, vec_capacity};
    ghost use Rattle.band_mail.specs.Mails.{Mail};
    ghost use Rattle.band_mail.specs.Queues.{queue_names, HaveCapacity};

    ghost Value = { Mail };

    ghost view = { λ m. queue_names m.queues.items };

    ghost invariant = { λ m. HaveCapacity m.queues.items m.capacity × (vec_len m.queues < 2 ^ 32) × (m.room.items ≡ []) × (vec_len m.queues * m.capacity ≤ vec_capacity m.room) };
}

impl<T: Drop> BandMail<T> {
    /// A mail of empty queues, the Putters of the workers in order, and the Taker. It is refused where there is no memory for as many bands
    /// as all queues hold.
    pub fn new(
        alloc: Global,
        capacity: u32,
        workers: u32,
    ) -> Result<(BandMail<T>, Vec<Putter<T>>, Taker<T>), AllocError>
        requires { 0 < capacity }
        ensures workers { IfOk result (λ r. length r.0 ≡ workers) }
        ensures putters { IfOk result (λ r. (vec_len r.1 ≡ workers) × ArePuttersOf r.0 r.1.items) }
        ensures taker { IfOk result (λ r. r.2.mail ≡ r.0) }
        ensures nothing_put { IfOk result (λ r. all_put r.1.items ≡ replicate workers []) }
        ensures nothing_taken { IfOk result (λ r. r.2.taken ≡ replicate workers []) }
    {
        let Some(most) = (workers as usize).checked_mul(capacity as usize) else {
            return Err(AllocError);
        };
        let room = Vec::with_capacity(alloc, most)?;
        let mut queues = Vec::new(alloc);
        let mut putters = Vec::new(alloc);
        let mut passes = Vec::new(alloc);
        for worker in 0..workers {
            let (queue, puts, takes) = open(alloc, capacity)?;
            queues.push(queue)?;
            putters.push(Putter { worker, pass: puts })?;
            passes.push(takes)?;
        }
        let mail = BandMail {
            queues,
            capacity,
            room,
        };
        Ok((mail, putters, Taker { passes }))
    }

    /// Puts a band at the end of the Putter's queue. The band is handed back where that queue was full at one moment of the call.
    pub fn put<R: Wait>(&self, rt: &R, putter: &mut Putter<T>, band: T) -> Result<(), T>
        requires { IsPutterOf self.now putter.old }
        ensures putter { IsPutterOf self.now putter.new }
        ensures worker { putter.new.worker ≡ putter.old.worker }
        ensures put { OnOk result (putter.new ≡ with_put putter.old band) }
        ensures kept { OnErr result (putter.new ≡ putter.old) }
        ensures back { IfErr result (λ back. back ≡ band) }
    {
        let queue = &self.queues[putter.worker as usize];
        put(rt, queue, &mut putter.pass, band)
    }

    /// The first band of the first worker whose queue holds one, with that worker. None where each queue was empty at one moment of the call.
    pub fn take<R: Wait>(&self, rt: &R, taker: &mut Taker<T>) -> Option<(u32, T)>
        requires { taker.old.mail ≡ self.now }
        ensures taker { taker.new.mail ≡ self.now }
        ensures lists { length taker.new.taken ≡ length self.now }
        ensures worker { IfSome result (λ r. r.0 < length self.now) }
        ensures taken { MatchOption result (taker.new ≡ taker.old) (λ r. taker.new ≡ with_taken taker.old r.0 r.1) }
    {
        take_first(rt, &self.queues, &mut taker.passes)
    }

    /// Ends the mail, and hands out the bands that its queues still hold, in the order of each queue. It takes no memory. The Putters
    /// come in any order.
    pub fn close<R: Wait>(self, rt: &R, putters: Vec<Putter<T>>, taker: Taker<T>) -> Vec<(u32, T)>
        requires putters { AreAllPuttersOf self putters.items }
        requires taker { taker.mail ≡ self }
        ensures { IsAllDelivered (put_by putters.items) taker.taken result.items }
    {
        let BandMail {
            queues,
            capacity,
            mut room,
        } = self;
        let Taker { passes } = taker;
        drain_all(rt, &queues, capacity, putters, passes, &mut room);
        room
    }
}
