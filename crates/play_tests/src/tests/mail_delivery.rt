//! A whole use of a mail: threads put, this one takes, and the mail is closed.
ghost use Rattle.std.specs.Prelude.{◌≡◌, length, IsTrue, vec_len, ◌<◌};
ghost use Rattle.band_mail.specs.Mails.{ArePuttersOf};

use super::mail_crew::{hire, join_all};
use band_mail::{BandMail, Putter, Taker};
use std::alloc::{AllocError, Global};
use std::sync::Wait;
use std::thread;
use std::thread::{Scope, Threads};

/// What was taken while the threads put, and what the mail still held at its end, each band with its worker.
#[derive(Drop)]
pub struct Delivered {
    pub taken: Vec<(u32, u32)>,
    pub left: Vec<(u32, u32)>,
}

/// Each worker puts the numbers below `count` in a thread of its own, and this thread takes as many bands as `taken` has room for.
pub fn deliver<R: Threads + Wait + Sync>(
    rt: &R,
    alloc: Global,
    capacity: u32,
    workers: u32,
    count: u32,
    takes: usize,
) -> Result<Option<Delivered>, AllocError>
    requires { 0 < capacity }
{
    let (mail, putters, taker) = BandMail::new(alloc, capacity, workers)?;
    let taken = Vec::with_capacity(alloc, takes)?;
    let shared = &mail;
    let (hired, putters, taker, taken) = thread::scope(
        thread::scope_env(),
        rt,
        move |scope| -> (bool, Vec<Putter<u32>>, Taker<u32>, Vec<(u32, u32)>)
            requires putters { (vec_len putters ≡ length shared.now) × ArePuttersOf shared.now putters.items }
            requires taker { taker.mail ≡ shared.now }
            ensures putters { IsTrue result.0 → (vec_len result.1 ≡ length shared.entry.now) × ArePuttersOf shared.entry.now result.1.items }
            ensures taker { result.2.mail ≡ shared.entry.now }
        {
            run_in(
                scope, rt, alloc, shared, count, takes, putters, taker, taken,
            )
        },
    );
    if !hired {
        return Ok(None);
    }
    let left = close_backwards(rt, mail, putters, taker);
    Ok(Some(Delivered { taken, left }))
}

// Closes a mail with its Putters in another order than that of their workers.
fn close_backwards<R: Wait>(
    rt: &R,
    mail: BandMail<u32>,
    mut putters: Vec<Putter<u32>>,
    taker: Taker<u32>,
) -> Vec<(u32, u32)>
    requires putters { (vec_len putters ≡ length mail) × ArePuttersOf mail putters.items }
    requires taker { taker.mail ≡ mail }
{
    putters.reverse();
    mail.close(rt, putters, taker)
}

fn run_in<'s, E, R: Threads + Wait + Sync>(
    scope: &Scope<'s, E>,
    rt: &'s R,
    alloc: Global,
    mail: &'s BandMail<u32>,
    count: u32,
    takes: usize,
    mut putters: Vec<Putter<u32>>,
    mut taker: Taker<u32>,
    mut taken: Vec<(u32, u32)>,
) -> (bool, Vec<Putter<u32>>, Taker<u32>, Vec<(u32, u32)>)
    requires putters { (vec_len putters ≡ length mail.now) × ArePuttersOf mail.now putters.items }
    requires taker { taker.mail ≡ mail.now }
    ensures putters { IsTrue result.0 → (vec_len result.1 ≡ length mail.now) × ArePuttersOf mail.now result.1.items }
    ensures taker { result.2.mail ≡ mail.now }
{
    // Made here, since the handles' type names the scope's lifetime.
    let Ok(mut crew) = Vec::with_capacity(alloc, putters.len()) else {
        return (false, putters, taker, taken);
    };
    if !hire(scope, rt, mail, count, &mut putters, &mut crew) {
        return (false, putters, taker, taken);
    }
    for _ in rt.forever() {
        if taken.len() >= takes {
            break;
        }
        match mail.take(rt, &mut taker) {
            Some(band) => {
                if taken.push(band).is_err() {
                    break;
                }
            }
            None => thread::yield_now(),
        }
    }
    join_all(rt, mail, &mut crew, &mut putters);
    (true, putters, taker, taken)
}
