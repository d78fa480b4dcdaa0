//! All queues of a mail, with the passes of its Taker.
ghost use Rattle.std.specs.Prelude.{◌≡◌, ◌<◌, ◌≤◌, ◌*◌, ◌^◌, [], ◌∷◌, ◌++◌, All, MatchOption, slice_set, slice_index_or, vec_len, vec_capacity};
ghost use Rattle.band_mail.specs.Mails.{AreAllPuttersOf, IsAllDelivered, put_by};
ghost use Rattle.band_mail.specs.Queues.{queue_names, pass_names, all_taken, HaveCapacity};
ghost use Rattle.band_mail.specs.Relay.{MayTake};

use crate::putter::Putter;
use crate::queue::{Queue, QueuePass, drain, take};
use std::sync::Wait;

/// Takes from the first queue that has something.
pub(crate) fn take_first<T, R: Wait>(
    rt: &R,
    queues: &Vec<Queue<T>>,
    passes: &mut Vec<QueuePass<T>>,
) -> Option<(u32, T)>
    requires names { pass_names passes.old.items ≡ queue_names queues.now.items }
    requires may { All MayTake passes.old.items }
    requires few { vec_len queues.now < 2 ^ 32 }
    ensures names { pass_names passes.new.items ≡ pass_names passes.old.items }
    ensures may { All MayTake passes.new.items }
    ensures taken { MatchOption result
        (all_taken passes.new.items ≡ all_taken passes.old.items)
        (λ r. (r.0 < vec_len queues.now) × (all_taken passes.new.items ≡ slice_set (all_taken passes.old.items) r.0 (slice_index_or (all_taken passes.old.items) r.0 [] ++ r.1 ∷ []))) }
{
    for i in 0..queues.len() {
        let queue = &queues[i];
        let pass = &mut passes[i];
        if let Some(item) = take(rt, queue, pass) {
            return Some((i as u32, item));
        }
    }
    None
}

/// Joins the passes of each queue, as its Putter comes, and hands out what they hold.
pub(crate) fn drain_all<T: Drop, R: Wait>(
    rt: &R,
    queues: &Vec<Queue<T>>,
    capacity: u32,
    mut putters: Vec<Putter<T>>,
    mut passes: Vec<QueuePass<T>>,
    into: &mut Vec<(u32, T)>,
)
    requires putters { AreAllPuttersOf (queue_names queues.now.items) putters.items }
    requires passes { pass_names passes.items ≡ queue_names queues.now.items }
    requires may { All MayTake passes.items }
    requires capacity { HaveCapacity queues.now.items capacity }
    requires room { (into.old.items ≡ []) × (vec_len queues.now * capacity ≤ vec_capacity into.old) }
    ensures { IsAllDelivered (put_by putters.items) (all_taken passes.items) into.new.items }
{
    while let Some(putter) = putters.pop() {
        let Putter { worker, pass: puts } = putter;
        let queue = &queues[worker as usize];
        let pass = &mut passes[worker as usize];
        drain(rt, queue, worker, pass, puts, into);
    }
}
