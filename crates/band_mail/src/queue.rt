//! One worker's queue.
ghost use Rattle.std.specs.Prelude.{◌≡◌, ◌<◌, ◌≤◌, ◌+◌, true, false, [], ◌∷◌, ◌++◌, IfOk, MatchResult, MatchOption, List, map, vec_len, vec_capacity};
ghost use Rattle.crossbeam_queue.specs.Passes.{view, IsSamePass, IsPassOf, ruled_capacity};
ghost use Rattle.band_mail.specs.Relay.{log};

use crate::relay::{Drains, PassLog, Puts, Relay, Roles, Takes};
use crossbeam_queue::{Pass, RuledArrayQueue};
use std::alloc::{AllocError, Global};
use std::sync::Wait;

pub(crate) type Queue<T> = RuledArrayQueue<T, PassLog<T>, Relay>;

pub(crate) type QueuePass<T> = Pass<T, PassLog<T>>;

/// An empty queue, with the pass that puts and the pass that takes.
pub(crate) fn open<T>(
    alloc: Global,
    capacity: u32,
) -> Result<(Queue<T>, QueuePass<T>, QueuePass<T>), AllocError>
    requires { 0 < capacity }
    ensures { IfOk result (λ q. (ruled_capacity q.0 ≡ capacity) × IsPassOf q.0 q.1 × IsPassOf q.0 q.2 × (view q.1 ≡ log true false [] []) × (view q.2 ≡ log false true [] [])) }
{
    let (queue, mut puts) = Queue::ruled(alloc, capacity as usize)?;
    let takes = queue.another::<Roles>(&mut puts);
    Ok((queue, puts, takes))
}

/// Puts at the end.
pub(crate) fn put<T, R: Wait>(
    rt: &R,
    queue: &Queue<T>,
    pass: &mut QueuePass<T>,
    item: T,
) -> Result<(), T>
    requires pass { IsPassOf queue.now pass.old }
    requires may { (view pass.old).puts ≡ true }
    ensures pass { IsSamePass pass.old pass.new }
    ensures put { MatchResult result
        (λ _. view pass.new ≡ log (view pass.old).puts (view pass.old).takes ((view pass.old).put ++ item ∷ []) (view pass.old).taken)
        (λ x. (x ≡ item) × (view pass.new ≡ view pass.old)) }
{
    queue.push_as::<Puts, R>(rt, pass, item)
}

/// Takes from the front.
pub(crate) fn take<T, R: Wait>(rt: &R, queue: &Queue<T>, pass: &mut QueuePass<T>) -> Option<T>
    requires pass { IsPassOf queue.now pass.old }
    requires may { (view pass.old).takes ≡ true }
    ensures pass { IsSamePass pass.old pass.new }
    ensures taken { MatchOption result (view pass.new ≡ view pass.old)
        (λ x. view pass.new ≡ log (view pass.old).puts (view pass.old).takes (view pass.old).put ((view pass.old).taken ++ x ∷ [])) }
{
    queue.pop_as::<Takes, R>(rt, pass)
}

/// Joins the pass that puts into the one that takes, and puts what the queue still holds at the end of `into`, under the worker's number.
pub(crate) fn drain<T, R: Wait>(
    rt: &R,
    queue: &Queue<T>,
    worker: u32,
    pass: &mut QueuePass<T>,
    puts: QueuePass<T>,
    into: &mut Vec<(u32, T)>,
)
    requires passes { IsPassOf queue.now pass.old × IsPassOf queue.now puts }
    requires may { ((view pass.old).takes ≡ true) × ((view puts).puts ≡ true) }
    requires room { vec_len into.old + ruled_capacity queue.now ≤ vec_capacity into.old }
    ensures pass { IsSamePass pass.old pass.new × ((view pass.new).takes ≡ true) }
    ensures left { (rest : List T) × (into.new.items ≡ into.old.items ++ map (λ x. (worker, x)) rest) × ((view puts).put ≡ (view pass.old).taken ++ rest) }
    ensures room { (vec_capacity into.new ≡ vec_capacity into.old) × (vec_len into.new ≤ vec_len into.old + ruled_capacity queue.now) }
{
    queue.absorb::<Roles>(pass, puts);
    // Nobody else has a pass, so the queue holds this many until the end.
    let count = queue.len_as::<Drains, R>(rt, pass);
    for _i in 0..count {
        match queue.pop_as::<Drains, R>(rt, pass) {
            Some(item) => into.push_reserved((worker, item)),
            None => return,
        }
    }
    queue.learn_as::<Drains>(pass);
}
