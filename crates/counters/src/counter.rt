ghost use Rattle.std.specs.Prelude.{◌≡◌, ◌<◌, ◌++◌, ◌∷◌, [], ℕ, List, OnOk, OnErr};
ghost use Rattle.board_model.specs.Board.{has_key, lowered, with_waiter};
ghost use Rattle.counters.specs.Keys.{counter_of};
ghost use Rattle.counters.specs.Rows.{emptied};

use super::key::{CounterKey, is_same_key};
use job_queues::Fiber;
use std::alloc::{AllocError, Global};
use std::marker::Model;
use std::mem;

/// A list of fibers that wait, in the order in which they came.
pub(crate) trait WaitList {
    ghost fibers: { Self → List ℕ };

    fn put(&mut self, fiber: Fiber) -> Result<(), AllocError>
        ensures ok { OnOk result (fibers self.new ≡ fibers self.old ++ fiber ∷ []) }
        ensures unchanged { OnErr result (fibers self.new ≡ fibers self.old) };
}

impl WaitList for Vec<Fiber> {
    ghost fibers = { λ list. list.items };

    fn put(&mut self, fiber: Fiber) -> Result<(), AllocError> {
        self.push(fiber)?;
        Ok(())
    }
}

/// A counter, and the fibers that wait for it.
#[derive(Drop)]
pub(crate) struct Counter<W: WaitList> {
    key: CounterKey,
    left: u32,
    waiters: W,
}

impl<W: WaitList> Model for Counter<W> {
    ghost use Rattle.board_model.specs.Board.{Row};
    ghost use Rattle.counters.specs.Keys.{counter_of};

    ghost Value = { Row };

    ghost view = { λ c. record { key = counter_of c.key; left = c.left; waiters = W.fibers c.waiters } };
}

impl<W: WaitList> Counter<W> {
    pub(crate) fn new(key: CounterKey, left: u32, waiters: W) -> Counter<W>
        ensures { result ≡ record { key = counter_of key; left = left; waiters = W.fibers waiters } }
    {
        Counter { key, left, waiters }
    }

    pub(crate) fn is_for(&self, key: CounterKey) -> bool
        ensures { result ≡ has_key (counter_of key) self.now }
    {
        is_same_key(key, self.key)
    }

    pub(crate) fn left(&self) -> u32
        ensures { result ≡ self.now.left }
    {
        self.left
    }

    pub(crate) fn lower(&mut self)
        requires { 0 < self.old.left }
        ensures { self.new ≡ lowered self.old }
    {
        self.left -= 1;
    }

    pub(crate) fn wait(&mut self, fiber: Fiber) -> Result<(), AllocError>
        ensures ok { OnOk result (self.new ≡ with_waiter fiber self.old) }
        ensures unchanged { OnErr result (self.new ≡ self.old) }
    {
        self.waiters.put(fiber)
    }

    /// What a counter leaves that is taken out.
    pub(crate) fn into_waiters(self) -> W
        ensures { W.fibers result ≡ self.waiters }
    {
        let Self {
            key: _,
            left: _,
            waiters,
        } = self;
        waiters
    }
}

impl Counter<Vec<Fiber>> {
    /// The number is 0 now, and the waiters go.
    pub(crate) fn give_out(&mut self, alloc: Global) -> Vec<Fiber>
        ensures waiters { result.items ≡ self.old.waiters }
        ensures emptied { self.new ≡ emptied self.old }
    {
        self.left = 0;
        mem::replace(&mut self.waiters, Vec::new(alloc))
    }
}
