ghost use Rattle.std.specs.Prelude.{◌≡◌, ◌<◌, ◌++◌, ◌∷◌, [], None, IsSomeAnd, MatchOption, OnOk, OnErr, vec_len, slice_index_or};
ghost use Rattle.std.specs.List.{remove};
ghost use Rattle.board_model.specs.Lists.{drop_first};
ghost use Rattle.board_model.specs.Board.{has_key, first_row, lower, woken, wait, with_waiter};
ghost use Rattle.job_queues.specs.Places.{IsFirstPlace};
ghost use Rattle.counters.specs.Keys.{counter_of};
ghost use Rattle.counters.specs.Rows.{started, left_in};
ghost use Rattle.counters.specs.Waiting.{IsUnique};

use super::counter::Counter;
use super::key::CounterKey;
use super::waiters::Waiters;
use job_queues::Fiber;
use std::alloc::{AllocError, Global};
use std::marker::Model;

/// The counters of a board, each at its number: it knows which of them stand, so no call looks whether its key is in
/// use. Those that started last go first, so they are looked for from the back.
#[derive(Drop)]
pub struct BoardCounters {
    alloc: Global,
    all: Vec<Counter<Waiters>>,
}

impl Model for BoardCounters {
    ghost use Rattle.std.specs.Prelude.{List};
    ghost use Rattle.board_model.specs.Board.{Row};
    ghost use Rattle.counters.specs.Waiting.{IsUnique};

    ghost Value = { List Row };

    ghost view = { λ c. c.all.items };

    ghost invariant = { λ c. IsUnique c.all.items };
}

fn place(all: &[Counter<Waiters>], key: CounterKey) -> Option<usize>
    requires { IsUnique all.now }
    ensures { IsFirstPlace (has_key (counter_of key)) all.now result }
{
    'rows: for at in (0..all.len()).rev() {
        if all[at].is_for(key) {
            return Some(at);
        }
    }
    None
}

// Takes out the counter at a place, which mostly is the last.
#[inline(always)]
fn take_at(all: &mut Vec<Counter<Waiters>>, at: usize) -> Counter<Waiters>
    requires { at < vec_len all.old }
    ensures value { result ≡ slice_index_or all.old.items at result }
    ensures items { all.new.items ≡ remove all.old.items at }
{
    if at + 1 < all.len() {
        return all.remove(at);
    }
    match all.pop() {
        Some(last) => last,
        None => unreachable!(),
    }
}

impl BoardCounters {
    /// No counter is in use. It takes no memory before the first starts; all is taken from `alloc`.
    pub fn new(alloc: Global) -> BoardCounters
        ensures { result ≡ [] }
    {
        BoardCounters {
            alloc,
            all: Vec::new(alloc),
        }
    }

    /// Starts a counter at a number. It is refused for memory alone.
    pub fn start(&mut self, key: CounterKey, number: u32) -> Result<(), AllocError>
        requires { first_row (counter_of key) self.old ≡ None }
        ensures started { OnOk result (self.new ≡ self.old ++ started (counter_of key) number ∷ []) }
        ensures unchanged { OnErr result (self.new ≡ self.old) }
    {
        // Room comes first, since a refused push would hand the counter back.
        self.all.reserve(1)?;
        self.all
            .push_reserved(Counter::new(key, number, Waiters::none(self.alloc)));
        Ok(())
    }

    /// Starts a counter for which a fiber waits at once. It is refused for memory alone.
    #[inline(always)]
    pub fn start_awaited(
        &mut self,
        key: CounterKey,
        number: u32,
        fiber: Fiber,
    ) -> Result<(), AllocError>
        requires { first_row (counter_of key) self.old ≡ None }
        ensures started { OnOk result (self.new ≡ self.old ++ with_waiter fiber (started (counter_of key) number) ∷ []) }
        ensures unchanged { OnErr result (self.new ≡ self.old) }
    {
        self.all.reserve(1)?;
        self.all
            .push_reserved(Counter::new(key, number, Waiters::one(self.alloc, fiber)));
        Ok(())
    }

    /// Keeps a fiber until the counter reaches 0. It is refused for memory alone, and the first that waits takes none.
    pub fn wait(&mut self, key: CounterKey, fiber: Fiber) -> Result<(), AllocError>
        requires { IsSomeAnd (first_row (counter_of key) self.old) (λ row. 0 < row.left) }
        ensures kept { OnOk result (self.new ≡ wait (counter_of key) fiber self.old) }
        ensures unchanged { OnErr result (self.new ≡ self.old) }
    {
        let Some(at) = place(&self.all, key) else {
            unreachable!()
        };
        self.all[at].wait(fiber)
    }

    /// Lowers a counter that is above 0 by one. At 0 it takes it out, and gives out the fibers that waited for it, in
    /// the order in which they came. It takes no memory.
    #[inline(always)]
    pub fn lower(&mut self, key: CounterKey) -> Option<Waiters>
        requires { IsSomeAnd (first_row (counter_of key) self.old) (λ row. 0 < row.left) }
        ensures lowered { self.new ≡ lower (counter_of key) self.old }
        ensures woken { MatchOption result ([] ≡ woken (counter_of key) self.old) (λ waiters. waiters ≡ woken (counter_of key) self.old) }
    {
        let Some(at) = place(&self.all, key) else {
            unreachable!()
        };
        let counter = &mut self.all[at];
        if counter.left() > 1 {
            counter.lower();
            return None;
        }
        Some(take_at(&mut self.all, at).into_waiters())
    }

    /// The counter's number, where it is there. It takes no memory.
    pub fn left(&self, key: CounterKey) -> Option<u32>
        ensures { result ≡ left_in (first_row (counter_of key) self.now) }
    {
        let at = place(&self.all, key)?;
        Some(self.all[at].left())
    }

    /// Takes a counter out, if it is there, whatever its number, with the fibers that wait for it. It takes no memory.
    pub fn cancel(&mut self, key: CounterKey)
        ensures { self.new ≡ drop_first (has_key (counter_of key)) self.old }
    {
        let Some(at) = place(&self.all, key) else {
            return;
        };
        let _cancelled = self.all.remove(at);
    }
}
