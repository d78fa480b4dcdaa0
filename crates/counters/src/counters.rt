ghost use Rattle.std.specs.Prelude.{◌≡◌, ◌++◌, ◌∷◌, [], None, Some, position, unwrap_or, OnOk, OnErr, IfOk, IfErr};
ghost use Rattle.board_model.specs.Lists.{drop_first};
ghost use Rattle.board_model.specs.Board.{has_key, first_row};
ghost use Rattle.job_queues.specs.Places.{IsFirstPlace};
ghost use Rattle.counters.specs.Keys.{counter_of};
ghost use Rattle.counters.specs.Rows.{started, left_in, less};
ghost use Rattle.counters.specs.Replies.{IsLowered, IsWaiting};
ghost use Rattle.counters.specs.Faults.{start_fault, lower_fault, absent_fault, end_fault};

use super::counter::Counter;
use super::key::CounterKey;
use job_queues::Fiber;
use std::alloc::Global;
use std::marker::Model;

/// Why a call of the counters is refused, which leaves them as they are.
#[derive(Clone, Copy, Debug, PartialEq, Eq)]
pub enum CounterFault {
    OutOfMemory,
    /// The key is in use, or the counter is not at 0.
    Busy,
    /// No counter of this key is there, or there is nothing left to count.
    NotThere,
}

/// What a counter answers that was lowered.
#[derive(Drop)]
pub enum Lowered {
    /// How much is left, above 0.
    Left(u32),
    /// Nothing is left, and these fibers waited for it, in the order in which they came.
    Zero(Vec<Fiber>),
}

/// What a fiber is answered that is to wait.
#[derive(Clone, Copy, Debug, PartialEq, Eq)]
pub enum Waits {
    Kept,
    /// There is nothing to wait for, and nothing was kept.
    AtZero,
}

/// The counters in use, each at its number.
#[derive(Drop)]
pub struct Counters {
    alloc: Global,
    all: Vec<Counter<Vec<Fiber>>>,
}

impl Model for Counters {
    ghost use Rattle.std.specs.Prelude.{List};
    ghost use Rattle.board_model.specs.Board.{Row};

    ghost Value = { List Row };

    ghost view = { λ c. c.all.items };
}

fn position_of(all: &[Counter<Vec<Fiber>>], key: CounterKey) -> Option<usize>
    ensures { result ≡ position (has_key (counter_of key)) all.now }
{
    all.iter().position(|counter| counter.is_for(key))
}

fn place(all: &[Counter<Vec<Fiber>>], key: CounterKey) -> Option<usize>
    ensures { IsFirstPlace (has_key (counter_of key)) all.now result }
{
    position_of(all, key)
}

impl Counters {
    /// No counter is in use. It takes no memory before the first starts; all is taken from `alloc`.
    pub fn new(alloc: Global) -> Counters
        ensures { result ≡ [] }
    {
        Counters {
            alloc,
            all: Vec::new(alloc),
        }
    }

    /// Starts a counter at a number. `Busy` where its key is in use.
    #[inline(always)]
    pub fn start(&mut self, key: CounterKey, number: u32) -> Result<(), CounterFault>
        ensures started { OnOk result (self.new ≡ self.old ++ started (counter_of key) number ∷ []) }
        ensures ok { OnOk result (start_fault (first_row (counter_of key) self.old) ≡ None) }
        ensures fault { IfErr result (λ e. e ≡ unwrap_or (start_fault (first_row (counter_of key) self.old)) CounterFault.OutOfMemory) }
        ensures unchanged { OnErr result (self.new ≡ self.old) }
    {
        if place(&self.all, key).is_some() {
            return Err(CounterFault::Busy);
        }
        if self
            .all
            .push(Counter::new(key, number, Vec::new(self.alloc)))
            .is_err()
        {
            return Err(CounterFault::OutOfMemory);
        }
        Ok(())
    }

    /// Lowers a counter by one. At 0 it gives out the fibers that wait for it. `NotThere` where there is no such
    /// counter or it is at 0 already. It takes no memory.
    pub fn lower(&mut self, key: CounterKey) -> Result<Lowered, CounterFault>
        ensures answer { IfOk result (λ answer. IsLowered answer (first_row (counter_of key) self.old)) }
        ensures lowered { OnOk result (self.new ≡ less (counter_of key) self.old) }
        ensures ok { OnOk result (lower_fault (first_row (counter_of key) self.old) ≡ None) }
        ensures fault { IfErr result (λ e. Some e ≡ lower_fault (first_row (counter_of key) self.old)) }
        ensures unchanged { OnErr result (self.new ≡ self.old) }
    {
        let Some(at) = place(&self.all, key) else {
            return Err(CounterFault::NotThere);
        };
        let counter = &mut self.all[at];
        let left = counter.left();
        if left == 0 {
            return Err(CounterFault::NotThere);
        }
        if left == 1 {
            return Ok(Lowered::Zero(counter.give_out(self.alloc)));
        }
        counter.lower();
        Ok(Lowered::Left(left - 1))
    }

    /// Keeps a fiber until the counter reaches 0, or says that it is at 0. `NotThere` where there is no such counter.
    #[inline(always)]
    pub fn wait(&mut self, key: CounterKey, fiber: Fiber) -> Result<Waits, CounterFault>
        ensures answer { IfOk result (λ answer. IsWaiting (counter_of key) fiber answer self.old self.new) }
        ensures ok { OnOk result (absent_fault (first_row (counter_of key) self.old) ≡ None) }
        ensures fault { IfErr result (λ e. e ≡ unwrap_or (absent_fault (first_row (counter_of key) self.old)) CounterFault.OutOfMemory) }
        ensures unchanged { OnErr result (self.new ≡ self.old) }
    {
        let Some(at) = place(&self.all, key) else {
            return Err(CounterFault::NotThere);
        };
        let counter = &mut self.all[at];
        if counter.left() == 0 {
            return Ok(Waits::AtZero);
        }
        if counter.wait(fiber).is_err() {
            return Err(CounterFault::OutOfMemory);
        }
        Ok(Waits::Kept)
    }

    /// The counter's number, where it is there. It takes no memory.
    pub fn left(&self, key: CounterKey) -> Option<u32>
        ensures { result ≡ left_in (first_row (counter_of key) self.now) }
    {
        let at = place(&self.all, key)?;
        Some(self.all[at].left())
    }

    /// Takes out a counter that is at 0. `NotThere` where there is none, `Busy` where it is not at 0. It takes no
    /// memory.
    pub fn end(&mut self, key: CounterKey) -> Result<(), CounterFault>
        ensures ended { OnOk result (self.new ≡ drop_first (has_key (counter_of key)) self.old) }
        ensures ok { OnOk result (end_fault (first_row (counter_of key) self.old) ≡ None) }
        ensures fault { IfErr result (λ e. Some e ≡ end_fault (first_row (counter_of key) self.old)) }
        ensures unchanged { OnErr result (self.new ≡ self.old) }
    {
        let Some(at) = place(&self.all, key) else {
            return Err(CounterFault::NotThere);
        };
        if self.all[at].left() > 0 {
            return Err(CounterFault::Busy);
        }
        let _ended = self.all.remove(at);
        Ok(())
    }

    /// Takes out a counter at any number, with the fibers that wait for it. `NotThere` where there is none. It takes
    /// no memory.
    pub fn cancel(&mut self, key: CounterKey) -> Result<(), CounterFault>
        ensures ended { OnOk result (self.new ≡ drop_first (has_key (counter_of key)) self.old) }
        ensures ok { OnOk result (absent_fault (first_row (counter_of key) self.old) ≡ None) }
        ensures fault { IfErr result (λ e. Some e ≡ absent_fault (first_row (counter_of key) self.old)) }
        ensures unchanged { OnErr result (self.new ≡ self.old) }
    {
        let Some(at) = place(&self.all, key) else {
            return Err(CounterFault::NotThere);
        };
        let _cancelled = self.all.remove(at);
        Ok(())
    }
}
