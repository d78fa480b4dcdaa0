ghost use Rattle.std.specs.Prelude.{◌≡◌, ◌+◌, ◌<◌, ◌≤◌, ◌≢◌, not, true, false, length, slice_get, Some, position, IfOk, IfSome, OnOk, OnErr};
ghost use Rattle.board_model.specs.Lists.{tally};
ghost use Rattle.board_model.specs.Board.{part, lowest_in};
ghost use Rattle.job_queues.specs.Pool.{all_free, with_fiber};
ghost use Rattle.job_core.specs.declared.names.Size.TheVariants.{Small, Large};

use super::fiber::Fiber;
use job_core::names::Size;
use std::marker::Model;

/// No fiber of the size is free.
#[derive(Clone, Copy, Debug, PartialEq, Eq)]
pub struct NoFiber;

/// The fiber is free already, or is none of the pool.
#[derive(Clone, Copy, Debug, PartialEq, Eq)]
pub struct NotTaken;

/// Which fibers are taken, and how many of each size are not. The small ones come first. It lies in a fixed table and takes no
/// memory.
#[derive(Drop)]
pub struct FiberPool {
    count: usize,
    small: usize,
    small_free: u32,
    large_free: u32,
    // The front of it alone is used, so it lies behind the numbers.
    taken: [bool; 128],
}

impl Model for FiberPool {
    ghost use Rattle.std.specs.Prelude.{◌≡◌, ◌≤◌, Bool, List, not, take, drop};
    ghost use Rattle.board_model.specs.Lists.{tally};
    ghost use Rattle.job_queues.specs.Pool.{Pool};

    ghost Value = { Pool };

    ghost view = { λ p. record { small = p.small; taken = take p.count p.taken } };

    ghost invariant = { λ p. (p.count ≤ 128) × (p.small ≤ p.count)
        × (p.small_free ≡ tally not (take p.small (take p.count p.taken))) × (p.large_free ≡ tally not (drop p.small (take p.count p.taken))) };
}

fn position_of_free(taken: &[bool]) -> Option<usize>
    ensures value { result ≡ position not taken.now }
    ensures bound { IfSome result (λ i. i < length taken.now) }
{
    taken.iter().position(|taken| !*taken)
}

impl FiberPool {
    /// So many small and so many large fibers, all of which are free.
    pub fn new(small: u32, large: u32) -> FiberPool
        requires { small + large ≤ 128 }
        ensures { result ≡ all_free small large }
    {
        FiberPool {
            taken: [false; 128],
            count: (small + large) as usize,
            small: small as usize,
            small_free: small,
            large_free: large,
        }
    }

    /// How many fibers of a size are free.
    #[inline(always)]
    pub fn free(&self, size: Size) -> u32
        ensures { result ≡ tally not (part size self.now.small self.now.taken) }
    {
        match size {
            Size::Small => self.small_free,
            Size::Large => self.large_free,
        }
    }

    /// The lowest free fiber of a size. It takes no memory.
    #[inline(always)]
    pub fn take(&mut self, size: Size) -> Result<Fiber, NoFiber>
        ensures lowest { IfOk result (λ fiber. fiber ≡ lowest_in size self.old.small self.old.taken) }
        ensures there { IfOk result (λ fiber. fiber < length self.old.taken) }
        ensures taken { IfOk result (λ fiber. self.new ≡ with_fiber fiber true self.old) }
        ensures none_free { OnErr result (tally not (part size self.old.small self.old.taken) ≡ 0) }
        ensures unchanged { OnErr result (self.new ≡ self.old) }
    {
        match size {
            Size::Small => self.take_small(),
            Size::Large => self.take_large(),
        }
    }

    #[inline(always)]
    fn take_small(&mut self) -> Result<Fiber, NoFiber>
        ensures lowest { IfOk result (λ fiber. fiber ≡ lowest_in Small self.old.small self.old.taken) }
        ensures there { IfOk result (λ fiber. fiber < length self.old.taken) }
        ensures taken { IfOk result (λ fiber. self.new ≡ with_fiber fiber true self.old) }
        ensures none_free { OnErr result (tally not (part Small self.old.small self.old.taken) ≡ 0) }
        ensures unchanged { OnErr result (self.new ≡ self.old) }
    {
        let (small, _) = self.taken[..self.count].split_at(self.small);
        let Some(at) = position_of_free(small) else {
            return Err(NoFiber);
        };
        self.taken[at] = true;
        self.small_free -= 1;
        Ok(Fiber(at as u32))
    }

    #[inline(always)]
    fn take_large(&mut self) -> Result<Fiber, NoFiber>
        ensures lowest { IfOk result (λ fiber. fiber ≡ lowest_in Large self.old.small self.old.taken) }
        ensures there { IfOk result (λ fiber. fiber < length self.old.taken) }
        ensures taken { IfOk result (λ fiber. self.new ≡ with_fiber fiber true self.old) }
        ensures none_free { OnErr result (tally not (part Large self.old.small self.old.taken) ≡ 0) }
        ensures unchanged { OnErr result (self.new ≡ self.old) }
    {
        let (_, large) = self.taken[..self.count].split_at(self.small);
        let Some(behind) = position_of_free(large) else {
            return Err(NoFiber);
        };
        let at = self.small + behind;
        self.taken[at] = true;
        self.large_free -= 1;
        Ok(Fiber(at as u32))
    }

    /// Gives a taken fiber back. It takes no memory.
    #[inline(always)]
    pub fn give(&mut self, fiber: Fiber) -> Result<(), NotTaken>
        ensures was_taken { OnOk result (slice_get self.old.taken fiber ≡ Some true) }
        ensures freed { OnOk result (self.new ≡ with_fiber fiber false self.old) }
        ensures not_taken { OnErr result (slice_get self.old.taken fiber ≢ Some true) }
        ensures unchanged { OnErr result (self.new ≡ self.old) }
    {
        let at = fiber.0 as usize;
        if at >= self.count {
            return Err(NotTaken);
        }
        if !self.taken[at] {
            return Err(NotTaken);
        }
        self.taken[at] = false;
        if at < self.small {
            self.small_free += 1;
        } else {
            self.large_free += 1;
        }
        Ok(())
    }
}
