ghost use Rattle.std.specs.Prelude.{◌≡◌, ◌+◌, ◌<◌, ◌≤◌, ◌++◌, ◌∷◌, [], drop, length, slice_get, IfOk, OnOk, OnErr};
ghost use Rattle.std.specs.List.{remove};

use std::alloc::{AllocError, Global};
use std::marker::Model;

/// A queue in one list. What is taken out at its front stands there until its place is wanted, so that mostly only a
/// number changes.
#[derive(Drop)]
pub(crate) struct Fifo<T> {
    all: Vec<T>,
    gone: usize,
}

impl<T> Model for Fifo<T> {
    ghost use Rattle.std.specs.Prelude.{◌≤◌, drop, vec_len, vec_capacity};
    ghost use Rattle.job_queues.specs.Fifos.{Fifo as Queue};

    ghost Value = { Queue T };

    ghost view = { λ l. record { items = drop l.gone l.all.items; used = vec_len l.all; room = vec_capacity l.all } };

    ghost invariant = { λ l. l.gone ≤ vec_len l.all };
}

impl<T: Copy + Drop> Fifo<T> {
    /// Nothing waits. It takes no memory.
    pub(crate) fn new(alloc: Global) -> Fifo<T>
        ensures { result.items ≡ [] }
    {
        Fifo {
            all: Vec::new(alloc),
            gone: 0,
        }
    }

    /// Nothing waits, and there is room for so many.
    pub(crate) fn with_room(alloc: Global, room: usize) -> Result<Fifo<T>, AllocError>
        ensures items { IfOk result (λ l. l.items ≡ []) }
        ensures room { IfOk result (λ l. room ≤ l.room) }
    {
        Ok(Fifo {
            all: Vec::with_capacity(alloc, room)?,
            gone: 0,
        })
    }

    /// What waits, in order.
    #[inline(always)]
    pub(crate) fn waiting(&self) -> &[T]
        ensures { result.now ≡ self.now.items }
    {
        &self.all[self.gone..]
    }

    /// What waits first.
    #[inline(always)]
    pub(crate) fn first(&self) -> Option<T>
        ensures { result ≡ slice_get self.now.items 0 }
    {
        if self.gone >= self.all.len() {
            return None;
        }
        Some(self.all[self.gone])
    }

    /// Takes the first out.
    #[inline(always)]
    pub(crate) fn step(&mut self)
        requires { 0 < length self.old.items }
        ensures items { self.new.items ≡ drop 1 self.old.items }
        ensures room { self.new.room ≡ self.old.room }
    {
        self.gone += 1;
        if self.gone == self.all.len() {
            self.all.clear();
            self.gone = 0;
        }
    }

    /// Takes the one at a place out.
    pub(crate) fn remove(&mut self, at: usize)
        requires { at < length self.old.items }
        ensures items { self.new.items ≡ remove self.old.items at }
        ensures room { self.new.room ≡ self.old.room }
    {
        let _taken = self.all.remove(self.gone + at);
    }

    /// Takes the one at a place out. Mostly it is the first.
    #[inline(always)]
    pub(crate) fn take(&mut self, at: usize)
        requires { at < length self.old.items }
        ensures items { self.new.items ≡ remove self.old.items at }
        ensures room { self.new.room ≡ self.old.room }
    {
        if at == 0 {
            self.step();
            return;
        }
        self.remove(at);
    }

    // The places of those that were taken out are free again.
    fn shift(&mut self)
        ensures items { self.new.items ≡ self.old.items }
        ensures used { self.new.used ≡ length self.old.items }
        ensures room { self.new.room ≡ self.old.room }
    {
        let left = self.all.len() - self.gone;
        self.all.rotate_left(self.gone);
        self.all.truncate(left);
        self.gone = 0;
    }

    // Where at least half of the places are of those that were taken out, they are free again.
    #[inline(always)]
    fn tidy(&mut self)
        ensures items { self.new.items ≡ self.old.items }
        ensures room { self.new.room ≡ self.old.room }
    {
        if self.gone > 0 && self.gone >= self.all.len() - self.gone {
            self.shift();
        }
    }

    // Makes room for one more. Memory is taken only where there is no place left.
    #[inline(always)]
    fn reserve_one(&mut self) -> Result<(), AllocError>
        ensures items { self.new.items ≡ self.old.items }
        ensures ok { OnOk result (self.new.used < self.new.room) }
    {
        if self.all.len() < self.all.capacity() {
            return Ok(());
        }
        self.reserve(1)
    }

    /// Puts one at the end. Memory is taken only where there is no place left.
    #[inline(always)]
    pub(crate) fn put(&mut self, item: T) -> Result<(), AllocError>
        ensures items { OnOk result (self.new.items ≡ self.old.items ++ item ∷ []) }
        ensures unchanged { OnErr result (self.new.items ≡ self.old.items) }
    {
        // Room comes first, since a refused push would hand the item back.
        self.reserve_one()?;
        self.put_reserved(item);
        Ok(())
    }

    /// Puts one at the end, where not all places are of those that wait.
    #[inline(always)]
    pub(crate) fn put_in_room(&mut self, item: T)
        requires { length self.old.items < self.old.room }
        ensures items { self.new.items ≡ self.old.items ++ item ∷ [] }
        ensures room { self.new.room ≡ self.old.room }
    {
        if self.all.len() == self.all.capacity() {
            self.shift();
        }
        self.all.push_reserved(item);
    }

    /// Makes room for more behind those that wait.
    pub(crate) fn reserve(&mut self, more: usize) -> Result<(), AllocError>
        ensures items { self.new.items ≡ self.old.items }
        ensures ok { OnOk result (self.new.used + more ≤ self.new.room) }
    {
        self.tidy();
        self.all.reserve(more)
    }

    /// Puts one at the end, for which there is room.
    #[inline(always)]
    pub(crate) fn put_reserved(&mut self, item: T)
        requires { self.old.used < self.old.room }
        ensures items { self.new.items ≡ self.old.items ++ item ∷ [] }
        ensures used { self.new.used ≡ self.old.used + 1 }
        ensures room { self.new.room ≡ self.old.room }
    {
        self.all.push_reserved(item);
    }
}
