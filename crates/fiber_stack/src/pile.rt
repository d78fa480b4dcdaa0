ghost use Rattle.std.specs.Prelude.{◌≡◌, ◌≢◌, ◌-◌, ◌<◌, ◌^◌, ◌%◌, List, [], ◌∷◌, length, MatchResult, MatchOption, IfOk, IsOk};

use crate::eight::Eight;
use crate::frame::Frame;
use crate::link::Link;
use std::alloc::{AllocError, Allocator};
use std::marker::Model;

/// A stack of plain values in a chain of boxed chunks, each of which has room for eight. Contracts see it as the list of
/// them, the top one first.
#[derive(Drop)]
pub struct Pile<F: Copy, A: Allocator> {
    top: Link<F, A>,
    // How many places of the first chunk are free: the first ones.
    free: u32,
    depth: u32,
    alloc: A,
}

/// A stack of open nodes: `T` holds the tree's nodes, and `A` the stack's chunks.
pub type Stack<'t, T, A> = Pile<Frame<'t, T>, A>;

impl<F: Copy, A: Allocator> Model for Pile<F, A> {
    ghost use Rattle.std.specs.Prelude.{◌≡◌, ◌+◌, ◌*◌, ◌<◌, List, length};
    ghost use Rattle.fiber_stack.specs.Links.{chunks};
    ghost use Rattle.fiber_stack.specs.Chunks.{values};

    ghost Value = { List F };

    ghost view = { λ s. values s.free (chunks s.top) };

    ghost invariant = { λ s. (s.free < 8) × (s.depth + s.free ≡ 8 * length (chunks s.top)) };
}

impl<F: Copy, A: Allocator> Pile<F, A> {
    /// A stack of no values. It takes no memory before the first push.
    pub fn empty(alloc: A) -> Self
        ensures { result ≡ [] }
    {
        Pile {
            top: Link::End,
            free: 0,
            depth: 0,
            alloc,
        }
    }

    /// How many values are on it, in constant time.
    pub fn depth(&self) -> u32
        ensures { result ≡ length self.now }
    {
        self.depth
    }

    /// The value on the top.
    #[inline(always)]
    pub fn top(&self) -> Option<&F>
        ensures { MatchOption result (self.now ≡ []) (λ top. (below : List F) × (self.now ≡ top.now ∷ below)) }
    {
        match &self.top {
            Link::End => None,
            Link::More(chunk) => Some(chunk.eight.at(self.free)),
        }
    }

    /// Takes the value on the top off. A chunk is given back when its last value goes.
    #[inline(always)]
    pub fn pop(&mut self) -> Option<F>
        ensures { MatchOption result ((self.old ≡ []) × (self.new ≡ [])) (λ top. self.old ≡ top ∷ self.new) }
    {
        let value = match &self.top {
            Link::End => return None,
            Link::More(chunk) => *chunk.eight.at(self.free),
        };
        self.depth -= 1;
        if self.free < 7 {
            self.free += 1;
            return Some(value);
        }
        self.top.pop();
        self.free = 0;
        Some(value)
    }

    /// Puts a value in place of the one on the top, and hands that one out.
    #[inline(always)]
    pub fn replace_top(&mut self, element: F) -> Option<F>
        ensures { MatchOption result ((self.old ≡ []) × (self.new ≡ []))
            (λ top. (below : List F) × (self.old ≡ top ∷ below) × (self.new ≡ element ∷ below)) }
    {
        match &mut self.top {
            Link::End => None,
            Link::More(chunk) => {
                let value = *chunk.eight.at(self.free);
                chunk.eight.set(self.free, element);
                Some(value)
            }
        }
    }
}

impl<F: Copy, A: Allocator + Clone> Pile<F, A> {
    /// Puts a value on the top. Where memory is refused it is handed back, and the stack is unchanged. It takes memory
    /// only where the depth is a multiple of eight.
    #[inline(always)]
    pub fn push(&mut self, element: F) -> Result<(), F>
        requires { length self.old < 2 ^ 32 - 1 }
        ensures pushed { MatchResult result (λ done. self.new ≡ element ∷ self.old)
            (λ refused. (refused ≡ element) × (self.new ≡ self.old)) }
        ensures room { length self.old % 8 ≢ 0 → IsOk result }
    {
        if self.free > 0 {
            self.depth += 1;
            self.free -= 1;
            if let Link::More(chunk) = &mut self.top {
                chunk.eight.set(self.free, element);
            }
            return Ok(());
        }
        let Ok(alloc) = self.alloc.clone() else {
            return Err(element);
        };
        match self.top.push(alloc, Eight::of(element)) {
            Ok(()) => {
                self.free = 7;
                self.depth += 1;
                Ok(())
            }
            Err(_) => Err(element),
        }
    }
}

impl<F: Copy, A: Allocator> Pile<F, A> {
    /// A copy whose chunks lie in `alloc`.
    pub fn copy_in<B: Allocator + Clone>(&self, alloc: B) -> Result<Pile<F, B>, AllocError>
        ensures { IfOk result (λ copy. copy ≡ self.now) }
    {
        let top = self.top.copy_in(&alloc)?;
        Ok(Pile {
            top,
            free: self.free,
            depth: self.depth,
            alloc,
        })
    }
}
