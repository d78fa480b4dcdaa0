ghost use Rattle.std.specs.Prelude.{◌≡◌, [], ◌∷◌, drop, reverse, IfOk, MatchResult};
ghost use Rattle.fiber_stack.specs.Links.{chunks};

use crate::eight::Eight;
use std::alloc::{AllocError, Allocator};
use std::mem;

/// The chunks of a stack from some one on, the upper ones first.
#[cycle(links)]
pub(crate) enum Link<F: Copy, A: Allocator> {
    End,
    More(Box<Chunk<F, A>, A>),
}

/// Eight values, and the chunks below.
#[derive(Drop)]
#[cycle(links)]
pub(crate) struct Chunk<F: Copy, A: Allocator> {
    pub(crate) eight: Eight<F>,
    pub(crate) below: Link<F, A>,
}

// A loop, for a derived drop would call itself once for each chunk.
impl<F: Copy, A: Allocator> Drop for Link<F, A> {
    fn drop(mut self) {
        loop {
            match self {
                Link::End => return,
                Link::More(chunk) => {
                    let Chunk { eight: _, below } = Box::into_inner(chunk);
                    self = below;
                }
            }
        }
    }
}

impl<F: Copy, A: Allocator> Link<F, A> {
    /// Puts a chunk on top of these. Where memory is refused they are unchanged.
    pub(crate) fn push(&mut self, alloc: A, eight: Eight<F>) -> Result<(), AllocError>
        ensures { MatchResult result (λ done. chunks self.new ≡ eight ∷ chunks self.old)
            (λ refused. chunks self.new ≡ chunks self.old) }
    {
        let chunk = Chunk {
            eight,
            below: Link::End,
        };
        let mut chunk = Box::new(alloc, chunk)?;
        chunk.below = mem::replace(self, Link::End);
        *self = Link::More(chunk);
        Ok(())
    }

    // These chunks without the first, whose memory is given back.
    fn below(self) -> Link<F, A>
        ensures { chunks result ≡ drop 1 (chunks self) }
    {
        match self {
            Link::End => Link::End,
            Link::More(chunk) => {
                let Chunk { eight: _, below } = Box::into_inner(chunk);
                below
            }
        }
    }

    /// Takes the first chunk off, and gives its memory back.
    pub(crate) fn pop(&mut self)
        ensures { chunks self.new ≡ drop 1 (chunks self.old) }
    {
        *self = mem::replace(self, Link::End).below();
    }

    /// The same chunks in the other order.
    fn reversed(mut self) -> Link<F, A>
        ensures { chunks result ≡ reverse (chunks self) }
    {
        let mut turned = Link::End;
        'boxes: loop {
            match self {
                Link::End => return turned,
                Link::More(mut chunk) => {
                    self = mem::replace(&mut chunk.below, turned);
                    turned = Link::More(chunk);
                }
            }
        }
    }

    /// A copy in `alloc`, made in the other order and then turned, so that no call nests in another.
    pub(crate) fn copy_in<B: Allocator + Clone>(&self, alloc: &B) -> Result<Link<F, B>, AllocError>
        ensures { IfOk result (λ copy. chunks copy ≡ chunks self.now) }
    {
        let mut turned = Link::End;
        let mut rest = self;
        'chunks: while let Link::More(chunk) = rest {
            let copy = Chunk {
                eight: chunk.eight,
                below: turned,
            };
            turned = Link::More(Box::new(alloc.clone()?, copy)?);
            rest = &chunk.below;
        }
        Ok(turned.reversed())
    }
}
