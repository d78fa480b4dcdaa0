ghost use Rattle.std.specs.Prelude.{◌≡◌, List, IfOk};
ghost use Rattle.grid_world.specs.declared.cell.Answer.{Answer};
ghost use Rattle.game_rules.specs.View.{View};
ghost use Rattle.bt_tick.specs.Outcome.{means, place_of, tree_of};

use crate::machine::Machine;
use crate::tick::Pending;
use grid_world::Place;
use std::alloc::{AllocError, Allocator};

impl<'t, T: Allocator, A: Allocator> Pending<'t, T, A> {
    /// The place whose way is asked for.
    pub fn place(&self) -> Place
        ensures { result ≡ place_of self.now }
    {
        self.place
    }

    /// A copy whose open nodes and wants lie in `alloc`. It means what this tick means.
    pub fn copy_in<B: Allocator + Clone>(&self, alloc: B) -> Result<Pending<'t, T, B>, AllocError>
        ensures means { IfOk result (λ copy.
            (v : View) (more : List Answer) → means v copy more ≡ means v self.now more) }
        ensures place { IfOk result (λ copy. place_of copy ≡ place_of self.now) }
        ensures tree { IfOk result (λ copy. tree_of copy ≡ tree_of self.now) }
    {
        let memory = self.machine.memory.duplicate()?;
        let wants = self.machine.wants.to_vec(alloc.clone()?)?;
        let stack = self.machine.stack.copy_in(alloc)?;
        let machine = Machine {
            tree: self.machine.tree,
            memory,
            wants,
            stack,
        };
        Ok(Pending {
            machine,
            place: self.place,
            after: self.after,
        })
    }

    /// The same tick, whose open nodes and wants lie in `alloc`. Its memory of the tree is not copied.
    pub fn move_in<B: Allocator + Clone>(self, alloc: B) -> Result<Pending<'t, T, B>, AllocError>
        ensures means { IfOk result (λ moved.
            (v : View) (more : List Answer) → means v moved more ≡ means v self.entry more) }
        ensures place { IfOk result (λ moved. place_of moved ≡ place_of self.entry) }
        ensures tree { IfOk result (λ moved. tree_of moved ≡ tree_of self.entry) }
    {
        let kept = self.machine.wants.to_vec(alloc.clone()?)?;
        let open = self.machine.stack.copy_in(alloc)?;
        let Pending {
            machine,
            place,
            after,
        } = self;
        let Machine {
            tree,
            memory,
            wants: _,
            stack: _,
        } = machine;
        let machine = Machine {
            tree,
            memory,
            wants: kept,
            stack: open,
        };
        Ok(Pending {
            machine,
            place,
            after,
        })
    }
}
