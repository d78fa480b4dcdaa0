// The memory of an agent, as numbers.
ghost use Rattle.std.specs.Prelude.{◌≡◌, ◌<◌, [], IfOk, length, slice_index_or};
ghost use Rattle.bt_nodes.specs.Bounds.{Fits};
ghost use Rattle.bt_nodes.specs.Trees.{plain_of};

use crate::played::Stepping;
use bt_nodes::Tree;
use bt_tick::Memory;
use std::alloc::{AllocError, Global};

fn numbers_of(alloc: Global, tree: &Tree<Global>, memory: &Memory) -> Result<Vec<u16>, AllocError>
    requires { Fits (plain_of tree.now) memory.now }
    ensures { IfOk result (λ numbers. numbers.items ≡ memory.now) }
{
    let size = tree.size();
    let mut numbers = Vec::with_capacity(alloc, size as usize)?;
    'nodes: for node in 0..size {
        let Some(number) = memory.at(node) else {
            unreachable!()
        };
        numbers.push(number as u16)?;
    }
    Ok(numbers)
}

impl Stepping {
    /// The memory of an agent after the frame: a number for each node of its tree, in preorder.
    pub fn memory_of(&self, alloc: Global, agent: u32) -> Result<Vec<u16>, AllocError>
        requires { agent < length self.now.game.trees }
        ensures { IfOk result (λ numbers. numbers.items ≡ slice_index_or self.now.position.memories agent []) }
    {
        let tree = self.level().tree_of(agent);
        let memory = &self.memories()[agent as usize];
        numbers_of(alloc, tree, memory)
    }
}
