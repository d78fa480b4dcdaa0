ghost use Rattle.std.specs.Prelude.{◌≡◌, ℕ, ◌<◌, List, length, slice_index, slice_set, slice_get, IfOk};
ghost use Rattle.bt_nodes.specs.Bounds.{Fits, zero_memory};
ghost use Rattle.bt_nodes.specs.Trees.{plain_of};

use bt_nodes::Tree;
use std::alloc::{AllocError, Allocator, Global};
use std::marker::Model;

/// An agent's memory of its tree: a number for each node, in preorder from 0. A tree's limits keep each below 2^16.
pub struct Memory {
    pub(crate) numbers: Vec<u16>,
}

impl Drop for Memory {
    fn drop(self) {
        let Self { numbers: _ } = self;
    }
}

impl Model for Memory {
    ghost Value = { List ℕ };

    ghost view = { λ m. m.numbers.items };
}

impl Memory {
    /// The memory with which an agent begins: all numbers are 0.
    pub fn zero<T: Allocator>(alloc: Global, tree: &Tree<T>) -> Result<Memory, AllocError>
        ensures zero { IfOk result (λ m. m ≡ zero_memory (plain_of tree.now)) }
        ensures fits { IfOk result (λ m. Fits (plain_of tree.now) m) }
    {
        Ok(Memory {
            numbers: vec![in alloc; 0; tree.size() as usize]?,
        })
    }

    /// A memory of these numbers, whatever tree it fits.
    pub fn of(numbers: Vec<u16>) -> Memory
        ensures { result ≡ numbers.items }
    {
        Memory { numbers }
    }

    /// The same numbers, in memory of `alloc`. Takes time linear in the number of nodes.
    pub fn copy(&self, alloc: Global) -> Result<Memory, AllocError>
        ensures { IfOk result (λ m. m ≡ self.now) }
    {
        Ok(Memory {
            numbers: self.numbers.to_vec(alloc)?,
        })
    }

    /// The number of a node, if there is one with this number in preorder.
    pub fn at(&self, node: u64) -> Option<u64>
        ensures { result ≡ slice_get self.now node }
    {
        match self.numbers.get(node as usize) {
            Some(number) => Some(u64::from(*number)),
            None => None,
        }
    }

    // A copy where this memory lies.
    pub(crate) fn duplicate(&self) -> Result<Memory, AllocError>
        ensures { IfOk result (λ m. m ≡ self.now) }
    {
        Ok(Memory {
            numbers: self.numbers.clone()?,
        })
    }

    // The number of a node.
    pub(crate) fn number(&self, node: u64) -> u16
        requires { node < length self.now }
        ensures { result ≡ slice_index self.now node }
    {
        self.numbers[node as usize]
    }

    // Changes the number of a node.
    pub(crate) fn set(&mut self, node: u64, number: u16)
        requires { node < length self.old }
        ensures { self.new ≡ slice_set self.old node number }
    {
        self.numbers[node as usize] = number;
    }
}
