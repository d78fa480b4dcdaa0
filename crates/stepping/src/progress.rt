ghost use Rattle.std.specs.Prelude.{◌≡◌, ◌<◌, ◌+◌, ◌^◌, ℕ, List, [], IfOk, length, slice_index, replicate, None};
ghost use Rattle.grid_world.specs.declared.cell.Answer.{Answer};
ghost use Rattle.bt_nodes.specs.Bounds.{Fits};
ghost use Rattle.bt_nodes.specs.Sizes.{size};
ghost use Rattle.bt_nodes.specs.Trees.{plain_of};
ghost use Rattle.stepping.specs.Observing.{seen, with_number, with_count, given_up, with_want, with_told};

use crate::counter::Counter;
use bt_nodes::{Status, Tree};
use bt_tick::Memory;
use grid_world::{Intent, Place};
use std::alloc::{AllocError, Allocator, Global};

/// An observed tick on its way.
#[derive(Drop)]
pub(crate) struct Progress {
    /// The memory, a number for each node.
    pub(crate) numbers: Vec<u64>,
    pub(crate) wants: Vec<Intent>,
    pub(crate) asked: Vec<Place>,
    /// How many answers were taken.
    pub(crate) used: usize,
    /// What each node has answered so far.
    pub(crate) told: Vec<Option<Status>>,
}

fn numbers_of(alloc: Global, memory: &Memory, nodes: u64) -> Result<Vec<u64>, AllocError>
    requires { nodes ≡ length memory.now }
    ensures { IfOk result (λ numbers. numbers.items ≡ memory.now) }
{
    let mut numbers = Vec::with_capacity(alloc, nodes as usize)?;
    'nodes: for node in 0..nodes {
        match memory.at(node) {
            Some(number) => numbers.push(number)?,
            None => unreachable!(),
        }
    }
    Ok(numbers)
}

impl Progress {
    /// Before the tick of a tree.
    pub(crate) fn begin<T: Allocator>(
        alloc: Global,
        tree: &Tree<T>,
        memory: &Memory,
    ) -> Result<Progress, AllocError>
        requires { Fits (plain_of tree.now) memory.now }
        ensures { IfOk result (λ p. (answers : List Answer) → seen answers p
            ≡ record { state = record { memory = memory.now; wants = []; asked = []; left = answers }; told = replicate (size (plain_of tree.now)) None }) }
    {
        let nodes = tree.size();
        Ok(Progress {
            numbers: numbers_of(alloc, memory, nodes)?,
            wants: Vec::new(alloc),
            asked: Vec::new(alloc),
            used: 0,
            told: vec![in alloc; None; nodes as usize]?,
        })
    }

    /// The number of a node.
    pub(crate) fn number(&self, node: u64) -> u64
        requires { node < length self.now.numbers.items }
        ensures { result ≡ slice_index self.now.numbers.items node }
    {
        self.numbers[node as usize]
    }

    /// Changes the number of a node.
    pub(crate) fn put(&mut self, node: u64, number: u64)
        requires { node < length self.old.numbers.items }
        ensures { (answers : List Answer) → seen answers self.new ≡ with_number node number (seen answers self.old) }
    {
        self.numbers[node as usize] = number;
    }

    /// Counts a tick of a decorator's child, where so many were counted, by what the child has answered. Ticks are counted anew
    /// where it has ended.
    pub(crate) fn count(&mut self, by: Counter, node: u64, past: u64, reply: Option<Status>)
        requires node { node < length self.old.numbers.items }
        requires few { past + 1 < 2 ^ 64 }
        ensures { (answers : List Answer) → seen answers self.new ≡ with_count by node past reply (seen answers self.old) }
    {
        match (by, reply) {
            (Counter::Failures, Some(Status::Failure)) => self.put(node, past + 1),
            (Counter::Failures, _) => {}
            (Counter::Ticks, Some(Status::Running)) => self.put(node, past + 1),
            (Counter::Ticks, Some(_)) => self.put(node, 0),
            (Counter::Ticks, None) => {}
        }
    }

    /// Lets a decorator fail whose number has come to its most: ticks are counted anew, failures are not.
    pub(crate) fn give_up(&mut self, by: Counter, node: u64)
        requires { node < length self.old.numbers.items }
        ensures { (answers : List Answer) → seen answers self.new ≡ given_up by node (seen answers self.old) }
    {
        match by {
            Counter::Failures => {}
            Counter::Ticks => self.put(node, 0),
        }
    }

    pub(crate) fn want(&mut self, intent: Intent) -> Result<(), AllocError>
        ensures { IfOk result (λ _. (answers : List Answer) → seen answers self.new ≡ with_want intent (seen answers self.old)) }
    {
        self.wants.push(intent)?;
        Ok(())
    }

    /// Writes down what a node answers, if it does.
    pub(crate) fn tell(&mut self, node: u64, reply: Option<Status>)
        requires { node < length self.old.told.items }
        ensures { (answers : List Answer) → seen answers self.new ≡ with_told node reply (seen answers self.old) }
    {
        if let Some(status) = reply {
            self.told[node as usize] = Some(status);
        }
    }
}
