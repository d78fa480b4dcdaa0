ghost use Rattle.std.specs.Prelude.{◌≡◌, ◌+◌, ◌^◌, ◌<◌, ◌≤◌, ◌++◌, length, None, IfOk, OnOk, slice_index_or};
ghost use Rattle.bt_nodes.specs.Plain.{plain, plains};
ghost use Rattle.bt_nodes.specs.Sizes.{size, sizes};
ghost use Rattle.tick_text.specs.Lines.{way_note, node_line, node_lines, forest_lines};
ghost use Rattle.tick_text.specs.Seen.{tick_of};

use crate::lines::{push_answer, push_change, push_indent, push_node, push_way};
use bt_nodes::{Node, Status};
use byte_streams::push_number;
use grid_world::Signals;
use std::alloc::{AllocError, Global};
use stepping::Stepping;

/// An agent's tick in the frame after the one of a game.
#[derive(Drop)]
pub(crate) struct SeenTick<'g> {
    pub(crate) game: &'g Stepping,
    pub(crate) signals: Signals,
    pub(crate) agent: u32,
    /// What each node answered, and the memory before and after.
    pub(crate) answers: Vec<Option<Status>>,
    pub(crate) before: Vec<u16>,
    pub(crate) after: Vec<u16>,
}

impl SeenTick<'_> {
    fn answer(&self, node: u64) -> Option<Status>
        ensures { result ≡ slice_index_or (tick_of self.now).answers node None }
    {
        match self.answers.get(node as usize) {
            Some(answer) => *answer,
            None => None,
        }
    }

    // The number of a node before the tick and after it.
    fn numbers(&self, node: u64) -> (u16, u16)
        ensures before { result.0 ≡ slice_index_or (tick_of self.now).before node 0 }
        ensures after { result.1 ≡ slice_index_or (tick_of self.now).after node 0 }
    {
        match (
            self.before.get(node as usize),
            self.after.get(node as usize),
        ) {
            (Some(before), Some(after)) => (*before, *after),
            (Some(before), None) => (*before, 0),
            (None, Some(after)) => (0, *after),
            (None, None) => (0, 0),
        }
    }

    // Appends the way that a `Move` got, if it was ticked.
    fn push_way_of(
        &self,
        alloc: Global,
        text: &mut Vec<u8>,
        node: &Node<Global>,
        answer: Option<Status>,
    ) -> Result<(), AllocError>
        requires { self.now.agent < length self.now.game.now.game.trees }
        ensures { OnOk result (text.new.items ≡ text.old.items ++ way_note (tick_of self.now).view (plain node.now) answer) }
    {
        match (node, answer) {
            (Node::Move(place), Some(_)) => {
                let way = self.game.way_to(alloc, self.signals, self.agent, *place)?;
                push_way(text, way)
            }
            _ => Ok(()),
        }
    }

    fn push_line(
        &self,
        alloc: Global,
        text: &mut Vec<u8>,
        node: &Node<Global>,
        number: u64,
        depth: u64,
    ) -> Result<(), AllocError>
        requires { self.now.agent < length self.now.game.now.game.trees }
        ensures { OnOk result (text.new.items ≡ text.old.items ++ node_line (tick_of self.now) (plain node.now) number depth) }
    {
        let answer = self.answer(number);
        let (before, after) = self.numbers(number);
        push_answer(text, answer)?;
        push_number(text, b" ", number)?;
        text.extend_from_slice(b" ")?;
        push_indent(text, depth)?;
        push_node(text, node)?;
        self.push_way_of(alloc, text, node, answer)?;
        push_change(text, before, after)?;
        text.extend_from_slice(b"\n")
    }

    // Appends the lines of a node and of those below it, and gives the number of the node behind them.
    #[cycle(lines)]
    pub(crate) fn push_tree(
        &self,
        alloc: Global,
        text: &mut Vec<u8>,
        node: &Node<Global>,
        number: u64,
        depth: u64,
    ) -> Result<u64, AllocError>
        requires agent { self.now.agent < length self.now.game.now.game.trees }
        requires few { number + size (plain node.now) < 2 ^ 63 }
        requires deep { depth ≤ number }
        ensures text { OnOk result (text.new.items ≡ text.old.items ++ node_lines (tick_of self.now) (plain node.now) number depth) }
        ensures next { IfOk result (λ next. next ≡ number + size (plain node.now)) }
    {
        self.push_line(alloc, text, node, number, depth)?;
        match node.decorated() {
            Some(child) => self.push_tree(alloc, text, child, number + 1, depth + 1),
            None => self.push_trees(alloc, text, node.listed(), number + 1, depth + 1),
        }
    }

    #[cycle(lines)]
    fn push_trees(
        &self,
        alloc: Global,
        text: &mut Vec<u8>,
        nodes: &[Node<Global>],
        number: u64,
        depth: u64,
    ) -> Result<u64, AllocError>
        requires agent { self.now.agent < length self.now.game.now.game.trees }
        requires few { number + sizes (plains nodes.now) < 2 ^ 63 }
        requires deep { depth ≤ number }
        ensures text { OnOk result (text.new.items ≡ text.old.items ++ forest_lines (tick_of self.now) (plains nodes.now) number depth) }
        ensures next { IfOk result (λ next. next ≡ number + sizes (plains nodes.now)) }
    {
        let mut next = number;
        'nodes: for node in nodes {
            next = self.push_tree(alloc, text, node, next, depth)?;
        }
        Ok(next)
    }
}
