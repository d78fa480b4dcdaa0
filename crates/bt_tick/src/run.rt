// The machine's run from one question to the next.

ghost use Rattle.std.specs.Prelude.{◌≡◌, ◌∷◌, [], IfOk, MatchOption, drop};
ghost use Rattle.bt_nodes.specs.Bounds.{Fits};
ghost use Rattle.bt_nodes.specs.Trees.{plain_of};
ghost use Rattle.game_rules.specs.Tick.{State, gives, follow};
ghost use Rattle.game_rules.specs.Thought.{ticked, first_want};
ghost use Rattle.bt_tick.specs.Views.{view_of, IsInWorld};
ghost use Rattle.bt_tick.specs.Machine.{Placed, with_parts};
ghost use Rattle.bt_tick.specs.Outcome.{means, place_of, tree_of, machine_left, ComesTo, IsOutcome, IsOfTree};

use crate::leaf_result::{leaf_result, status_of};
use crate::machine::{Machine, Mode};
use crate::memory::Memory;
use crate::nearest::Nearest;
use crate::tick::{Outcome, Pending};
use crate::tick_fault::TickFault;
use crate::view::View;
use bt_nodes::{Node, Status, Tree};
use fiber_stack::{Frame, Stack};
use game_rules::LeafResult;
use grid_world::{Answer, Intent};
use std::alloc::{AllocError, Allocator};

// The intent of an agent with these wants.
fn first_want(wants: &[Intent]) -> Intent
    ensures { result ≡ first_want wants.now }
{
    match wants.first() {
        Some(intent) => *intent,
        None => Intent::Stay,
    }
}

impl<'t, T: Allocator, A: Allocator> Machine<'t, T, A> {
    // The innermost open node.
    #[inline(always)]
    fn innermost(&self) -> Option<Frame<'t, T>>
        ensures { MatchOption result (self.now.stack ≡ []) (λ frame. self.now.stack ≡ frame ∷ drop 1 self.now.stack) }
    {
        match self.stack.top() {
            None => None,
            Some(frame) => Some(*frame),
        }
    }
}

impl<'t, T: Allocator, A: Allocator + Clone> Machine<'t, T, A> {
    // Takes the answer to a question: the status of the `Move` that asked it, and its want.
    fn follow(&mut self, answer: Answer) -> Result<Status, AllocError>
        ensures follows { IfOk result (λ st. (s : State) →
            gives st (with_parts self.new.memory self.new.wants.items s) ≡ follow answer (with_parts self.old.memory self.old.wants.items s)) }
        ensures stack { self.new.stack ≡ self.old.stack }
        ensures tree { self.new.tree ≡ self.old.tree }
    {
        match answer {
            Answer::Here => Ok(Status::Success),
            Answer::NoWay => Ok(Status::Failure),
            Answer::Step(dir, _) => {
                self.want(Intent::Move(dir))?;
                Ok(Status::Running)
            }
        }
    }
}

// Runs a machine until its tick ends or asks.
fn run<'t, T: Allocator, A: Allocator + Clone>(
    view: &View,
    begun: Machine<'t, T, A>,
    start: Mode<'t, T>,
) -> Result<Outcome<'t, T, A>, AllocError>
    requires view { IsInWorld view.now }
    requires placed { Placed begun start }
    ensures comes { IfOk result (λ o.
        ComesTo (view_of view.now) [] o (machine_left (view_of view.now) begun.entry start.entry)) }
    ensures tree { IfOk result (λ o. IsOfTree (plain_of begun.entry.tree.now) o) }
{
    let mut machine = begun;
    let mut mode = start;
    let mut nearest = Nearest::Unknown;
    loop {
        match mode {
            Mode::Down(node, number) => {
                if let Node::Move(place) = node {
                    let place = *place;
                    let after = number + 1;
                    return Ok(Outcome::Asks {
                        place,
                        pending: Pending {
                            machine,
                            place,
                            after,
                        },
                    });
                }
                if let Some(leaf_result) = leaf_result(view, &mut nearest, node) {
                    let after = number + 1;
                    match leaf_result {
                        LeafResult::Says(holds) => mode = Mode::Up(status_of(holds), after),
                        LeafResult::Wants(intent) => {
                            machine.want(intent)?;
                            mode = Mode::Up(Status::Running, after);
                        }
                    }
                } else if let Node::Par(_, _) = node {
                    mode = machine.open_par(view, &mut nearest, node, number)?;
                } else {
                    mode = machine.descend(view, node, number)?;
                }
            }
            Mode::Up(status, at) => match machine.innermost() {
                None => {
                    let intent = first_want(&machine.wants);
                    let Machine {
                        tree: _,
                        memory,
                        wants: _,
                        stack: _,
                    } = machine;
                    return Ok(Outcome::Ended {
                        status,
                        memory,
                        intent,
                    });
                }
                Some(frame) => {
                    if let Node::Par(_, _) = frame.node {
                        mode = machine.ascend_par(view, &mut nearest, frame, status, at);
                    } else {
                        mode = machine.ascend(frame, status, at);
                    }
                }
            },
        }
    }
}

/// Begins a tick of an agent's tree. The memory fits the tree, and the agent is in the view's world. The tick's own
/// memory is taken from `alloc`: a chunk for each eight open nodes, and the list of wants.
pub fn begin<'t, T: Allocator, A: Allocator + Clone>(
    alloc: A,
    tree: &'t Tree<T>,
    view: &View,
    memory: Memory,
) -> Result<Outcome<'t, T, A>, TickFault>
    requires fits { Fits (plain_of tree.now) memory }
    requires agent { IsInWorld view.now }
    ensures outcome { IfOk result (λ o. IsOutcome o (ticked (view_of view.now) (plain_of tree.now) memory [])) }
    ensures comes { IfOk result (λ o.
        ComesTo (view_of view.now) [] o (ticked (view_of view.now) (plain_of tree.now) memory)) }
    ensures tree { IfOk result (λ o. IsOfTree (plain_of tree.now) o) }
{
    let stack = Stack::empty(alloc.clone()?);
    let machine = Machine {
        tree,
        memory,
        wants: Vec::new(alloc),
        stack,
    };
    Ok(run(view, machine, Mode::Down(tree.root(), 0))?)
}

/// Goes on with a tick that stands at a question, by the answer to it. The view is the one that it began with; its
/// memory goes on to be taken where it was taken so far.
pub fn resume<'t, T: Allocator, A: Allocator + Clone>(
    _alloc: A,
    pending: Pending<'t, T, A>,
    view: &View,
    answer: Answer,
) -> Result<Outcome<'t, T, A>, TickFault>
    requires agent { IsInWorld view.now }
    ensures outcome { IfOk result (λ o. IsOutcome o (means (view_of view.now) pending.entry (answer ∷ []))) }
    ensures comes { IfOk result (λ o.
        ComesTo (view_of view.now) (place_of pending.entry ∷ [])
        o (λ more. means (view_of view.now) pending.entry (answer ∷ more))) }
    ensures tree { IfOk result (λ o. IsOfTree (tree_of pending.entry) o) }
{
    let Pending {
        machine,
        place: _,
        after,
    } = pending;
    let mut machine = machine;
    let status = machine.follow(answer)?;
    Ok(run(view, machine, Mode::Up(status, after))?)
}
