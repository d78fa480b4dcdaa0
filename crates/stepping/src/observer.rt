// A tick once more, node by node, that writes down what each node answers.
ghost use Rattle.std.specs.Prelude.{◌≡◌, ◌+◌, ◌≤◌, ◌<◌, ◌^◌, ℕ, [], true, None, IfOk, IfSome};
ghost use Rattle.bt_nodes.specs.Heads.{is_leaf};
ghost use Rattle.bt_nodes.specs.Plain.{Move, Wait, none, plain, plains};
ghost use Rattle.bt_nodes.specs.Sizes.{size};
ghost use Rattle.bt_nodes.specs.Trees.{plain_of};
ghost use Rattle.bt_tick.specs.Views.{view_of, IsInWorld};
ghost use Rattle.game_rules.specs.Tick.{tick, tick_line, tick_star, tick_all, verdict};
ghost use Rattle.stepping.specs.Answered.{below, below_line, below_star, below_all, answered};
ghost use Rattle.stepping.specs.Observing.{seen, kind_of, not_of, counted, counting, HasRoom, Observes, StandsAt, StandAt, IsFirst};

use crate::counter::Counter;
use crate::leaf::leaf;
use crate::order::Order;
use crate::progress::Progress;
use bt_nodes::{Node, Status, Tree};
use bt_tick::View;
use grid_world::{Answer, Intent, Place};
use std::alloc::{AllocError, Global};

/// What a tick is observed with: the whole tree, what the agent sees, and the answers to its path questions.
#[derive(Clone, Copy)]
pub(crate) struct Observer<'t, 'v, 'w, 'a> {
    pub(crate) alloc: Global,
    pub(crate) tree: &'t Tree<Global>,
    pub(crate) view: &'v View<'w>,
    pub(crate) answers: &'a [Answer],
}

fn opposite(reply: Option<Status>) -> Option<Status>
    ensures { result ≡ not_of reply }
{
    match reply {
        Some(Status::Success) => Some(Status::Failure),
        Some(Status::Failure) => Some(Status::Success),
        Some(Status::Running) => Some(Status::Running),
        None => None,
    }
}

// Of so many children, these have succeeded and failed; `most` successes are enough.
fn verdict(most: u64, children: u64, won: u64, lost: u64) -> Status
    ensures { result ≡ verdict most children won lost }
{
    if won >= most {
        return Status::Success;
    }
    if lost > children.saturating_sub(most) {
        return Status::Failure;
    }
    Status::Running
}

// So many children have succeeded and failed, with one more of this status.
fn counted(status: Status, won: u64, lost: u64) -> (u64, u64)
    requires { won + lost + 1 < 2 ^ 64 }
    ensures { result ≡ counted status won lost }
{
    match status {
        Status::Success => (won + 1, lost),
        Status::Failure => (won, lost + 1),
        Status::Running => (won, lost),
    }
}

impl Observer<'_, '_, '_, '_> {
    // Ticks a `Move`: takes the next answer.
    fn follow(&self, at: &mut Progress, place: Place) -> Result<Option<Status>, AllocError>
        requires room { HasRoom (plain_of self.now.tree.now) (seen self.now.answers.now at.old) }
        ensures { IfOk result (λ reply. (n : ℕ) → Observes self.now (tick (view_of self.now.view.now) (Move place) n) (λ s. []) at.old reply at.new) }
    {
        at.asked.push(place)?;
        let Some(answer) = self.answers.get(at.used) else {
            return Ok(None);
        };
        at.used += 1;
        match *answer {
            Answer::Here => Ok(Some(Status::Success)),
            Answer::NoWay => Ok(Some(Status::Failure)),
            Answer::Step(dir, _) => {
                at.want(Intent::Move(dir))?;
                Ok(Some(Status::Running))
            }
        }
    }

    // Ticks a node that has no child and asks nothing.
    fn act(&self, at: &mut Progress, node: &Node<Global>) -> Result<Option<Status>, AllocError>
        requires view { IsInWorld self.now.view.now }
        requires leaf { is_leaf (plain node.now) ≡ true }
        requires room { HasRoom (plain_of self.now.tree.now) (seen self.now.answers.now at.old) }
        ensures { IfOk result (λ reply. (n : ℕ) → Observes self.now (tick (view_of self.now.view.now) (plain node.now) n) (below (view_of self.now.view.now) (plain node.now) n) at.old reply at.new) }
    {
        let (status, intent) = leaf(self.alloc, self.view, node)?;
        if let Status::Running = status {
            at.want(intent)?;
        }
        Ok(Some(status))
    }

    // Ticks a `Wait`.
    fn wait(&self, at: &mut Progress, most: u64, number: u64) -> Option<Status>
        requires stands { StandsAt (plain_of self.now.tree.now) number (Wait most) }
        requires room { HasRoom (plain_of self.now.tree.now) (seen self.now.answers.now at.old) }
        ensures { Observes self.now (tick (view_of self.now.view.now) (Wait most) number) (λ s. []) at.old result at.new }
    {
        let past = at.number(number);
        if past < most {
            at.put(number, past + 1);
            return Some(Status::Running);
        }
        at.put(number, 0);
        Some(Status::Success)
    }

    // The first of some nodes behind one another, those behind it, and the number of the first of those.
    fn first<'n>(
        &self,
        nodes: &'n [Node<Global>],
        number: u64,
    ) -> Option<(&'n Node<Global>, &'n [Node<Global>], u64)>
        requires { StandAt (plain_of self.now.tree.now) number (plains nodes.now) }
        ensures first { IfSome result (λ f. IsFirst (plain_of self.now.tree.now) (plains nodes.now) number (plain f.0.now) (plains f.1.now) f.2) }
        ensures none { result ≡ None → plains nodes.now ≡ none }
    {
        let Some((node, rest)) = nodes.split_first() else {
            return None;
        };
        let next = number + self.tree.size_at(number);
        Some((node, rest, next))
    }

    /// Ticks a node, which has this number, and writes down what it and all below it answer. None where it stands at a question
    /// that has no answer.
    #[cycle(observe)]
    pub(crate) fn observe(
        &self,
        at: &mut Progress,
        node: &Node<Global>,
        number: u64,
    ) -> Result<Option<Status>, AllocError>
        requires view { IsInWorld self.now.view.now }
        requires stands { StandsAt (plain_of self.now.tree.now) number (plain node.now) }
        requires room { HasRoom (plain_of self.now.tree.now) (seen self.now.answers.now at.old) }
        ensures { IfOk result (λ reply. Observes self.now
            (tick (view_of self.now.view.now) (plain node.now) number) (answered (view_of self.now.view.now) (plain node.now) number) at.old reply at.new) }
    {
        let reply = self.tick(at, node, number)?;
        at.tell(number, reply);
        Ok(reply)
    }

    // Ticks a node, and writes down what all below it answer.
    #[cycle(observe)]
    fn tick(
        &self,
        at: &mut Progress,
        node: &Node<Global>,
        number: u64,
    ) -> Result<Option<Status>, AllocError>
        requires view { IsInWorld self.now.view.now }
        requires stands { StandsAt (plain_of self.now.tree.now) number (plain node.now) }
        requires room { HasRoom (plain_of self.now.tree.now) (seen self.now.answers.now at.old) }
        ensures { IfOk result (λ reply. Observes self.now
            (tick (view_of self.now.view.now) (plain node.now) number) (below (view_of self.now.view.now) (plain node.now) number) at.old reply at.new) }
    {
        let below = number + 1;
        let own = at.number(number);
        match node {
            Node::Seq(children) => Ok(self.line(at, children, Order::Seq, below)?),
            Node::Fallback(children) => Ok(self.line(at, children, Order::Fallback, below)?),
            Node::SeqStar(children) => {
                Ok(self.star(at, children, Order::Seq, own, 0, number, below)?)
            }
            Node::FallbackStar(children) => {
                Ok(self.star(at, children, Order::Fallback, own, 0, number, below)?)
            }
            Node::Par(most, children) => {
                let count = children.len() as u64;
                Ok(self.all(at, children, *most, count, 0, 0, below)?)
            }
            Node::Not(child) => Ok(opposite(self.observe(at, child, below)?)),
            Node::Tries(most, child) => {
                Ok(self.count(at, Counter::Failures, *most, child, number)?)
            }
            Node::Ticks(most, child) => Ok(self.count(at, Counter::Ticks, *most, child, number)?),
            Node::Wait(most) => Ok(self.wait(at, *most, number)),
            Node::Move(place) => Ok(self.follow(at, *place)?),
            _ => Ok(self.act(at, node)?),
        }
    }

    // A decorator that counts, and fails without its child where its number has come to `most`.
    #[cycle(observe)]
    fn count(
        &self,
        at: &mut Progress,
        by: Counter,
        most: u64,
        child: &Node<Global>,
        number: u64,
    ) -> Result<Option<Status>, AllocError>
        requires view { IsInWorld self.now.view.now }
        requires stands { StandsAt (plain_of self.now.tree.now) number (counting by most (plain child.now)) }
        requires room { HasRoom (plain_of self.now.tree.now) (seen self.now.answers.now at.old) }
        ensures { IfOk result (λ reply. Observes self.now
            (tick (view_of self.now.view.now) (counting by most (plain child.now)) number) (below (view_of self.now.view.now) (counting by most (plain child.now)) number) at.old reply at.new) }
    {
        let past = at.number(number);
        if past >= most {
            at.give_up(by, number);
            return Ok(Some(Status::Failure));
        }
        let reply = self.observe(at, child, number + 1)?;
        at.count(by, number, past, reply);
        Ok(reply)
    }

    // The children that are left of a `Seq` or a `Fallback`.
    #[cycle(observe)]
    fn line(
        &self,
        at: &mut Progress,
        nodes: &[Node<Global>],
        order: Order,
        number: u64,
    ) -> Result<Option<Status>, AllocError>
        requires view { IsInWorld self.now.view.now }
        requires stand { StandAt (plain_of self.now.tree.now) number (plains nodes.now) }
        requires room { HasRoom (plain_of self.now.tree.now) (seen self.now.answers.now at.old) }
        ensures { IfOk result (λ reply. Observes self.now
            (tick_line (view_of self.now.view.now) (plains nodes.now) (kind_of order) number) (below_line (view_of self.now.view.now) (plains nodes.now) (kind_of order) number) at.old reply at.new) }
    {
        let Some((node, rest, next)) = self.first(nodes, number) else {
            return Ok(Some(order.goes()));
        };
        let reply = self.observe(at, node, number)?;
        if order.goes_on(reply) {
            return Ok(self.line(at, rest, order, next)?);
        }
        Ok(reply)
    }

    // The children of a `SeqStar` or a `FallbackStar`, `own`, from one on that has this index, of which the first are passed over.
    #[cycle(observe)]
    fn star(
        &self,
        at: &mut Progress,
        nodes: &[Node<Global>],
        order: Order,
        passed: u64,
        index: u64,
        own: u64,
        number: u64,
    ) -> Result<Option<Status>, AllocError>
        requires view { IsInWorld self.now.view.now }
        requires stand { StandAt (plain_of self.now.tree.now) number (plains nodes.now) }
        requires room { HasRoom (plain_of self.now.tree.now) (seen self.now.answers.now at.old) }
        requires own { own < size (plain_of self.now.tree.now) }
        requires few { index < number }
        ensures { IfOk result (λ reply. Observes self.now
            (tick_star (view_of self.now.view.now) (plains nodes.now) (kind_of order) passed index own number) (below_star (view_of self.now.view.now) (plains nodes.now) (kind_of order) passed index own number) at.old reply at.new) }
    {
        let Some((node, rest, next)) = self.first(nodes, number) else {
            at.put(own, 0);
            return Ok(Some(order.goes()));
        };
        if passed > 0 {
            return Ok(self.star(at, rest, order, passed - 1, index + 1, own, next)?);
        }
        let reply = self.observe(at, node, number)?;
        if order.goes_on(reply) {
            at.put(own, index + 1);
            return Ok(self.star(at, rest, order, 0, index + 1, own, next)?);
        }
        if order.stops(reply) {
            at.put(own, 0);
        }
        Ok(reply)
    }

    // The children that are left of a `Par` of so many.
    #[cycle(observe)]
    fn all(
        &self,
        at: &mut Progress,
        nodes: &[Node<Global>],
        most: u64,
        count: u64,
        won: u64,
        lost: u64,
        number: u64,
    ) -> Result<Option<Status>, AllocError>
        requires view { IsInWorld self.now.view.now }
        requires stand { StandAt (plain_of self.now.tree.now) number (plains nodes.now) }
        requires room { HasRoom (plain_of self.now.tree.now) (seen self.now.answers.now at.old) }
        requires few { won + lost < number }
        ensures { IfOk result (λ reply. Observes self.now
            (tick_all (view_of self.now.view.now) (plains nodes.now) most count won lost number) (below_all (view_of self.now.view.now) (plains nodes.now) number) at.old reply at.new) }
    {
        let Some((node, rest, next)) = self.first(nodes, number) else {
            return Ok(Some(verdict(most, count, won, lost)));
        };
        let reply = self.observe(at, node, number)?;
        let Some(status) = reply else {
            return Ok(None);
        };
        let (won, lost) = counted(status, won, lost);
        Ok(self.all(at, rest, most, count, won, lost, next)?)
    }
}
