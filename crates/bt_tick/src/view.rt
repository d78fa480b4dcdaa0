ghost use Rattle.std.specs.Prelude.{◌≡◌, ◌<◌};
ghost use Rattle.grid_world.specs.Grid.{is_spot, steps_between};
ghost use Rattle.grid_world.specs.World.{IsStanding};
ghost use Rattle.game_rules.specs.View.{self_of};

use crate::nearest::Nearest;
use grid_world::{Agent, Cell, Place, Signal, Signals, World};

/// What an agent sees in a frame: the world of the frame before, the signals of the frame, and its own number.
#[derive(Clone, Copy)]
pub struct View<'w> {
    pub world: &'w World,
    pub signals: Signals,
    pub agent: u32,
}

// How many columns and rows lie between two agents.
fn distance(a: Agent, b: Agent) -> u64
    ensures { result ≡ steps_between a b }
{
    u64::from(a.x.abs_diff(b.x)) + u64::from(a.y.abs_diff(b.y))
}

fn is_spot(place: Place, cell: Cell) -> bool
    ensures { result ≡ is_spot place cell }
{
    match cell {
        Cell::Spot(here) => here.number() == place.number(),
        Cell::Wall | Cell::Floor | Cell::Door(_) => false,
    }
}

impl View<'_> {
    ghost use Rattle.bt_tick.specs.Views.{view_of, IsInWorld, Tells};
    ghost use Rattle.game_rules.specs.View.{carries, is_on_item, stands_on, has_signal, can_give};

    fn itself(&self) -> Agent
        requires { IsInWorld self.now }
        ensures value { result ≡ self_of (view_of self.now) }
        ensures standing { IsStanding self.now.world.now result }
    {
        self.world.agents()[self.agent as usize]
    }

    pub(crate) fn carries(&self) -> bool
        requires { IsInWorld self.now }
        ensures { result ≡ carries (view_of self.now) }
    {
        self.itself().carrying
    }

    pub(crate) fn is_on_item(&self) -> bool
        requires { IsInWorld self.now }
        ensures { result ≡ is_on_item (view_of self.now) }
    {
        let me = self.itself();
        self.world.has_item(me.x, me.y)
    }

    pub(crate) fn stands_on(&self, place: Place) -> bool
        requires { IsInWorld self.now }
        ensures { result ≡ stands_on (view_of self.now) place }
    {
        let me = self.itself();
        match self.world.cell(me.x, me.y) {
            Some(cell) => is_spot(place, cell),
            None => false,
        }
    }

    pub(crate) fn has_signal(&self, signal: Signal) -> bool
        ensures { result ≡ has_signal (view_of self.now) signal }
    {
        self.signals.is_on(signal)
    }

    // Whether the agent carries an item, and the agent with this number stands one step away with empty hands.
    pub(crate) fn can_give(&self, agent: u32) -> bool
        requires { IsInWorld self.now }
        ensures { result ≡ can_give (view_of self.now) agent }
    {
        let me = self.itself();
        let others = self.world.agents();
        if agent as usize >= others.len() {
            return false;
        }
        let other = others[agent as usize];
        me.carrying && !other.carrying && distance(me, other) == 1
    }

    // How far away the nearest other agent is.
    pub(crate) fn nearest(&self) -> Nearest
        requires { IsInWorld self.now }
        ensures { Tells (view_of self.now) result }
    {
        let me = self.itself();
        let mut nearest = Nearest::Alone;
        'agents: for (number, other) in self.world.agents().iter().enumerate() {
            if number as u64 != u64::from(self.agent) {
                nearest = nearest.or(distance(me, *other));
            }
        }
        nearest
    }
}
