// How the intents of a frame change a world.
ghost use Rattle.std.specs.Prelude.{[], ◌≡◌, ◌≢◌, ◌↔◌, ◌<◌, length, option_map, Err, IfOk, OnOk, OnErr, unwrap_or};
ghost use Rattle.grid_world.specs.Grid.{agent_of, point_of, steps_between};
ghost use Rattle.grid_world.specs.Intents.{apply, apply_all, loaded, moved};
ghost use Rattle.grid_world.specs.Walks.{next};
ghost use Rattle.grid_world.specs.World.{IsWorld, point};
ghost use Rattle.grid_world.specs.declared.cell.Intent.TheVariants.{Take, Drop, Give};
ghost use Rattle.grid_world.specs.declared.fault.ResolveFault.TheVariants.{Count};

use super::{World, agent_on};
use crate::cell::{Agent, Dir, Intent};
use crate::fault::ResolveFault;
use crate::ground::Ground;
use crate::items::{ChangedItems, Items};
use crate::signal::Signals;
use std::alloc::{AllocError, Global};
use std::marker::Model;
use std::sync::Arc;

/// The world after a frame's intents, one for each agent by number, each applied to the world as changed so far.
///
/// A move leads to an open cell on which no agent stands at that point; an agent takes an item of its
/// cell with empty hands, drops its item where none lies, and gives it to an agent with empty hands that stands one
/// step away at that point. What can't be done changes nothing.
/// Each move looks at all agents, so time grows with their number times the number of moves; where an item is
/// taken or dropped, it copies a byte for each cell once: the ground is shared with `world`, and the items as
/// long as they are the same.
pub fn resolve(
    alloc: Global,
    world: &World,
    signals: Signals,
    intents: &[Intent],
) -> Result<World, ResolveFault>
    ensures ok { IfOk result (λ after. after ≡ apply_all world.now signals 0 intents.now) }
    ensures counted { OnOk result (length intents.now ≡ length world.now.agents) }
    ensures count { result ≡ Err Count ↔ (length intents.now ≢ length world.now.agents) }
{
    if intents.len() != world.agents().len() {
        return Err(ResolveFault::Count);
    }
    let (items, crew) = Changed::by(alloc, world, signals, intents)?.parts();
    let has_item = match items {
        Some(items) => items,
        None => world.has_item.share()?,
    };
    Ok(World {
        ground: Arc::try_clone(&world.ground)?,
        has_item,
        crew,
    })
}

impl World {
    /// As `resolve`, in place: what is shared with other worlds is not counted anew, but for items that change. At Err
    /// the world is as it was.
    pub fn resolve(
        &mut self,
        alloc: Global,
        signals: Signals,
        intents: &[Intent],
    ) -> Result<(), ResolveFault>
        ensures ok { OnOk result (self.new ≡ apply_all self.old signals 0 intents.now) }
        ensures counted { OnOk result (length intents.now ≡ length self.old.agents) }
        ensures count { result ≡ Err Count ↔ (length intents.now ≢ length self.old.agents) }
        ensures err { OnErr result (self.new ≡ self.old) }
    {
        if intents.len() != self.agents().len() {
            return Err(ResolveFault::Count);
        }
        let (items, crew) = Changed::by(alloc, self, signals, intents)?.parts();
        self.crew = crew;
        match items {
            Some(items) => self.has_item = items,
            None => {}
        }
        Ok(())
    }
}

fn neighbour(dir: Dir, x: u32, y: u32) -> Option<(u32, u32)>
    requires column { x < 128 }
    requires row { y < 128 }
    ensures { option_map (λ cell. point cell.0 cell.1) result ≡ next dir (point x y) }
{
    match dir {
        Dir::North => { if y == 0 { None } else { Some((x, y - 1)) } }
        Dir::East => Some((x + 1, y)),
        Dir::South => Some((x, y + 1)),
        Dir::West => { if x == 0 { None } else { Some((x - 1, y)) } }
    }
}

// How many columns and rows lie between two agents.
fn steps_between(a: Agent, b: Agent) -> u64
    ensures { result ≡ steps_between a b }
{
    u64::from(a.x.abs_diff(b.x)) + u64::from(a.y.abs_diff(b.y))
}

// A world as the intents of a frame have changed it so far, and the items of before.
struct Changed<'w> {
    ground: &'w Ground,
    has_item: ChangedItems<'w>,
    crew: Vec<Agent>,
}

impl<'w> Drop for Changed<'w> {
    fn drop(self) {
        let Self {
            ground: _,
            has_item: _,
            crew: _,
        } = self;
    }
}

impl<'w> Model for Changed<'w> {
    ghost use Rattle.std.specs.Prelude.{List, Bool};
    ghost use Rattle.grid_world.specs.Grid.{Grid};
    ghost use Rattle.grid_world.specs.Ground.{furnished};
    ghost use Rattle.grid_world.specs.World.{IsWorld};

    ghost Value = { Grid × List Bool };

    ghost view = { λ c. (furnished c.ground.now c.has_item.0 c.crew.items, c.has_item.1) };

    ghost invariant = { λ c. IsWorld (furnished c.ground.now c.has_item.0 c.crew.items) };
}

impl<'w> Changed<'w> {
    // A world with the intents of all its agents applied.
    fn by(
        alloc: Global,
        world: &'w World,
        signals: Signals,
        intents: &[Intent],
    ) -> Result<Changed<'w>, AllocError>
        requires { length intents.now ≡ length world.now.agents }
        ensures world { IfOk result (λ after. after.0 ≡ apply_all world.now signals 0 intents.now) }
        ensures before { IfOk result (λ after. after.1 ≡ world.now.items) }
    {
        let mut after = Changed {
            ground: &world.ground,
            has_item: ChangedItems::of(&world.has_item),
            crew: Vec::from_slice(alloc, &world.crew)?,
        };
        'agents: for (number, intent) in intents.iter().enumerate() {
            after.apply(signals, number, *intent)?;
        }
        Ok(after)
    }

    // Its items, none where they are those of before, and its agents.
    fn parts(self) -> (Option<Items>, Vec<Agent>)
        ensures items { unwrap_or result.0 self.entry.1 ≡ self.entry.0.items }
        ensures agents { result.1.items ≡ self.entry.0.agents }
        ensures world { IsWorld self.entry.0 }
    {
        let Changed {
            ground: _,
            has_item,
            crew,
        } = self;
        (has_item.changed(), crew)
    }

    fn apply(&mut self, signals: Signals, number: usize, intent: Intent) -> Result<(), AllocError>
        requires { number < length self.old.0.agents }
        ensures world { IfOk result (λ _. self.new.0 ≡ apply self.old.0 signals number intent) }
        ensures before { self.new.1 ≡ self.old.1 }
    {
        match intent {
            Intent::Stay => Ok(()),
            Intent::Move(dir) => {
                self.step(signals, number, dir);
                Ok(())
            }
            Intent::Take => self.take_item(number),
            Intent::Drop => self.drop_item(number),
            Intent::Give(other) => {
                self.give_item(number, other);
                Ok(())
            }
        }
    }

    fn step(&mut self, signals: Signals, number: usize, dir: Dir)
        requires { number < length self.old.0.agents }
        ensures world { self.new.0 ≡ moved self.old.0 signals number (next dir (point_of (agent_of self.old.0 number))) }
        ensures before { self.new.1 ≡ self.old.1 }
    {
        let agent = self.crew[number];
        if let Some((x, y)) = neighbour(dir, agent.x, agent.y) {
            if self.ground.is_open(signals, x, y) && agent_on(&self.crew, x, y).is_none() {
                self.crew[number] = Agent { x, y, ..agent };
            }
        }
    }

    fn take_item(&mut self, number: usize) -> Result<(), AllocError>
        requires { number < length self.old.0.agents }
        ensures world { IfOk result (λ _. self.new.0 ≡ apply self.old.0 [] number Take) }
        ensures before { self.new.1 ≡ self.old.1 }
    {
        let agent = self.crew[number];
        if agent.carrying {
            return Ok(());
        }
        if let Some(cell) = self.ground.index_of(agent.x, agent.y) {
            if self.has_item.cells()[cell as usize] {
                self.has_item.set(cell as usize, false)?;
                self.crew[number] = Agent {
                    carrying: true,
                    ..agent
                };
            }
        }
        Ok(())
    }

    fn drop_item(&mut self, number: usize) -> Result<(), AllocError>
        requires { number < length self.old.0.agents }
        ensures world { IfOk result (λ _. self.new.0 ≡ apply self.old.0 [] number Drop) }
        ensures before { self.new.1 ≡ self.old.1 }
    {
        let agent = self.crew[number];
        if !agent.carrying {
            return Ok(());
        }
        if let Some(cell) = self.ground.index_of(agent.x, agent.y) {
            if !self.has_item.cells()[cell as usize] {
                self.has_item.set(cell as usize, true)?;
                self.crew[number] = Agent {
                    carrying: false,
                    ..agent
                };
            }
        }
        Ok(())
    }

    fn give_item(&mut self, number: usize, other: u32)
        requires { number < length self.old.0.agents }
        ensures world { self.new.0 ≡ apply self.old.0 [] number (Give other) }
        ensures before { self.new.1 ≡ self.old.1 }
    {
        let giver = self.crew[number];
        let to = other as usize;
        if to >= self.crew.len() {
            return;
        }
        let taker = self.crew[to];
        if giver.carrying && !taker.carrying && steps_between(giver, taker) == 1 {
            self.load(number, false);
            self.load(to, true);
        }
    }

    fn load(&mut self, number: usize, carrying: bool)
        requires { number < length self.old.0.agents }
        ensures world { self.new.0 ≡ loaded self.old.0 number carrying }
        ensures before { self.new.1 ≡ self.old.1 }
    {
        let agent = self.crew[number];
        self.crew[number] = Agent { carrying, ..agent };
    }
}
