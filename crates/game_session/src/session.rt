ghost use Rattle.std.specs.Prelude.{◌≡◌, ◌≢◌, ◌<◌, true, false, IsTrue, length, slice_index_or};
ghost use Rattle.std.specs.List.{list_all};
ghost use Rattle.bt_nodes.specs.declared.leaf.Leaf.TheVariants.{Carrying};
ghost use Rattle.bt_nodes.specs.Plain.{Does};
ghost use Rattle.bt_nodes.specs.Trees.{plain_of};
ghost use Rattle.game_session.specs.Places.{places, has_place};
ghost use Rattle.game_session.specs.Agents.{agents, has_agent};
ghost use Rattle.game_session.specs.Levels.{value_of};
ghost use Rattle.game_session.specs.Sessions.{game_of};

use crate::level::Level;
use crate::script::Script;
use bt_nodes::Tree;
use grid_world::World;
use std::alloc::Global;
use std::marker::Model;

/// What is played: a level, and the script that changes its signals. It is seen as its game.
pub struct Session {
    level: Level,
    script: Script,
}

impl Drop for Session {
    fn drop(self) {
        let Self {
            level: _,
            script: _,
        } = self;
    }
}

impl Model for Session {
    ghost use Rattle.game_rules.specs.Game.{Game};
    ghost use Rattle.game_session.specs.GameCode.{game_code};

    ghost Value = { Game };

    ghost coded = { game_code };

    ghost use Rattle.game_session.specs.Levels.{value_of};
    ghost use Rattle.game_session.specs.Sessions.{game_of};

    ghost view = { λ s. game_of (value_of s.level) s.script };
}

impl Session {
    /// A session of any level and any script: a script may name signals of which the map has no door.
    pub fn new(level: Level, script: Script) -> Session
        ensures { result ≡ game_of (value_of level) script }
    {
        Session { level, script }
    }

    /// The world before the first frame.
    pub fn world(&self) -> &World
        ensures value { result.now ≡ self.now.world }
        ensures agents { length result.now.agents ≡ length self.now.trees }
    {
        self.level.world()
    }

    /// The tree of an agent, in constant time. The places and the agents that it names are on the map.
    pub fn tree_of(&self, agent: u32) -> &Tree<Global>
        requires { agent < length self.now.trees }
        ensures value { slice_index_or self.now.trees agent (Does Carrying) ≡ plain_of result.now }
        ensures placed { IsTrue (list_all (has_place self.now.world) (places (plain_of result.now))) }
        ensures crewed { IsTrue (list_all (has_agent self.now.world) (agents (plain_of result.now))) }
    {
        self.level.tree_of(agent)
    }

    /// The level, whose game it is with the script.
    pub fn level(&self) -> &Level
        ensures { game_of (value_of result.now) self.now.changes ≡ self.now }
    {
        &self.level
    }

    /// The changes of signals, by frame.
    pub fn script(&self) -> &Script
        ensures { result.now ≡ self.now.changes }
    {
        &self.script
    }

    // Whether each agent has the same tree in both.
    fn has_same_trees(&self, other: &Session) -> bool
        requires { length self.now.trees ≡ length other.now.trees }
        ensures same { result ≡ true → self.now.trees ≡ other.now.trees }
        ensures differs { result ≡ false → self.now.trees ≢ other.now.trees }
    {
        'agents: for agent in 0..self.world().agents().len() as u32 {
            if !self.tree_of(agent).is_same(other.tree_of(agent)) {
                return false;
            }
        }
        true
    }

    /// Whether two sessions are of one game: the same world, the same tree for each agent, whatever its name, and the
    /// same changes of signals. It reads both until they differ, and takes no memory.
    pub fn is_same(&self, other: &Session) -> bool
        ensures same { result ≡ true → self.now ≡ other.now }
        ensures differs { result ≡ false → self.now ≢ other.now }
    {
        if !self.script.is_same(&other.script) {
            return false;
        }
        if !self.world().is_same(other.world()) {
            return false;
        }
        self.has_same_trees(other)
    }
}
