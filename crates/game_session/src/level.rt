ghost use Rattle.std.specs.Prelude.{◌≡◌, ◌<◌, None, IsTrue, length, map, slice_index_or};
ghost use Rattle.std.specs.List.{list_all};
ghost use Rattle.bt_nodes.specs.declared.leaf.Leaf.TheVariants.{Carrying};
ghost use Rattle.bt_nodes.specs.Plain.{Does};
ghost use Rattle.bt_nodes.specs.Trees.{plain_of};
ghost use Rattle.game_session.specs.Faults.{parts_fault, world_of};
ghost use Rattle.game_session.specs.Kept.{kept, index_of, texts_view, trees_view};
ghost use Rattle.game_session.specs.Names.{is_in_order, names_of};
ghost use Rattle.game_session.specs.Places.{places, has_place};
ghost use Rattle.game_session.specs.Agents.{agents, has_agent};

use crate::named_tree::NamedTree;
use bt_nodes::Tree;
use grid_world::World;
use std::alloc::Global;

/// A level: a map, the tree names of its agents, and the trees by name, in order of the names' bytes. Each agent has
/// a tree, and each place and each agent that a tree names is on the map.
pub struct Level {
    rows: Vec<String>,
    names: Vec<String>,
    trees: Vec<NamedTree>,
    // of the rows
    world: World,
    // where each agent's tree stands among the trees
    picks: Vec<usize>,
    ghost faultless: { parts_fault (kept rows.items names.items trees.items) ≡ None },
    ghost ordered: { IsTrue (is_in_order (names_of (kept rows.items names.items trees.items).trees)) },
    ghost built: { world ≡ world_of (kept rows.items names.items trees.items) },
    ghost picked: { picks.items ≡ map (index_of (kept rows.items names.items trees.items).trees) (kept rows.items names.items trees.items).names },
}

impl Drop for Level {
    fn drop(self) {
        let Self {
            rows: _,
            names: _,
            trees: _,
            world: _,
            picks: _,
        } = self;
    }
}

impl Level {
    ghost use Rattle.game_session.specs.Levels.{value_of, agent_trees};

    /// A level of parts in which there is no fault: the rows of the map from the top, the tree name of each agent, and the
    /// trees by name. The world is that of the rows, and the picks say where each agent's tree stands among the trees.
    pub fn new(
        rows: Vec<String>,
        names: Vec<String>,
        trees: Vec<NamedTree>,
        world: World,
        picks: Vec<usize>,
    ) -> Level
        requires faultless { parts_fault (kept rows.items names.items trees.items) ≡ None }
        requires ordered { IsTrue (is_in_order (names_of (trees_view trees.items))) }
        requires built { world ≡ world_of (kept rows.items names.items trees.items) }
        requires picked { picks.items ≡ map (index_of (trees_view trees.items)) (texts_view names.items) }
        ensures { value_of result ≡ kept rows.items names.items trees.items }
    {
        Level {
            rows,
            names,
            trees,
            world,
            picks,
        }
    }

    /// The rows of the map, from the top.
    pub fn rows(&self) -> &[String]
        ensures { texts_view result.now ≡ (value_of self.now).rows }
    {
        &self.rows
    }

    /// The name of each agent's tree.
    pub fn names(&self) -> &[String]
        ensures { texts_view result.now ≡ (value_of self.now).names }
    {
        &self.names
    }

    /// The trees, in order of their names' bytes.
    pub fn named_trees(&self) -> &[NamedTree]
        ensures value { trees_view result.now ≡ (value_of self.now).trees }
        ensures ordered { IsTrue (is_in_order (names_of (trees_view result.now))) }
    {
        &self.trees
    }

    /// The world of the map.
    pub fn world(&self) -> &World
        ensures value { result.now ≡ world_of (value_of self.now) }
        ensures agents { length result.now.agents ≡ length (agent_trees (value_of self.now)) }
    {
        &self.world
    }

    /// The tree of an agent, in constant time.
    pub fn tree_of(&self, agent: u32) -> &Tree<Global>
        requires { agent < length (agent_trees (value_of self.now)) }
        ensures value { slice_index_or (agent_trees (value_of self.now)) agent (Does Carrying) ≡ plain_of result.now }
        ensures placed { IsTrue (list_all (has_place (world_of (value_of self.now))) (places (plain_of result.now))) }
        ensures crewed { IsTrue (list_all (has_agent (world_of (value_of self.now))) (agents (plain_of result.now))) }
    {
        &self.trees[self.picks[agent as usize]].tree
    }

    /// How many trees it has, used by an agent or not.
    pub fn trees(&self) -> u64
        ensures { result ≡ length (value_of self.now).trees }
    {
        self.trees.len() as u64
    }
}
