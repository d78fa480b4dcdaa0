// Whether the places and the agents that trees name are on the map.
ghost use Rattle.std.specs.Prelude.{◌≡◌};
ghost use Rattle.std.specs.List.{list_all};
ghost use Rattle.bt_nodes.specs.Plain.{plain, plains};
ghost use Rattle.game_session.specs.Agents.{has_agent};
ghost use Rattle.game_session.specs.Places.{has_place};
ghost use Rattle.level_text.specs.Named.{own_places, own_agents, own, named, named_in, is_found};

use crate::argument::Argument;
use crate::write_nodes::argument_of;
use bt_nodes::Node;
use grid_world::World;
use std::alloc::Global;

/// What nodes name of a map.
#[derive(Clone, Copy)]
pub(crate) enum Named {
    Places,
    Agents,
}

// Whether the place that stands in a node itself, if one does, is on the map.
fn has_own_place(node: &Node<Global>, world: &World) -> bool
    ensures { result ≡ list_all (has_place world.now) (own_places (plain node.now)) }
{
    let Some(argument) = argument_of(node) else {
        return true;
    };
    match argument {
        Argument::Place(place) => world.place(place).is_some(),
        Argument::Count(_) | Argument::Signal(_) | Argument::Agent(_) => true,
    }
}

// Whether the agent that stands in a node itself, if one does, is on the map.
fn has_own_agent(node: &Node<Global>, world: &World) -> bool
    ensures { result ≡ list_all (has_agent world.now) (own_agents (plain node.now)) }
{
    let Some(argument) = argument_of(node) else {
        return true;
    };
    match argument {
        Argument::Agent(letter) => (letter.number() as usize) < world.agents().len(),
        Argument::Count(_) | Argument::Place(_) | Argument::Signal(_) => true,
    }
}

fn has_own(node: &Node<Global>, what: Named, world: &World) -> bool
    ensures { result ≡ list_all (is_found what world.now) (own what (plain node.now)) }
{
    match what {
        Named::Places => has_own_place(node, world),
        Named::Agents => has_own_agent(node, world),
    }
}

/// Whether each place, or each agent, that a node and those below it name is on the map.
#[cycle(named)]
pub(crate) fn has_named(node: &Node<Global>, what: Named, world: &World) -> bool
    ensures { result ≡ list_all (is_found what world.now) (named what (plain node.now)) }
{
    if !has_own(node, what, world) {
        return false;
    }
    match node.decorated() {
        Some(child) => has_named(child, what, world),
        None => have_named(node.listed(), what, world),
    }
}

#[cycle(named)]
fn have_named(nodes: &[Node<Global>], what: Named, world: &World) -> bool
    ensures { result ≡ list_all (is_found what world.now) (named_in what (plains nodes.now)) }
{
    'nodes: for node in nodes {
        if !has_named(node, what, world) {
            return false;
        }
    }
    true
}
