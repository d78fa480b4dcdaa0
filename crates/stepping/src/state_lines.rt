// What the text of a state tells, line by line.
ghost use Rattle.std.specs.Prelude.{◌≡◌, ◌<◌, ◌*◌, ◌++◌, [], false, map, option_to_list, replicate, IfOk, OnOk};
ghost use Rattle.bt_nodes.specs.Sizes.{size};
ghost use Rattle.game_session.specs.Faults.{world_of};
ghost use Rattle.game_session.specs.Levels.{value_of, agent_trees};
ghost use Rattle.stepping.specs.StateReading.{Gives, told_at, answer_at, load_at, small_at, memory_from, line_at, no_crew, crew_from, item_at, items_from, state_at, told_in};

use crate::load_fault::LoadFault;
use crate::state_words::{Head, behind, number, point, read_head};
use bt_nodes::Status;
use bt_tick::Memory;
use game_session::Level;
use grid_world::{Agent, World};
use std::alloc::{AllocError, Global};

// What is told of a game after a frame.
#[derive(Drop)]
pub(crate) struct Told {
    pub(crate) head: Head,
    pub(crate) crew: Crew,
    pub(crate) items: Vec<bool>,
}

// The lines of all agents; there are no answers before the first frame.
#[derive(Drop)]
pub(crate) struct Crew {
    pub(crate) agents: Vec<Agent>,
    pub(crate) answers: Vec<Status>,
    pub(crate) memories: Vec<Memory>,
}

// What an agent's line tells.
#[derive(Drop)]
struct Line {
    agent: Agent,
    answer: Option<Status>,
    memory: Vec<u16>,
}

#[tactic(auto, unfolding(crate::specs::StateReading::answer_at))]
fn answer(letter: u8) -> Result<Option<Status>, LoadFault>
    ensures { Gives (λ answer. answer) result (answer_at letter) }
{
    match letter {
        b'-' => Ok(None),
        b'S' => Ok(Some(Status::Success)),
        b'F' => Ok(Some(Status::Failure)),
        b'R' => Ok(Some(Status::Running)),
        _ => Err(LoadFault::Text),
    }
}

// The answer behind the agent's letter.
#[tactic(auto, unfolding(crate::specs::StateReading::told_at))]
fn told_answer(text: &[u8]) -> Result<(Option<Status>, &[u8]), LoadFault>
    ensures { Gives (λ read. (read.0, read.1.now)) result (told_at text.now) }
{
    let [_name, b' ', letter, b' ', rest @ ..] = text else {
        return Err(LoadFault::Text);
    };
    Ok((answer(*letter)?, rest))
}

// Whether the agent carries an item.
#[tactic(auto, unfolding(crate::specs::StateReading::load_at))]
fn load(text: &[u8]) -> Result<(bool, &[u8]), LoadFault>
    ensures { Gives (λ read. (read.0, read.1.now)) result (load_at text.now) }
{
    let [b' ', load, rest @ ..] = text else {
        return Err(LoadFault::Text);
    };
    Ok((*load == b'*', rest))
}

// A number of a memory, behind a space.
#[tactic(auto, unfolding(crate::specs::StateReading::small_at))]
fn small(text: &[u8]) -> Result<(u16, &[u8]), LoadFault>
    ensures { Gives (λ read. (read.0, read.1.now)) result (small_at text.now) }
{
    let (value, rest) = number(behind(text, b" ")?)?;
    match u16::try_from(value) {
        Ok(small) => Ok((small, rest)),
        Err(_) => Err(LoadFault::World),
    }
}

// As many numbers as a tree has nodes.
fn memory(alloc: Global, text: &[u8], size: u64) -> Result<(Vec<u16>, &[u8]), LoadFault>
    ensures { Gives (λ read. (read.0.items, read.1.now)) result (memory_from [] size text.now) }
{
    let mut numbers = Vec::with_capacity(alloc, size as usize)?;
    let mut rest = text;
    'nodes: for node in 0..size {
        let (number, more) = small(rest)?;
        numbers.push(number)?;
        rest = more;
    }
    Ok((numbers, rest))
}

// The line of an agent whose tree has so many nodes.
#[tactic(auto, unfolding(crate::specs::StateReading::line_at))]
fn agent_line(alloc: Global, text: &[u8], size: u64) -> Result<(Line, &[u8]), LoadFault>
    ensures { Gives (λ read. (record { agent = read.0.agent; answer = read.0.answer; memory = read.0.memory.items }, read.1.now)) result (line_at size text.now) }
{
    let (answer, rest) = told_answer(text)?;
    let (x, y, rest) = point(rest)?;
    let (carrying, rest) = load(rest)?;
    let (memory, rest) = memory(alloc, rest, size)?;
    let rest = behind(rest, b"\n")?;
    let agent = Agent { x, y, carrying };
    Ok((
        Line {
            agent,
            answer,
            memory,
        },
        rest,
    ))
}

// Appends an answer, where there is one.
fn push_answer(answers: &mut Vec<Status>, answer: Option<Status>) -> Result<(), AllocError>
    ensures { OnOk result (answers.new.items ≡ answers.old.items ++ option_to_list answer) }
{
    if let Some(status) = answer {
        answers.push(status)?;
    }
    Ok(())
}

// The lines of all agents of a level.
fn agent_lines<'a>(
    alloc: Global,
    text: &'a [u8],
    level: &Level,
) -> Result<(Crew, &'a [u8]), LoadFault>
    ensures { Gives (λ read. (record { agents = read.0.agents.items; answers = read.0.answers.items; memories = read.0.memories.items }, read.1.now)) result
        (crew_from no_crew (map size (agent_trees (value_of level.now))) text.now) }
{
    let count = level.world().agents().len();
    let mut agents = Vec::with_capacity(alloc, count)?;
    let mut answers = Vec::with_capacity(alloc, count)?;
    let mut memories = Vec::with_capacity(alloc, count)?;
    let mut rest = text;
    'agents: for number in 0..count as u32 {
        let (read, more) = agent_line(alloc, rest, level.tree_of(number).size())?;
        let Line {
            agent,
            answer,
            memory,
        } = read;
        agents.push(agent)?;
        memories.push(Memory::of(memory))?;
        push_answer(&mut answers, answer)?;
        rest = more;
    }
    Ok((
        Crew {
            agents,
            answers,
            memories,
        },
        rest,
    ))
}

// The number of the cell in an item's line.
#[tactic(auto, unfolding(crate::specs::StateReading::item_at))]
fn item<'a>(text: &'a [u8], world: &World) -> Result<(usize, &'a [u8]), LoadFault>
    ensures value { Gives (λ read. (read.0, read.1.now)) result (item_at world.now.width world.now.height text.now) }
    ensures within { IfOk result (λ read. read.0 < world.now.width * world.now.height) }
{
    let width = world.width();
    let (x, y, rest) = point(behind(text, b"item ")?)?;
    if x >= width || y >= world.height() {
        return Err(LoadFault::World);
    }
    let rest = behind(rest, b"\n")?;
    Ok(((y * width + x) as usize, rest))
}

// The cells where items lie, row after row.
fn items(alloc: Global, text: &[u8], world: &World) -> Result<Vec<bool>, LoadFault>
    ensures { Gives (λ items. items.items) result
        (items_from world.now.width world.now.height (world.now.width * world.now.height) (replicate (world.now.width * world.now.height) false) text.now) }
{
    let count = (world.width() * world.height()) as usize;
    let mut items = vec![in alloc; false; count]?;
    let mut rest = text;
    'items: for number in 0..count {
        if rest.is_empty() {
            return Ok(items);
        }
        let (cell, more) = item(rest, world)?;
        items[cell] = true;
        rest = more;
    }
    Ok(items)
}

/// What a text tells of a level's game.
#[tactic(auto, unfolding(crate::specs::StateReading::state_at))]
pub(crate) fn read_state(
    alloc: Global,
    level: &Level,
    digest: u64,
    text: &[u8],
) -> Result<Told, LoadFault>
    ensures { Gives told_in result
        (state_at digest (world_of (value_of level.now)).width (world_of (value_of level.now)).height (map size (agent_trees (value_of level.now))) text.now) }
{
    let (head, rest) = match read_head(alloc, text, digest) {
        Ok(read) => read,
        Err(fault) => return Err(fault),
    };
    let (crew, rest) = match agent_lines(alloc, rest, level) {
        Ok(read) => read,
        Err(fault) => return Err(fault),
    };
    let items = items(alloc, rest, level.world())?;
    Ok(Told { head, crew, items })
}
