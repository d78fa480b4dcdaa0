// A game's state as text.
ghost use Rattle.std.specs.Prelude.{◌≡◌, ◌+◌, ◌<◌, ◌++◌, length, codes, decimal, slice_get, if◌then◌else◌, [], ◌∷◌, Bool, IfOk, OnOk};
ghost use Rattle.std.specs.List.{flat_map};
ghost use Rattle.grid_world.specs.Grid.{agent_of, has_item};
ghost use Rattle.grid_world.specs.Map.{count_up};
ghost use Rattle.grid_world.specs.World.{point};
ghost use Rattle.game_rules.specs.Text.{status_letter};
ghost use Rattle.stepping.specs.StateText.{letters, signals_line, answer_text, memory_text, agent_line, agent_lines, item_line, item_lines, state_head, state_text, IsState};

use crate::played::Stepping;
use bt_nodes::Status;
use bt_tick::Memory;
use byte_streams::{push_hex, push_number};
use grid_world::{Agent, Signal, Signals, World};
use std::alloc::{AllocError, Global};

// Appends the letter of a signal that is on.
fn push_letter(text: &mut Vec<u8>, number: u32, is_on: bool) -> Result<(), AllocError>
    requires { number < 26 }
    ensures { OnOk result (text.new.items ≡ text.old.items ++ (if is_on then codes " " ++ (97 + number) ∷ [] else [])) }
{
    if is_on {
        text.extend_from_slice(&[b' ', b'a' + number as u8])
    } else {
        Ok(())
    }
}

fn push_letters(text: &mut Vec<u8>, signals: Signals) -> Result<(), AllocError>
    ensures { OnOk result (text.new.items ≡ text.old.items ++ letters 0 signals) }
{
    'signals: for number in 0..26u32 {
        let Some(signal) = Signal::new(number) else {
            unreachable!()
        };
        push_letter(text, number, signals.is_on(signal))?;
    }
    Ok(())
}

fn push_signals(text: &mut Vec<u8>, word: &[u8], signals: Signals) -> Result<(), AllocError>
    ensures { OnOk result (text.new.items ≡ text.old.items ++ signals_line word.now signals) }
{
    text.extend_from_slice(word)?;
    push_letters(text, signals)?;
    text.extend_from_slice(b"\n")
}

/// Appends the letter of a status, as frames show it.
pub fn push_status(text: &mut Vec<u8>, status: Status) -> Result<(), AllocError>
    ensures { OnOk result (text.new.items ≡ text.old.items ++ status_letter status) }
{
    text.extend_from_slice(match status {
        Status::Success => b"S",
        Status::Failure => b"F",
        Status::Running => b"R",
    })
}

fn push_answer(text: &mut Vec<u8>, answer: Option<Status>) -> Result<(), AllocError>
    ensures { OnOk result (text.new.items ≡ text.old.items ++ answer_text answer) }
{
    match answer {
        None => text.extend_from_slice(b"-"),
        Some(status) => push_status(text, status),
    }
}

fn push_memory(text: &mut Vec<u8>, memory: &Memory, size: u64) -> Result<(), AllocError>
    requires { length memory.now ≡ size }
    ensures { OnOk result (text.new.items ≡ text.old.items ++ memory_text memory.now) }
{
    'nodes: for node in 0..size {
        let Some(number) = memory.at(node) else {
            unreachable!()
        };
        push_number(text, b" ", number)?;
    }
    Ok(())
}

// Appends the line of an agent whose tree has so many nodes.
fn push_agent(
    text: &mut Vec<u8>,
    number: u32,
    agent: &Agent,
    answer: Option<Status>,
    memory: &Memory,
    size: u64,
) -> Result<(), AllocError>
    requires letter { number < 26 }
    requires size { length memory.now ≡ size }
    ensures { OnOk result (text.new.items ≡ text.old.items ++ agent_line number agent.now answer memory.now) }
{
    text.extend_from_slice(&[b'A' + number as u8, b' '])?;
    push_answer(text, answer)?;
    push_number(text, b" ", agent.x)?;
    push_number(text, b",", agent.y)?;
    text.extend_from_slice(if agent.carrying { b" *" } else { b" -" })?;
    push_memory(text, memory, size)?;
    text.extend_from_slice(b"\n")
}

fn agent_of(world: &World, agent: usize) -> Agent
    requires { agent < length world.now.agents }
    ensures { result ≡ agent_of world.now agent }
{
    world.agents()[agent]
}

// There are no answers before the first frame.
fn answer_of(answers: &[Status], agent: usize) -> Option<Status>
    ensures { result ≡ slice_get answers.now agent }
{
    match answers.get(agent) {
        Some(answer) => Some(*answer),
        None => None,
    }
}

fn push_agents(text: &mut Vec<u8>, game: &Stepping) -> Result<(), AllocError>
    ensures { OnOk result (text.new.items ≡ text.old.items
        ++ agent_lines game.now.position game.now.answers) }
{
    let world = game.world();
    let answers = game.statuses();
    let memories = game.memories();
    'agents: for number in 0..world.agents().len() {
        let size = game.level().tree_of(number as u32).size();
        let agent = agent_of(world, number);
        let answer = answer_of(answers, number);
        push_agent(text, number as u32, &agent, answer, &memories[number], size)?;
    }
    Ok(())
}

// Appends the line of a cell where an item lies.
fn push_item(text: &mut Vec<u8>, x: u32, y: u32, is_here: bool) -> Result<(), AllocError>
    ensures { OnOk result (text.new.items ≡ text.old.items
        ++ (if is_here then codes "item " ++ decimal x ++ codes "," ++ decimal y ++ codes "\n" else [])) }
{
    if !is_here {
        return Ok(());
    }
    push_number(text, b"item ", x)?;
    push_number(text, b",", y)?;
    text.extend_from_slice(b"\n")
}

fn push_row(text: &mut Vec<u8>, world: &World, y: u32) -> Result<(), AllocError>
    requires { y < world.now.height }
    ensures { OnOk result (text.new.items ≡ text.old.items ++ flat_map (item_line world.now y) (count_up 0 world.now.width)) }
{
    'cells: for x in 0..world.width() {
        push_item(text, x, y, world.has_item(x, y))?;
    }
    Ok(())
}

fn push_items(text: &mut Vec<u8>, world: &World) -> Result<(), AllocError>
    ensures { OnOk result (text.new.items ≡ text.old.items ++ item_lines world.now) }
{
    'rows: for y in 0..world.height() {
        push_row(text, world, y)?;
    }
    Ok(())
}

fn push_head(text: &mut Vec<u8>, digest: u64, frame: u32) -> Result<(), AllocError>
    ensures { OnOk result (text.new.items ≡ text.old.items ++ state_head digest frame) }
{
    push_hex(text, b"btworld state 1 level ", digest)?;
    push_number(text, b" frame ", frame)?;
    text.extend_from_slice(b"\n")
}

impl Stepping {
    /// The state as text, to be compared line by line with another machine's: a line with the level's digest and the frame;
    /// `shown` and the letters of the signals that are on in the frame, and `next` and those that are on in the next by what
    /// was handed in so far; the line of each agent, as the frame shows it, with the number of each node of its memory behind
    /// it, and `-` for the answer before the first frame; and `item X,Y` for each item, row after row. It takes time linear
    /// in the number of cells and nodes.
    pub fn state_text(&self, alloc: Global) -> Result<Vec<u8>, AllocError>
        ensures text { IfOk result (λ text. text.items ≡ state_text self.now) }
        ensures state { IsState self.now }
    {
        let world = self.world();
        let mut text = Vec::new(alloc);
        push_head(&mut text, self.level_digest(), self.frame())?;
        push_signals(&mut text, b"shown", self.drawn())?;
        push_signals(&mut text, b"next", self.signals())?;
        push_agents(&mut text, self)?;
        push_items(&mut text, world)?;
        Ok(text)
    }
}
