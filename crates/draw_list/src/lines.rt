// The lines of a frame's text around its rows, each appended to a buffer.
ghost use Rattle.std.specs.Prelude.{◌≡◌, ◌≤◌, ◌+◌, ◌<◌, ◌++◌, length, codes, decimal, OnOk};
ghost use Rattle.std.specs.List.{flat_map};
ghost use Rattle.game_rules.specs.Text.{agent_text, agents_text};

use crate::band::Band;
use bt_nodes::Status;
use grid_world::Agent;
use itoa::Buffer;
use std::alloc::AllocError;

/// Appends the decimal digits of a number.
fn push_number(text: &mut Vec<u8>, number: u32) -> Result<(), AllocError>
    ensures { OnOk result (text.new.items ≡ text.old.items ++ decimal number) }
{
    let mut digits = Buffer::new();
    text.extend_from_slice(digits.format(number).as_bytes())
}

/// Appends the first line of a frame.
pub fn push_frame_line(text: &mut Vec<u8>, frame: u32) -> Result<(), AllocError>
    ensures { OnOk result (text.new.items ≡ text.old.items ++ (codes "frame " ++ decimal frame ++ codes "\n")) }
{
    text.extend_from_slice(b"frame ")?;
    push_number(text, frame)?;
    text.extend_from_slice(b"\n")
}

/// Appends the line of an agent.
pub fn push_agent_line(
    text: &mut Vec<u8>,
    number: u8,
    agent: &Agent,
    status: Status,
) -> Result<(), AllocError>
    requires { number < 26 }
    ensures { OnOk result (text.new.items ≡ text.old.items ++ agent_text number agent.now status) }
{
    let letter = match status {
        Status::Success => b'S',
        Status::Failure => b'F',
        Status::Running => b'R',
    };
    text.extend_from_slice(&[b'A' + number, b' ', letter, b' '])?;
    push_number(text, agent.x)?;
    text.extend_from_slice(b",")?;
    push_number(text, agent.y)?;
    text.extend_from_slice(if agent.carrying { b" *\n" } else { b" -\n" })
}

/// Appends the lines of all agents.
pub fn push_agent_lines(
    text: &mut Vec<u8>,
    agents: &[Agent],
    statuses: &[Status],
) -> Result<(), AllocError>
    requires few { length agents.now ≤ 26 }
    requires statuses { length statuses.now ≡ length agents.now }
    ensures { OnOk result (text.new.items ≡ text.old.items ++ agents_text 0 agents.now statuses.now) }
{
    'agents: for (number, agent) in agents.iter().enumerate() {
        push_agent_line(text, number as u8, agent, statuses[number])?;
    }
    Ok(())
}

/// Appends the rows of bands, one after another.
pub fn push_rows(text: &mut Vec<u8>, bands: &[Band]) -> Result<(), AllocError>
    ensures { OnOk result (text.new.items ≡ text.old.items ++ flat_map (λ b. b.rows) bands.now) }
{
    'bands: for band in bands {
        text.extend_from_slice(band.rows.as_bytes())?;
    }
    Ok(())
}
