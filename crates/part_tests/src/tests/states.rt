// The state of a stepped game as text, written and loaded, and digests of its level and its script. What is expected comes from
// scripts/runs/plain_player.py.
use game_session::Script;
use level_text::{read_level, read_script};
use std::alloc::Global;
use stepping::{LoadFault, Stepping, script_digest, step_by_script};

const LEVEL: &str =
    "{\"map\":[\"A*0\",\"a.B\"],\"agents\":[\"t\",\"u\"],\"trees\":{\"t\":[\"seq*\",[\"take\"],[\"move\",\"0\"]],\"u\":[\"ticks\",3,[\"move\",\"0\"]]}}";

const SCRIPT: &[u8] = b"1 on a\n2 on c\n";

const START: &str =
    "btworld state 1 level f49225635d57f35c frame 0\nshown\nnext\nA - 0,0 - 0 0 0\nB - 2,1 - 0 0\nitem 1,0\n";

const SECOND: &str =
    "btworld state 1 level f49225635d57f35c frame 2\nshown a c\nnext a c\nA F 0,0 - 0 0 0\nB S 2,0 - 0 0\nitem 1,0\n";

fn script(alloc: Global) -> Option<Script> {
    read_script(alloc, SCRIPT).ok()
}

fn opened(alloc: Global) -> Option<Stepping> {
    let level = read_level(alloc, LEVEL.as_bytes()).ok()?;
    Stepping::open(alloc, level, script(alloc)?).ok()
}

// One frame on, by its script.
fn step(alloc: Global, game: &mut Stepping) -> Option<()> {
    if game.frame() > 9 {
        return None;
    }
    step_by_script(game, alloc).ok()
}

// The game after so many frames.
fn stepped(alloc: Global, frames: u32) -> Option<Stepping> {
    let mut game = opened(alloc)?;
    for _ in 0..frames {
        step(alloc, &mut game)?;
    }
    Some(game)
}

fn is_state(alloc: Global, frames: u32, text: &str) -> Option<bool> {
    let state = stepped(alloc, frames)?.state_text(alloc).ok()?;
    Some(state.as_slice() == text.as_bytes())
}

#[test]
fn a_state_is_written(rt: HostRuntime) {
    assert!(rt; is_state(rt.alloc(), 0, START) == Some(true));
    assert!(rt; is_state(rt.alloc(), 2, SECOND) == Some(true));
}

fn loaded(alloc: Global, text: &str) -> Option<Result<Stepping, LoadFault>> {
    let level = read_level(alloc, LEVEL.as_bytes()).ok()?;
    let script = script(alloc)?;
    Some(Stepping::load(alloc, level, script, text.as_bytes()))
}

// Whether the game that a text tells is in the state after so many frames, and a frame later too.
fn goes_on_alike(alloc: Global, frames: u32, text: &str) -> Option<bool> {
    let mut game = stepped(alloc, frames)?;
    let mut other = loaded(alloc, text)?.ok()?;
    let before = game.is_same(&other);
    step(alloc, &mut game)?;
    step(alloc, &mut other)?;
    Some(before && game.is_same(&other))
}

fn fault_of(alloc: Global, text: &str) -> Option<LoadFault> {
    loaded(alloc, text)?.err()
}

const OTHER_LEVEL: &str = "btworld state 1 level 049225635d57f35c frame 0\n";

const OFF_THE_MAP: &str =
    "btworld state 1 level f49225635d57f35c frame 0\nshown\nnext\nA - 0,0 - 0 0 0\nB - 3,1 - 0 0\n";

const ON_ONE_CELL: &str =
    "btworld state 1 level f49225635d57f35c frame 0\nshown\nnext\nA - 0,0 - 0 0 0\nB - 0,0 - 0 0\n";

const NO_MEMORY_OF_IT: &str =
    "btworld state 1 level f49225635d57f35c frame 0\nshown\nnext\nA - 0,0 - 2 0 0\nB - 2,1 - 0 0\n";

const SPACE_AT_THE_END: &str =
    "btworld state 1 level f49225635d57f35c frame 0\nshown\nnext\nA - 0,0 - 0 0 0\nB - 2,1 - 0 0 \n";

#[test]
fn a_state_is_loaded(rt: HostRuntime) {
    assert!(rt; goes_on_alike(rt.alloc(), 0, START) == Some(true));
    assert!(rt; goes_on_alike(rt.alloc(), 2, SECOND) == Some(true));
}

#[test]
fn other_texts_are_not_loaded(rt: HostRuntime) {
    assert!(rt; fault_of(rt.alloc(), OTHER_LEVEL) == Some(LoadFault::Level));
    assert!(rt; fault_of(rt.alloc(), OFF_THE_MAP) == Some(LoadFault::World));
    assert!(rt; fault_of(rt.alloc(), ON_ONE_CELL) == Some(LoadFault::World));
    assert!(rt; fault_of(rt.alloc(), NO_MEMORY_OF_IT) == Some(LoadFault::World));
    assert!(rt; fault_of(rt.alloc(), SPACE_AT_THE_END) == Some(LoadFault::Text));
    assert!(rt; fault_of(rt.alloc(), "") == Some(LoadFault::Text));
}

fn digests(alloc: Global) -> Option<(u64, u64)> {
    let game = opened(alloc)?;
    let script = script(alloc)?;
    Some((game.level_digest(), script_digest(&script)))
}

#[test]
fn levels_and_scripts_have_digests(rt: HostRuntime) {
    assert!(rt; digests(rt.alloc()) == Some((0xf492_2563_5d57_f35c, 0x6b50_ab5e_3838_36ec)));
}
