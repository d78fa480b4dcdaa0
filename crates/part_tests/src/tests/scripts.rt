use super::maps::world_of;
use game_session::Script;
use grid_world::{Signal, Signals};
use level_text::read_script;
use std::alloc::Global;

fn script_of(alloc: Global, script: &[u8]) -> Option<Script> {
    read_script(alloc, script).ok()
}

// Whether no signal but `a` is on in a frame of a script, and that one or not.
fn is_on(alloc: Global, script: &[u8], frame: u32, on: bool) -> Option<bool> {
    let mut signals = Signals::off();
    signals.set(Signal::new(0)?, on);
    Some(script_of(alloc, script)?.signals(frame) == signals)
}

// Frames, and whether the signal is on in them.
const CHANGES: &[(u32, bool)] = &[
    (0, false),
    (1, true),
    (2, true),
    (3, false),
    (4, false),
    (u32::MAX, false),
];

#[test]
fn signals_change_in_their_frames(rt: HostRuntime) {
    for (frame, on) in CHANGES {
        let found = is_on(rt.alloc(), b"1 on a\n3 off a\n", *frame, *on);
        assert!(rt; found == Some(true), "in frame {frame}");
    }
    assert!(rt; Script::empty(rt.alloc()).signals(1) == Signals::off());
}

// How the door beside an agent is drawn with the signals of a frame of a script.
fn door_in(alloc: Global, script: &[u8], frame: u32) -> Option<u8> {
    let world = world_of(alloc, &["Aa"])?;
    let signals = script_of(alloc, script)?.signals(frame);
    world.glyph_at(signals, 1, 0)
}

#[test]
fn a_door_is_drawn_open_and_shut(rt: HostRuntime) {
    for (frame, glyph) in [(1, b'/'), (3, b'a')] {
        let found = door_in(rt.alloc(), b"1 on a\n3 off a\n", frame);
        assert!(rt; found == Some(glyph), "in frame {frame}");
    }
}

fn are_same(one: Option<Script>, other: Option<Script>) -> Option<bool> {
    match (&one, &other) {
        (Some(one), Some(other)) => Some(one.is_same(other)),
        _ => None,
    }
}

#[test]
fn scripts_are_compared_by_value(rt: HostRuntime) {
    let alloc = rt.alloc();
    let (once, twice) = (b"1 on a", b"1 on a\n1 on a\n");
    let empty = Some(Script::empty(alloc));
    assert!(rt; are_same(script_of(alloc, twice), empty) == Some(false));
    assert!(rt; are_same(script_of(alloc, once), script_of(alloc, twice)) == Some(false));
    assert!(rt; are_same(script_of(alloc, once), script_of(alloc, b"1 on a\n")) == Some(true));
}
