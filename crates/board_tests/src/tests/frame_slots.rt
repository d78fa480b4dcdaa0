// What no clause says: that there are slots for frames where there is memory.
use super::sessions::session_of;
use super::walk::{WALK, walk};
use frame_params::{FrameParams, Slots};
use game_session::Session;
use std::alloc::Global;

// The frame of what stands in a frame's slot for it.
fn frame_at(slots: &Slots, frame: u32) -> Option<u32> {
    match slots.at(frame) {
        Some(params) => Some(params.frame()),
        None => None,
    }
}

// Which of the frames 1 to 3 stand in their slots.
fn filled(slots: &Slots) -> [Option<u32>; 3] {
    [frame_at(slots, 1), frame_at(slots, 2), frame_at(slots, 3)]
}

// Takes the frame of a slot out.
fn taken(slots: &mut Slots, frame: u32) -> Option<u32> {
    match slots.take(frame) {
        Some(params) => Some(params.frame()),
        None => None,
    }
}

// Which of the frames 1 to 3 have a free slot.
fn free(slots: &Slots) -> [bool; 3] {
    [slots.is_free(1), slots.is_free(2), slots.is_free(3)]
}

// Which have one while both are new, once the first frame is in its own, once the third's, the same, is cleared, and once
// the first's is.
fn clearings(alloc: Global, session: &Session) -> Option<[[bool; 3]; 4]> {
    let params = FrameParams::first(alloc, session).ok()?;
    let mut slots = Slots::new(alloc, 2).ok()?;
    let new = free(&slots);
    slots.fill(params);
    let full = free(&slots);
    slots.clear(3);
    let kept = free(&slots);
    slots.clear(1);
    Some([new, full, kept, free(&slots)])
}

fn all_clearings(alloc: Global) -> Option<[[bool; 3]; 4]> {
    let session = walk(alloc)?;
    clearings(alloc, &session)
}

#[test]
fn a_cleared_slot_is_free(rt: HostRuntime) {
    let (new, full) = ([true; 3], [false, true, false]);
    assert!(rt; all_clearings(rt.alloc()) == Some([new, full, full, new]));
}

// What two slots hold when they are new, once the first frame is put in, once the third is looked for in the same slot, and
// once the first is taken out.
fn steps(alloc: Global, session: &Session) -> Option<[[Option<u32>; 3]; 4]> {
    let params = FrameParams::first(alloc, session).ok()?;
    let mut slots = Slots::new(alloc, 2).ok()?;
    let free = filled(&slots);
    slots.fill(params);
    let full = filled(&slots);
    let third = taken(&mut slots, 3);
    let kept = filled(&slots);
    let first = taken(&mut slots, 1);
    if third.is_some() || first != Some(1) {
        return None;
    }
    Some([free, full, kept, filled(&slots)])
}

fn all_steps(alloc: Global) -> Option<[[Option<u32>; 3]; 4]> {
    let session = walk(alloc)?;
    steps(alloc, &session)
}

#[test]
fn slots_hold_the_frames_under_way(rt: HostRuntime) {
    let (free, full) = ([None; 3], [Some(1), None, None]);
    assert!(rt; all_steps(rt.alloc()) == Some([free, full, full, free]));
}

// Whether the first frame's slot has the start of a game, and whether it has that of another one.
fn is_start_of(slots: &Slots, session: &Session) -> Option<bool> {
    let params = slots.at(1)?;
    let start = params.share().ok()?;
    let there = start.world().agents().first()?;
    let here = session.world().agents().first()?;
    Some(params.frame() == 1 && params.session().is_same(session) && *there == *here)
}

fn starts(alloc: Global) -> Option<[bool; 2]> {
    let session = walk(alloc)?;
    let other = session_of(alloc, WALK, "1 on a\n")?;
    let params = FrameParams::first(alloc, &session).ok()?;
    let mut slots = Slots::new(alloc, 2).ok()?;
    slots.fill(params);
    Some([is_start_of(&slots, &session)?, is_start_of(&slots, &other)?])
}

#[test]
fn a_slot_has_what_was_filled_in(rt: HostRuntime) {
    assert!(rt; starts(rt.alloc()) == Some([true, false]));
}
