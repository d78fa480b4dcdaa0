use game_session::Level;
use level_text::{level_of, read_level, write_level};
use serde_json::Value;
use std::alloc::Global;

const FIRST: &str = "{\"map\":[\"A.0\"],\"agents\":[\"t\"],\"trees\":{\"t\":[\"move\",\"0\"]}}";

const FIRST_WRITTEN: &str =
    "{\"agents\":[\"t\"],\"map\":[\"A.0\"],\"trees\":{\"t\":[\"move\",\"0\"]}}";

const EVERY_KIND: &str =
    "{\"agents\":[\"all\",\"all\"],\"map\":[\"#.*A\",\"aB09\"],\"trees\":{\"\":[\"take\"],\"all\":[\"seq\",[\"fallback\",[\"seq*\",[\"fallback*\",[\"drop\"]]],[\"par\",2,[\"carrying\"],[\"item\"],[\"near\",16]]],[\"not\",[\"tries\",1,[\"ticks\",1000,[\"wait\",7]]]],[\"move\",\"0\"],[\"at\",\"9\"],[\"signal\",\"a\"],[\"signal\",\"z\"],[\"give\",\"B\"]],\"a\u{e9}\\\"\":[\"near\",1]}}";

fn measures_of(level: &Level, agent: u32) -> Option<(u64, u64)> {
    if agent as usize >= level.world().agents().len() {
        return None;
    }
    let tree = level.tree_of(agent);
    Some((tree.size(), tree.depth()))
}

// The size and the depth of the tree of an agent.
fn measures(alloc: Global, text: &str, agent: u32) -> Option<(u64, u64)> {
    let level = level_of_bytes(alloc, text)?;
    measures_of(&level, agent)
}

#[test]
fn a_level_has_its_trees(rt: HostRuntime) {
    for agent in 0..2 {
        assert!(rt; measures(rt.alloc(), EVERY_KIND, agent) == Some((18, 5)));
    }
}

fn level_of_bytes(alloc: Global, text: &str) -> Option<Level> {
    read_level(alloc, text.as_bytes()).ok()
}

fn level_of_value(alloc: Global, text: &str) -> Option<Level> {
    let value = Value::from_str(alloc, text).ok()?;
    level_of(alloc, &value).ok()
}

// Whether a level is written so.
fn is_written(alloc: Global, level: Option<Level>, text: &str) -> bool {
    match level {
        Some(level) => match write_level(alloc, &level) {
            Ok(bytes) => bytes.as_slice() == text.as_bytes(),
            Err(_) => false,
        },
        None => false,
    }
}

#[test]
fn a_value_and_its_bytes_are_the_same_level(rt: HostRuntime) {
    let alloc = rt.alloc();
    for text in [FIRST, FIRST_WRITTEN] {
        assert!(rt; is_written(alloc, level_of_value(alloc, text), FIRST_WRITTEN));
        assert!(rt; is_written(alloc, level_of_bytes(alloc, text), FIRST_WRITTEN));
    }
}

// What is written of it are the very bytes that were read, so these are also what is read again.
#[test]
fn each_kind_of_node_is_written_and_read_again(rt: HostRuntime) {
    let level = level_of_bytes(rt.alloc(), EVERY_KIND);
    assert!(rt; is_written(rt.alloc(), level, EVERY_KIND));
}
