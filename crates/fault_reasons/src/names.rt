// Names of trees, places and agents that aren't there.
use crate::forms::{Arguments, kind_of};
use crate::map_flaws::marks_on;
use crate::pointer::Pointer;
use crate::search::{Flaw, first_flaw, root_of};
use serde_json::Value;
use std::alloc::{AllocError, Global};

fn plural(count: usize) -> &'static str {
    if count == 1 { "" } else { "s" }
}

/// How many names and how many agents there are.
pub(crate) fn agent_count_flaw(
    alloc: Global,
    level: &Value,
    at: &mut Pointer,
) -> Result<Option<String>, AllocError> {
    let Some(Value::Array(names)) = level.get("agents") else {
        return Ok(None);
    };
    at.member("agents")?;
    let names = names.len();
    let agents = marks_on(alloc, level, b'A', b'Z')?.len();
    let (a, b) = (plural(names), plural(agents));
    Ok(Some(format!(in alloc; "{names} name{a}, {agents} agent{b}")?))
}

/// Which trees there are, where that of an agent isn't.
pub(crate) fn no_tree_flaw(
    alloc: Global,
    level: &Value,
    agent: u32,
    at: &mut Pointer,
) -> Result<Option<String>, AllocError> {
    let Some(Value::Object(trees)) = level.get("trees") else {
        return Ok(None);
    };
    at.member("agents")?;
    at.item(agent as usize)?;
    let mut words = String::from_str(alloc, "trees:")?;
    for (i, (name, _)) in trees.iter().enumerate() {
        words.push_str(if i == 0 { " " } else { ", " })?;
        words.push_str(name)?;
    }
    if trees.is_empty() {
        words.push_str(" none")?;
    }
    Ok(Some(words))
}

/// The one character of a node's argument, where its kind takes such a one.
fn mark_of(node: &Value, takes: Arguments) -> Option<char> {
    let (form, arguments) = kind_of(node)?;
    let [mark] = arguments else {
        return None;
    };
    let c = mark.as_str()?.chars().next()?;
    if form.arguments == takes {
        Some(c)
    } else {
        None
    }
}

/// Whether a node's kind takes such a character, and its own isn't among these.
pub(crate) fn names_other(node: &Value, takes: Arguments, marks: &[char]) -> bool {
    match mark_of(node, takes) {
        Some(mark) => !marks.contains(&mark),
        None => false,
    }
}

/// Which places there are.
pub(crate) fn places_text(alloc: Global, places: &[char]) -> Result<String, AllocError> {
    let mut words = String::from_str(alloc, "places:")?;
    for place in places {
        words.push(' ')?;
        words.push(*place)?;
    }
    if places.is_empty() {
        words.push_str(" none")?;
    }
    Ok(words)
}

/// Which agents there are.
pub(crate) fn agents_text(alloc: Global, agents: &[char]) -> Result<String, AllocError> {
    match agents {
        [] => String::from_str(alloc, "agents: none"),
        [only] => format!(in alloc; "agents: {only}"),
        [first, .., last] => format!(in alloc; "agents: {first} to {last}"),
    }
}

/// Which places, or agents, there are, at the first node of a tree that names another.
pub(crate) fn named_flaw(
    alloc: Global,
    level: &Value,
    name: &str,
    flaw: Flaw<'_>,
    at: &mut Pointer,
) -> Result<Option<String>, AllocError> {
    let Some(root) = root_of(level, name, at)? else {
        return Ok(None);
    };
    first_flaw(alloc, root, 1, flaw, at)
}
