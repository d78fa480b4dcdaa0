// Limits of trees that are broken.
use crate::forms::{Arguments, kind_of};
use crate::pointer::Pointer;
use crate::search::{Flaw, first_child, first_flaw, root_of};
use bt_nodes::TreeFault;
use serde_json::Value;
use std::alloc::{AllocError, Global};

// The limits that `bt_nodes` has.
const MOST_NODES: u64 = 255;

const MOST_DEPTH: usize = 32;

const MOST_TICKS: u64 = 1000;

const MOST_DISTANCE: u64 = 16;

/// How many nodes there are from a node on.
fn nodes_of(node: &Value) -> u64 {
    let mut nodes = 1u64;
    let Value::Array(items) = node else {
        return nodes;
    };
    let first = first_child(node);
    for (i, item) in items.iter().enumerate() {
        if i >= first {
            nodes = nodes.saturating_add(nodes_of(item));
        }
    }
    nodes
}

pub(crate) fn depth_flaw(alloc: Global, depth: usize) -> Result<Option<String>, AllocError> {
    if depth <= MOST_DEPTH {
        return Ok(None);
    }
    Ok(Some(format!(in alloc; "depth {depth}, at most {}", MOST_DEPTH)?))
}

pub(crate) fn children_flaw(alloc: Global, node: &Value) -> Result<Option<String>, AllocError> {
    match kind_of(node) {
        Some((form, [])) if form.arguments == Arguments::Nodes => {}
        Some((form, [_])) if form.arguments == Arguments::NumberAndNodes => {}
        _ => return Ok(None),
    }
    Ok(Some(String::from_str(alloc, "no child")?))
}

pub(crate) fn threshold_flaw(alloc: Global, node: &Value) -> Result<Option<String>, AllocError> {
    let Some((form, [number, children @ ..])) = kind_of(node) else {
        return Ok(None);
    };
    let Some(threshold) = number.as_u64() else {
        return Ok(None);
    };
    let children = children.len() as u64;
    if form.arguments != Arguments::NumberAndNodes || (1..=children).contains(&threshold) {
        return Ok(None);
    }
    let noun = if children == 1 { "child" } else { "children" };
    Ok(Some(format!(in alloc; "{threshold} of {children} {noun}")?))
}

/// The most that the number of a node may be, where it counts ticks or is a distance.
fn most_of(head: &str) -> Option<u64> {
    match head {
        "tries" | "ticks" | "wait" => Some(MOST_TICKS),
        "near" => Some(MOST_DISTANCE),
        _ => None,
    }
}

pub(crate) fn count_flaw(alloc: Global, node: &Value) -> Result<Option<String>, AllocError> {
    let Some((form, [number, ..])) = kind_of(node) else {
        return Ok(None);
    };
    let (Some(most), Some(number)) = (most_of(form.head), number.as_u64()) else {
        return Ok(None);
    };
    if (1..=most).contains(&number) {
        return Ok(None);
    }
    Ok(Some(format!(in alloc; "{number}, from 1 to {most}")?))
}

/// What is wrong of the first node, in preorder, with which a tree breaks a limit.
pub(crate) fn limit_flaw(
    alloc: Global,
    level: &Value,
    name: &str,
    fault: TreeFault,
    at: &mut Pointer,
) -> Result<Option<String>, AllocError> {
    let Some(root) = root_of(level, name, at)? else {
        return Ok(None);
    };
    let flaw = match fault {
        TreeFault::TooManyNodes => {
            let nodes = nodes_of(root);
            return Ok(Some(format!(in alloc; "{nodes} nodes, at most {}", MOST_NODES)?));
        }
        TreeFault::TooDeep => Flaw::Depth,
        TreeFault::NoChild => Flaw::Children,
        TreeFault::Threshold => Flaw::Threshold,
        TreeFault::Count => Flaw::Count,
    };
    first_flaw(alloc, root, 1, flaw, at)
}
