// The parts of a level file as JSON values.
ghost use Rattle.std.specs.Prelude.{◌≡◌, IfOk, IfSome, IsTrue, option_map, map, string_bytes};
ghost use Rattle.serde_json.specs.View.{view};
ghost use Rattle.serde_json.specs.Find.{as_object};
ghost use Rattle.serde_json.specs.Events.{members_len};
ghost use Rattle.level_text.specs.Drafts.{parts_view, node_view};
ghost use Rattle.game_session.specs.Names.{is_in_order, names_of};
ghost use Rattle.level_text.specs.Parts.{texts_of as spelled_texts, trees_of as spelled_trees, parts_of as spelled_parts, has_three};

use crate::draft::{Draft, NamedNode};
use crate::nodes::node_of;
use serde_json::Value;
use std::alloc::{AllocError, Global};

/// The texts of a list, or none where the value is no list of texts.
fn texts_of(alloc: Global, value: &Value) -> Result<Option<Vec<String>>, AllocError>
    ensures { IfOk result (λ o. option_map (λ v. map string_bytes v.items) o ≡ spelled_texts (view value.now)) }
{
    let Value::Array(items) = value else {
        return Ok(None);
    };
    let mut texts = Vec::new(alloc);
    'items: for item in items {
        let Some(text) = item.as_str() else {
            return Ok(None);
        };
        texts.push(String::from_str(alloc, text)?)?;
    }
    Ok(Some(texts))
}

/// The nodes of an object, by name, or none where the value is no object from name to node.
fn trees_of(alloc: Global, value: &Value) -> Result<Option<Vec<NamedNode>>, AllocError>
    ensures spelled { IfOk result (λ o. option_map (λ v. map node_view v.items) o ≡ spelled_trees (view value.now)) }
    ensures ordered { IfOk result (λ o. IfSome o (λ v. IsTrue (is_in_order (names_of (map node_view v.items))))) }
{
    let Value::Object(members) = value else {
        return Ok(None);
    };
    let mut trees = Vec::new(alloc);
    'members: for (key, member) in members.iter() {
        let Some(node) = node_of(alloc, member)? else {
            return Ok(None);
        };
        trees.push(NamedNode {
            name: key.clone()?,
            node,
        })?;
    }
    Ok(Some(trees))
}

fn is_of_three(value: &Value) -> bool
    ensures { result ≡ has_three (option_map members_len (as_object (view value.now))) }
{
    match value {
        Value::Object(members) => members.len() == 3,
        _ => false,
    }
}

/// The parts of a level, or none where the value has another shape.
pub(crate) fn parts_of(alloc: Global, value: &Value) -> Result<Option<Draft>, AllocError>
    ensures spelled { IfOk result (λ o. option_map parts_view o ≡ spelled_parts (view value.now)) }
    ensures ordered { IfOk result (λ o. IfSome o (λ p. IsTrue (is_in_order (names_of (parts_view p).trees)))) }
{
    if !is_of_three(value) {
        return Ok(None);
    }
    let (Some(map), Some(agents), Some(trees)) = (
        value.get("map"),
        value.get("agents"),
        value.get("trees"),
    ) else {
        return Ok(None);
    };
    let Some(rows) = texts_of(alloc, map)? else {
        return Ok(None);
    };
    let Some(names) = texts_of(alloc, agents)? else {
        return Ok(None);
    };
    let Some(trees) = trees_of(alloc, trees)? else {
        return Ok(None);
    };
    Ok(Some(Draft { rows, names, trees }))
}
