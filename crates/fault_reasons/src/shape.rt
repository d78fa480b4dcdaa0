// Values of the wrong kind.
use crate::forms::Form;
use crate::keys::keys_flaw;
use crate::pointer::Pointer;
use crate::search::{Flaw, first_flaw};
use serde_json::Value;
use std::alloc::{AllocError, Global};

fn wanted(alloc: Global, what: &str) -> Result<Option<String>, AllocError> {
    Ok(Some(format!(in alloc; "wanted: {what}")?))
}

/// What is said of a head that no node has.
fn unknown_head(alloc: Global, head: &str) -> Result<Option<String>, AllocError> {
    let words = match Form::near(alloc, head)? {
        Some(form) => {
            let near = form.head;
            format!(in alloc; "no node is called \"{head}\"; \"{near}\" is")?
        }
        None => format!(in alloc; "no node is called \"{head}\"")?,
    };
    Ok(Some(words))
}

/// What is wrong of a value that is to be a node, if it is none, whatever the values are that are to be nodes below it.
pub(crate) fn form_flaw(alloc: Global, node: &Value) -> Result<Option<String>, AllocError> {
    let Value::Array(items) = node else {
        return wanted(alloc, "a list that begins with a text");
    };
    let [first, arguments @ ..] = items.as_slice() else {
        return wanted(alloc, "a list that begins with a text");
    };
    let Some(head) = first.as_str() else {
        return wanted(alloc, "a list that begins with a text");
    };
    let Some(form) = Form::of(head) else {
        return unknown_head(alloc, head);
    };
    if form.arguments.fits(arguments) {
        return Ok(None);
    }
    let text = form.text(alloc)?;
    Ok(Some(format!(in alloc; "wanted: the form {text}")?))
}

/// What is wrong of a member that is to be a list of texts.
fn texts_flaw(
    alloc: Global,
    level: &Value,
    name: &str,
    at: &mut Pointer,
) -> Result<Option<String>, AllocError> {
    at.member(name)?;
    let Some(Value::Array(items)) = level.get(name) else {
        return wanted(alloc, "a list of texts");
    };
    for (i, item) in items.iter().enumerate() {
        if item.as_str().is_none() {
            at.item(i)?;
            return wanted(alloc, "a text");
        }
    }
    at.leave();
    Ok(None)
}

/// What is wrong of the member that is to be an object of nodes.
fn trees_flaw(
    alloc: Global,
    level: &Value,
    at: &mut Pointer,
) -> Result<Option<String>, AllocError> {
    at.member("trees")?;
    let Some(Value::Object(members)) = level.get("trees") else {
        return wanted(alloc, "an object of nodes");
    };
    for (name, node) in members.iter() {
        at.member(name)?;
        if let Some(words) = first_flaw(alloc, node, 1, Flaw::Form, at)? {
            return Ok(Some(words));
        }
        at.leave();
    }
    at.leave();
    Ok(None)
}

/// What is wrong of the keys, or of the first value of the wrong kind, in the order map, agents, trees.
pub(crate) fn shape_flaw(
    alloc: Global,
    level: &Value,
    at: &mut Pointer,
) -> Result<Option<String>, AllocError> {
    if let Some(words) = keys_flaw(alloc, level, at)? {
        return Ok(Some(words));
    }
    if let Some(words) = texts_flaw(alloc, level, "map", at)? {
        return Ok(Some(words));
    }
    if let Some(words) = texts_flaw(alloc, level, "agents", at)? {
        return Ok(Some(words));
    }
    trees_flaw(alloc, level, at)
}
