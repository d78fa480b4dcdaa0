// The keys of a level.
use crate::pointer::Pointer;
use serde_json::Value;
use std::alloc::{AllocError, Global};
use strsim::levenshtein;

static KEYS: [&str; 3] = ["map", "agents", "trees"];

/// Whether a key is probably meant by another word. No key is as long as 40 bytes, and to compare takes time by the length.
fn is_near(alloc: Global, word: &str, key: &str) -> Result<bool, AllocError> {
    if word.len() > 40 {
        return Ok(false);
    }
    Ok(levenshtein(alloc, word, key)? <= 2)
}

/// A key that no level has, and that is probably meant by it.
fn misspelt<'v>(alloc: Global, level: &'v Value, key: &str) -> Result<Option<&'v str>, AllocError> {
    let Value::Object(members) = level else {
        return Ok(None);
    };
    for (name, _) in members.iter() {
        let word = name.as_str();
        if !KEYS.contains(&word) && is_near(alloc, word, key)? {
            return Ok(Some(word));
        }
    }
    Ok(None)
}

/// What is wrong of a key that isn't there. The pointer is led to the one that is probably meant by it.
fn missing_flaw(
    alloc: Global,
    level: &Value,
    key: &str,
    at: &mut Pointer,
) -> Result<String, AllocError> {
    match misspelt(alloc, level, key)? {
        Some(word) => {
            at.member(word)?;
            format!(in alloc; "no key is called \"{word}\"; \"{key}\" is")
        }
        None => format!(in alloc; "the key \"{key}\" is missing; wanted: map, agents, trees"),
    }
}

/// What is wrong of a value that isn't an object with the keys of a level and no other.
pub(crate) fn keys_flaw(
    alloc: Global,
    level: &Value,
    at: &mut Pointer,
) -> Result<Option<String>, AllocError> {
    let Value::Object(members) = level else {
        let words = String::from_str(alloc, "wanted: an object with the keys map, agents, trees")?;
        return Ok(Some(words));
    };
    for key in &KEYS {
        if level.get(*key).is_none() {
            return Ok(Some(missing_flaw(alloc, level, key, at)?));
        }
    }
    for (name, _) in members.iter() {
        let word = name.as_str();
        if !KEYS.contains(&word) {
            at.member(word)?;
            let words = format!(in alloc;
                "no key is called \"{word}\"; wanted: map, agents, trees"
            )?;
            return Ok(Some(words));
        }
    }
    Ok(None)
}
