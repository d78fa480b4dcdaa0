// Levels as text.
ghost use Rattle.std.specs.Prelude.{◌≡◌, Ok, IfOk, OnOk, IsTrue};
ghost use Rattle.std.specs.List.{list_all};
ghost use Rattle.serde_json.specs.Data.{array, object, put as put_data};
ghost use Rattle.serde_json.specs.View.{view, members_view};
ghost use Rattle.game_session.specs.Kept.{texts_view, trees_view};
ghost use Rattle.game_session.specs.Levels.{value_of as value_kept};
ghost use Rattle.level_text.specs.Levels.{spelled};
ghost use Rattle.level_text.specs.Marks.{has_marks};
ghost use Rattle.game_session.specs.Names.{is_in_order, names_of};
ghost use Rattle.level_text.specs.Written.{texts_data, trees_data, level_data, level_text};

use crate::write_nodes::value_of;
use game_session::{Level, NamedTree};
use serde_json::{Map, Value};
use std::alloc::{AllocError, Global};

fn texts_value(alloc: Global, texts: &[String]) -> Result<Value, AllocError>
    ensures { IfOk result (λ v. view v ≡ array (texts_data (texts_view texts.now))) }
{
    let mut values = Vec::with_capacity(alloc, texts.len())?;
    'texts: for text in texts {
        values.push(Value::String(text.clone()?))?;
    }
    Ok(Value::Array(values))
}

fn put(
    alloc: Global,
    members: &mut Map<String, Value>,
    name: &str,
    value: Value,
) -> Result<(), AllocError>
    ensures { OnOk result (members_view members.new.entries ≡ put_data name.now (view value) (members_view members.old.entries)) }
{
    drop(members.insert(String::from_str(alloc, name)?, value)?);
    Ok(())
}

fn trees_value(alloc: Global, trees: &[NamedTree]) -> Result<Value, AllocError>
    requires { IsTrue (is_in_order (names_of (trees_view trees.now))) }
    ensures value { IfOk result (λ v. view v ≡ object (trees_data (trees_view trees.now))) }
    ensures marks { OnOk result (IsTrue (list_all (λ t. has_marks t.tree) (trees_view trees.now))) }
{
    let mut members = Map::new(alloc);
    'trees: for named in trees {
        put(
            alloc,
            &mut members,
            &named.name,
            value_of(alloc, named.tree.root())?,
        )?;
    }
    Ok(Value::Object(members))
}

fn level_value(alloc: Global, level: &Level) -> Result<Value, AllocError>
    ensures value { IfOk result (λ v. view v ≡ level_data (value_kept level.now)) }
    ensures marks { OnOk result (IsTrue (list_all (λ t. has_marks t.tree) (value_kept level.now).trees)) }
{
    let mut members = Map::new(alloc);
    put(
        alloc,
        &mut members,
        "agents",
        texts_value(alloc, level.names())?,
    )?;
    put(
        alloc,
        &mut members,
        "map",
        texts_value(alloc, level.rows())?,
    )?;
    put(
        alloc,
        &mut members,
        "trees",
        trees_value(alloc, level.named_trees())?,
    )?;
    Ok(Value::Object(members))
}

/// The level as compact JSON text: the keys `agents`, `map` and `trees`, the trees in order of their names' bytes, no
/// space. Takes time in proportion to the text's length, but for the look-ups of names.
pub fn write_level(alloc: Global, level: &Level) -> Result<Vec<u8>, AllocError>
    ensures text { IfOk result (λ bytes. bytes.items ≡ level_text (value_kept level.now)) }
    ensures reads_back { IfOk result (λ bytes. spelled bytes.items ≡ Ok (value_kept level.now)) }
{
    let value = level_value(alloc, level)?;
    let bytes = value.to_vec(alloc)?;
    Ok(bytes)
}
