// Reading the rows of a map: one function for each part, with its part of the definition as contract.
ghost use Rattle.std.specs.Prelude.{◌≡◌, ◌≤◌, ◌<◌, ◌+◌, ◌*◌, ◌++◌, ◌==◌, [], not, map, length, count_by, position, string_bytes, IfOk, IfSome, OnOk};
ghost use Rattle.std.specs.List.{cons_option, filter_map};
ghost use Rattle.std.specs.Str.{chars};
ghost use Rattle.grid_world.specs.Map.{agent_in, cell_of, count_up, marks_of, width_of};
ghost use Rattle.grid_world.specs.MapFaults.{digit_fits, has_letters, has_size, is_letter, is_mark, letter_fits, rows_of};

use crate::cell::{Agent, Cell};
use crate::place::Place;
use crate::signal::Signal;
use std::alloc::{AllocError, Global};

fn row_width(row: &String) -> usize
    ensures { result ≡ length (chars (string_bytes row.now)) }
{
    row.chars().count()
}

/// How many characters the first row has, 0 where there is no row; they are Unicode scalar values.
pub fn first_width(rows: &[String]) -> usize
    ensures { result ≡ width_of (rows_of rows.now) }
{
    match rows {
        [] => 0,
        [row, ..] => row_width(row),
    }
}

/// Whether there are from 1 to 128 rows, each of from 1 to 128 characters, and all of one length.
pub fn has_size(rows: &[String]) -> bool
    ensures { result ≡ has_size (rows_of rows.now) }
{
    let width = first_width(rows);
    if rows.len() < 1 || rows.len() > 128 || width < 1 || width > 128 {
        return false;
    }
    'rows: for row in rows {
        if row_width(row) != width {
            return false;
        }
    }
    true
}

fn row_marks(alloc: Global, row: &String) -> Result<Vec<char>, AllocError>
    ensures { IfOk result (λ marks. marks.items ≡ chars (string_bytes row.now)) }
{
    row.chars().collect(alloc)
}

/// The characters of all rows, one row after another.
pub fn marks_in(alloc: Global, rows: &[String]) -> Result<Vec<char>, AllocError>
    ensures { IfOk result (λ marks. marks.items ≡ marks_of (rows_of rows.now)) }
{
    let mut marks = Vec::new(alloc);
    'rows: for row in rows {
        let mut more = row_marks(alloc, row)?;
        marks.append(&mut more)?;
    }
    Ok(marks)
}

fn is_mark(c: char) -> bool
    ensures { result ≡ is_mark c }
{
    matches!(c, '#' | '.' | '*' | 'a'..='z' | '0'..='9' | 'A'..='Z')
}

/// The place of the first character that no map has.
pub fn strange_mark(marks: &[char]) -> Option<usize>
    ensures is { result ≡ position (λ c. not (is_mark c)) marks.now }
    ensures within { IfSome result (λ i. i < length marks.now) }
{
    marks.iter().position(|c| !is_mark(*c))
}

fn letter_fits(marks: &[char], letters: usize, k: u32) -> bool
    requires { k < 26 }
    ensures { result ≡ letter_fits marks.now letters k }
{
    let wanted = if (k as usize) < letters { 1 } else { 0 };
    marks
        .iter()
        .filter(|c| **c as u32 == 'A' as u32 + k)
        .count()
        == wanted
}

fn digit_fits(marks: &[char], d: u32) -> bool
    requires { d < 10 }
    ensures { result ≡ digit_fits marks.now d }
{
    marks
        .iter()
        .filter(|c| **c as u32 == '0' as u32 + d)
        .count()
        <= 1
}

fn letters_in(marks: &[char]) -> usize
    ensures { result ≡ count_by is_letter marks.now }
{
    marks.iter().filter(|c| **c >= 'A' && **c <= 'Z').count()
}

/// Whether the capital letters are `A` onwards without a gap, each once, and no digit stands twice.
pub fn has_letters(marks: &[char]) -> bool
    ensures { result ≡ has_letters marks.now }
{
    let letters = letters_in(marks);
    'letters: for k in 0..26u32 {
        if !letter_fits(marks, letters, k) {
            return false;
        }
    }
    'digits: for d in 0..10u32 {
        if !digit_fits(marks, d) {
            return false;
        }
    }
    true
}

fn letter_at(marks: &[char], k: u32) -> Option<usize>
    requires { k < 26 }
    ensures is { result ≡ position (λ c. c == 65 + k) marks.now }
    ensures within { IfSome result (λ i. i < length marks.now) }
{
    marks.iter().position(|c| *c as u32 == 'A' as u32 + k)
}

fn agent_in(width: u32, marks: &[char], k: u32) -> Option<Agent>
    requires wide { 0 < width }
    requires few { length marks.now ≤ 16384 }
    requires letter { k < 26 }
    ensures { result ≡ agent_in width marks.now k }
{
    match letter_at(marks, k) {
        Some(i) => {
            let at = i as u32;
            Some(Agent {
                x: at % width,
                y: at / width,
                carrying: false,
            })
        }
        None => None,
    }
}

fn push_some(agents: &mut Vec<Agent>, agent: Option<Agent>) -> Result<(), AllocError>
    ensures { OnOk result (agents.new.items ≡ agents.old.items ++ cons_option agent []) }
{
    if let Some(agent) = agent {
        agents.push(agent)?;
    }
    Ok(())
}

/// The agents in the order of their letters, each with empty hands. Walks over the characters once for each letter.
pub fn agents_in(alloc: Global, width: u32, marks: &[char]) -> Result<Vec<Agent>, AllocError>
    requires wide { 0 < width }
    requires few { length marks.now ≤ 16384 }
    ensures { IfOk result (λ agents. agents.items ≡ filter_map (agent_in width marks.now) (count_up 0 26)) }
{
    let mut agents = Vec::new(alloc);
    'letters: for k in 0..26u32 {
        push_some(&mut agents, agent_in(width, marks, k))?;
    }
    Ok(agents)
}

fn cell_in(c: char) -> Cell
    ensures { result ≡ cell_of c }
{
    if c == '#' {
        return Cell::Wall;
    }
    if c >= 'a' {
        if let Some(signal) = Signal::new(c as u32 - 'a' as u32) {
            return Cell::Door(signal);
        }
    }
    if c >= '0' {
        if let Some(place) = Place::new(c as u32 - '0' as u32) {
            return Cell::Spot(place);
        }
    }
    Cell::Floor
}

/// The ground of each cell, row after row: a letter of an agent and the mark of an item stand on floor.
pub fn cells_in(alloc: Global, marks: &[char]) -> Result<Vec<Cell>, AllocError>
    ensures { IfOk result (λ cells. cells.items ≡ map cell_of marks.now) }
{
    marks.iter().map(|c| cell_in(*c)).collect(alloc)
}

/// For each cell, row after row, whether an item lies on it.
pub fn items_in(alloc: Global, marks: &[char]) -> Result<Vec<bool>, AllocError>
    ensures { IfOk result (λ items. items.items ≡ map (λ c. c == 42) marks.now) }
{
    marks.iter().map(|c| *c == '*').collect(alloc)
}
