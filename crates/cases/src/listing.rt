// Cases as their files spell them.
use crate::case::{Act, Case, Completion, Cut, NamedBytes, NamedLines, Span, Unit};
use anyhow::{Context, Result, bail};
use std::alloc::Global;
use std::fs;
use std::rt::Files;

/// What the lines of content that follow belong to.
#[derive(Clone, Copy, Drop)]
enum Part {
    Nothing,
    Input,
    Out,
    Err,
    File,
    Made,
}

fn words_in(alloc: Global, line: &str) -> Result<Vec<String>> {
    let mut words = Vec::new(alloc);
    for word in line.split_ascii_whitespace() {
        words.push(String::from_str(alloc, word)?)?;
    }
    Ok(words)
}

fn span_in(line: &str) -> Result<Span> {
    let mut numbers = line.split_ascii_whitespace();
    let first = numbers.next().context("no first number")?;
    let last = numbers.next().context("no last number")?;
    Ok(Span {
        first: first.parse::<usize>().context("first number")?,
        last: last.parse::<usize>().context("last number")?,
    })
}

fn cut_in(alloc: Global, line: &str, unit: Unit) -> Result<Cut> {
    let (path, lengths) = line.split_once(' ').context("cut without lengths")?;
    let path = if path == "stdin" {
        None
    } else {
        Some(String::from_str(alloc, path)?)
    };
    Ok(Cut {
        path,
        unit,
        lengths: span_in(lengths)?,
    })
}

fn completion_in(alloc: Global, line: &str) -> Result<Completion> {
    let mut paths = line.split_ascii_whitespace();
    let level = paths.next().context("no level")?;
    let log = paths.next().context("no log")?;
    let whole = paths.next().context("no whole log")?;
    Ok(Completion {
        level: String::from_str(alloc, level)?,
        log: String::from_str(alloc, log)?,
        whole: String::from_str(alloc, whole)?,
    })
}

/// A file that is there before each run, and is a copy of one that always is.
fn copy_in<H: Files + Alloc<A = Global>>(rt: &H, alloc: Global, line: &str) -> Result<NamedBytes> {
    let (from, path) = line.split_once(' ').context("copy without a path")?;
    Ok(NamedBytes {
        path: String::from_str(alloc, path)?,
        bytes: fs::read(rt, from).context("no file to copy")?,
    })
}

fn named(alloc: Global, path: &str) -> Result<NamedBytes> {
    Ok(NamedBytes {
        path: String::from_str(alloc, path)?,
        bytes: Vec::new(alloc),
    })
}

fn counted(alloc: Global, line: &str) -> Result<NamedLines> {
    let (path, lines) = line.split_once(' ').context("lines without a number")?;
    let lines = if lines == "any" {
        None
    } else {
        Some(lines.parse::<usize>().context("number of lines")?)
    };
    Ok(NamedLines {
        path: String::from_str(alloc, path)?,
        lines,
    })
}

/// The bytes of a line of content: `| TEXT` with a line feed, `\ TEXT` without one, `x 41 ff` by their numbers.
fn put_content(bytes: &mut Vec<u8>, line: &str) -> Result<()> {
    if line == "|" {
        bytes.push(b'\n')?;
        return Ok(());
    }
    if let Some(text) = line.strip_prefix("| ") {
        bytes.extend_from_slice(text.as_bytes())?;
        bytes.push(b'\n')?;
        return Ok(());
    }
    if let Some(text) = line.strip_prefix("\\ ") {
        bytes.extend_from_slice(text.as_bytes())?;
        return Ok(());
    }
    if let Some(numbers) = line.strip_prefix("x ") {
        for number in numbers.split_ascii_whitespace() {
            bytes.push(u8::from_str_radix(number, 16).context("no byte")?)?;
        }
        return Ok(());
    }
    bail!("not a line of a case: {line}")
}

fn put_line(case: &mut Case, part: Part, line: &str) -> Result<()> {
    match part {
        Part::Nothing => bail!("content of nothing: {line}"),
        Part::Input => put_content(&mut case.input, line),
        Part::Out => put_content(&mut case.out.bytes, line),
        Part::Err => put_content(&mut case.err.bytes, line),
        Part::File => match case.files.last_mut() {
            Some(file) => put_content(&mut file.bytes, line),
            None => bail!("no file"),
        },
        Part::Made => match case.made.last_mut() {
            Some(file) => put_content(&mut file.bytes, line),
            None => bail!("no file"),
        },
    }
}

/// Takes a line that begins with a word of its own, and says what the content behind it belongs to.
fn put_word(alloc: Global, case: &mut Case, word: &str, rest: &str) -> Result<Option<Part>> {
    match word {
        "words" => case.acts.push(Act::Words(words_in(alloc, rest)?))?,
        "complete" => case.acts.push(Act::Complete(completion_in(alloc, rest)?))?,
        "differs" => case.differs = Some(String::from_str(alloc, rest)?),
        "then" => case.then = Some(words_in(alloc, rest)?),
        "lines" => case.counted.push(counted(alloc, rest)?)?,
        "status" => case.status = rest.parse::<u8>().context("status")?,
        "cut" => case.cut = Some(cut_in(alloc, rest, Unit::Bytes)?),
        "cut_lines" => case.cut = Some(cut_in(alloc, rest, Unit::Lines)?),
        "room" => case.room = Some(span_in(rest)?),
        "pieces" => case.pieces = rest.parse::<usize>().context("pieces")?,
        "file" => {
            case.files.push(named(alloc, rest)?)?;
            return Ok(Some(Part::File));
        }
        "makes" => {
            case.made.push(named(alloc, rest)?)?;
            return Ok(Some(Part::Made));
        }
        "stdin" => {
            case.input_fails = rest == "fails";
            return Ok(Some(Part::Input));
        }
        "stdout" => {
            case.out.is_any = rest == "any";
            case.out.is_part = rest == "has";
            return Ok(Some(Part::Out));
        }
        "stderr" => {
            case.err.is_any = rest == "any";
            case.err.is_part = rest == "has";
            return Ok(Some(Part::Err));
        }
        "flush" => case.flush_fails = rest == "fails",
        _ => return Ok(None),
    }
    Ok(Some(Part::Nothing))
}

fn begin_case(alloc: Global, cases: &mut Vec<Case>, name: &str) -> Result<()> {
    let name = String::from_str(alloc, name)?;
    Ok(cases.push(Case::new(alloc, name))?)
}

/// Takes a line of a file of cases, and says what the content behind it belongs to.
fn take_line<H: Files + Alloc<A = Global>>(
    rt: &H,
    alloc: Global,
    cases: &mut Vec<Case>,
    part: Part,
    line: &str,
) -> Result<Part> {
    let (word, rest) = line.split_once(' ').unwrap_or((line, ""));
    if word == "case" {
        begin_case(alloc, cases, rest)?;
        return Ok(Part::Nothing);
    }
    let Some(case) = cases.last_mut() else {
        bail!("a line before the first case: {line}");
    };
    if word == "copy" {
        case.files.push(copy_in(rt, alloc, rest)?)?;
        return Ok(Part::Nothing);
    }
    if let Some(next) = put_word(alloc, case, word, rest)? {
        return Ok(next);
    }
    put_line(case, part, line)?;
    Ok(part)
}

/// The cases of a file.
pub fn cases_in<H: Files + Alloc<A = Global>>(
    rt: &H,
    alloc: Global,
    path: &str,
) -> Result<Vec<Case>> {
    let text = fs::read_to_string(rt, path).context("no file of cases")?;
    let mut cases: Vec<Case> = Vec::new(alloc);
    let mut part = Part::Nothing;
    for line in text.as_str().lines() {
        if !line.is_empty() && !line.starts_with("#") {
            part = take_line(rt, alloc, &mut cases, part, line)?;
        }
    }
    Ok(cases)
}
