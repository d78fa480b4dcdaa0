// The files of a case in the folder that its runs work in.
use crate::case::{Case, NamedBytes, NamedLines};
use crate::run::Run;
use anyhow::Result;
use std::alloc::Global;
use std::rt::Files;
use std::{fs, io};

/// Writes the files that are there before a run.
pub fn write_files<H: Files>(rt: &H, case: &Case, run: &Run<'_>) -> io::Result<()> {
    for file in &case.files {
        fs::write(rt, file.path.as_str(), run.bytes_of(case, file))?;
    }
    Ok(())
}

/// Takes away the files that were there before a run.
pub fn take_files<H: Files>(rt: &H, case: &Case) -> io::Result<()> {
    for file in &case.files {
        fs::remove_file(rt, file.path.as_str())?;
    }
    Ok(())
}

/// The bytes of a file that a run made, which is taken away; none where it made none.
fn take_file<H: Files + Alloc<A = Global>>(rt: &H, path: &str) -> Result<Option<Vec<u8>>> {
    match fs::read(rt, path) {
        Ok(bytes) => {
            fs::remove_file(rt, path)?;
            Ok(Some(bytes))
        }
        Err(_) => Ok(None),
    }
}

/// Whether each file is there with its bytes.
fn take_named<H: Files + Alloc<A = Global>>(rt: &H, made: &[NamedBytes]) -> Result<bool> {
    let mut has_all = true;
    for file in made {
        match take_file(rt, file.path.as_str())? {
            Some(bytes) => has_all = has_all && bytes.as_slice() == file.bytes.as_slice(),
            None => has_all = false,
        }
    }
    Ok(has_all)
}

/// Whether each file is there with its number of lines.
fn take_counted<H: Files + Alloc<A = Global>>(rt: &H, counted: &[NamedLines]) -> Result<bool> {
    let mut has_all = true;
    for file in counted {
        match take_file(rt, file.path.as_str())? {
            Some(bytes) => {
                let lines = bytes.iter().filter(|byte| **byte == b'\n').count();
                has_all = has_all && lines == file.lines.unwrap_or(lines);
            }
            None => has_all = false,
        }
    }
    Ok(has_all)
}

/// Takes away the files that a run had to make, and says whether each was there with its bytes or its number of lines.
pub fn take_made<H: Files + Alloc<A = Global>>(rt: &H, case: &Case) -> Result<bool> {
    let has_made = take_named(rt, &case.made)?;
    let has_counted = take_counted(rt, &case.counted)?;
    Ok(has_made && has_counted)
}
