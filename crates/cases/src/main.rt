// Plays the cases that its folder holds as the programs would, and says which come out otherwise; then makes pages of the
// sample levels, and says how many of them hold other frames than the levels have.
//
// `cases.txt` names the files of cases for `btworld`, one a line, and `view.cases` holds those for `btview`; README.md beside
// them says how a case is written. What is wrong on purpose, a case with `differs` or the page of another script, is counted
// apart: a comparison that finds no difference anywhere is right about all others.
#![tactic(auto)]

mod case;
mod completing;
mod folder;
mod judging;
mod listing;
mod playing;
mod ran;
mod run;
mod sample;
mod streams;
mod tallies;
mod tally;
mod unrolling;

use anyhow::Result;
use listing::cases_in;
use playing::Program;
use sample::{DOOR, SAMPLES, Sample};
use std::alloc::{Alloc, Global};
use std::fs;
use std::rt::Files;
use std::sync::Wait;
use std::thread::Threads;
use std::time::Clock;
use tallies::Tallies;
use tally::Tally;
use unrolling::unrolled;

/// Plays all cases of a file, and counts them.
fn play_file<H: Files + Alloc<A = Global> + Print + Threads + Wait + Clock + Sync>(
    rt: &H,
    program: Program,
    name: &str,
    tallies: &mut Tallies,
) -> Result<()> {
    for case in &cases_in(rt, rt.alloc(), name)? {
        tallies.add(case, program.play_case(rt, rt.alloc(), case)?);
    }
    Ok(())
}

/// Makes a page of each sample level, and counts those that hold other frames; then the page of a game under another script.
fn unroll_pages<H: Files + Alloc<A = Global> + Print>(rt: &H) -> Result<()> {
    let alloc = rt.alloc();
    let mut right = Tally::new();
    for sample in &SAMPLES {
        let played = sample.play(rt, alloc)?;
        right.count(unrolled(alloc, &played)? != played.frames.text);
    }
    let mut wrong = Tally::new();
    let shut = Sample {
        script: None,
        ..DOOR
    };
    let opened = DOOR.play(rt, alloc)?;
    wrong.count(unrolled(alloc, &shut.play(rt, alloc)?)? != opened.frames.text);
    println!(rt;
        "{} pages, {} unroll to other frames; {} made to, {} do",
        right.runs, right.differ, wrong.runs, wrong.differ
    )?;
    Ok(())
}

fn main(rt: HostRuntime) -> Result<()> {
    let names = fs::read_to_string(&rt, "cases.txt")?;
    let mut tallies = Tallies::new();
    for name in names.as_str().lines() {
        play_file(&rt, Program::Btworld, name, &mut tallies)?;
    }
    tallies.print(&rt)?;
    let mut tallies = Tallies::new();
    play_file(&rt, Program::Btview, "view.cases", &mut tallies)?;
    tallies.print(&rt)?;
    unroll_pages(&rt)
}
