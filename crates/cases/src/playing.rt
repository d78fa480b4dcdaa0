// Runs of the programs, and what comes of them.
use crate::case::{Act, Case};
use crate::completing::complete_files;
use crate::folder::{take_files, take_made, write_files};
use crate::judging::judge;
use crate::ran::Ran;
use crate::run::{Run, runs_of};
use crate::streams::{Output, Pieces};
use crate::tally::Tally;
use anyhow::Result;
use commands::command;
use std::alloc::Global;
use std::rt::Files;
use std::sync::Wait;
use std::thread::Threads;
use std::time::Clock;
use view_commands::view_command;

/// Which program is given a case's words.
#[derive(Clone, Copy, Drop)]
pub enum Program {
    Btworld,
    Btview,
}

impl Program {
    fn play<H: Files + Threads + Wait + Clock + Sync>(
        self,
        rt: &H,
        alloc: Global,
        words: &[String],
        input: &mut Pieces<'_>,
        out: &mut Output,
        err: &mut Output,
    ) -> u8 {
        match self {
            Program::Btworld => command(rt, alloc, words, input, out, err),
            Program::Btview => view_command(rt, alloc, words, out, err),
        }
    }

    /// Whether the words that come after a run write the frames that the case has to write.
    fn repeats<H: Files + Threads + Wait + Clock + Sync>(
        self,
        rt: &H,
        alloc: Global,
        case: &Case,
    ) -> bool {
        let Some(words) = &case.then else {
            return true;
        };
        let mut input = Pieces {
            left: b"",
            size: 1,
            fails: false,
        };
        let mut out = Output::new(alloc);
        let mut err = Output::new(alloc);
        let status = self.play(rt, alloc, words, &mut input, &mut out, &mut err);
        status == 0 && out.bytes.as_slice() == case.out.bytes.as_slice()
    }

    fn play_run<H: Files + Alloc<A = Global> + Threads + Wait + Clock + Sync>(
        self,
        rt: &H,
        alloc: Global,
        case: &Case,
        run: &Run<'_>,
    ) -> Result<Ran> {
        write_files(rt, case, run)?;
        let mut input = Pieces {
            left: run.input_of(case),
            size: case.pieces,
            fails: case.input_fails,
        };
        let mut out = Output::new(alloc);
        out.room = run.room;
        out.flush_fails = case.flush_fails;
        let mut err = Output::new(alloc);
        let status = match run.act {
            Act::Words(words) => self.play(rt, alloc, words, &mut input, &mut out, &mut err),
            Act::Complete(files) => complete_files(rt, alloc, files, &mut out, &mut err)?,
        };
        let repeats = self.repeats(rt, alloc, case);
        take_files(rt, case)?;
        let has_made = take_made(rt, case)?;
        Ok(Ran {
            status,
            out: out.bytes,
            err: err.bytes,
            flushes: out.flushes,
            repeats,
            has_made,
        })
    }

    /// Plays each run of a case.
    pub fn play_case<H: Files + Alloc<A = Global> + Print + Threads + Wait + Clock + Sync>(
        self,
        rt: &H,
        alloc: Global,
        case: &Case,
    ) -> Result<Tally> {
        let mut tally = Tally::new();
        for run in &runs_of(alloc, case)? {
            let ran = self.play_run(rt, alloc, case, run)?;
            tally.count(judge(rt, case, run, &ran)?);
        }
        Ok(tally)
    }
}
