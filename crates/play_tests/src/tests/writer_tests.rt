// A writer whose call fails, and what is written before.
use super::failed_writes::frames_before_failed_write;
use super::levels::{WALK, WALK_TEXT};
use play_run::{EveryJob, run_bytes};
use std::alloc::Global;
use std::io;
use std::io::Write;
use std::sync::Wait;
use std::test::Fail;
use std::thread::Threads;
use std::time::Clock;
use task_board::Settings;

/// How a writer ends that has no more room.
#[derive(Clone, Copy, Drop, PartialEq, Eq)]
enum End {
    Fails,
    TakesNone,
    FlushFails,
}

/// Takes one byte a call, so many in all.
#[derive(Drop)]
struct Narrow {
    bytes: Vec<u8>,
    room: usize,
    end: End,
}

impl Narrow {
    fn new(alloc: Global, room: usize, end: End) -> Narrow {
        Narrow {
            bytes: Vec::new(alloc),
            room,
            end,
        }
    }
}

impl Write for Narrow {
    fn write(&mut self, buf: &[u8]) -> io::Result<usize> {
        if buf.is_empty() {
            return Ok(0);
        }
        if self.bytes.len() >= self.room {
            if self.end == End::TakesNone {
                return Ok(0);
            }
            return Err(io::Error::from(io::ErrorKind::Other));
        }
        self.bytes.push(buf[0])?;
        Ok(1)
    }

    fn flush(&mut self) -> io::Result<()> {
        if self.end == End::FlushFails {
            return Err(io::Error::from(io::ErrorKind::Other));
        }
        Ok(())
    }
}

// Whether runs of a walk by few and by many workers write as many bytes as a writer takes, and fail behind the frames that
// these are.
fn are_first_bytes<R: Threads + Wait + Clock + Sync>(
    rt: &R,
    alloc: Global,
    room: usize,
    end: End,
) -> Result<bool, Fail> {
    let Some(text) = WALK_TEXT.get(..room) else {
        return Ok(false);
    };
    for workers in [1, 2, 16] {
        let mut out = Narrow::new(alloc, room, end);
        let settings = Settings::new(3, workers, 8, 8, 3)?;
        let run = run_bytes(rt, alloc, WALK, b"", settings, &mut out, &EveryJob);
        let frames = frames_before_failed_write(run)?;
        if frames as usize != room / 22 || out.bytes.as_slice() != text {
            return Ok(false);
        }
    }
    Ok(true)
}

#[test]
fn the_first_bytes_are_written(rt: HostRuntime) -> Result<(), Fail> {
    for room in 0..66usize {
        assert!(rt;
            are_first_bytes(&rt, rt.alloc(), room, End::Fails)?,
            "{room}"
        );
    }
    Ok(())
}

#[test]
fn a_flush_fails_behind_all_frames(rt: HostRuntime) -> Result<(), Fail> {
    assert!(rt; are_first_bytes(&rt, rt.alloc(), 66, End::FlushFails)?);
    Ok(())
}

#[test]
fn nothing_is_taken_at_the_first_call(rt: HostRuntime) -> Result<(), Fail> {
    assert!(rt; are_first_bytes(&rt, rt.alloc(), 0, End::TakesNone)?);
    Ok(())
}
