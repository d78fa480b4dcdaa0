// The names of the lanes, and their order.
ghost use Rattle.std.specs.Prelude.{◌≡◌, ◌+◌, ◌++◌, decimal, OnOk};
ghost use Rattle.trace_text.specs.Trace.{worker_text, printer_text, place_text, lane_text, workers_text, printer_lane_text, lanes_text};

use crate::board::Board;
use crate::parts::{push_two, thread_of};
use byte_streams::push_number;
use std::alloc::AllocError;

const LANE: &str = ",\n{\"ph\":\"M\",\"pid\":1,\"tid\":";

const WORKER: &str = ",\"name\":\"thread_name\",\"args\":{\"name\":\"worker ";

const PRINTER: &str = ",\"name\":\"thread_name\",\"args\":{\"name\":\"printer";

const NAME_END: &str = "\"}}";

const PLACE: &str = ",\"name\":\"thread_sort_index\",\"args\":{\"sort_index\":";

const PLACE_END: &str = "}}";

fn push_named(
    text: &mut Vec<u8>,
    lane: &str,
    thread: u64,
    name: &str,
    end: &str,
) -> Result<(), AllocError>
    ensures { OnOk result (text.new.items ≡ text.old.items
        ++ ((lane.now ++ decimal thread) ++ name.now ++ end.now)) }
{
    push_number(text, lane.as_bytes(), thread)?;
    text.extend_from_slice(name.as_bytes())?;
    text.extend_from_slice(end.as_bytes())
}

fn push_worker(text: &mut Vec<u8>, thread: u64, worker: u32) -> Result<(), AllocError>
    ensures { OnOk result (text.new.items ≡ text.old.items ++ worker_text thread worker) }
{
    push_two(text, LANE, thread, WORKER, u64::from(worker), NAME_END)
}

fn push_printer(text: &mut Vec<u8>, thread: u64) -> Result<(), AllocError>
    ensures { OnOk result (text.new.items ≡ text.old.items ++ printer_text thread) }
{
    push_named(text, LANE, thread, PRINTER, NAME_END)
}

fn push_place(text: &mut Vec<u8>, thread: u64) -> Result<(), AllocError>
    ensures { OnOk result (text.new.items ≡ text.old.items ++ place_text thread) }
{
    push_two(text, LANE, thread, PLACE, thread, PLACE_END)
}

fn push_lane(text: &mut Vec<u8>, thread: u64, worker: u32) -> Result<(), AllocError>
    ensures { OnOk result (text.new.items ≡ text.old.items ++ lane_text thread worker) }
{
    push_worker(text, thread, worker)?;
    push_place(text, thread)
}

fn push_workers(text: &mut Vec<u8>, workers: u32) -> Result<(), AllocError>
    ensures { OnOk result (text.new.items ≡ text.old.items ++ workers_text workers) }
{
    'workers: for worker in 0..workers {
        push_lane(text, thread_of(worker), worker)?;
    }
    Ok(())
}

fn push_printer_lane(text: &mut Vec<u8>, thread: u64) -> Result<(), AllocError>
    ensures { OnOk result (text.new.items ≡ text.old.items ++ printer_lane_text thread) }
{
    push_printer(text, thread)?;
    push_place(text, thread)
}

/// Appends the names of the workers' lanes, and that of the printer's.
pub fn push_lanes(text: &mut Vec<u8>, board: Board) -> Result<(), AllocError>
    ensures { OnOk result (text.new.items ≡ text.old.items ++ lanes_text board) }
{
    push_workers(text, board.workers())?;
    push_printer_lane(text, board.printer())
}
