//! Each request for memory refused in turn, in each call by itself, and calls that ask for none.
//! tests/lockreplay/test_memory.py refuses each of the built program, on every worked row.

mod of_gates;
mod of_locks;
mod of_replays;
pub mod of_rows;
mod of_searches;
mod of_workers;

use crate::holding::holds;
use crate::refusing::{MOST_REQUESTS, met_none, refuse, was_refused};
use lk_replay::{ReadFault, read_schedule};
use of_replays::{TEXTS, Text};
use std::alloc::Global;
use std::process::Abort;
use std::test::Fail;
use std::thread::Threads;

// A call that asks for memory.
#[derive(Clone, Copy)]
enum Call {
    MakeRoom,
    Play,
    ReadSchedule,
    ReportOf,
    ReadText,
    Run,
    OpenDraws,
    OpenLock,
    ReplayMany,
    Explore,
}

const WITHOUT_A_TEXT: [Call; 6] = [
    Call::MakeRoom,
    Call::Play,
    Call::OpenDraws,
    Call::OpenLock,
    Call::ReplayMany,
    Call::Explore,
];

const OF_EACH_TEXT: [Call; 4] = [
    Call::ReadSchedule,
    Call::ReportOf,
    Call::ReadText,
    Call::Run,
];

// Makes the call with this request refused, and says whether one was.
fn once<R: Abort + Threads + Sync>(
    rt: &R,
    alloc: Global,
    call: Call,
    text: Text,
    number: usize,
) -> bool {
    match call {
        Call::MakeRoom => of_locks::make_room(rt, alloc, number),
        Call::Play => of_locks::play(rt, alloc, number),
        Call::ReadSchedule => of_replays::read(rt, alloc, number, text),
        Call::ReportOf => of_replays::report(rt, alloc, number, text),
        Call::ReadText => of_replays::read_input(rt, alloc, number, text),
        Call::Run => of_replays::run_all(rt, alloc, number, text),
        Call::OpenDraws => of_workers::open_draws(rt, alloc, number),
        Call::OpenLock => of_workers::open_lock(rt, alloc, number),
        Call::ReplayMany => of_workers::batch(rt, alloc, number),
        Call::Explore => of_searches::explore(rt, alloc, number),
    }
}

fn each_request<R: Abort + Threads + Sync>(rt: &R, alloc: Global, call: Call, text: Text) {
    for number in 1..MOST_REQUESTS {
        if !once(rt, alloc, call, text, number) {
            return met_none(rt, alloc, number);
        }
    }
    assert!(rt; false, "a request was refused each time");
}

#[test]
fn each_request_refused_in_each_call(rt: HostRuntime) {
    let alloc = rt.alloc();
    for call in WITHOUT_A_TEXT {
        each_request(&rt, alloc, call, TEXTS[0]);
    }
    for text in TEXTS {
        for call in OF_EACH_TEXT {
            each_request(&rt, alloc, call, text);
        }
    }
}

// A header's fault, or a text that is too long.
const HEADERS: [(&str, ReadFault); 5] = [
    ("", ReadFault::NoHeader(1)),
    ("\n# a\n", ReadFault::NoHeader(3)),
    ("lock clh threads 2\n0 acquire\n", ReadFault::BadHeader(1)),
    (
        "lock ticket threads 65\n0 acquire\n",
        ReadFault::BadThreads(1),
    ),
    (
        "lock ticket threads 4 bits 2\n",
        ReadFault::WordsTooNarrow(1),
    ),
];

fn asks_for_none(alloc: Global, text: &[u8], fault: &ReadFault) -> bool {
    refuse(alloc, 1);
    let is_right = match read_schedule(alloc, text) {
        Ok(_) => false,
        Err(found) => found == *fault,
    };
    is_right && !was_refused(alloc)
}

#[test]
fn no_request_in_a_faulty_header(rt: HostRuntime) -> Result<(), Fail> {
    let alloc = rt.alloc();
    for (text, fault) in &HEADERS {
        holds(&rt, asks_for_none(alloc, text.as_bytes(), fault), text);
    }
    let long = Vec::from_elem(alloc, b'#', 1_048_577)?;
    assert!(rt; asks_for_none(alloc, &long, &ReadFault::TooLong));
    Ok(())
}
