//! A replay of each worked row with each request for memory refused.

use crate::holding::holds;
use crate::refused_rows::REFUSED;
use crate::refusing::{MOST_REQUESTS, refuse, was_refused};
use crate::rows::{ROWS, Row};
use lk_replay::{Played, Schedule, read_schedule, replay};
use std::alloc::{AllocError, Global};
use std::process::Abort;
use std::test::Fail;

/// The text of the row's schedule: the first two words of each line.
pub fn text_of(alloc: Global, row: &Row) -> Result<Vec<u8>, AllocError> {
    let mut text = Vec::from_slice(alloc, row.header.as_bytes())?;
    text.push(b'\n')?;
    let mut words = 0u8;
    for b in row.lines.as_bytes() {
        words = match *b {
            b'\n' => 0,
            b' ' => words.saturating_add(1),
            _ => words,
        };
        if words < 2 {
            text.push(*b)?;
        }
    }
    Ok(text)
}

fn are_alike(found: &Played, due: &Played) -> bool {
    found.accepted().len() == due.accepted().len()
        && found.refused() == due.refused()
        && found.entries() == due.entries()
}

// With the request of this number refused: whether there was one.
fn once(
    rt: &impl Abort,
    alloc: Global,
    row: &Row,
    schedule: &Schedule,
    due: &Played,
    number: usize,
) -> bool {
    refuse(alloc, number);
    let answer = replay(alloc, schedule);
    let refused = was_refused(alloc);
    let is_right = match &answer {
        Ok(found) => are_alike(found, due),
        Err(_) => refused,
    };
    holds(rt, is_right, row.header);
    refused
}

// Each request in turn, until there is no such one.
fn each_request(rt: &impl Abort, alloc: Global, row: &Row, schedule: &Schedule, due: &Played) {
    for number in 1..MOST_REQUESTS {
        if !once(rt, alloc, row, schedule, due, number) {
            return;
        }
    }
    holds(rt, false, row.header);
}

#[test]
fn rows_with_each_request_refused(rt: HostRuntime) -> Result<(), Fail> {
    for row in ROWS.iter().chain(&REFUSED) {
        let text = text_of(rt.alloc(), row)?;
        let schedule = read_schedule(rt.alloc(), &text)?;
        let due = replay(rt.alloc(), &schedule)?;
        each_request(&rt, rt.alloc(), row, &schedule, &due);
    }
    Ok(())
}
