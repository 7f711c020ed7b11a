//! A request that is refused between the begin and the end of a text.

ghost use Rattle.std.specs.Prelude.{◌≤◌, length};

use crate::batches::{FIVE, texts_of};
use crate::refusing::{is_refusing, refuse, was_refused};
use lk_workers::{Gate, replay_many};
use std::alloc::Global;
use std::sync::atomic::{AtomicBool, AtomicU32, Ordering};
use std::test::Fail;
use std::thread::Threads;

// Has the first request after `begin` refused, and notes at `end` whether there was one.
#[derive(Drop)]
struct Refusing {
    alloc: Global,
    refused: AtomicBool,
    ended: AtomicU32,
}

impl Gate for Refusing {
    fn begin(&self, _number: u32) {
        refuse(self.alloc, 1);
    }

    fn end(&self, _number: u32) {
        self.refused
            .store(was_refused(self.alloc), Ordering::SeqCst);
        self.ended.fetch_add(1, Ordering::SeqCst);
    }
}

// Whether a report is made after `begin` and before `end`, and a refused one has its `end`. There
// is one worker, so that no thread starts.
fn is_between<R: Threads + Sync>(rt: &R, alloc: Global, texts: &[Vec<u8>]) -> bool
    requires { length texts.now ≤ 65536 }
{
    let gate = Refusing {
        alloc,
        refused: AtomicBool::new(false),
        ended: AtomicU32::new(0),
    };
    let is_err = replay_many(rt, alloc, texts, 1, &gate).is_err();
    let refuses = is_refusing(alloc);
    let ended = gate.ended.load(Ordering::SeqCst);
    let was_refused = gate.refused.load(Ordering::SeqCst);
    was_refused == refuses && is_err == refuses && ended == if refuses { 1 } else { 5 }
}

#[test]
fn a_request_between_begin_and_end_is_refused(rt: HostRuntime) -> Result<(), Fail> {
    let texts = texts_of(rt.alloc(), &FIVE)?;
    assert!(rt; texts.len() == 5 && is_between(&rt, rt.alloc(), &texts));
    Ok(())
}
