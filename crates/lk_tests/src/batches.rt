//! Texts of a batch with their worked reports, and a gate that counts begins and ends.

use lk_workers::Gate;
use std::alloc::{AllocError, Global};
use std::sync::atomic::{AtomicU32, Ordering};

pub const NO_MOVES: &str = "lock ticket threads 1\n";

pub const ONE_ENTERS: &str = "lock ticket threads 2\n0 acquire\n0 add\n0 read\n";

const NOT_HOLDER: &str = "lock ticket threads 2\n0 release\n";

const TWO_WRITERS: &str = "lock rw-simple threads 2\n0 wlock\n0 section\n1 wlock\n1 section\n\
     0 wunlock\n0 section\n1 section\n";

// The texts whose batch is below.
pub const FIVE: [&str; 5] = [NO_MOVES, ONE_ENTERS, NOT_HOLDER, "", TWO_WRITERS];

pub const REPORTS: &str = "file 1
end 0
file 2
1 0 acquire called hold - queue -
2 0 add moved hold - queue 0
3 0 read entered hold 0 queue 0
end 3
file 3
refused line 2 NotHolder
file 4
fault line 1 NoHeader
file 5
1 0 wlock called hold - queue -
2 0 section entered hold w0 queue -
3 1 wlock called hold w0 queue -
4 1 section waits hold w0 queue -
5 0 wunlock called hold w0 queue -
6 0 section left hold - queue -
7 1 section entered hold w1 queue -
end 7
";

pub fn texts_of(alloc: Global, texts: &[&str]) -> Result<Vec<Vec<u8>>, AllocError> {
    let mut all = Vec::new(alloc);
    for i in 0..texts.len() {
        all.push(Vec::from_slice(alloc, texts[i].as_bytes())?)?;
    }
    Ok(all)
}

// An end counts as much as so many begins.
const END: u32 = 65_536;

// The begins and ends of each text.
#[derive(Drop)]
pub struct Counts {
    each: Vec<AtomicU32>,
    strangers: AtomicU32,
}

impl Counts {
    pub fn new(alloc: Global, count: usize) -> Result<Counts, AllocError> {
        let mut each = Vec::new(alloc);
        for _ in 0..count {
            each.push(AtomicU32::new(0))?;
        }
        Ok(Counts {
            each,
            strangers: AtomicU32::new(0),
        })
    }

    fn add(&self, number: u32, amount: u32) {
        let counts = self.each.as_slice();
        let place = number as usize;
        if place < counts.len() {
            counts[place].fetch_add(amount, Ordering::SeqCst);
        } else {
            self.strangers.fetch_add(1, Ordering::SeqCst);
        }
    }

    /// Each text ended as often as it began, and this often if that is told. No other did.
    pub fn agree(&self, times: Option<u32>) -> bool {
        for count in self.each.as_slice() {
            let count = count.load(Ordering::SeqCst);
            let (begun, ended) = (count % END, count / END);
            if begun != ended || begun != times.unwrap_or(begun) {
                return false;
            }
        }
        self.strangers.load(Ordering::SeqCst) == 0
    }
}

impl Gate for Counts {
    fn begin(&self, number: u32) {
        self.add(number, 1);
    }

    fn end(&self, number: u32) {
        self.add(number, END);
    }
}
