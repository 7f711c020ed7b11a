//! Worked rows of refused moves, after the accepted ones of each row. tests/rows/refusals.txt has
//! each two refusals that can meet, on each lock.

use crate::rows::Row;

pub static REFUSED: [Row; 13] = [
    Row {
        header: "lock ticket threads 2",
        lines: "\
2 acquire refused NoSuchThread
2 rlock refused NoSuchThread
255 acquire refused NoSuchThread
0 rlock refused WrongLock
0 section refused WrongLock
0 downgrade refused WrongLock
0 release refused NotHolder
0 add refused NoCall
",
        operations: 0,
        words: &[],
    },
    Row {
        header: "lock ticket threads 2",
        lines: "\
0 acquire called called
0 acquire refused Busy
0 release refused Busy
0 read refused WrongStep next add
0 section refused WrongLock
",
        operations: 0,
        words: &[],
    },
    Row {
        header: "lock ticket threads 2",
        lines: "\
0 acquire called called
0 add moved 0 0 1 acted
0 read entered 1 0 0 returned
0 acquire refused AlreadyHolds
0 read refused NoCall
0 wlock refused WrongLock
1 release refused NotHolder
",
        operations: 2,
        words: &[1],
    },
    Row {
        header: "lock ticket threads 2",
        lines: "\
0 acquire called called
0 add moved 0 0 1 acted
0 read entered 1 0 0 returned
0 release called called
0 acquire refused Busy
0 write refused WrongStep next read
",
        operations: 2,
        words: &[1],
    },
    Row {
        header: "lock mcs threads 2",
        lines: "\
0 acquire called called
0 swap refused WrongStep next write
0 rlock refused WrongLock
0 section refused WrongLock
0 acquire refused Busy
1 swap refused NoCall
1 release refused NotHolder
2 release refused NoSuchThread
",
        operations: 0,
        words: &[],
    },
    // A release that looked for its link waits for it, and does not grant yet.
    Row {
        header: "lock mcs threads 2",
        lines: "\
0 acquire called called
0 write moved 1 0 0
0 swap entered 0 0 1 acted returned
1 acquire called called
1 write moved 3 0 0
0 release called called
0 read moved 1 0 0
1 swap moved 0 1 2 acted
0 cas moved 0 2 2
0 read waits 1 0 0
0 read waits 1 0 0
0 write refused WrongStep next read
0 acquire refused Busy
",
        operations: 8,
        words: &[2],
    },
    Row {
        header: "lock mcs threads 1",
        lines: "\
0 acquire called called
0 write moved 1 0 0
0 swap entered 0 0 1 acted returned
0 acquire refused AlreadyHolds
",
        operations: 2,
        words: &[1],
    },
    Row {
        header: "lock rw-simple threads 2",
        lines: "\
0 rlock called called
0 section entered acted returned
0 wunlock refused NotHolder
0 downgrade refused NotHolder
0 wlock refused AlreadyHolds
0 section refused NoCall
0 release refused WrongLock
2 rlock refused NoSuchThread
",
        operations: 0,
        words: &[1],
    },
    Row {
        header: "lock rw-simple threads 2",
        lines: "\
0 wlock called called
0 section entered acted returned
1 rlock called called
0 runlock refused NotHolder
1 wlock refused Busy
",
        operations: 0,
        words: &[0, 1],
    },
    Row {
        header: "lock rw-fifo threads 2",
        lines: "\
0 rlock called called
0 section entered acted returned
0 downgrade refused NotHolder
0 acquire refused WrongLock
1 section refused NoCall
2 section refused NoSuchThread
",
        operations: 0,
        words: &[1],
    },
    Row {
        header: "lock rw-fifo threads 2",
        lines: "\
0 wlock called called
0 section entered announced acted returned
0 downgrade called called
0 wunlock refused Busy
0 rlock refused Busy
",
        operations: 0,
        words: &[0, 0, 1],
    },
    Row {
        header: "lock rw-fifo threads 2",
        lines: "\
0 wlock called called
0 section entered announced acted returned
0 downgrade called called
0 section entered acted returned
0 wunlock refused NotHolder
",
        operations: 0,
        words: &[1],
    },
    // Lines that are skipped count.
    Row {
        header: "lock rw-fifo threads 2 bits 9",
        lines: "\
# x
0 wlock called called

0 section entered announced acted returned
0 wlock refused AlreadyHolds
0 rlock refused AlreadyHolds
",
        operations: 0,
        words: &[0, 0, 1],
    },
];
