//! Worked rows: a lock, its moves one a line, and what they leave in its words. They were made by
//! hand from the published algorithms.
//!
//! A line says who moves, the move, what comes of it, and for a step of a queue lock the word that
//! it is on, with its value before and after. The rest are the entries that the move adds to the
//! history. Each is the thread's own, and of its last call. Moves that are refused come last, with
//! their refusals.

/// A lock, and what is done on it.
pub struct Row {
    pub header: &'static str,
    pub lines: &'static str,
    /// The number of operations on words. The sections of read-write locks are not counted.
    pub operations: u64,
    /// The words afterwards. All others are 0.
    pub words: &'static [u64],
}

pub const ROWS: [Row; 18] = [
    Row {
        header: "lock ticket threads 1",
        lines: "",
        operations: 0,
        words: &[],
    },
    Row {
        header: "lock ticket threads 2",
        lines: HANDED_ON,
        operations: 7,
        words: &[2, 1],
    },
    Row {
        header: "lock ticket threads 2",
        lines: ORDER_OF_TICKETS,
        operations: 4,
        words: &[2],
    },
    Row {
        header: "lock ticket threads 3 bits 2",
        lines: TICKETS_WRAP,
        operations: 19,
        words: &[1],
    },
    Row {
        header: "lock mcs threads 1",
        lines: RECORD_USED_AGAIN,
        operations: 6,
        words: &[1],
    },
    Row {
        header: "lock mcs threads 2",
        lines: LATE_LINK,
        operations: 13,
        words: &[2, 2],
    },
    Row {
        header: "lock mcs threads 3",
        lines: THIRD_LINKED_FIRST,
        operations: 19,
        words: &[0, 2, 0, 3],
    },
    Row {
        header: "lock mcs threads 3 bits 2",
        lines: THIRD_LINKED_FIRST,
        operations: 19,
        words: &[0, 2, 0, 3],
    },
    Row {
        header: "lock mcs threads 64",
        lines: LAST_THREAD_ENTERS,
        operations: 2,
        words: &[64],
    },
    Row {
        header: "lock rw-simple threads 3",
        lines: READERS_THEN_WRITER,
        operations: 0,
        words: &[0, 1],
    },
    Row {
        header: "lock rw-simple threads 3",
        lines: SECOND_WRITER,
        operations: 0,
        words: &[0, 1],
    },
    Row {
        header: "lock rw-simple threads 3",
        lines: READER_PASSES_WAITING_WRITER,
        operations: 0,
        words: &[2],
    },
    Row {
        header: "lock rw-simple threads 3",
        lines: WRITER_BECOMES_READER,
        operations: 0,
        words: &[2],
    },
    Row {
        header: "lock rw-fifo threads 3",
        lines: ANNOUNCED_WRITER_FIRST,
        operations: 0,
        words: &[2, 1],
    },
    Row {
        header: "lock rw-fifo threads 3",
        lines: ANNOUNCES_AND_ENTERS,
        operations: 0,
        words: &[0, 0, 1],
    },
    Row {
        header: "lock rw-fifo threads 3",
        lines: FIFO_WRITER_BECOMES_READER,
        operations: 0,
        words: &[2],
    },
    Row {
        header: "lock rw-fifo threads 3",
        lines: WRITER_AFTER_DOWNGRADE,
        operations: 0,
        words: &[1, 1, 1],
    },
    Row {
        header: "lock rw-fifo threads 3 bits 2",
        lines: COUNTS_WRAP,
        operations: 0,
        words: &[0, 0, 1],
    },
];

// The lock is handed on in the order of the tickets.
const HANDED_ON: &str = "\
0 acquire called called
0 add moved 0 0 1 acted
0 read entered 1 0 0 returned
1 acquire called called
1 add moved 0 1 2 acted
1 read waits 1 0 0
0 release called called
0 read moved 1 0 0
0 write left 1 0 1 acted returned
1 read entered 1 1 1 returned
";

// The order of the calls does not count.
const ORDER_OF_TICKETS: &str = "\
1 acquire called called
0 acquire called called
0 add moved 0 0 1 acted
1 add moved 0 1 2 acted
1 read waits 1 0 0
0 read entered 1 0 0 returned
";

// With words of two bits the tickets go from 3 to 0.
const TICKETS_WRAP: &str = "\
0 acquire called called
0 add moved 0 0 1 acted
0 read entered 1 0 0 returned
0 release called called
0 read moved 1 0 0
0 write left 1 0 1 acted returned
0 acquire called called
0 add moved 0 1 2 acted
0 read entered 1 1 1 returned
0 release called called
0 read moved 1 1 1
0 write left 1 1 2 acted returned
0 acquire called called
0 add moved 0 2 3 acted
0 read entered 1 2 2 returned
0 release called called
0 read moved 1 2 2
0 write left 1 2 3 acted returned
1 acquire called called
1 add moved 0 3 0 acted
2 acquire called called
2 add moved 0 0 1 acted
2 read waits 1 3 3
1 read entered 1 3 3 returned
1 release called called
1 read moved 1 3 3
1 write left 1 3 0 acted returned
2 read entered 1 0 0 returned
";

// Without contention, and the record used again at once. The record of thread T is word 1 + 2T, its
// successor, and word 2 + 2T, whether it waits.
const RECORD_USED_AGAIN: &str = "\
0 acquire called called
0 write moved 1 0 0
0 swap entered 0 0 1 acted returned
0 release called called
0 read moved 1 0 0
0 cas left 0 1 0 acted returned
0 acquire called called
0 write moved 1 0 0
0 swap entered 0 0 1 acted returned
";

// The successor swaps before the release compares, and links after it.
const LATE_LINK: &str = "\
0 acquire called called
0 write moved 1 0 0
0 swap entered 0 0 1 acted returned
1 acquire called called
1 write moved 3 0 0
0 release called called
0 read moved 1 0 0
1 swap moved 0 1 2 acted
0 cas moved 0 2 2
0 read waits 1 0 0
0 read waits 1 0 0
1 write moved 4 0 1
1 write moved 1 0 2
0 read moved 1 2 2
0 write left 4 1 0 acted returned
1 read entered 4 0 0 returned
";

// The third is linked before the second.
const THIRD_LINKED_FIRST: &str = "\
0 acquire called called
0 write moved 1 0 0
0 swap entered 0 0 1 acted returned
1 acquire called called
1 write moved 3 0 0
1 swap moved 0 1 2 acted
2 acquire called called
2 write moved 5 0 0
2 swap moved 0 2 3 acted
2 write moved 6 0 1
2 write moved 3 0 3
2 read waits 6 1 1
1 write moved 4 0 1
1 write moved 1 0 2
0 release called called
0 read moved 1 2 2
0 write left 4 1 0 acted returned
1 read entered 4 0 0 returned
1 release called called
1 read moved 3 3 3
1 write left 6 1 0 acted returned
2 read entered 6 0 0 returned
2 release called called
2 read moved 5 0 0
2 cas left 0 3 0 acted returned
";

// The last of 64 threads enters a free lock.
const LAST_THREAD_ENTERS: &str = "\
63 acquire called called
63 write moved 127 0 0
63 swap entered 0 0 64 acted returned
";

// A writer waits for two readers.
const READERS_THEN_WRITER: &str = "\
0 rlock called called
0 section entered acted returned
1 rlock called called
1 section entered acted returned
2 wlock called called
2 section waits
0 runlock called called
0 section left acted returned
1 runlock called called
2 section waits
1 section left acted returned
2 section entered acted returned
";

// A second writer waits for the first.
const SECOND_WRITER: &str = "\
0 wlock called called
0 section entered acted returned
1 wlock called called
1 section waits
0 wunlock called called
0 section left acted returned
1 section entered acted returned
";

// In a simple lock a later reader passes a waiting writer.
const READER_PASSES_WAITING_WRITER: &str = "\
0 rlock called called
0 section entered acted returned
1 wlock called called
1 section waits
2 rlock called called
2 section entered acted returned
";

// A writer becomes a reader in one section.
const WRITER_BECOMES_READER: &str = "\
0 wlock called called
0 section entered acted returned
1 rlock called called
1 section waits
0 downgrade called called
0 section entered acted returned
1 section entered acted returned
";

// In a FIFO lock an announced writer goes before a later reader.
const ANNOUNCED_WRITER_FIRST: &str = "\
0 rlock called called
0 section entered acted returned
1 wlock called called
1 section moved announced
2 rlock called called
2 section waits
1 section waits
0 runlock called called
0 section left acted returned
2 section waits
1 section entered acted returned
1 wunlock called called
2 section waits
1 section left acted returned
2 section entered acted returned
";

// A FIFO writer announces itself and enters in one section.
const ANNOUNCES_AND_ENTERS: &str = "\
0 wlock called called
0 section entered announced acted returned
1 wlock called called
1 section waits
";

// On a FIFO lock, too, a writer becomes a reader in one section.
const FIFO_WRITER_BECOMES_READER: &str = "\
0 wlock called called
0 section entered announced acted returned
1 rlock called called
1 section waits
0 downgrade called called
0 section entered acted returned
1 section entered acted returned
";

// A FIFO writer announces itself after a downgrade, and waits for the reader.
const WRITER_AFTER_DOWNGRADE: &str = "\
0 wlock called called
0 section entered announced acted returned
1 wlock called called
1 section waits
0 downgrade called called
0 section entered acted returned
1 section moved announced
0 runlock called called
0 section left acted returned
1 section entered acted returned
";

// With words of two bits both counts of a FIFO lock go from 3 to 0.
const COUNTS_WRAP: &str = "\
0 rlock called called
0 section entered acted returned
0 runlock called called
0 section left acted returned
0 rlock called called
0 section entered acted returned
0 runlock called called
0 section left acted returned
0 rlock called called
0 section entered acted returned
0 runlock called called
0 section left acted returned
0 rlock called called
0 section entered acted returned
1 wlock called called
1 section moved announced
0 runlock called called
0 section left acted returned
1 section entered acted returned
";
