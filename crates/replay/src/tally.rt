// What is counted and printed.
use crate::fault::{Fault, ListFault};
use crate::kind::Kind;
use crate::record::Source;
use std::{fmt, io};

// What is counted of a kind of call.
#[derive(Clone, Copy, Default)]
struct Counts {
    calls: u64,
    // The answers that are the Rust's, and those that are the second reading's.
    rust: u64,
    second_reading: u64,
    differences: u64,
}

impl fmt::Display for Counts {
    fn fmt<W: fmt::Write>(&self, f: &mut fmt::Formatter<W>) -> fmt::Result {
        let Counts {
            calls,
            rust,
            second_reading,
            differences,
        } = *self;
        write!(
            f,
            "{calls} calls; of their answers {rust} are the Rust's and {second_reading} the second reading's; {differences} differences"
        )
    }
}

// Counts, and prints each difference as it comes. What prints is not inlined, so that no call which meshes
// holds the room on the stack that printing takes.
#[derive(Drop)]
pub struct Tally<'r, R> {
    rt: &'r R,
    // The records that have been read.
    records: u64,
    // What was wrong with the list and its records.
    faults: u64,
    counts: [Counts; Kind::COUNT],
}

impl<'r, R: Print> Tally<'r, R> {
    pub fn new(rt: &'r R) -> Tally<'r, R> {
        Tally {
            rt,
            records: 0,
            faults: 0,
            counts: [Counts::default(); Kind::COUNT],
        }
    }

    // Counts a record.
    pub fn next_record(&mut self) {
        self.records = self.records.saturating_add(1);
    }

    // Says what is wrong with the record that was read last, which is a difference.
    #[inline(never)]
    pub fn malformed(&mut self, fault: Fault) -> io::Result<()> {
        self.faults = self.faults.saturating_add(1);
        println!(self.rt; "record {} of the list {fault}", self.records)
    }

    // The same of the list.
    #[inline(never)]
    pub fn wrong_list(&mut self, fault: ListFault) -> io::Result<()> {
        self.faults = self.faults.saturating_add(1);
        println!(self.rt; "{fault}")
    }

    // Counts a call that is replayed, and whose its answer is.
    pub fn replayed(&mut self, kind: Kind, source: Source) {
        let counts = &mut self.counts[kind as usize];
        counts.calls = counts.calls.saturating_add(1);
        let answers = match source {
            Source::Rust => &mut counts.rust,
            Source::SecondReading => &mut counts.second_reading,
        };
        *answers = answers.saturating_add(1);
    }

    // Says which number of a call differs, and counts it.
    #[inline(never)]
    fn differs<T: Copy + fmt::Display>(
        &mut self,
        kind: Kind,
        what: &str,
        index: usize,
        expected: T,
        came: T,
    ) -> io::Result<()> {
        let counts = &mut self.counts[kind as usize];
        counts.differences = counts.differences.saturating_add(1);
        let call = self.records;
        println!(self.rt; "call {call}, {kind}: {what} {index}: expected {expected}, came {came}")
    }

    // Compares numbers of a call, as many as are expected.
    pub fn compare<T: Copy + PartialEq + fmt::Display>(
        &mut self,
        kind: Kind,
        what: &str,
        expected: &[T],
        came: &[T],
    ) -> io::Result<()> {
        for (index, (expected, came)) in expected.iter().zip(came).enumerate() {
            if expected != came {
                self.differs(kind, what, index, *expected, *came)?;
            }
        }
        Ok(())
    }

    // Compares all numbers of a buffer, of which each index has the one that is expected.
    pub fn compare_all<T: Copy + PartialEq + fmt::Display, F: Fn(usize) -> T>(
        &mut self,
        kind: Kind,
        what: &str,
        expected: F,
        came: &[T],
    ) -> io::Result<()>
        requires { F.IsAlwaysCallable expected }
    {
        for (index, came) in came.iter().enumerate() {
            let wanted = expected(index);
            if wanted != *came {
                self.differs(kind, what, index, wanted, *came)?;
            }
        }
        Ok(())
    }

    // Prints what was counted.
    #[inline(never)]
    pub fn end(&self) -> io::Result<()> {
        for (kind, counts) in Kind::ALL.iter().zip(&self.counts) {
            println!(self.rt; "{kind}: {counts}")?;
        }
        let calls = self
            .counts
            .iter()
            .fold(0u64, |all, counts| all.saturating_add(counts.calls));
        let differences = self.counts.iter().fold(self.faults, |all, counts| {
            all.saturating_add(counts.differences)
        });
        println!(self.rt; "{calls} calls, {differences} differences")
    }
}
