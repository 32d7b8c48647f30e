//! The lowest failing column as a run finds it: its records in an array of the run's own, copied to the lent buffer once, at the end.
ghost use Rattle.std.specs.Prelude.{◌≡◌, ◌*◌, ◌≤◌, length};
ghost use Rattle.report.specs.Sizes.{max_cap, record_words};
ghost use Rattle.report.specs.Records.{Lowest, clean, report_of, records_of};

use super::record::{Failure, MOST_WORDS, RECORD_WORDS};
use super::{LocalPosition, StripeReport};

// The lowest failing column, and how often it failed.
#[derive(Clone, Copy, PartialEq, Eq, Debug)]
pub struct Low {
    pub column: usize,
    pub total: usize,
}

// What a run has noted so far: the lowest failing column, and as many of its records as the cap lets stand, at the front. They are
// words, as the lent buffer has them.
#[derive(Drop)]
pub struct Noting {
    cap: usize,
    lowest: Option<Low>,
    records: [u64; MOST_WORDS],
    ghost within_cap: { cap ≤ max_cap },
}

impl Noting {
    ghost use Rattle.report.specs.Working.{note_at, Shows, pushed, Small};

    pub fn new(cap: usize) -> Noting
        requires { cap ≤ max_cap }
        ensures cap { result.cap ≡ cap }
        ensures shows { Shows clean result }
    {
        Noting {
            cap,
            lowest: None,
            records: [0; MOST_WORDS],
        }
    }

    // The failure is kept where there is still room under the cap, the failures of its column before it being `earlier`.
    fn push(&mut self, earlier: usize, failure: Failure)
        ensures cap { self.new.cap ≡ self.old.cap }
        ensures lowest { self.new.lowest ≡ self.old.lowest }
        ensures records { self.new.records ≡ pushed self.old.cap earlier failure self.old.records }
    {
        if earlier < self.cap {
            let at = earlier * RECORD_WORDS;
            self.records[at] = failure.head;
            self.records[at + 1] = failure.one;
            self.records[at + 2] = failure.two;
        }
    }

    // The column fails. A higher one than the lowest so far is dropped; a lower one drops the records kept so far.
    pub fn note(&mut self, column: usize, failure: Failure)
        requires { Small self.old }
        ensures cap { self.new.cap ≡ self.old.cap }
        ensures shows { (l : Lowest) → Shows l self.old → Shows (note_at column failure l) self.new }
    {
        let earlier = match self.lowest {
            Some(low) if low.column < column => return,
            Some(low) if low.column == column => low.total,
            _ => 0,
        };
        self.push(earlier, failure);
        self.lowest = Some(Low {
            column,
            total: earlier + 1,
        });
    }

    // The run's answer, and the kept records where the caller wants them.
    pub fn finish(&self, report: &mut [u64]) -> StripeReport
        requires { length report.old ≡ self.now.cap * record_words }
        ensures { (l : Lowest) → Shows l self.now → (result ≡ report_of self.now.cap l) × (report.new ≡ records_of self.now.cap l report.old) }
    {
        let Some(low) = self.lowest else {
            return StripeReport::Clean;
        };
        let kept = low.total.min(self.cap);
        let n = kept * RECORD_WORDS;
        report[..n].copy_from_slice(&self.records[..n]);
        StripeReport::Failing {
            position: LocalPosition::in_stripe(low.column),
            total: low.total,
            kept,
        }
    }
}
