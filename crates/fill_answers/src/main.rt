// The given Rust's runs, replayed: prints how many reports, records, words and rows agree.
//
// The list is made by oracle/ and not by hand; oracle/src/lists/runs.rs says what its lines mean, and
// oracle/README.md how to make it anew.
#![tactic(auto)]

ghost use Rattle.std.specs.Prelude.{◌≤◌};

use answers::{Line, Tally};
use common::halves::{high, low};
use report::StripeReport;
use std::io;

// What each word of the report buffer holds before a run.
const BEFORE: u64 = 0x5a5a_5a5a_5a5a_5a5a;

// The buffers of a run, what the last run answered if it was not refused, and the tallies. The buffers have fixed
// lengths: a run that asks for more counts as refused, so what is told depends on them.
#[derive(Drop)]
struct Replayed {
    code: [u8; 4096],
    values: [u64; 16384],
    report: [u64; 768],
    last: Option<StripeReport>,
    reports: Tally,
    records: Tally,
    words: Tally,
    rows: Tally,
}

// The words of so many rows; 0 where there are too many.
fn area(rows: usize, width: usize) -> usize
    ensures { result ≤ 67108864 }
{
    if 8192 < rows || 8192 < width {
        return 0;
    }
    rows * width
}

impl Replayed {
    // Four words of the array. The last line of a batch may reach past it, where nothing is read.
    fn put(&mut self, line: Line<u64>) {
        answers::put_all(&mut self.values, line.a as usize, &line.entries());
    }

    // A row by a pattern: from a word on, up by a step.
    fn put_row(&mut self, line: Line<u64>) {
        let width = low(line.b) as usize;
        let from = area(line.a as usize, width);
        let mut word = line.c;
        for value in self.values.iter_mut().skip(from).take(width) {
            *value = word;
            word = word.wrapping_add(line.d);
        }
    }

    // Thirty-two bytes of the program.
    fn put_bytes(&mut self, line: Line<u64>) {
        if line.a < 65536 {
            let place = line.a as usize;
            for (i, eight) in line.entries().iter().enumerate() {
                answers::put_all(&mut self.code, place + 8 * i, &eight.to_be_bytes());
            }
        }
    }

    // The run of a line, over as much of the buffers as it asks for.
    fn run(&mut self, line: Line<u64>) -> Option<StripeReport> {
        let length = line.a as usize;
        let rows = line.b as usize;
        let width = line.c as usize;
        let cap = line.e as usize;
        let size = area(rows, width);
        if self.code.len() < length || self.values.len() < size || 256 < cap {
            return None;
        }
        let values = &mut self.values[..];
        let report = &mut self.report[..];
        fill::run(
            &self.code[..length],
            rows,
            width,
            high(line.d) as usize,
            low(line.d) as usize,
            cap,
            &mut values[..size],
            &mut report[..3 * cap],
        )
        .ok()
    }

    // The report is the line's, and past the kept records every word is as it was before the run.
    fn report_agrees(&self, line: Line<u64>) -> bool {
        let told = match self.last {
            None => return false,
            Some(StripeReport::Clean) => (false, 0, 0, 0),
            Some(
                StripeReport::Failing {
                    position,
                    total,
                    kept,
                },
            ) => (true, position.column() as u64, total as u64, kept as u64),
        };
        told == (line.a == 1, line.b, line.c, line.d)
            && line.d <= 256
            && self
                .report
                .iter()
                .skip(3 * (line.d as usize))
                .all(|word| *word == BEFORE)
    }

    fn record_agrees(&self, line: Line<u64>) -> bool {
        line.a < 256
            && answers::first_stand(&self.report, 3 * (line.a as usize), &line.entries(), 3, 0)
    }

    // The first so many of four words from a place on.
    fn words_agree(&self, line: Line<u64>, count: usize) -> bool {
        line.a < 65536
            && answers::first_stand(&self.values, line.a as usize, &line.entries(), count, 0)
    }

    // A row's checksum. What is past the array's end counts as 0.
    fn row_agrees(&self, line: Line<u64>) -> bool {
        let width = low(line.b) as usize;
        let from = area(line.a as usize, width);
        let sum = (from..from + width).fold(
            0,
            |sum, place| answers::summed(sum, answers::value_at(&self.values, place, 0)),
        );
        sum == line.c
    }

    fn note_words(&mut self, line: Line<u64>, count: usize) {
        let agrees = self.words_agree(line, count);
        self.words.note(agrees);
    }

    fn turn(&mut self, line: Line<u64>) {
        match line.code {
            0x01 => self.put(line),
            0x05 => self.put_row(line),
            0x06 => self.put_bytes(line),
            0x10 => {
                self.report.fill(BEFORE);
                self.last = self.run(line);
            }
            0x12 => {
                let agrees = self.record_agrees(line);
                self.records.note(agrees);
            }
            0x21 => self.note_words(line, 1),
            0x22 => self.note_words(line, 2),
            0x23 => self.note_words(line, 3),
            0x24 => self.note_words(line, 4),
            0x2f => {
                let agrees = self.row_agrees(line);
                self.rows.note(agrees);
            }
            0x11 => {
                let agrees = self.report_agrees(line);
                self.reports.note(agrees);
            }
            _ => self.reports.note(false),
        }
    }
}

fn main(rt: HostRuntime) -> io::Result<()> {
    let mut replayed = Replayed {
        code: [0; 4096],
        values: [0; 16384],
        report: [0; 768],
        last: None,
        reports: Tally::default(),
        records: Tally::default(),
        words: Tally::default(),
        rows: Tally::default(),
    };
    answers::replay(&mut rt.reader(), answers::read_words, |line| {
        replayed.turn(line)
    })?;
    answers::tell(&rt, "reports", replayed.reports)?;
    answers::tell(&rt, "records", replayed.records)?;
    answers::tell(&rt, "words", replayed.words)?;
    answers::tell(&rt, "rows", replayed.rows)
}
