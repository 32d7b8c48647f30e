//! Filling: a program run over the columns of a stripe.
#![tactic(auto)]

pub mod assertions;
pub mod perform;

ghost use Rattle.std.specs.Prelude.{◌≡◌, ◌*◌, ◌≤◌, cond, length};
ghost use Rattle.refusal.specs.Number.{number_of};
ghost use Rattle.refusal.specs.declared.Refusal.TheVariants.{BadShape, BadCap};
ghost use Rattle.bytecode.specs.Program.{program_of};
ghost use Rattle.accept.specs.Check.{verdict, refusal, check_of};
ghost use Rattle.accept.specs.Sound.{AllSound};
ghost use Rattle.report.specs.Records.{clean, lowest};
ghost use Rattle.report.specs.Working.{Shows};
ghost use Rattle.rows.specs.Working.{Across};
ghost use Rattle.fill.specs.Meaning.{run_col, violations};
ghost use Rattle.fill.specs.Run.{answer, call, shape_broken, cap_broken, answer_of, values_of, buffer_of};
ghost use Rattle.fill.specs.Working.{column_of};

use accept::check;
use assertions::{claim_of, judge};
use bytecode::decoder::{Decoded, decode};
use perform::perform;
use refusal::{Refusal, RefusedAt};
use report::noting::Noting;
use report::record::{MAX_CAP, RECORD_WORDS};
use report::{MAX_WIDTH, StripeReport};
use rows::Stripe;

// A batch has at most this many rows.
const MAX_ROWS: usize = 8192;

// Instruction after instruction, each across the stripe's columns.
fn run_loop(code: &[u8], s: Stripe, values: &mut [u64], noting: &mut Noting)
    requires sound { (length values.old ≡ s.rows * s.width) × (AllSound s.rows (program_of code.now)) }
    requires short { length code.now ≤ 65536 }
    requires begins { Shows clean noting.old }
    ensures across { Across (run_col (program_of code.now)) s values.old values.new }
    ensures cap { noting.new.cap ≡ noting.old.cap }
    ensures shows { Shows (lowest (λ k. violations (program_of code.now) (column_of s values.old k)) s.count) noting.new }
{
    let mut at = 0;
    let mut number = 0;
    // No `for`: the step is the instruction's length.
    while at < code.len() {
        let rest = &code[at..];
        // The program check has gone before, and would have refused here: this instruction has touched no word, and a program ends where its
        // bytes hold no instruction.
        let Ok(
            Decoded {
                instruction,
                length,
            },
        ) = decode(rest)
        else {
            return;
        };
        let claim = claim_of(instruction);
        judge(values, s, claim, number, noting);
        perform(values, s, instruction, rest);
        at += length;
        number += 1;
    }
}

// Refusal 1. Nothing is multiplied before the factors are within their limits, and nothing is added.
fn bad_shape(rows: usize, width: usize, first: usize, count: usize, size: usize) -> bool
    ensures { result ≡ shape_broken rows width first count size }
{
    MAX_ROWS < rows
        || MAX_WIDTH < width
        || size != rows * width
        || width < first
        || width - first < count
}

// Refusal 2.
fn bad_cap(cap: usize, size: usize) -> bool
    ensures { result ≡ cap_broken cap size }
{
    MAX_CAP < cap || size != cap * RECORD_WORDS
}

// Refusals 1 and 2, and then those of the program check.
fn admit(
    code: &[u8],
    rows: usize,
    width: usize,
    first: usize,
    count: usize,
    cap: usize,
    size: usize,
    room: usize,
) -> Result<(), RefusedAt>
    ensures { verdict result ≡ cond (shape_broken rows width first count size) (refusal (number_of BadShape) 0) (cond (cap_broken cap room) (refusal (number_of BadCap) 0) (check_of code.now rows)) }
{
    if bad_shape(rows, width, first, count, size) {
        return Err(Refusal::BadShape.into());
    }
    if bad_cap(cap, room) {
        return Err(Refusal::BadCap.into());
    }
    check(code, rows)
}

// The program run over columns `first` to `first + count - 1` of a batch. Every refusal comes before the first word is written. The
// sizes come one by one, as C has them: they are a `Stripe` once they have been judged.
pub fn run(
    code: &[u8],
    rows: usize,
    width: usize,
    first: usize,
    count: usize,
    cap: usize,
    values: &mut [u64],
    report: &mut [u64],
) -> Result<StripeReport, RefusedAt>
    ensures result_value { answer result ≡ answer_of (call code.now rows width first count cap values.old report.old) }
    ensures values_after { values.new ≡ values_of (call code.now rows width first count cap values.old report.old) }
    ensures report_after { report.new ≡ buffer_of (call code.now rows width first count cap values.old report.old) }
{
    admit(
        code,
        rows,
        width,
        first,
        count,
        cap,
        values.len(),
        report.len(),
    )?;
    let stripe = Stripe {
        rows,
        width,
        first,
        count,
    };
    let mut noting = Noting::new(cap);
    run_loop(code, stripe, values, &mut noting);
    Ok(noting.finish(report))
}
