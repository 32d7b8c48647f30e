//! The boundary: what a Rust host calls. Each function is thin over a proved layer, takes its arguments as they come, and answers one packed number.
#![tactic(auto)]

ghost use Rattle.std.specs.Prelude.{◌≡◌, ◌<◌, ◌^◌};
ghost use Rattle.refusal.specs.Number.{number_of};
ghost use Rattle.accept.specs.Check.{check_of};
ghost use Rattle.fill.specs.Run.{call, answer_of, values_of, buffer_of};
ghost use Rattle.scratch.specs.Answer.{slots_after};
ghost use Rattle.scratch.specs.Answer as Slots;
ghost use Rattle.gussetglen.specs.Packing.{packed_pool, packed_refusal, packed_verdict, packed_report, packed_answer, ReportFits, report_in, stripe_in, batch_in};
ghost use Rattle.gussetglen.specs.Boundary.{raised_word, joined_word, policy_of};

use refusal::RefusedAt;
use report::{BatchPosition, BatchReport, Joined, LocalPosition, Report, StripeReport};
use scratch::{Allocation, Policy};

fn pack_refusal(refused: RefusedAt) -> u64
    requires { refused.offset < 2 ^ 32 }
    ensures { result ≡ packed_refusal (number_of refused.refusal) refused.offset }
{
    u8::from(refused.refusal) as u64 + 256 * (refused.offset as u64)
}

// A report of either kind, its position a bare number.
fn pack_report(report: Report<usize>) -> u64
    requires { ReportFits report }
    ensures { (result ≡ packed_report report) × (result < 2 ^ 46) }
{
    match report {
        Report::Clean => 0,
        Report::Failing {
            position,
            total,
            kept,
        } => {
            256 + 512 * (position as u64) + 0x20_0000 * (kept as u64) + 0x4000_0000 * (total as u64)
        }
    }
}

// No `From`: a bool alone does not say which policy it names.
fn policy_of(per_wire: bool) -> Policy
    ensures { result ≡ policy_of per_wire }
{
    if per_wire {
        Policy::PerWire
    } else {
        Policy::Pooled
    }
}

// The report that a word holds, its position a bare number.
fn report_in(word: u64) -> Report<usize>
    ensures { result ≡ report_in word }
{
    if word / 0x100 % 2 == 0 {
        return Report::Clean;
    }
    Report::Failing {
        position: (word / 0x200 % 0x1000) as usize,
        total: (word / 0x4000_0000 % 0x1_0000) as usize,
        kept: (word / 0x20_0000 % 0x200) as usize,
    }
}

fn stripe_in(word: u64) -> StripeReport
    ensures { result ≡ stripe_in word }
{
    report_in(word).map(LocalPosition::in_stripe)
}

fn batch_in(word: u64) -> BatchReport
    ensures { result ≡ batch_in word }
{
    report_in(word).map(BatchPosition::in_batch)
}

// The program check.
#[unsafe(no_mangle)]
pub extern "C" fn gussetglen_check(code: &[u8], rows: usize) -> u64
    ensures { result ≡ packed_verdict (check_of code.now rows) }
{
    match accept::check(code, rows) {
        Ok(()) => 0,
        Err(refused) => pack_refusal(refused), // counted from the program's first byte
    }
}

// A run over a stripe of a batch.
#[unsafe(no_mangle)]
pub extern "C" fn gussetglen_run(
    code: &[u8],
    rows: usize,
    width: usize,
    first: usize,
    count: usize,
    cap: usize,
    values: &mut [u64],
    report: &mut [u64],
) -> u64
    ensures value { result ≡ packed_answer (answer_of (call code.now rows width first count cap values.old report.old)) }
    ensures values_after { values.new ≡ values_of (call code.now rows width first count cap values.old report.old) }
    ensures report_after { report.new ≡ buffer_of (call code.now rows width first count cap values.old report.old) }
{
    match fill::run(code, rows, width, first, count, cap, values, report) {
        Ok(stripe) => pack_report(stripe.map(LocalPosition::column)),
        Err(refused) => pack_refusal(refused),
    }
}

// A stripe's report as one of the batch.
#[unsafe(no_mangle)]
pub extern "C" fn gussetglen_raise(start: usize, report: u64) -> u64
    ensures { result ≡ raised_word start report }
{
    if report % 256 != 0 {
        return report;
    }
    match report::raise(start, stripe_in(report)) {
        Ok(raised) => pack_report(raised.map(BatchPosition::column)),
        Err(refusal) => pack_refusal(refusal.into()),
    }
}

// The report that stands of two, and its side.
#[unsafe(no_mangle)]
pub extern "C" fn gussetglen_join(left: u64, right: u64) -> u64
    ensures { result ≡ joined_word left right }
{
    if left % 256 != 0 {
        return left;
    }
    if right % 256 != 0 {
        return right;
    }
    match report::join(batch_in(left), batch_in(right)) {
        Ok(Joined { report, side }) => {
            pack_report(report.map(BatchPosition::column)) + 0x4000_0000_0000 * (side as u64)
        }
        Err(refusal) => pack_refusal(refusal.into()),
    }
}

// The slots of the scratch wires. The policy is a flag, as C has it.
#[unsafe(no_mangle)]
pub extern "C" fn gussetglen_pool(
    wires: usize,
    ends: &[u32],
    mentions: &[u32],
    marks: &[u8],
    slots: &mut [u32],
    per_wire: bool,
) -> u64
    ensures value { result ≡ packed_pool (Slots.answer_of wires ends.now mentions.now marks.now slots.old (policy_of per_wire)) }
    ensures slots_after { slots.new ≡ slots_after wires ends.now mentions.now marks.now slots.old (policy_of per_wire) }
{
    let policy = policy_of(per_wire);
    match scratch::pool(wires, ends, mentions, marks, slots, policy) {
        Ok(Allocation { length, peak }) => 0x100 * (length as u64) + 0x100_0000 * (peak as u64),
        Err(refusal) => pack_refusal(refusal.into()),
    }
}
