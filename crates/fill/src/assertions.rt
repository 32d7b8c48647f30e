//! Assertions: a scan for the first column of the stripe that violates, which alone can matter, and its record.
//! That a register's row lies in the array stands in the clauses, as in `rows::loops`: it is a fact of claim, stripe and array together.
ghost use Rattle.std.specs.Prelude.{◌≡◌, ℕ, ◌+◌, ◌*◌, ◌<◌, ◌^◌, Bool, length};
ghost use Rattle.report.specs.Working.{Small};
ghost use Rattle.rows.specs.Working.{InRow};
ghost use Rattle.fill.specs.Working.{fails_by, told_by, claim_of, claimed, Reads, column_of, First, Tests, Spares, Judged};

use bytecode::instruction::Instruction;
use report::noting::Noting;
use report::record::{Failure, head};
use rows::Stripe;

// The assertions by their opcodes.
#[derive(Clone, Copy, PartialEq, Eq, Debug)]
pub enum Kind {
    Eq = 0x60,
    EqCond = 0x61,
    Zero = 0x62,
    NonZero = 0x63,
    False = 0x64,
    True = 0x65,
}

// What an instruction asserts: of a condition and two registers, one of which stands in where the kind has no use for it; and its path spec.
#[derive(Clone, Copy, PartialEq, Eq, Debug)]
pub struct Claim {
    pub kind: Kind,
    pub condition: u32,
    pub one: u32,
    pub two: u32,
    pub path: u32,
}

// The claim about one register, which stands in for the others.
fn about_one(kind: Kind, register: u32, path: u32) -> Claim
    ensures { result ≡ record { kind = kind; condition = register; one = register; two = register; path = path } }
{
    Claim {
        kind,
        condition: register,
        one: register,
        two: register,
        path,
    }
}

pub fn claim_of(i: Instruction) -> Option<Claim>
    ensures { result ≡ claim_of i }
{
    match i {
        Instruction::AssertEq(a, b, path) => Some(Claim {
            kind: Kind::Eq,
            condition: a,
            one: a,
            two: b,
            path,
        }),
        Instruction::AssertEqCond(c, a, b, path) => Some(Claim {
            kind: Kind::EqCond,
            condition: c,
            one: a,
            two: b,
            path,
        }),
        Instruction::AssertZero(v, path) => Some(about_one(Kind::Zero, v, path)),
        Instruction::AssertNonZero(v, path) => Some(about_one(Kind::NonZero, v, path)),
        Instruction::AssertFalse(v, path) => Some(about_one(Kind::False, v, path)),
        Instruction::AssertTrue(v, path) => Some(about_one(Kind::True, v, path)),
        _ => None,
    }
}

// The first column of the stripe whose words of the claim's registers fail the test: a labelled loop that is left at the first
// violation, the form that docs/DECISIONS.md prescribes for the column scan. Only where the two words may fail is the condition read.
// A function of its own in the machine code, for each kind: among `run`'s loops the column count would lie on the stack, and be read for each word.
#[inline(never)]
fn scan<M: Fn(u64, u64) -> bool, F: Fn(u64, u64, u64) -> bool>(
    values: &[u64],
    s: Stripe,
    claim: Claim,
    may_fail: M,
    fails: F,
) -> Option<usize>
    requires callable { (M.IsAlwaysCallable may_fail) × (F.IsAlwaysCallable fails) }
    requires in_row { (InRow s (length values.now) claim.condition) × (InRow s (length values.now) claim.one) × (InRow s (length values.now) claim.two) }
    ensures { (p : ℕ → ℕ → ℕ → Bool) → Tests (F.post fails) p → Spares (M.post may_fail) p → First (λ k. p (column_of s values.now k claim.condition) (column_of s values.now k claim.one) (column_of s values.now k claim.two)) s.count result }
{
    let condition = claim.condition as usize * s.width + s.first;
    let one = claim.one as usize * s.width + s.first;
    let two = claim.two as usize * s.width + s.first;
    let mut first = None;
    'columns: for k in 0..s.count {
        if may_fail(values[one + k], values[two + k])
            && fails(values[condition + k], values[one + k], values[two + k])
        {
            first = Some(k);
            break 'columns;
        }
    }
    first
}

// The first column of the stripe where the claim fails: a loop for each kind. AssertEqCond's tests the words before the condition: where
// the assertion holds they mostly agree, whatever the condition is, and a branch on it alone would often be guessed wrong.
fn first_failing(values: &[u64], s: Stripe, claim: Claim) -> Option<usize>
    requires in_row { (InRow s (length values.now) claim.condition) × (InRow s (length values.now) claim.one) × (InRow s (length values.now) claim.two) }
    ensures { First (λ k. fails_by claim.kind (column_of s values.now k claim.condition) (column_of s values.now k claim.one) (column_of s values.now k claim.two)) s.count result }
{
    match claim.kind {
        Kind::Eq => scan(
            values,
            s,
            claim,
            |_, _| true,
            |_, a, b| word::assertions::eq_fails(a, b),
        ),
        Kind::EqCond => scan(
            values,
            s,
            claim,
            |a, b| word::assertions::eq_fails(a, b),
            |c, a, b| word::assertions::eq_cond_fails(c, a, b),
        ),
        Kind::Zero => scan(
            values,
            s,
            claim,
            |_, _| true,
            |_, a, _| word::assertions::zero_fails(a),
        ),
        Kind::NonZero => scan(
            values,
            s,
            claim,
            |_, _| true,
            |_, a, _| word::assertions::non_zero_fails(a),
        ),
        Kind::False => scan(
            values,
            s,
            claim,
            |_, _| true,
            |_, a, _| word::assertions::false_fails(a),
        ),
        Kind::True => scan(
            values,
            s,
            claim,
            |_, _| true,
            |_, a, _| word::assertions::true_fails(a),
        ),
    }
}

// Register r of column k of the stripe.
fn word_at(values: &[u64], s: Stripe, k: usize, r: u32) -> u64
    requires { (s.first + k < s.width) × (InRow s (length values.now) r) }
    ensures { result ≡ column_of s values.now k r }
{
    values[r as usize * s.width + s.first + k]
}

// The record of a violation by instruction `number`: the message is a and b, or a and 0. `head` takes the number as a usize below
// 2 ^ 24: a type with that bound would be made in `judge` and taken apart here, for this one call.
fn failure(kind: Kind, number: usize, path: u32, a: u64, b: u64) -> Failure
    requires { number < 2 ^ 24 }
    ensures { result ≡ told_by kind number path a b }
{
    Failure {
        head: head(kind as u8, number, path),
        one: a,
        two: match kind {
            Kind::Eq | Kind::EqCond => b,
            _ => 0,
        },
    }
}

// What the claim of instruction `number` adds to the report: its violation in the first column of the stripe that has one.
pub fn judge(values: &[u64], s: Stripe, claim: Option<Claim>, number: usize, noting: &mut Noting)
    requires within { (length values.now ≡ s.rows * s.width) × (Reads s.rows claim) }
    requires number_bound { (number < 2 ^ 24) × (Small noting.old) }
    ensures cap { noting.new.cap ≡ noting.old.cap }
    ensures judged { Judged (λ k. claimed number claim (column_of s values.now k)) s.count noting.old noting.new }
{
    let Some(claim) = claim else {
        return;
    };
    if let Some(column) = first_failing(values, s, claim) {
        let one = word_at(values, s, column, claim.one);
        let two = word_at(values, s, column, claim.two);
        let violation = failure(claim.kind, number, claim.path, one, two);
        noting.note(column, violation);
    }
}
