//! What an instruction writes, in every column of the stripe. That it is sound, and that its lists stand in its bytes, are clauses:
//! they speak of the lent bytes and of the rows, and a hint's function says them of its own hint, so a type would be made anew for each.
#![tactic(auto, using(crate::proofs::Performs::registers_in), unfolding(bytecode::specs::Instruction::inst))]

ghost use Rattle.std.specs.Prelude.{◌≡◌, ◌*◌, length};
ghost use Rattle.bytecode.specs.Instruction.{inst};
ghost use Rattle.bytecode.specs.declared.instruction.Instruction.TheVariants.{Hint};
ghost use Rattle.accept.specs.Sound.{Sound};
ghost use Rattle.rows.specs.Working.{Across};
ghost use Rattle.fill.specs.Meaning.{step};
ghost use Rattle.fill.specs.Working.{Held};

use bytecode::instruction::Instruction;
use bytecode::layout;
use rows::Stripe;
use rows::loops::{one_row, shift_rows, two_rows};
use rows::many::{mirror, xor_multi};
use word::arithmetic::{borrows, carries, carries32, difference, iadd_carry, multiply, sum, sum32};
use word::bitwise::{band, bor, bxor, fax, select};
use word::hints;

// Hint 1: quotient and remainder, which `word` gives by name; an impl of From for a pair would be longer than this closure.
fn divide(values: &mut [u64], s: Stripe, code: &[u8])
    requires { (length values.old ≡ s.rows * s.width) × (Sound s.rows (inst code.now (Hint 1 0 2 2))) }
    ensures { Across (step (inst code.now (Hint 1 0 2 2))) s values.old values.new }
{
    let a = layout::word(code, 17);
    let b = layout::word(code, 21);
    let q = layout::word(code, 25);
    let m = layout::word(code, 29);
    let both = |x, y, _| {
        let division = hints::divide(x, y);
        (division.quotient, division.remainder)
    };
    two_rows(values, s, both, q, m, a, b, b)
}

// Hint 2: leading zeros.
fn leading_zeros(values: &mut [u64], s: Stripe, code: &[u8])
    requires { (length values.old ≡ s.rows * s.width) × (Sound s.rows (inst code.now (Hint 2 0 1 1))) }
    ensures { Across (step (inst code.now (Hint 2 0 1 1))) s values.old values.new }
{
    let a = layout::word(code, 17);
    let d = layout::word(code, 21);
    one_row(values, s, |x, _, _| hints::leading_zeros(x), d, a, a, a)
}

// Hint 3: the inputs in reverse order. Inputs and outputs are handed on as parts of the bytes.
#[tactic(auto, using(crate::proofs::Performs::inputs_part, crate::proofs::Performs::outputs_part), unfolding(bytecode::specs::Instruction::inst))]
fn reversed(values: &mut [u64], s: Stripe, k: u32, code: &[u8])
    requires within { (length values.old ≡ s.rows * s.width) × (Sound s.rows (inst code.now (Hint 3 1 k k))) }
    requires held { Held (Hint 3 1 k k) code.now }
    ensures { Across (step (inst code.now (Hint 3 1 k k))) s values.old values.new }
{
    let k = k as usize;
    let from = 21;
    let to = 21 + 4 * k;
    let end = 21 + 8 * k;
    mirror(values, s, k, &code[from..to], &code[to..end])
}

// The ids are the bytecode's numbers, of which the definitions speak: an enum of them would be made from the number by one more match
// beside this one and `accept`'s.
#[tactic(auto, using(crate::proofs::Performs::hint_1, crate::proofs::Performs::hint_2, crate::proofs::Performs::hint_3))]
fn hint(
    values: &mut [u64],
    s: Stripe,
    id: u32,
    dimensions: u32,
    inputs: u32,
    outputs: u32,
    code: &[u8],
)
    requires within { (length values.old ≡ s.rows * s.width) × (Sound s.rows (inst code.now (Hint id dimensions inputs outputs))) }
    requires held { Held (Hint id dimensions inputs outputs) code.now }
    ensures { Across (step (inst code.now (Hint id dimensions inputs outputs))) s values.old values.new }
{
    match id {
        1 => divide(values, s, code),
        2 => leading_zeros(values, s, code),
        _ => reversed(values, s, inputs, code),
    }
}

// Each arm calls its row loop with a word function of its own: the compiler makes a loop of its own for each.
#[tactic(auto, using(crate::proofs::Performs::registers_in, crate::proofs::Performs::amount_under), unfolding(bytecode::specs::Instruction::inst))]
pub fn perform(values: &mut [u64], s: Stripe, i: Instruction, code: &[u8])
    requires within { (length values.old ≡ s.rows * s.width) × (Sound s.rows (inst code.now i)) }
    requires held { Held i code.now }
    ensures { Across (step (inst code.now i)) s values.old values.new }
{
    match i {
        Instruction::Band(d, a, b) => one_row(values, s, |x, y, _| band(x, y), d, a, b, b),
        Instruction::Bor(d, a, b) => one_row(values, s, |x, y, _| bor(x, y), d, a, b, b),
        Instruction::Bxor(d, a, b) => one_row(values, s, |x, y, _| bxor(x, y), d, a, b, b),
        Instruction::Select(d, c, t, f) => one_row(values, s, select, d, c, t, f),
        Instruction::BxorMulti(d, n) => xor_multi(values, s, d, n, code),
        Instruction::Fax(d, a, b, c) => one_row(values, s, fax, d, a, b, c),
        Instruction::Shift(d, a, v, n) => shift_rows(values, s, v, n, d, a),
        Instruction::IaddCinCout(d, e, a, b, c) => {
            let add = |x, y, z| (sum(x, y, z), carries(x, y, z));
            two_rows(values, s, add, d, e, a, b, c)
        }
        Instruction::IaddCarry(d, a, b) => one_row(
            values,
            s,
            |x, y, _| iadd_carry(x, y),
            d,
            a,
            b,
            b,
        ),
        Instruction::IsubBinBout(d, e, a, b, c) => {
            let subtract = |x, y, z| (difference(x, y, z), borrows(x, y, z));
            two_rows(values, s, subtract, d, e, a, b, c)
        }
        // A pair of two words by name, as in `divide`.
        Instruction::Imul(h, l, a, b) => {
            let both = |x, y, _| {
                let product = multiply(x, y);
                (product.high, product.low)
            };
            two_rows(values, s, both, h, l, a, b, b)
        }
        Instruction::Iadd32CinCout(d, e, a, b, c) => {
            let add = |x, y, z| (sum32(x, y, z), carries32(x, y, z));
            two_rows(values, s, add, d, e, a, b, c)
        }
        Instruction::Iadd32Cout(d, e, a, b) => {
            let add = |x, y, _| (sum32(x, y, 0), carries32(x, y, 0));
            two_rows(values, s, add, d, e, a, b, b)
        }
        Instruction::AssertEq(_, _, _)
        | Instruction::AssertEqCond(_, _, _, _)
        | Instruction::AssertZero(_, _)
        | Instruction::AssertNonZero(_, _)
        | Instruction::AssertFalse(_, _)
        | Instruction::AssertTrue(_, _) => {}
        Instruction::Hint(id, dimensions, inputs, outputs) => {
            hint(values, s, id, dimensions, inputs, outputs, code)
        }
    }
}
