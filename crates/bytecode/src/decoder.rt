//! The decoder: the instruction at the start of a part of the bytes.
ghost use Rattle.std.specs.Prelude.{◌≡◌};
ghost use Rattle.bytecode.specs.Opcode.{shape_of};
ghost use Rattle.bytecode.specs.Instruction.{inst};
ghost use Rattle.bytecode.specs.Parse.{parse, told, read_as};
ghost use Rattle.bytecode.specs.Working.{found, hint_of, fields_of, variant_over, Carried};

use crate::instruction::Instruction;
use crate::layout::{HintCounts, byte, size_of, word};
use crate::opcode::shape_of;
use refusal::{Refusal, RefusedAt};
use shift::bad_variant;

// An instruction with its length in bytes.
#[derive(Clone, Copy, PartialEq, Eq, Debug)]
pub struct Decoded {
    pub instruction: Instruction,
    pub length: usize,
}

// The first five fields, as u32s.
#[derive(Clone, Copy)]
struct Fields {
    a: u32,
    b: u32,
    c: u32,
    d: u32,
    e: u32,
}

// All are read, whatever the opcode has: past the end they read 0, and nobody looks at them.
fn first_fields(code: &[u8]) -> Fields
    ensures { result ≡ fields_of code.now }
{
    Fields {
        a: word(code, 1),
        b: word(code, 5),
        c: word(code, 9),
        d: word(code, 13),
        e: word(code, 17),
    }
}

fn hint(code: &[u8]) -> Instruction
    ensures { result ≡ hint_of code.now }
{
    let counts = HintCounts::read(code);
    Instruction::Hint(
        word(code, 1),
        counts.dimensions,
        counts.inputs,
        counts.outputs,
    )
}

// The instruction that a carried opcode and the bytes after it hold.
#[tactic(auto, unfolding(crate::specs::Instruction::inst, crate::specs::Parse::read_as))]
fn instruction_of(code: &[u8], op: u8) -> Instruction
    ensures { Carried (shape_of op) → inst code.now result ≡ read_as (shape_of op) op code.now }
{
    let f = first_fields(code);
    match op {
        0x01 => Instruction::Band(f.a, f.b, f.c),
        0x02 => Instruction::Bor(f.a, f.b, f.c),
        0x03 => Instruction::Bxor(f.a, f.b, f.c),
        0x05 => Instruction::Select(f.a, f.b, f.c, f.d),
        0x06 => Instruction::BxorMulti(f.a, f.b),
        0x07 => Instruction::Fax(f.a, f.b, f.c, f.d),
        0x10 => Instruction::Shift(f.a, f.b, byte(code, 9), byte(code, 10)),
        0x21 => Instruction::IaddCinCout(f.a, f.b, f.c, f.d, f.e),
        0x22 => Instruction::IaddCarry(f.a, f.b, f.c),
        0x23 => Instruction::IsubBinBout(f.a, f.b, f.c, f.d, f.e),
        0x30 => Instruction::Imul(f.a, f.b, f.c, f.d),
        0x40 => Instruction::Iadd32CinCout(f.a, f.b, f.c, f.d, f.e),
        0x46 => Instruction::Iadd32Cout(f.a, f.b, f.c, f.d),
        0x60 => Instruction::AssertEq(f.a, f.b, f.c),
        0x61 => Instruction::AssertEqCond(f.a, f.b, f.c, f.d),
        0x62 => Instruction::AssertZero(f.a, f.b),
        0x63 => Instruction::AssertNonZero(f.a, f.b),
        0x64 => Instruction::AssertFalse(f.a, f.b),
        0x65 => Instruction::AssertTrue(f.a, f.b),
        _ => hint(code),
    }
}

// Whether this is a shift with a variant over 7, told by the opcode byte as `shift_bad_variant` has it. Its amount is the program
// check's to judge. The opcode is read once, and handed on beside the bytes.
fn variant_over(code: &[u8], op: u8) -> bool
    ensures { result ≡ variant_over op code.now }
{
    op == 0x10 && bad_variant(byte(code, 9))
}

// The instruction at the start of the bytes, or the first refusal of 4 to 7. What follows the instruction is not looked at.
fn first_instruction(code: &[u8]) -> Result<Decoded, Refusal>
    ensures { found code.now result ≡ parse code.now }
{
    let Some(&op) = code.first() else {
        return Err(Refusal::Truncated);
    };
    let length = size_of(code, shape_of(op))?;
    let short = code.len() < length;
    if short {
        return Err(Refusal::Truncated);
    }
    if variant_over(code, op) {
        return Err(Refusal::BadShift);
    }
    Ok(Decoded {
        instruction: instruction_of(code, op),
        length,
    })
}

// Each refusal points at the opcode byte.
#[tactic(auto, unfolding(crate::specs::Parse::told, crate::specs::Working::found))]
pub fn decode(code: &[u8]) -> Result<Decoded, RefusedAt>
    ensures { told code.now result ≡ parse code.now }
{
    first_instruction(code).map_err(|refusal| RefusedAt { refusal, offset: 0 })
}
