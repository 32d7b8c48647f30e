//! Calls of the emitters as lines name them: the code is the opcode, the fields are the call's in their order.

use answers::Line;
use builder::{BytecodeBuilder, Emitted, Unemitted};
use bytecode::instruction::Instruction;
use refusal::Refusal;

// A line, and the list of numbers where a call of many fields finds its sources, or a hint's dimensions, inputs and outputs.
#[derive(Clone, Copy)]
pub struct Call<'a> {
    pub line: Line<u32>,
    pub list: &'a [u32],
}

// What stands for a call that cannot be made: no list of the Rust's has one.
fn unmade(builder: BytecodeBuilder) -> Emitted {
    Err(Unemitted {
        refusal: Refusal::NoRoom,
        builder,
    })
}

impl<'a> Call<'a> {
    pub fn emit(self, builder: BytecodeBuilder, buf: &mut [u8]) -> Emitted {
        match self.line.code {
            0x06 => self.emit_multi(builder, buf),
            0x10 => self.emit_shift(builder, buf),
            0x80 => self.emit_hint(builder, buf),
            0x60..=0x65 => self.emit_assertion(builder, buf),
            _ => self.emit_word_rule(builder, buf),
        }
    }

    fn emit_word_rule(self, builder: BytecodeBuilder, buf: &mut [u8]) -> Emitted {
        let Line {
            code,
            a,
            b,
            c,
            d,
            e,
        } = self.line;
        match code {
            0x01 => builder.emit_band(buf, a, b, c),
            0x02 => builder.emit_bor(buf, a, b, c),
            0x03 => builder.emit_bxor(buf, a, b, c),
            0x05 => builder.emit_select(buf, a, b, c, d),
            0x07 => builder.emit_fax(buf, a, b, c, d),
            0x21 => builder.emit_iadd_cin_cout(buf, a, b, c, d, e),
            0x22 => builder.emit_iadd_carry(buf, a, b, c),
            0x23 => builder.emit_isub_bin_bout(buf, a, b, c, d, e),
            0x30 => builder.emit_imul(buf, a, b, c, d),
            0x40 => builder.emit_iadd32_cin_cout(buf, a, b, c, d, e),
            0x46 => builder.emit_iadd32_cout(buf, a, b, c, d),
            _ => unmade(builder),
        }
    }

    fn emit_assertion(self, builder: BytecodeBuilder, buf: &mut [u8]) -> Emitted {
        let Line {
            code,
            a,
            b,
            c,
            d,
            e: _,
        } = self.line;
        match code {
            0x60 => builder.emit_assert_eq(buf, a, b, c),
            0x61 => builder.emit_assert_eq_cond(buf, a, b, c, d),
            0x62 => builder.emit_assert_zero(buf, a, b),
            0x63 => builder.emit_assert_non_zero(buf, a, b),
            0x64 => builder.emit_assert_false(buf, a, b),
            0x65 => builder.emit_assert_true(buf, a, b),
            _ => unmade(builder),
        }
    }

    pub fn emit_shift(self, builder: BytecodeBuilder, buf: &mut [u8]) -> Emitted {
        let variant = (self.line.c & 0xff) as u8;
        let amount = (self.line.d & 0xff) as u8;
        builder.emit_shift(buf, self.line.a, self.line.b, variant, amount)
    }

    fn emit_multi(self, builder: BytecodeBuilder, buf: &mut [u8]) -> Emitted {
        let n = self.line.b as usize;
        if self.list.len() < n {
            return unmade(builder);
        }
        builder.emit_bxor_multi(buf, self.line.a, &self.list[..n])
    }

    // The inputs and outputs stand in the list after as many numbers as there are dimensions.
    fn emit_hint(self, builder: BytecodeBuilder, buf: &mut [u8]) -> Emitted {
        let inputs = self.line.b as usize;
        let outputs = inputs + self.line.c as usize;
        let end = outputs + self.line.d as usize;
        let mut dimensions = [0; 8];
        if dimensions.len() < inputs || self.list.len() < end {
            return unmade(builder);
        }
        for (dimension, number) in dimensions.iter_mut().zip(self.list) {
            *dimension = *number as usize;
        }
        builder.emit_hint(
            buf,
            self.line.a,
            &dimensions[..inputs],
            &self.list[inputs..outputs],
            &self.list[outputs..end],
        )
    }
}

// The line that names the call that an instruction came from.
pub fn line_naming(instruction: Instruction) -> Line<u32> {
    let (code, [a, b, c, d, e]) = match instruction {
        Instruction::Band(a, b, c) => (0x01, [a, b, c, 0, 0]),
        Instruction::Bor(a, b, c) => (0x02, [a, b, c, 0, 0]),
        Instruction::Bxor(a, b, c) => (0x03, [a, b, c, 0, 0]),
        Instruction::Select(a, b, c, d) => (0x05, [a, b, c, d, 0]),
        Instruction::BxorMulti(a, n) => (0x06, [a, n, 0, 0, 0]),
        Instruction::Fax(a, b, c, d) => (0x07, [a, b, c, d, 0]),
        Instruction::Shift(a, b, variant, amount) => {
            (0x10, [a, b, u32::from(variant), u32::from(amount), 0])
        }
        Instruction::IaddCinCout(a, b, c, d, e) => (0x21, [a, b, c, d, e]),
        Instruction::IaddCarry(a, b, c) => (0x22, [a, b, c, 0, 0]),
        Instruction::IsubBinBout(a, b, c, d, e) => (0x23, [a, b, c, d, e]),
        Instruction::Imul(a, b, c, d) => (0x30, [a, b, c, d, 0]),
        Instruction::Iadd32CinCout(a, b, c, d, e) => (0x40, [a, b, c, d, e]),
        Instruction::Iadd32Cout(a, b, c, d) => (0x46, [a, b, c, d, 0]),
        Instruction::AssertEq(a, b, c) => (0x60, [a, b, c, 0, 0]),
        Instruction::AssertEqCond(a, b, c, d) => (0x61, [a, b, c, d, 0]),
        Instruction::AssertZero(a, b) => (0x62, [a, b, 0, 0, 0]),
        Instruction::AssertNonZero(a, b) => (0x63, [a, b, 0, 0, 0]),
        Instruction::AssertFalse(a, b) => (0x64, [a, b, 0, 0, 0]),
        Instruction::AssertTrue(a, b) => (0x65, [a, b, 0, 0, 0]),
        Instruction::Hint(id, d, i, o) => (0x80, [id, d, i, o, 0]),
    };
    Line {
        code,
        a,
        b,
        c,
        d,
        e,
    }
}
