//! A decoded instruction, by value.

// A case for each carried opcode, by the Rust's names, with the fields in layout order. BxorMulti and Hint carry counts:
// a destination and the number of sources; an id and the numbers of dimensions, inputs and outputs. Their lists stay in
// the bytes that the instruction was decoded from. A shift's variant is the byte that stands there: `inst` has a meaning for each.
#[derive(Clone, Copy, PartialEq, Eq, Debug)]
pub enum Instruction {
    Band(u32, u32, u32),
    Bor(u32, u32, u32),
    Bxor(u32, u32, u32),
    Select(u32, u32, u32, u32),
    BxorMulti(u32, u32),
    Fax(u32, u32, u32, u32),
    Shift(u32, u32, u8, u8),
    IaddCinCout(u32, u32, u32, u32, u32),
    IaddCarry(u32, u32, u32),
    IsubBinBout(u32, u32, u32, u32, u32),
    Imul(u32, u32, u32, u32),
    Iadd32CinCout(u32, u32, u32, u32, u32),
    Iadd32Cout(u32, u32, u32, u32),
    AssertEq(u32, u32, u32),
    AssertEqCond(u32, u32, u32, u32),
    AssertZero(u32, u32),
    AssertNonZero(u32, u32),
    AssertFalse(u32, u32),
    AssertTrue(u32, u32),
    Hint(u32, u32, u32, u32),
}
