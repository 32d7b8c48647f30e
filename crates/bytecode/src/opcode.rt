//! The opcode bytes, and how the fields after each are laid out.
ghost use Rattle.std.specs.Prelude.{◌≡◌};
ghost use Rattle.bytecode.specs.Opcode.{shape_of};

// Unknown and NotCarried are lines of the opcode table as the others are, so they are shapes; `size_of` makes refusals of them.
#[derive(Clone, Copy, PartialEq, Eq, Debug)]
pub enum Shape {
    // No opcode of the source.
    Unknown,
    // An opcode of the source that is left to the Rust.
    NotCarried,
    // Destinations, sources and path specs, each a u32, in this order: by position, so that the table below has them as columns.
    Fixed(u8, u8, u8),
    // A destination and a source, then the bytes variant and amount.
    Shift,
    // A destination, a count and that many sources.
    Many,
    // An id, a counted list of dimensions, two counts, inputs and outputs.
    Hint,
}

// An arm for each opcode of the source, in the order of their bytes. An opcode is its byte: any byte may stand in a program, and
// `Instruction` is the enum of those that are carried.
pub fn shape_of(op: u8) -> Shape
    ensures { result ≡ shape_of op }
{
    match op {
        0x01 => Shape::Fixed(1, 2, 0), // Band
        0x02 => Shape::Fixed(1, 2, 0), // Bor
        0x03 => Shape::Fixed(1, 2, 0), // Bxor
        0x05 => Shape::Fixed(1, 3, 0), // Select
        0x06 => Shape::Many, // BxorMulti
        0x07 => Shape::Fixed(1, 3, 0), // Fax
        0x10 => Shape::Shift, // Shift
        0x21 => Shape::Fixed(2, 3, 0), // IaddCinCout
        0x22 => Shape::Fixed(1, 2, 0), // IaddCarry
        0x23 => Shape::Fixed(2, 3, 0), // IsubBinBout
        0x30 => Shape::Fixed(2, 2, 0), // Imul
        0x31 => Shape::NotCarried, // Bmul
        0x40 => Shape::Fixed(2, 3, 0), // Iadd32CinCout
        0x46 => Shape::Fixed(2, 2, 0), // Iadd32Cout
        0x60 => Shape::Fixed(0, 2, 1), // AssertEq
        0x61 => Shape::Fixed(0, 3, 1), // AssertEqCond
        0x62 => Shape::Fixed(0, 1, 1), // AssertZero
        0x63 => Shape::Fixed(0, 1, 1), // AssertNonZero
        0x64 => Shape::Fixed(0, 1, 1), // AssertFalse
        0x65 => Shape::Fixed(0, 1, 1), // AssertTrue
        0x80 => Shape::Hint, // Hint
        _ => Shape::Unknown,
    }
}
