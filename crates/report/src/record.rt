//! A record of the report: one violation, three words.
ghost use Rattle.std.specs.Prelude.{◌≡◌, ◌<◌, ◌^◌};
ghost use Rattle.report.specs.Records.{packed};

// The words of a record.
pub const RECORD_WORDS: usize = 3;

// At most this many failures are kept.
pub const MAX_CAP: usize = 256;

// The words of all the records that can be kept.
pub const MOST_WORDS: usize = MAX_CAP * RECORD_WORDS;

// The packed head, and the two words of the message.
#[derive(Clone, Copy, PartialEq, Eq, Debug)]
pub struct Failure {
    pub head: u64,
    pub one: u64,
    pub two: u64,
}

// Opcode in the 8 highest bits, then the instruction number in 24, the path spec in 32. In products, as `packed` has them; and the
// number's limit is a clause, since a type of its own would be made and taken apart again at each instruction.
pub fn head(opcode: u8, number: usize, path: u32) -> u64
    requires { number < 2 ^ 24 }
    ensures { result ≡ packed opcode number path }
{
    (opcode as u64 * 16777216 + number as u64) * 4294967296 + path as u64
}
