//! Reading fields, an instruction's length, and where its registers lie.
ghost use Rattle.std.specs.Prelude.{◌≡◌, get_or};
ghost use Rattle.bytecode.specs.Layout.{word_at, size_as};
ghost use Rattle.bytecode.specs.Working.{counts_of, size_by, places_by, places_as};

use crate::opcode::Shape;
use refusal::Refusal;

// The byte at a place, 0 past the end.
pub fn byte(code: &[u8], at: usize) -> u8
    ensures { result ≡ get_or code.now at 0 }
{
    code.get(at).copied().unwrap_or(0)
}

// The little-endian u32 at a place, bytes past the end counting 0.
#[tactic(auto, using(crate::proofs::Words::word_past), unfolding(crate::specs::Layout::word_at))]
pub fn word(code: &[u8], at: usize) -> u32
    ensures { result ≡ word_at code.now at }
{
    if code.len() <= at {
        return 0;
    }
    u32::from_le_bytes([
        byte(code, at),
        byte(code, at + 1),
        byte(code, at + 2),
        byte(code, at + 3),
    ])
}

// The three counts of a hint.
#[derive(Clone, Copy, PartialEq, Eq, Debug)]
pub struct HintCounts {
    pub dimensions: u32,
    pub inputs: u32,
    pub outputs: u32,
}

impl HintCounts {
    // The input count stands after the dimensions, and the output count after that.
    pub fn read(code: &[u8]) -> HintCounts
        ensures { result ≡ counts_of code.now }
    {
        let dimensions = word(code, 5);
        HintCounts {
            dimensions,
            inputs: word(code, 9 + 4 * dimensions as usize),
            outputs: word(code, 13 + 4 * dimensions as usize),
        }
    }

    fn size(self) -> usize
        ensures { result ≡ size_by self }
    {
        17 + 4 * (self.dimensions as usize + self.inputs as usize + self.outputs as usize)
    }

    // A hint's destinations come last.
    fn places(self) -> Places
        ensures { result ≡ places_by self }
    {
        Places {
            to: 17 + 4 * (self.dimensions as usize + self.inputs as usize),
            dests: self.outputs as usize,
            from: 17 + 4 * self.dimensions as usize,
            sources: self.inputs as usize,
        }
    }
}

// An instruction's length by its counts, or why its opcode has none.
// Counts are read wherever they would lie: one that passes the end makes a length that does so too.
#[tactic(auto, unfolding(crate::specs::Layout::size_as))]
pub fn size_of(code: &[u8], shape: Shape) -> Result<usize, Refusal>
    ensures { result ≡ size_as shape code.now }
{
    match shape {
        Shape::Unknown => Err(Refusal::UnknownOpcode),
        Shape::NotCarried => Err(Refusal::NotCarried),
        Shape::Fixed(dests, sources, paths) => {
            Ok(1 + 4 * (dests as usize + sources as usize + paths as usize))
        }
        Shape::Shift => Ok(11),
        Shape::Many => Ok(9 + 4 * word(code, 5) as usize),
        Shape::Hint => Ok(HintCounts::read(code).size()),
    }
}

// Where an instruction's registers lie in its bytes: destinations from `to` on, sources from `from` on.
// They are numbers and no parts of the bytes, which may be too short to be cut there.
#[derive(Clone, Copy, PartialEq, Eq, Debug)]
pub struct Places {
    pub to: usize,
    pub dests: usize,
    pub from: usize,
    pub sources: usize,
}

// All are 0 for an opcode that has no layout, as `places_as` has it.
#[tactic(auto, unfolding(crate::specs::Working::places_as))]
pub fn places_of(code: &[u8], shape: Shape) -> Places
    ensures { result ≡ places_as shape code.now }
{
    match shape {
        Shape::Unknown | Shape::NotCarried => Places {
            to: 0,
            dests: 0,
            from: 0,
            sources: 0,
        },
        // Destinations come first, but in a hint.
        Shape::Fixed(dests, sources, _) => Places {
            to: 1,
            dests: dests as usize,
            from: 1 + 4 * dests as usize,
            sources: sources as usize,
        },
        Shape::Shift => Places {
            to: 1,
            dests: 1,
            from: 5,
            sources: 1,
        },
        Shape::Many => Places {
            to: 1,
            dests: 1,
            from: 9,
            sources: word(code, 5) as usize,
        },
        Shape::Hint => HintCounts::read(code).places(),
    }
}
