//! The registers of an instruction: all below rows, and no destination named twice.
ghost use Rattle.std.specs.Prelude.{◌≡◌, ◌+◌, ◌*◌, ◌≤◌, length};
ghost use Rattle.common.specs.Lists.{member, all_below};
ghost use Rattle.bytecode.specs.Layout.{words};
ghost use Rattle.accept.specs.Check.{overlap};
ghost use Rattle.accept.specs.Working.{judged_registers, judging, numbers};

use bytecode::layout::Places;
use refusal::Refusal;

// The registers that stand one after the other from a place of the bytes on, four bytes each.
fn registers(code: &[u8], at: usize, count: usize) -> &[[u8; 4]]
    requires { at + 4 * count ≤ length code.now }
    ensures { numbers result.now ≡ words code.now at count }
{
    code[at..at + 4 * count].as_chunks::<4>().0
}

// Whether x is among them.
fn has(registers: &[[u8; 4]], x: u32) -> bool
    ensures { result ≡ member x (numbers registers.now) }
{
    registers
        .iter()
        .any(|register| u32::from_le_bytes(*register) == x)
}

// Whether they are all below rows.
fn below(registers: &[[u8; 4]], rows: usize) -> bool
    ensures { result ≡ all_below rows (numbers registers.now) }
{
    registers
        .iter()
        .all(|register| (u32::from_le_bytes(*register) as usize) < rows)
}

// Whether a destination is a source or a later destination. Nested passes, left at the first equal pair: labelled loops over
// destinations and sources are the form that is prescribed for this search (docs/DECISIONS.md).
fn collides(dests: &[[u8; 4]], sources: &[[u8; 4]]) -> bool
    ensures { result ≡ overlap (numbers dests.now) (numbers sources.now) }
{
    let mut hit = false;
    let mut left = dests;
    'dests: while let [first, rest @ ..] = left {
        let dest = u32::from_le_bytes(*first);
        for source in sources {
            if u32::from_le_bytes(*source) == dest {
                hit = true;
                break 'dests;
            }
        }
        if has(rest, dest) {
            hit = true;
            break 'dests;
        }
        left = rest;
    }
    hit
}

// 9, then 10.
#[tactic(auto, unfolding(crate::specs::Working::judged_registers))]
pub(crate) fn judge_registers(code: &[u8], places: Places, rows: usize) -> Result<(), Refusal>
    requires { (places.to + 4 * places.dests ≤ length code.now) × (places.from + 4 * places.sources ≤ length code.now) }
    ensures { judging result ≡ judged_registers rows (words code.now places.to places.dests) (words code.now places.from places.sources) }
{
    let dests = registers(code, places.to, places.dests);
    let sources = registers(code, places.from, places.sources);
    if !(below(dests, rows) && below(sources, rows)) {
        return Err(Refusal::BadRegister);
    }
    if collides(dests, sources) {
        return Err(Refusal::Overlap);
    }
    Ok(())
}
