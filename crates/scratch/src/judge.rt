//! Refusal 14, BadGates, and the gate list of what is accepted.
ghost use Rattle.std.specs.Prelude.{◌≡◌, true, not, ◌≤◌, length, eqb};
ghost use Rattle.common.specs.Lists.{all_below};
ghost use Rattle.scratch.specs.Accept.{closes, accepted};

use refusal::Refusal;

pub const MOST_WIRES: usize = 8192;

pub const MOST_GATES: usize = 8192;

const MOST_MENTIONS: usize = 16384;

// A gate list that was accepted: the gates' ends, the wires that they mention, and the mark of each wire.
#[derive(Clone, Copy)]
pub struct GateList<'a> {
    pub ends: &'a [u32],
    pub mentions: &'a [u32],
    pub marks: &'a [u8],
    ghost few_wires: { length marks.now ≤ 8192 },
    ghost few_gates: { length ends.now ≤ 8192 },
    ghost few_mentions: { length mentions.now ≤ 16384 },
    ghost closed: { closes 0 (length mentions.now) ends.now ≡ true },
    ghost known: { all_below (length marks.now) mentions.now ≡ true },
}

impl<'a> GateList<'a> {
    ghost use Rattle.std.specs.Prelude.{false, ◌<◌, [], get_or, MatchResult};
    ghost use Rattle.refusal.specs.declared.Refusal.TheVariants.{BadGates};
    ghost use Rattle.scratch.specs.Working.Arrays.{Within, start};
    ghost use Rattle.scratch.specs.Working.{gates_in, wires_in};

    // The gate list of what is accepted; of the slots only their number is judged.
    pub fn judge(
        wires: usize,
        ends: &'a [u32],
        mentions: &'a [u32],
        marks: &'a [u8],
        slots: &[u32],
    ) -> Result<Self, Refusal>
        ensures { MatchResult result
            (λ list. (accepted wires ends.now mentions.now marks.now slots.now ≡ true) × (list.ends.now ≡ ends.now) × (list.mentions.now ≡ mentions.now) × (list.marks.now ≡ marks.now))
            (λ refusal. (accepted wires ends.now mentions.now marks.now slots.now ≡ false) × (refusal ≡ BadGates)) }
    {
        if !accepts(wires, ends, mentions, marks, slots) {
            return Err(Refusal::BadGates);
        }
        Ok(GateList {
            ends,
            mentions,
            marks,
        })
    }

    // The wires that gate g mentions, in mention order.
    pub fn gate(&self, g: usize) -> &'a [u32]
        requires { g < length self.now.ends.now }
        ensures wires { result.now ≡ get_or (gates_in self.now) g [] }
        ensures known { Within (wires_in self.now) result.now }
        ensures few { length result.now ≤ 16384 }
    {
        &self.mentions[self.start(g)..self.ends[g] as usize]
    }

    // Where gate g begins: at the end of the gate before it.
    fn start(&self, g: usize) -> usize
        requires { g < length self.now.ends.now }
        ensures begins { result ≡ start 0 self.now.ends.now g }
        ensures before { result ≤ get_or self.now.ends.now g 0 }
        ensures within { get_or self.now.ends.now g 0 ≤ length self.now.mentions.now }
    {
        if g == 0 { 0 } else { self.ends[g - 1] as usize }
    }
}

// No pool size is broken, the gates fit the mentions, each mention is of a wire that there is, and marks and
// slots have an entry for each wire.
fn accepts(wires: usize, ends: &[u32], mentions: &[u32], marks: &[u8], slots: &[u32]) -> bool
    ensures { result ≡ accepted wires ends.now mentions.now marks.now slots.now }
{
    wires <= MOST_WIRES
        && ends.len() <= MOST_GATES
        && mentions.len() <= MOST_MENTIONS
        && ends_close(ends, mentions.len())
        && all_below(wires, mentions)
        && marks.len() == wires
        && slots.len() == wires
}

// Gate ends do not fall, and end at the mention count.
fn ends_close(ends: &[u32], count: usize) -> bool
    ensures { result ≡ closes 0 count ends.now }
{
    let last = ends.last().copied().unwrap_or(0);
    ends.is_sorted() && last as usize == count
}

// Each mention is of a wire that there is.
fn all_below(wires: usize, mentions: &[u32]) -> bool
    ensures { result ≡ all_below wires mentions.now }
{
    mentions.iter().all(|wire| (*wire as usize) < wires)
}

// A wire whose mark is not zero. The marks are C's, a byte each.
pub fn is_scratch(mark: u8) -> bool
    ensures { result ≡ not (eqb mark 0) }
{
    mark != 0
}
