//! Slots for the scratch segment, after binius64's scratch_alloc.rs. A flat gate list stands for the
//! gate graph: gate g mentions the wires from one gate end to the next. Each module has its part of
//! the Rust beside it: `deaths` order_deaths, `stock` and `pooled` pool_slots, `per_wire` slot_per_wire;
//! `judge` judges what the Rust takes for granted. Time is linear in wires, gates and mentions.
#![tactic(auto)]

ghost use Rattle.std.specs.Prelude.{◌≡◌};
ghost use Rattle.scratch.specs.Answer.{told, answer_of, slots_after};

use judge::GateList;
use refusal::Refusal;

mod deaths;
mod judge;
mod per_wire;
mod pooled;
mod stock;

#[derive(Clone, Copy, PartialEq, Eq, Debug)]
pub enum Policy {
    PerWire,
    Pooled,
}

// How many slots there are, and the most that are alive at one gate.
#[derive(Clone, Copy, PartialEq, Eq, Debug)]
pub struct Allocation {
    pub length: u32,
    pub peak: u32,
}

// The slot of each wire under the policy, into the lent `slots`; how many slots there are, and the
// most that are alive at one gate. A refusal leaves the slots as they were. The arguments come one by one,
// as C lends them, and a `GateList` holds those that are accepted.
pub fn pool(
    wires: usize,
    ends: &[u32],
    mentions: &[u32],
    marks: &[u8],
    slots: &mut [u32],
    policy: Policy,
) -> Result<Allocation, Refusal>
    ensures { (told result ≡ answer_of wires ends.now mentions.now marks.now slots.old policy) × (slots.new ≡ slots_after wires ends.now mentions.now marks.now slots.old policy) }
{
    let gates = GateList::judge(wires, ends, mentions, marks, slots)?;
    // The pooled slots are worked out under either policy: PerWire answers their peak.
    let shared = pooled::pool_slots(&gates, slots);
    match policy {
        Policy::PerWire => {
            let length = per_wire::slot_per_wire(&gates, slots);
            Ok(Allocation {
                length,
                peak: shared.peak,
            })
        }
        Policy::Pooled => Ok(shared),
    }
}
