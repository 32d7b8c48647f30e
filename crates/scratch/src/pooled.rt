//! Slots that are shared, each free again once the gate that last mentions its wire has passed: the
//! Rust's pool_slots.
ghost use Rattle.std.specs.Prelude.{◌≡◌, true, ℕ, ◌+◌, ◌≤◌, ◌<◌, length, replicate};
ghost use Rattle.common.specs.Lists.{member};
ghost use Rattle.scratch.specs.Policies.{unslotted, meets, meet_all, gives};
ghost use Rattle.scratch.specs.Working.Arrays.{Within};
ghost use Rattle.scratch.specs.Working.{wires_in, pooled_in, peak_in, pool_of, died_at, Ordered};

use super::Allocation;
use super::deaths::Deaths;
use super::judge::{GateList, MOST_WIRES, is_scratch};
use super::stock::Stock;

// What a wire without a slot reads. The lent slots are C's, so it is a number and no Option.
pub const UNSLOTTED: u32 = 4294967295;

// The pooled slots, how many were taken, and the peak. The work arrays are local: some 96 KiB in `deaths`,
// and 32 KiB each in `Deaths::order` and in `share`, of which one at a time is in use.
pub fn pool_slots(gates: &GateList, slots: &mut [u32]) -> Allocation
    requires { length slots.old ≡ wires_in gates.now }
    ensures slots { slots.new ≡ (pooled_in gates.now).slots }
    ensures length { result.length ≡ (pooled_in gates.now).size }
    ensures peak { result.peak ≡ peak_in gates.now }
{
    let mut deaths = Deaths::none();
    deaths.order(gates);
    slots.fill(UNSLOTTED);
    share(gates, &deaths, slots)
}

// The gates in order, over cleared slots. `g` is counted, since the gate list and the deaths both go by it,
// and the gates lie in no array of their own.
fn share(gates: &GateList, deaths: &Deaths, slots: &mut [u32]) -> Allocation
    requires cleared { slots.old ≡ replicate (wires_in gates.now) unslotted }
    requires ordered { Ordered gates.now deaths.now }
    ensures slots { slots.new ≡ (pooled_in gates.now).slots }
    ensures length { result.length ≡ (pooled_in gates.now).size }
    ensures peak { result.peak ≡ peak_in gates.now }
{
    let mut room = [0; MOST_WIRES];
    let mut stock = Stock::new(&mut room);
    let mut peak = 0;
    for g in 0..gates.ends.len() {
        allot(gates.gate(g), gates.marks, slots, &mut stock);
        // The living are counted when the gate's wires have their slots and none is given back.
        peak = peak.max(stock.living());
        release(deaths, g, slots, &mut stock);
    }
    Allocation {
        length: stock.size,
        peak,
    }
}

// The mentions of a gate, in their order.
fn allot(gate: &[u32], marks: &[u8], slots: &mut [u32], stock: &mut Stock)
    requires known { Within (length slots.old) gate.now }
    requires marked { length marks.now ≡ length slots.old }
    requires room { stock.old.size + length gate.now < 4294967295 }
    ensures pool { pool_of slots.new stock.new ≡ meet_all marks.now (pool_of slots.old stock.old) gate.now }
{
    for wire in gate {
        meet(*wire as usize, marks, slots, stock);
    }
}

// One mention of a wire.
fn meet(wire: usize, marks: &[u8], slots: &mut [u32], stock: &mut Stock)
    requires marked { wire < length marks.now }
    requires known { wire < length slots.old }
    requires room { stock.old.size < 4294967295 }
    ensures pool { pool_of slots.new stock.new ≡ meets marks.now (pool_of slots.old stock.old) wire }
    ensures room { stock.new.size ≤ stock.old.size + 1 }
{
    if is_scratch(marks[wire]) && slots[wire] == UNSLOTTED {
        slots[wire] = stock.take();
    }
}

// The wires that die at gate g give their slots back, one after the other: a chain is followed from wire to
// wire, so the turns are counted.
#[tactic(auto, using(crate::proofs::pooled::Steps::release_here))]
fn release(deaths: &Deaths, g: usize, slots: &[u32], stock: &mut Stock)
    requires gate { g < 8193 }
    requires few { length slots.now ≤ 8192 }
    requires known { (w : ℕ) → member w (died_at deaths.now g) ≡ true → w < length slots.now }
    requires room { length stock.old.free + length (died_at deaths.now g) ≤ 8192 }
    ensures { pool_of slots.now stock.new ≡ gives (pool_of slots.now stock.old) (died_at deaths.now g) }
{
    let chain = deaths.chains[g];
    let mut wire = chain.head as usize;
    for _ in 0..chain.count {
        stock.give(slots[wire]);
        wire = deaths.link[wire] as usize;
    }
}
