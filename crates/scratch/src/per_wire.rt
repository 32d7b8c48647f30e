//! A slot of its own for each marked wire: the Rust's slot_per_wire.
ghost use Rattle.std.specs.Prelude.{◌≡◌, length};
ghost use Rattle.scratch.specs.Gates.{scratch, among};
ghost use Rattle.scratch.specs.Policies.{per_wire};
ghost use Rattle.scratch.specs.Working.{wires_in};

use super::judge::{GateList, is_scratch};
use super::pooled::UNSLOTTED;

// The slots, and how many there are.
pub fn slot_per_wire(gates: &GateList, slots: &mut [u32]) -> u32
    requires { length slots.old ≡ wires_in gates.now }
    ensures slots { slots.new ≡ per_wire 0 gates.now.marks.now }
    ensures length { result ≡ length (among (scratch gates.now.marks.now) 0 (wires_in gates.now)) }
{
    let mut next = 0;
    // Wires are counted: after an `iter_mut` over the slots beside the marks, nothing is known of the slots.
    for (wire, mark) in gates.marks.iter().enumerate() {
        if is_scratch(*mark) {
            slots[wire] = next;
            next += 1;
        } else {
            slots[wire] = UNSLOTTED;
        }
    }
    next
}
