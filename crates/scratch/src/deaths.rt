//! Which scratch wires die at each gate, in rising wire number: the Rust's order_deaths. The Rust sorts
//! pairs of gate and wire. Here the wires of a gate are chained through `link`, and the order comes from
//! chaining the highest wire first.
ghost use Rattle.std.specs.Prelude.{◌≡◌, ◌&&◌, ℕ, ◌≤◌, ◌<◌, length, get_or, eqb};
ghost use Rattle.scratch.specs.Gates.{gates_of, scratch, among};
ghost use Rattle.scratch.specs.Working.Arrays.{stamped, stamped_to, Within};

use super::judge::{GateList, MOST_GATES, MOST_WIRES, is_scratch};

// A chain for each gate that there may be, and one for the wires that none mentions.
const MOST_CHAINS: usize = MOST_GATES + 1;

// The stamp of a wire that no gate mentions: it picks the last chain, which is never asked for.
const NO_GATE: u32 = MOST_GATES as u32;

// The first wire of a chain, and how many wires there are.
#[derive(Clone, Copy)]
pub struct Chain {
    pub head: u32,
    pub count: u32,
}

// The chains of the gates, and the wire that follows each wire. The room is fixed, for each gate and wire
// that there may be, since the library has no heap.
#[derive(Drop)]
pub struct Deaths {
    pub chains: [Chain; MOST_CHAINS],
    pub link: [u32; MOST_WIRES],
    ghost heads: { length chains ≡ 8193 },
    ghost links: { length link ≡ 8192 },
}

impl Deaths {
    ghost use Rattle.scratch.specs.Working.{died_at, Ordered, Undying};

    // No wire has died yet. `order` fills the arrays in place: answered by value, the full ones would be copied.
    pub fn none() -> Self
        ensures { Undying result }
    {
        Deaths {
            chains: [Chain { head: 0, count: 0 }; MOST_CHAINS],
            link: [0; MOST_WIRES],
        }
    }

    // The wires that die at each gate: those that it is the last to mention.
    pub fn order(&mut self, gates: &GateList)
        requires { Undying self.old }
        ensures { Ordered gates.now self.new }
    {
        let mut last = [NO_GATE; MOST_WIRES];
        last_mentions(gates, &mut last);
        self.chain(gates.marks, &last);
    }

    // The scratch wires stamped with each gate, chained in rising wire number. `w` is counted: the stamps and
    // the links go by it, too, so `enumerate` over the marks would spare one index of three.
    fn chain(&mut self, marks: &[u8], last: &[u32; MOST_WIRES])
        requires few { length marks.now ≤ 8192 }
        requires stamps { (w : ℕ) → w < 8192 → get_or last.now w 0 ≤ 8192 }
        requires none { Undying self.old }
        ensures { (g : ℕ) → g < 8193 → died_at self.new g ≡ among (λ w. scratch marks.now w && eqb (get_or last.now w 0) g) 0 (length marks.now) }
    {
        for w in (0..marks.len()).rev() {
            if is_scratch(marks[w]) {
                let g = last[w] as usize;
                let Chain { head, count } = self.chains[g];
                self.link[w] = head;
                self.chains[g] = Chain {
                    head: w as u32,
                    count: count + 1,
                };
            }
        }
    }
}

// The last gate to mention a wire is the last to stamp it. `g` is counted, since it is the stamp; the gates
// lie in no array of their own.
fn last_mentions(gates: &GateList, last: &mut [u32; MOST_WIRES])
    ensures { last.new ≡ stamped_to (gates_of gates.now.ends.now gates.now.mentions.now) (length gates.now.ends.now) last.old }
{
    for g in 0..gates.ends.len() {
        stamp(gates.gate(g), g as u32, last);
    }
}

// A gate's number, stamped on each wire that it mentions.
fn stamp(gate: &[u32], g: u32, last: &mut [u32; MOST_WIRES])
    requires { Within 8192 gate.now }
    ensures { last.new ≡ stamped g last.old gate.now }
{
    for wire in gate {
        last[*wire as usize] = g;
    }
}
