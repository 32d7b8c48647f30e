// The given Rust's scratch slots, replayed: prints how many lengths and peaks agree under each policy,
// and how many lists of slots.
//
// The list is made by oracle/ and not by hand; oracle/src/lists/scratch.rs says what its lines mean, and
// oracle/README.md how to make it anew.
#![tactic(auto)]

use answers::{Line, Tally};
use common::halves::{join, low};
use scratch::{Allocation, Policy};
use std::io;

// A list of gates, the slots that it was given, and the tallies. The arrays have fixed lengths: a list that is
// longer does not agree, so what is told depends on them.
#[derive(Drop)]
struct Replayed {
    ends: [u32; 8192],
    mentions: [u32; 16384],
    marks: [u8; 8192],
    slots: [u32; 8192],
    pooled: Tally,
    per_wire: Tally,
    slots_agreed: Tally,
}

// The lowest byte.
fn mark(number: u32) -> u8 {
    (number & 0xff) as u8
}

// An entry of a pattern: half the number that it has come to, modulo another where that is not 0.
fn entry(doubled: u64, modulus: u32) -> u32 {
    let plain = doubled / 2;
    if modulus == 0 {
        return low(plain);
    }
    (plain % u64::from(modulus)) as u32
}

// The first entries by a pattern.
fn fill<T: Copy, F: Fn(u32) -> T>(line: Line<u32>, entries: &mut [T], made: F)
    requires { F.IsAlwaysCallable made }
{
    let mut doubled = u64::from(line.b);
    for place in entries.iter_mut().take(line.a as usize) {
        *place = made(entry(doubled, line.d));
        doubled = doubled.wrapping_add(u64::from(line.c));
    }
}

impl Replayed {
    // The slots of the gate list, and whether length and peak agree.
    fn pool(&mut self, line: Line<u32>, policy: Policy) -> bool {
        let wires = line.a as usize;
        let gates = line.b as usize;
        let all = line.c as usize;
        if self.ends.len() < gates
            || self.mentions.len() < all
            || self.marks.len() < wires
            || self.slots.len() < wires
        {
            return false;
        }
        let slots = &mut self.slots[..];
        let answer = scratch::pool(
            wires,
            &self.ends[..gates],
            &self.mentions[..all],
            &self.marks[..wires],
            &mut slots[..wires],
            policy,
        );
        answer
            == Ok(Allocation {
                length: line.d,
                peak: line.e,
            })
    }

    // The first so many of four slots from a place on.
    fn slots_agree(&self, line: Line<u32>, count: usize) -> bool {
        answers::first_stand(&self.slots, line.a as usize, &line.entries(), count, 0)
    }

    // The checksum of the first slots. What is past the list's end counts as 0.
    fn sum_agrees(&self, line: Line<u32>) -> bool {
        let sum = (0..line.a as usize).fold(0, |sum, place| {
            answers::summed(sum, u64::from(answers::value_at(&self.slots, place, 0)))
        });
        sum == join(line.b, line.c)
    }

    fn note_slots(&mut self, line: Line<u32>) {
        let agrees = match line.code {
            0x31 => self.slots_agree(line, 1),
            0x32 => self.slots_agree(line, 2),
            0x33 => self.slots_agree(line, 3),
            0x34 => self.slots_agree(line, 4),
            0x3f => self.sum_agrees(line),
            _ => false,
        };
        self.slots_agreed.note(agrees);
    }

    fn turn(&mut self, line: Line<u32>) {
        let place = line.a as usize;
        match line.code {
            0x01 => answers::put_all(&mut self.ends, place, &line.entries()),
            0x02 => answers::put_all(&mut self.mentions, place, &line.entries()),
            0x03 => answers::put_all(&mut self.marks, place, &line.entries().map(mark)),
            0x11 => fill(line, &mut self.ends, |number| number),
            0x12 => fill(line, &mut self.mentions, |number| number),
            0x13 => fill(line, &mut self.marks, mark),
            0x20 => {
                let agrees = self.pool(line, Policy::Pooled);
                self.pooled.note(agrees);
            }
            0x21 => {
                let agrees = self.pool(line, Policy::PerWire);
                self.per_wire.note(agrees);
            }
            _ => self.note_slots(line),
        }
    }
}

fn main(rt: HostRuntime) -> io::Result<()> {
    let mut replayed = Replayed {
        ends: [0; 8192],
        mentions: [0; 16384],
        marks: [0; 8192],
        slots: [0; 8192],
        pooled: Tally::default(),
        per_wire: Tally::default(),
        slots_agreed: Tally::default(),
    };
    answers::replay(&mut rt.reader(), answers::read_numbers, |line| {
        replayed.turn(line)
    })?;
    answers::tell(&rt, "Pooled", replayed.pooled)?;
    answers::tell(&rt, "slots", replayed.slots_agreed)?;
    answers::tell(&rt, "PerWire", replayed.per_wire)
}
