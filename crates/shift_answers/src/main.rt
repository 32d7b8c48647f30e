// The given Rust's answers on the shifts, replayed: prints for each variant how many agree.
//
// The list is made by oracle/ and not by hand; oracle/src/lists/shifts.rs says what its lines mean, and
// oracle/README.md how to make it anew. It has every variant by every amount that it takes.
#![tactic(auto)]

use answers::{Line, Tally};
use common::halves::join;
use shift::ShiftVariant;
use std::io;

// The variants' names, in the order of their codes.
const VARIANTS: [&str; 8] = [
    "Sll", "Slr", "Sar", "Rotr", "Sll32", "Srl32", "Sra32", "Rotr32",
];

fn agrees(line: Line<u32>) -> bool {
    let amount = (line.a & 0xff) as u8;
    let Ok(variant) = ShiftVariant::try_from(line.code) else {
        return false;
    };
    if shift::bad_variant(line.code) || shift::bad_amount(line.code, amount) {
        return false;
    }
    shift::shift(variant, amount, join(line.b, line.c)) == join(line.d, line.e)
}

fn main(rt: HostRuntime) -> io::Result<()> {
    let mut tallies = [Tally::default(); 256];
    answers::replay(&mut rt.reader(), answers::read_numbers, |line: Line<u32>| {
        tallies[line.code as usize].note(agrees(line))
    })?;
    for (code, title) in VARIANTS.iter().enumerate() {
        answers::tell(&rt, title, tallies[code])?;
    }
    Ok(())
}
