// The given Rust's answers on the word rules, replayed: prints for each rule how many agree.
//
// The list is made by oracle/ and not by hand; oracle/src/lists/words.rs says what its lines mean, and
// oracle/README.md how to make it anew. What hints 1 to 3 answer there is the harness's own.
#![tactic(auto)]

use answers::{Line, Tally};
use std::io;
use word::{arithmetic, assertions, bitwise, hints};

// The rules in the order in which they are told, each with the code of its lines.
const RULES: [(&str, u8); 21] = [
    ("Band", 0x01),
    ("Bor", 0x02),
    ("Bxor", 0x03),
    ("IaddCarry", 0x22),
    ("Select", 0x05),
    ("Fax", 0x07),
    ("BxorMulti", 0x06),
    ("IaddCinCout", 0x21),
    ("IsubBinBout", 0x23),
    ("Imul", 0x30),
    ("Iadd32CinCout", 0x40),
    ("Iadd32Cout", 0x46),
    ("AssertEq", 0x60),
    ("AssertEqCond", 0x61),
    ("AssertZero", 0x62),
    ("AssertNonZero", 0x63),
    ("AssertFalse", 0x64),
    ("AssertTrue", 0x65),
    ("hint 1", 0x81),
    ("hint 2", 0x82),
    ("hint 3", 0x83),
];

// The words that a rule of many words reads, and the tally of each code. The words are so
// many and no more: a line that asks for more of them does not agree, and what is told depends on that.
#[derive(Drop)]
struct Replayed {
    sources: [u64; 64],
    tallies: [Tally; 256],
}

// A rule of up to three words.
fn agrees(line: Line<u64>) -> bool {
    let Line {
        code,
        a,
        b,
        c,
        d,
        e,
    } = line;
    match code {
        0x01 => bitwise::band(a, b) == d,
        0x02 => bitwise::bor(a, b) == d,
        0x03 => bitwise::bxor(a, b) == d,
        0x05 => bitwise::select(a, b, c) == d,
        0x07 => bitwise::fax(a, b, c) == d,
        0x21 => arithmetic::sum(a, b, c) == d && arithmetic::carries(a, b, c) == e,
        0x22 => arithmetic::iadd_carry(a, b) == d,
        0x23 => arithmetic::difference(a, b, c) == d && arithmetic::borrows(a, b, c) == e,
        0x30 => {
            let product = arithmetic::multiply(a, b);
            product.high == d && product.low == e
        }
        0x40 => arithmetic::sum32(a, b, c) == d && arithmetic::carries32(a, b, c) == e,
        0x46 => arithmetic::sum32(a, b, 0) == d && arithmetic::carries32(a, b, 0) == e,
        0x60 => u64::from(assertions::eq_fails(a, b)) == d,
        0x61 => u64::from(assertions::eq_cond_fails(a, b, c)) == d,
        0x62 => u64::from(assertions::zero_fails(a)) == d,
        0x63 => u64::from(assertions::non_zero_fails(a)) == d,
        0x64 => u64::from(assertions::false_fails(a)) == d,
        0x65 => u64::from(assertions::true_fails(a)) == d,
        0x81 => {
            let division = hints::divide(a, b);
            division.quotient == d && division.remainder == e
        }
        0x82 => hints::leading_zeros(a) == d,
        _ => false,
    }
}

impl Replayed {
    // BxorMulti of the first a words.
    fn multi_agrees(&self, line: Line<u64>) -> bool {
        let n = line.a as usize;
        n <= self.sources.len() && bitwise::bxor_multi(&self.sources[..n]) == line.d
    }

    // Output b of hint 3 on the first a words.
    fn mirror_agrees(&self, line: Line<u64>) -> bool {
        let k = line.a as usize;
        let j = line.b as usize;
        let mut outputs = [0u64; 8];
        if k > outputs.len() || j >= outputs.len() {
            return false;
        }
        hints::mirror(&self.sources[..k], &mut outputs[..k]);
        outputs[j] == line.d
    }

    // Two words from a place on.
    fn put(&mut self, line: Line<u64>) {
        answers::put_all(&mut self.sources, line.a as usize, &[line.b, line.c]);
    }

    fn turn(&mut self, line: Line<u64>) {
        if line.code == 0 {
            self.put(line);
            return;
        }
        let agrees = match line.code {
            0x06 => self.multi_agrees(line),
            0x83 => self.mirror_agrees(line),
            _ => agrees(line),
        };
        self.tallies[line.code as usize].note(agrees);
    }
}

fn main(rt: HostRuntime) -> io::Result<()> {
    let mut replayed = Replayed {
        sources: [0; 64],
        tallies: [Tally::default(); 256],
    };
    answers::replay(&mut rt.reader(), answers::read_words, |line| {
        replayed.turn(line)
    })?;
    for (title, code) in RULES {
        answers::tell(&rt, title, replayed.tallies[code as usize])?;
    }
    Ok(())
}
