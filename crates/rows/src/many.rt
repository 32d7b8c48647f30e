//! Instructions with a list of registers, which stay in the bytes: each register of it has a row loop of its own.
ghost use Rattle.std.specs.Prelude.{◌≡◌, true, false, map, reverse, ◌+◌, ◌*◌, ◌≤◌, ◌<◌, length};
ghost use Rattle.std.specs.Int.Bits.{bit_xor};
ghost use Rattle.common.specs.Lists.{member, all_below};
ghost use Rattle.bytecode.specs.Layout.{words};
ghost use Rattle.accept.specs.Sound.{Apart};
ghost use Rattle.accept.specs.Working.{numbers};
ghost use Rattle.word.specs.Bitwise.{xor_all};
ghost use Rattle.rows.specs.Column.{store, stores};
ghost use Rattle.rows.specs.Working.{Across};

use super::Stripe;
use super::loops::one_row;
use bytecode::layout::word;
use word::bitwise::bxor;

// The registers of `sources` are folded into register d.
#[tactic(auto, using(crate::proofs::Stripes::in_row, crate::proofs::Columns::number_below))]
fn xor_rest(values: &mut [u64], s: Stripe, d: u32, sources: &[[u8; 4]])
    requires within { (length values.old ≡ s.rows * s.width) × (d < s.rows) }
    requires registers { (all_below s.rows (numbers sources.now) ≡ true) × (member d (numbers sources.now) ≡ false) }
    ensures { Across (λ col. store col d (bit_xor (col d) (xor_all (map col (numbers sources.now))))) s values.old values.new }
{
    for source in sources {
        let r = u32::from_le_bytes(*source);
        one_row(values, s, |x, y, _| bxor(x, y), d, d, r, r);
    }
}

// BxorMulti: register d becomes the exclusive-or of n registers, which stand from place 9 of the instruction's bytes on. The row is
// seeded with the first of them; the later ones are handed on as a part of the bytes.
#[tactic(auto, using(crate::proofs::Stripes::in_row, crate::proofs::Columns::first_below, crate::proofs::Columns::later_below, crate::proofs::Columns::later_other))]
pub fn xor_multi(values: &mut [u64], s: Stripe, d: u32, n: u32, code: &[u8])
    requires within { (length values.old ≡ s.rows * s.width) × (d < s.rows) × (9 + 4 * n ≤ length code.now) }
    requires n_value { (all_below s.rows (words code.now 9 n) ≡ true) × (member d (words code.now 9 n) ≡ false) }
    ensures { Across (λ col. store col d (xor_all (map col (words code.now 9 n)))) s values.old values.new }
{
    let end = 9 + 4 * n as usize;
    match code[9..end].as_chunks::<4>().0 {
        [] => one_row(values, s, |_, _, _| 0, d, d, d, d),
        [first, later @ ..] => {
            let a = u32::from_le_bytes(*first);
            one_row(values, s, |x, _, _| x, d, a, a, a);
            xor_rest(values, s, d, later);
        }
    }
}

// Hint 3: the inputs in reverse order, one row after the other. No output is an input, so the rows may be written as they come. The
// registers are read by place, with `word`: the clauses of `mirror` hold for a count k that passes the bytes, too, where `words` has 0s.
#[tactic(auto, using(crate::proofs::Stripes::in_row, crate::proofs::Columns::register_below, crate::proofs::Columns::all_taken))]
pub fn mirror(values: &mut [u64], s: Stripe, k: usize, inputs: &[u8], outputs: &[u8])
    requires within { (length values.old ≡ s.rows * s.width) × (k < 4294967296) }
    requires k_value { (all_below s.rows (words inputs.now 0 k) ≡ true) × (all_below s.rows (words outputs.now 0 k) ≡ true) }
    requires apart { Apart (words outputs.now 0 k) (words inputs.now 0 k) }
    ensures { Across (λ col. stores (words outputs.now 0 k) (reverse (map col (words inputs.now 0 k))) col) s values.old values.new }
{
    for j in 0..k {
        let last = k - 1 - j;
        let d = word(outputs, 4 * j);
        let a = word(inputs, 4 * last);
        one_row(values, s, |x, _, _| x, d, a, a, a);
    }
}
