//! One loop for each number of destinations, made anew for each word function that it is called with. The places of the rows are worked out before the loop; its body has no branch of its own.
//! That a register's row lies in the array is a fact of the stripe, the register and the lent array together, so it stands in the
//! clauses: no type of one of the three could hold it.
ghost use Rattle.std.specs.Prelude.{ℕ, ◌<◌, length};
ghost use Rattle.shift.specs.Variant.{width_of, shift_word, variant_of};
ghost use Rattle.rows.specs.Column.{store};
ghost use Rattle.rows.specs.Working.{InRow, Across, Makes, MakesTwo};

use super::Stripe;
use shift::ShiftVariant::{Rotr, Rotr32, Sar, Sll, Sll32, Slr, Sra32, Srl32};
use shift::shift;

// Register d becomes the word that the function makes of registers a, b and c. The loop goes by places: the rows lie in one array, and
// may be the same row, so they cannot be slices beside a `&mut` one.
pub fn one_row<F: Fn(u64, u64, u64) -> u64>(
    values: &mut [u64],
    s: Stripe,
    make: F,
    d: u32,
    a: u32,
    b: u32,
    c: u32,
)
    requires callable { F.IsAlwaysCallable make }
    requires in_row { (InRow s (length values.old) d) × (InRow s (length values.old) a) }
    requires in_row_2 { (InRow s (length values.old) b) × (InRow s (length values.old) c) }
    ensures { (g : ℕ → ℕ → ℕ → ℕ) → Makes (F.post make) g → Across (λ col. store col d (g (col a) (col b) (col c))) s values.old values.new }
{
    let width = s.width;
    let first = s.first;
    let to = d as usize * width + first;
    let x = a as usize * width + first;
    let y = b as usize * width + first;
    let z = c as usize * width + first;
    for i in 0..s.count {
        values[to + i] = make(values[x + i], values[y + i], values[z + i]);
    }
}

// Registers d and e become the two words that the function makes of registers a, b and c. A loop of its own, since no bound on a
// function may name the number of its words; by places, as in `one_row`.
pub fn two_rows<F: Fn(u64, u64, u64) -> (u64, u64)>(
    values: &mut [u64],
    s: Stripe,
    makes: F,
    d: u32,
    e: u32,
    a: u32,
    b: u32,
    c: u32,
)
    requires callable { F.IsAlwaysCallable makes }
    requires in_row { (InRow s (length values.old) d) × (InRow s (length values.old) e) }
    requires in_row_2 { (InRow s (length values.old) a) × (InRow s (length values.old) b) × (InRow s (length values.old) c) }
    ensures { (g h : ℕ → ℕ → ℕ → ℕ) → MakesTwo (F.post makes) g h → Across (λ col. store (store col d (g (col a) (col b) (col c))) e (h (col a) (col b) (col c))) s values.old values.new }
{
    let width = s.width;
    let first = s.first;
    let to = d as usize * width + first;
    let also = e as usize * width + first;
    let x = a as usize * width + first;
    let y = b as usize * width + first;
    let z = c as usize * width + first;
    for i in 0..s.count {
        let (one, two) = makes(values[x + i], values[y + i], values[z + i]);
        values[to + i] = one;
        values[also + i] = two;
    }
}

// Register d becomes register a shifted by n, with a loop for each variant that the code may name. The variant comes as the byte that
// names it, since the contract is stated for every byte.
pub fn shift_rows(values: &mut [u64], s: Stripe, code: u8, n: u8, d: u32, a: u32)
    requires amount { n < width_of (variant_of code) }
    requires in_row { (InRow s (length values.old) d) × (InRow s (length values.old) a) }
    ensures { Across (λ col. store col d (shift_word (variant_of code) n (col a))) s values.old values.new }
{
    match code {
        0 => one_row(values, s, |x, _, _| shift(Sll, n, x), d, a, a, a),
        1 => one_row(values, s, |x, _, _| shift(Slr, n, x), d, a, a, a),
        2 => one_row(values, s, |x, _, _| shift(Sar, n, x), d, a, a, a),
        3 => one_row(values, s, |x, _, _| shift(Rotr, n, x), d, a, a, a),
        4 => one_row(values, s, |x, _, _| shift(Sll32, n, x), d, a, a, a),
        5 => one_row(values, s, |x, _, _| shift(Srl32, n, x), d, a, a, a),
        6 => one_row(values, s, |x, _, _| shift(Sra32, n, x), d, a, a, a),
        _ => one_row(values, s, |x, _, _| shift(Rotr32, n, x), d, a, a, a),
    }
}
