// Add, subtract and multiply. A carry-in or borrow-in is passed as its word, of which the top bit counts, by halves the top bit of each half.
ghost use Rattle.std.specs.Prelude.{◌≡◌, ◌-◌, ◌^◌, bit_and, bit_or, bit_xor};
ghost use Rattle.common.specs.Bits.{bit_at};
ghost use Rattle.word.specs.Arithmetic.{sum_word, carry_word, sum_halves, carry_halves, difference_word, borrow_word, high_word, low_word};

use common::halves::{high, join, low};

// a + b + c modulo 2^64, where c is bit 63 of cin.
pub fn sum(a: u64, b: u64, cin: u64) -> u64
    ensures { result ≡ sum_word 64 a b (bit_at cin 63) }
{
    a.wrapping_add(b).wrapping_add(cin >> 63)
}

// The carry out of each bit of a + b + c, where c is bit 63 of cin: bit by bit, lowest first. Each
// bit stays at its place, and what it carries is moved up to the next.
pub fn carries(a: u64, b: u64, cin: u64) -> u64
    ensures { result ≡ carry_word 64 a b (bit_at cin 63) }
{
    let mut place = 1;
    let mut below = cin >> 63;
    let mut word = 0;
    for _ in 0..u64::BITS {
        let bit_of_a = a & place;
        let bit_of_b = b & place;
        // A bit carries where at least two of the three are 1.
        let carry = (bit_of_a & bit_of_b) | (bit_of_a & below) | (bit_of_b & below);
        word |= carry;
        below = carry << 1;
        place <<= 1;
    }
    word
}

// IaddCarry: the carries alone, with no carry-in.
#[tactic(auto, unfolding(common::specs::Bits::bit_at))]
pub fn iadd_carry(a: u64, b: u64) -> u64
    ensures { result ≡ carry_word 64 a b 0 }
{
    carries(a, b, 0)
}

// a + b + c modulo 2^32, where c is bit 31 of cin: `sum` at the other width. std has no trait for
// the sum of both, and one of our own would take more lines than this function.
fn half_sum(a: u32, b: u32, cin: u32) -> u32
    ensures { result ≡ sum_word 32 a b (bit_at cin 31) }
{
    a.wrapping_add(b).wrapping_add(cin >> 31)
}

// Each half of a and b added on its own, with bits 31 and 63 of cin.
#[tactic(auto, unfolding(common::specs::Halves::halves, crate::specs::Arithmetic::sum_halves))]
pub fn sum32(a: u64, b: u64, cin: u64) -> u64
    ensures { result ≡ sum_halves a b cin }
{
    join(
        half_sum(high(a), high(b), high(cin)),
        half_sum(low(a), low(b), low(cin)),
    )
}

// The carry out of each bit of a sum of a and b: a bit carries where both its digits are 1, or
// where one is and the sum's bit came out 0.
fn carries_of(a: u64, b: u64, sum: u64) -> u64
    ensures { result ≡ bit_or (bit_and a b) (bit_and (bit_xor a b) (2 ^ 64 - 1 - sum)) }
{
    (a & b) | ((a ^ b) & !sum)
}

// The carry out of each bit of each half: what `carries_of` says of a bit holds of a bit of a half.
#[tactic(auto, using(crate::proofs::Adder::carries_by_halves))]
pub fn carries32(a: u64, b: u64, cin: u64) -> u64
    ensures { result ≡ carry_halves a b cin }
{
    carries_of(a, b, sum32(a, b, cin))
}

// a - b - c modulo 2^64, where c is bit 63 of bin.
#[tactic(auto, using(common::proofs::Digits::top_bit), unfolding(crate::specs::Arithmetic::difference_word))]
pub fn difference(a: u64, b: u64, bin: u64) -> u64
    ensures { result ≡ difference_word 64 a b (bit_at bin 63) }
{
    a.wrapping_sub(b).wrapping_sub(bin >> 63)
}

// The borrow out of each bit of a - b - c, where c is bit 63 of bin. They are the carries of
// !a + b + c, whose sum is the complement of the difference.
#[tactic(auto, using(common::proofs::Digits::bit_at_lt, crate::proofs::Subtract::complemented_borrows))]
pub fn borrows(a: u64, b: u64, bin: u64) -> u64
    ensures { result ≡ borrow_word 64 a b (bit_at bin 63) }
{
    carries_of(!a, b, !difference(a, b, bin))
}

// A product of two words, as two words.
#[derive(Clone, Copy, PartialEq, Eq, Debug)]
pub struct Product {
    pub high: u64,
    pub low: u64,
}

// Imul: the high and the low word of the product.
#[tactic(auto, unfolding(crate::specs::Arithmetic::high_word, crate::specs::Arithmetic::low_word))]
pub fn multiply(a: u64, b: u64) -> Product
    ensures { (result.high ≡ high_word 64 a b) × (result.low ≡ low_word 64 a b) }
{
    let (low, high) = a.carrying_mul(b, 0);
    Product { high, low }
}
