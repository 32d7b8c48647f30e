//! The eight shift variants: their codes, the judging of refusal 7, and the shift of a word.
#![tactic(auto)]

ghost use Rattle.std.specs.Prelude.{◌≡◌, ◌<◌, ◌+◌, ◌*◌, ◌/◌, ◌%◌, ◌^◌, ℕ};
ghost use Rattle.common.specs.Halves.{halves};
ghost use Rattle.shift.specs.Variant.{width_of, shift_word, code_of, read_variant, bad_variant, bad_amount};

use common::halves::{high, join, low};

// Each by the code that the bytes name it by.
#[derive(Clone, Copy, PartialEq, Eq, Debug)]
pub enum ShiftVariant {
    Sll = 0,
    Slr = 1,
    Sar = 2,
    Rotr = 3,
    Sll32 = 4,
    Srl32 = 5,
    Sra32 = 6,
    Rotr32 = 7,
}

// A byte that names no variant.
#[derive(Clone, Copy, PartialEq, Eq, Debug)]
pub struct UnknownVariant(pub u8);

impl TryFrom<u8> for ShiftVariant {
    type Error = UnknownVariant;

    ghost try_from_gives = { λ code answer. answer ≡ read_variant code };

    fn try_from(code: u8) -> Result<ShiftVariant, UnknownVariant> {
        match code {
            0 => Ok(ShiftVariant::Sll),
            1 => Ok(ShiftVariant::Slr),
            2 => Ok(ShiftVariant::Sar),
            3 => Ok(ShiftVariant::Rotr),
            4 => Ok(ShiftVariant::Sll32),
            5 => Ok(ShiftVariant::Srl32),
            6 => Ok(ShiftVariant::Sra32),
            7 => Ok(ShiftVariant::Rotr32),
            _ => Err(UnknownVariant(code)),
        }
    }
}

impl From<ShiftVariant> for u8 {
    ghost from_gives = { λ variant code. code ≡ code_of variant };

    fn from(variant: ShiftVariant) -> u8 {
        variant as u8
    }
}

// Refusal 7, its first half: the variant is over 7. Bytes are judged here, and no variants: the definitions say it of every byte.
pub fn bad_variant(code: u8) -> bool
    ensures { result ≡ bad_variant code }
{
    7 < code
}

// Its second half, of a variant of 7 or below: the amount is over 63, or over 31 from variant 4 on.
pub fn bad_amount(code: u8, amount: u8) -> bool
    ensures { result ≡ bad_amount code amount }
{
    if code < 4 { 63 < amount } else { 31 < amount }
}

// One shift of one word. The amount is below the variant's width, which the two tests above show.
#[tactic(auto, using(crate::proofs::Complement::shifted, crate::proofs::Rotate::two_shifts), unfolding(common::specs::Halves::halves, crate::specs::Shift::sar, crate::specs::Shift::rotr))]
pub fn shift(v: ShiftVariant, n: u8, x: u64) -> u64
    requires { n < width_of v }
    ensures { result ≡ shift_word v n x }
{
    match v {
        ShiftVariant::Sll => x << n,
        ShiftVariant::Slr => x >> n,
        ShiftVariant::Sar => (x.cast_signed() >> n).cast_unsigned(),
        // The rotations are written out: over std's `rotate_right` a row loop has more instructions, or none that are vectors.
        ShiftVariant::Rotr => (x >> n) | (x << ((64 - n) % 64)),
        ShiftVariant::Sll32 => by_halves(x, |half| half << n),
        ShiftVariant::Srl32 => by_halves(x, |half| half >> n),
        ShiftVariant::Sra32 => by_halves(x, |half| (half.cast_signed() >> n).cast_unsigned()),
        ShiftVariant::Rotr32 => by_halves(x, |half| (half >> n) | (half << ((32 - n) % 32))),
    }
}

// The word whose halves are f's of the halves of x.
fn by_halves<F: Fn(u32) -> u32>(x: u64, f: F) -> u64
    requires { F.IsAlwaysCallable f }
    ensures { (hi lo : ℕ) × F.post f (x / 2 ^ 32) hi × F.post f (x % 2 ^ 32) lo × (result ≡ hi * 2 ^ 32 + lo) }
{
    join(f(high(x)), f(low(x)))
}
