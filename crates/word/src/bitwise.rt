// The bitwise rules, and Select.
ghost use Rattle.std.specs.Prelude.{◌≡◌, bit_and, bit_or, bit_xor};
ghost use Rattle.word.specs.Bitwise.{fax_word, select_word, xor_all};

use crate::msb::is_msb_true;

pub fn band(a: u64, b: u64) -> u64
    ensures { result ≡ bit_and a b }
{
    a & b
}

pub fn bor(a: u64, b: u64) -> u64
    ensures { result ≡ bit_or a b }
{
    a | b
}

pub fn bxor(a: u64, b: u64) -> u64
    ensures { result ≡ bit_xor a b }
{
    a ^ b
}

// (a and b) xor c.
pub fn fax(a: u64, b: u64, c: u64) -> u64
    ensures { result ≡ fax_word a b c }
{
    (a & b) ^ c
}

// t where the condition says yes, else f.
pub fn select(cond: u64, t: u64, f: u64) -> u64
    ensures { result ≡ select_word cond t f }
{
    if is_msb_true(cond) { t } else { f }
}

// BxorMulti: the exclusive-or of its sources, zero where there is none.
pub fn bxor_multi(sources: &[u64]) -> u64
    ensures { result ≡ xor_all sources.now }
{
    sources.iter().fold(0, |all, source| all ^ source)
}
