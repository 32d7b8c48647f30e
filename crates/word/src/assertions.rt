// The six assertions' tests on words: each is true where its assertion fails.
ghost use Rattle.std.specs.Prelude.{◌≡◌};
ghost use Rattle.word.specs.Assertions.{eq_fails, eq_cond_fails, zero_fails, non_zero_fails, false_fails, true_fails};

use crate::msb::is_msb_true;

pub fn eq_fails(a: u64, b: u64) -> bool
    ensures { result ≡ eq_fails a b }
{
    a != b
}

pub fn eq_cond_fails(cond: u64, a: u64, b: u64) -> bool
    ensures { result ≡ eq_cond_fails cond a b }
{
    is_msb_true(cond) & (a != b)
}

pub fn zero_fails(v: u64) -> bool
    ensures { result ≡ zero_fails v }
{
    v != 0
}

pub fn non_zero_fails(v: u64) -> bool
    ensures { result ≡ non_zero_fails v }
{
    v == 0
}

pub fn false_fails(v: u64) -> bool
    ensures { result ≡ false_fails v }
{
    is_msb_true(v)
}

pub fn true_fails(v: u64) -> bool
    ensures { result ≡ true_fails v }
{
    !is_msb_true(v)
}
