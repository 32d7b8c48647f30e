// The hints' arithmetic.
ghost use Rattle.std.specs.Prelude.{◌≡◌};
ghost use Rattle.word.specs.Hints.{quotient_of, remainder_of, zeros_above, mirrored};

// What hint 1 answers.
#[derive(Clone, Copy, PartialEq, Eq, Debug)]
pub struct Division {
    pub quotient: u64,
    pub remainder: u64,
}

// Hint 1: a divided by b. By zero the quotient is all ones and the remainder a.
pub fn divide(a: u64, b: u64) -> Division
    ensures { (result.quotient ≡ quotient_of a b) × (result.remainder ≡ remainder_of a b) }
{
    if b == 0 {
        Division {
            quotient: u64::MAX,
            remainder: a,
        }
    } else {
        Division {
            quotient: a / b,
            remainder: a % b,
        }
    }
}

// Hint 2: the zeros above the highest 1, 64 for zero.
pub fn leading_zeros(x: u64) -> u64
    ensures { result ≡ zeros_above 64 x }
{
    x.leading_zeros() as u64
}

// Hint 3: the inputs in reverse order. The hint has as many outputs as inputs; where the two
// differ in length it is no such hint, and nothing is written.
pub fn mirror(inputs: &[u64], outputs: &mut [u64])
    ensures { outputs.new ≡ mirrored inputs.now outputs.old }
{
    if inputs.len() == outputs.len() {
        outputs.copy_from_slice(inputs);
        outputs.reverse();
    }
}
