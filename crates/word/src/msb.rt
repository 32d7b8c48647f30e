ghost use Rattle.std.specs.Prelude.{◌≡◌, ◌==◌};
ghost use Rattle.common.specs.Bits.{bit_at};

// Whether bit 63 is 1: how a word says yes.
#[tactic(auto, using(common::proofs::Digits::top_bit))]
pub fn is_msb_true(x: u64) -> bool
    ensures { result ≡ (bit_at x 63 == 1) }
{
    x >> 63 == 1
}
