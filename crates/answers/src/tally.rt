//! What agrees, counted.
ghost use Rattle.std.specs.Prelude.{◌≡◌, ◌-◌, drop};
ghost use Rattle.answers.specs.Tally.{noted, sum_after, same};

// How many cases of a kind agree, and how many there were.
#[derive(Clone, Copy, PartialEq, Eq, Debug, Default)]
pub struct Tally {
    pub agree: u64,
    pub all: u64,
}

impl Tally {
    // One case more.
    pub fn note(&mut self, agrees: bool)
        ensures { self.new ≡ noted self.old agrees }
    {
        self.agree = self.agree.wrapping_add(u64::from(agrees));
        self.all = self.all.wrapping_add(1);
    }
}

// One step of the checksum that stands for many words: rotate left by 5, add the word and 1.
#[tactic(auto, using(crate::proofs::Rotated::rotated))]
pub fn summed(sum: u64, word: u64) -> u64
    ensures { result ≡ sum_after sum word }
{
    sum.rotate_left(5).wrapping_add(word).wrapping_add(1)
}

// The two have the same bytes from a place up to another. A loop by place, and no comparison of slices: so the edit that
// passes over every other byte is a step of 2, and the contract refuses it.
pub fn same_bytes(one: &[u8], other: &[u8], from: usize, to: usize) -> bool
    ensures { result ≡ same (to - from) (drop from one.now) (drop from other.now) }
{
    let mut at = from;
    while at < to {
        if one.len() <= at {
            return false;
        }
        if other.len() <= at {
            return false;
        }
        if one[at] != other[at] {
            return false;
        }
        at += 1;
    }
    true
}
