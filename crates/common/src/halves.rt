// A word's two halves of 32 bits, and the word of two halves.
ghost use Rattle.std.specs.Prelude.{◌≡◌, ◌+◌, ◌*◌, ◌/◌, ◌%◌, ◌^◌};

pub fn high(x: u64) -> u32
    ensures { result ≡ x / 2 ^ 32 }
{
    (x >> 32) as u32
}

pub fn low(x: u64) -> u32
    ensures { result ≡ x % 2 ^ 32 }
{
    (x & 0xffff_ffff) as u32
}

pub fn join(hi: u32, lo: u32) -> u64
    ensures { result ≡ hi * 2 ^ 32 + lo }
{
    (hi as u64) << 32 | (lo as u64)
}
