//! A line of a list: a code of two hexadecimal digits, then five fields of sixteen digits (a line of
//! words) or of eight (a line of numbers), in lower case, with a space before each field and a line feed
//! at the end.
ghost use Rattle.std.specs.Prelude.{◌≡◌, ℕ, ◌+◌, ◌∷◌, [], take, drop};
ghost use Rattle.answers.specs.Hex.{digit_of, spelled};
ghost use Rattle.answers.specs.Line.{is_digit, is_right, all_right, is_line, line_of, words_of, numbers_of};

// A line's code and its five fields. A code is a number and no enum of kinds: each list has codes of its
// own, and the program that replays it matches them.
#[derive(Clone, Copy, PartialEq, Eq, Debug)]
pub struct Line<T> {
    pub code: u8,
    pub a: T,
    pub b: T,
    pub c: T,
    pub d: T,
    pub e: T,
}

impl<T: Copy> Line<T> {
    // The last four fields, which many lines store or compare from the place on that the first names.
    pub fn entries(self) -> [T; 4]
        ensures { result ≡ (self.b ∷ self.c ∷ self.d ∷ self.e ∷ []) }
    {
        [self.b, self.c, self.d, self.e]
    }
}

// What a line of words says. A text of another form says nothing: it ends the list as its end does, so
// that fewer cases are told than there should be.
pub fn words_of(text: &[u8]) -> Option<Line<u64>>
    ensures { result ≡ words_of text.now }
{
    line_of(text, 16, |number| number)
}

// What a line of numbers says, likewise.
pub fn numbers_of(text: &[u8]) -> Option<Line<u32>>
    ensures { result ≡ numbers_of text.now }
{
    line_of(text, 8, |number| (number & 0xffff_ffff) as u32)
}

// A line whose fields have so many digits each, and what is made of the number that they spell.
fn line_of<T, F: Fn(u64) -> T>(text: &[u8], digits: u8, made: F) -> Option<Line<T>>
    requires { F.IsAlwaysCallable made }
    ensures { (g : ℕ → T) → ((number : ℕ) (value : T) → F.post made number value → value ≡ g number) →
        result ≡ line_of (digits + 1) (λ at. g (spelled 0 (take digits (drop at text.now)))) text.now }
{
    if !is_line(text, digits) {
        return None;
    }
    let digits = usize::from(digits);
    let apart = digits + 1;
    let field = |at| made(hex(text, at, digits));
    Some(Line {
        code: (hex(text, 0, 2) & 0xff) as u8,
        a: field(3),
        b: field(3 + apart),
        c: field(3 + 2 * apart),
        d: field(3 + 3 * apart),
        e: field(3 + 4 * apart),
    })
}

// The text has the form of a line whose fields have so many digits each.
fn is_line(text: &[u8], digits: u8) -> bool
    ensures { result ≡ is_line (digits + 1) text.now }
{
    match text.split_last() {
        Some((last, before)) => *last == b'\n' && all_right(before, digits),
        None => false,
    }
}

fn all_right(text: &[u8], digits: u8) -> bool
    ensures { result ≡ all_right (digits + 1) 0 text.now }
{
    let apart = usize::from(digits) + 1;
    text.iter()
        .enumerate()
        .all(|(i, byte)| is_right(i % apart, *byte))
}

fn is_right(place: usize, byte: u8) -> bool
    ensures { result ≡ is_right place byte }
{
    if place == 2 {
        byte == b' '
    } else {
        is_digit(byte)
    }
}

fn is_digit(byte: u8) -> bool
    ensures { result ≡ is_digit byte }
{
    matches!(byte, b'0'..=b'9' | b'a'..=b'f')
}

// What the digits from `at` on spell, as many of them as there are, up to `digits`.
pub fn hex(text: &[u8], at: usize, digits: usize) -> u64
    ensures { result ≡ spelled 0 (take digits (drop at text.now)) }
{
    // A part of the text, and no `skip`: it would go through the bytes before the digits one by one.
    let from = at.min(text.len());
    let rest = &text[from..];
    let count = digits.min(rest.len());
    rest[..count]
        .iter()
        .fold(0, |value, byte| (value << 4).wrapping_add(digit(*byte)))
}

// The value of a digit. Another byte counts as 0.
fn digit(byte: u8) -> u64
    ensures { result ≡ digit_of byte }
{
    match byte {
        b'0'..=b'9' => u64::from(byte - b'0'),
        b'a'..=b'f' => u64::from(byte - b'a' + 10),
        _ => 0,
    }
}
