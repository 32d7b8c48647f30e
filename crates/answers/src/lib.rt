//! Reading the lists of answers that oracle/ makes, and telling how many agree.
//!
//! No contract can say what the input gives or what is printed, so `read_words`, `read_numbers`, `replay`
//! and `tell` promise nothing: each reader hands what it has read to a function that has a contract.
#![tactic(auto)]

mod line;
mod store;
mod tally;

pub use line::{Line, hex, numbers_of, words_of};
use std::io;
use std::io::{ErrorKind, Read};
pub use store::{first_stand, put, put_all, put_four, value_at};
pub use tally::{Tally, same_bytes, summed};

// The next line of words, if there is one.
pub fn read_words(input: &mut impl Read) -> io::Result<Option<Line<u64>>> {
    read_line(input, &mut [0u8; 88], words_of)
}

// The next line of numbers, likewise.
pub fn read_numbers(input: &mut impl Read) -> io::Result<Option<Line<u32>>> {
    read_line(input, &mut [0u8; 48], numbers_of)
}

// Fills `text`, if there is as much left, and reads what it says.
fn read_line<T, R: Read, F: Fn(&[u8]) -> Option<Line<T>>>(
    input: &mut R,
    text: &mut [u8],
    said: F,
) -> io::Result<Option<Line<T>>>
    requires { F.IsAlwaysCallable said }
{
    match input.read_exact(text) {
        Ok(()) => Ok(said(text)),
        Err(error) => {
            if error.kind() == ErrorKind::UnexpectedEof {
                Ok(None)
            } else {
                Err(error)
            }
        }
    }
}

// Makes a turn of each line. A proved loop has to end, and nothing says that the list does: so turns are
// counted.
pub fn replay<T, R: Read, N: Fn(&mut R) -> io::Result<Option<Line<T>>>, F: FnMut(Line<T>)>(
    input: &mut R,
    next: N,
    mut turn: F,
) -> io::Result<()>
    requires next { N.IsAlwaysCallable next }
    requires turn { F.IsAlwaysCallable turn }
{
    for _ in 0..u64::MAX {
        let Some(line) = next(input)? else {
            break;
        };
        turn(line);
    }
    Ok(())
}

// `title: 3 of 4 agree`, and a line feed.
pub fn tell(rt: &impl Print, title: &str, tally: Tally) -> io::Result<()> {
    println!(rt; "{title}: {} of {} agree", tally.agree, tally.all)
}
