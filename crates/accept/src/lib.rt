//! The program check of document 01: whether bytes are a program for a number of rows, and if not, the first refusal.
#![tactic(auto)]

mod hint;
mod registers;

ghost use Rattle.std.specs.Prelude.{◌≡◌, get_or, length};
ghost use Rattle.bytecode.specs.Parse.{read};
ghost use Rattle.accept.specs.Check.{verdict, judged, walk_from, check_of};
ghost use Rattle.accept.specs.Working.{amount_over, judging, Held};

use bytecode::decoder::decode;
use bytecode::layout::{byte, places_of};
use bytecode::opcode::shape_of;
use hint::unlisted;
use refusal::{Refusal, RefusedAt};
use registers::judge_registers;
use shift::bad_amount;

// Whether this is a shift, told by the opcode byte as `shift_bad_amount` has it, whose amount is too large for its variant.
fn amount_over(code: &[u8], op: u8) -> bool
    ensures { result ≡ amount_over op (get_or code.now 9 0) (get_or code.now 10 0) }
{
    op == 0x10 && bad_amount(byte(code, 9), byte(code, 10))
}

// 7 to 10, in this order, of a whole instruction at the start of the bytes.
#[tactic(auto, using(crate::proofs::Judging::judged_read))]
fn judge(code: &[u8], rows: usize) -> Result<(), Refusal>
    requires { Held code.now }
    ensures { judging result ≡ judged rows (read code.now) }
{
    let op = byte(code, 0);
    if amount_over(code, op) {
        return Err(Refusal::BadShift);
    }
    if unlisted(code, op) {
        return Err(Refusal::BadHint);
    }
    judge_registers(code, places_of(code, shape_of(op)), rows)
}

// Each instruction in turn, the first bad one deciding. What is left of the program goes to the next decode and check as a
// part of the same bytes, so offsets are from the part's start and the walk adds where that is. No `for`: the step is the
// instruction's length.
fn walk(code: &[u8], rows: usize) -> Result<(), RefusedAt>
    ensures { verdict result ≡ walk_from (length code.now) rows code.now 0 }
{
    let mut at: usize = 0;
    while at < code.len() {
        let part = &code[at..];
        let decoded = decode(part).map_err(|refused| RefusedAt {
            offset: at + refused.offset,
            ..refused
        })?;
        judge(part, rows).map_err(|refusal| RefusedAt {
            refusal,
            offset: at,
        })?;
        at += decoded.length;
    }
    Ok(())
}

// Whether the bytes are a program for this many rows.
#[tactic(auto, unfolding(crate::specs::Check::check_of))]
pub fn check(code: &[u8], rows: usize) -> Result<(), RefusedAt>
    ensures { verdict result ≡ check_of code.now rows }
{
    if 8192 < rows {
        return Err(Refusal::BadShape.into());
    }
    if 65536 < code.len() {
        return Err(Refusal::TooLong.into());
    }
    walk(code, rows)
}
