//! The hints that there are.
ghost use Rattle.std.specs.Prelude.{◌≡◌};
ghost use Rattle.bytecode.specs.Opcode.{shape_of};
ghost use Rattle.bytecode.specs.Parse.{read_as};
ghost use Rattle.accept.specs.Check.{bad_hint};
ghost use Rattle.accept.specs.Working.{listed_by};

use bytecode::layout::{HintCounts, word};

// By id, which is the bytecode's number as `hint_listed` has it, the counts, and the first dimension, which is looked at where there is one.
fn listed(id: u32, counts: HintCounts, k: u32) -> bool
    ensures { result ≡ listed_by id counts.dimensions k counts.inputs counts.outputs }
{
    match (id, counts.dimensions) {
        // Quotient and remainder.
        (1, 0) => counts.inputs == 2 && counts.outputs == 2,
        // Leading zeros.
        (2, 0) => counts.inputs == 1 && counts.outputs == 1,
        // The k inputs in reverse order.
        (3, 1) => (1..=8).contains(&k) && counts.inputs == k && counts.outputs == k,
        _ => false,
    }
}

// Whether this is a hint, told by the opcode byte as `bad_hint` has it, that is not listed.
#[tactic(auto, using(crate::proofs::Judging::hint_of_lem, crate::proofs::Judging::no_hint))]
pub(crate) fn unlisted(code: &[u8], op: u8) -> bool
    ensures { result ≡ bad_hint (read_as (shape_of op) op code.now) }
{
    op == 0x80 && !listed(word(code, 1), HintCounts::read(code), word(code, 9))
}
