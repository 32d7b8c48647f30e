// The given Rust's bytecode, replayed: the same calls of the emitters give the same bytes, lengths and
// counts; its bytes decode to the calls that they came from; where document 01 accepts its program, so
// does the check. What it has no answer for is held to document 01: a shift of a variant that it does not
// have, a call without room, a dimension too large and a decoder without bytes are refused.
//
// The list is made by oracle/ and not by hand; oracle/src/lists/bytecode.rs says what its lines mean, and
// oracle/README.md how to make it anew.
#![tactic(auto)]

mod call;

use answers::{Line, Tally};
use builder::{BytecodeBuilder, Emitted, Unemitted};
use bytecode::decoder;
use call::Call;
use refusal::RefusedAt;
use std::io;

// How many cases of each kind agree.
#[derive(Clone, Copy, Default)]
struct Tallies {
    ended: Tally,
    accepted: Tally,
    emitted: Tally,
    decoded: Tally,
    room: Tally,
    variant: Tally,
    dimension: Tally,
    bytes: Tally,
}

// The builder of the program at hand, the bytes that the Rust emitted and those that are emitted here, the
// list of numbers that a call of many fields takes, and the tallies. The arrays have fixed lengths: a call that
// needs more is refused, so what is told depends on them.
#[derive(Drop)]
struct Replayed {
    builder: BytecodeBuilder,
    given: [u8; 8192],
    mine: [u8; 8192],
    list: [u32; 128],
    tallies: Tallies,
}

// The call is refused with document 01's number, and the builder is as it was.
fn is_refused(answer: Emitted, number: u8, builder: BytecodeBuilder) -> bool {
    match answer {
        Ok(_) => false,
        Err(
            Unemitted {
                refusal,
                builder: after,
            },
        ) => u8::from(refusal) == number && after == builder,
    }
}

impl Replayed {
    // Sixteen bytes of what the Rust emitted.
    fn put_bytes(&mut self, line: Line<u32>) {
        let place = line.a as usize;
        for (i, four) in line.entries().iter().enumerate() {
            answers::put_four(&mut self.given, place + 4 * i, *four);
        }
    }

    // Sources, or a hint's dimensions, inputs and outputs.
    fn put_numbers(&mut self, line: Line<u32>) {
        answers::put_all(&mut self.list, line.a as usize, &line.entries());
    }

    // What the Rust emitted at a place is the call, and ends where the next begins.
    fn decodes(&self, line: Line<u32>, from: usize, to: usize) -> bool {
        if to < from || self.given.len() < from {
            return false;
        }
        match decoder::decode(&self.given[from..]) {
            Ok(decoded) => {
                decoded.length == to - from && call::line_naming(decoded.instruction) == line
            }
            Err(_) => false,
        }
    }

    // A call into a buffer that ends a byte before the call would.
    fn lacks_room(&mut self, line: Line<u32>, to: usize) -> bool {
        if to == 0 || self.mine.len() < to {
            return false;
        }
        let call = Call {
            line,
            list: &self.list,
        };
        let mine = &mut self.mine[..];
        let answer = call.emit(self.builder, &mut mine[..to - 1]);
        is_refused(answer, 11, self.builder)
    }

    // A call: it is emitted, and what the Rust emitted at the same place is decoded. A second time it has no
    // room, and leaves the bytes alone.
    fn call(&mut self, line: Line<u32>) {
        let call = Call {
            line,
            list: &self.list,
        };
        let Ok(next) = call.emit(self.builder, &mut self.mine) else {
            self.tallies.emitted.note(false);
            self.tallies.decoded.note(false);
            return;
        };
        let from = self.builder.len;
        let lacks_room = self.lacks_room(line, next.len);
        let decodes = self.decodes(line, from, next.len);
        let same = answers::same_bytes(&self.given, &self.mine, from, next.len);
        self.tallies.room.note(lacks_room);
        self.tallies.emitted.note(same);
        self.tallies.decoded.note(decodes);
        self.builder = next;
    }

    // A shift of a variant that the Rust does not have.
    fn lacks_variant(&mut self, line: Line<u32>) -> bool {
        let call = Call {
            line,
            list: &self.list,
        };
        let answer = call.emit_shift(self.builder, &mut self.mine);
        is_refused(answer, 7, self.builder)
    }

    fn large_dimension(&mut self) -> bool {
        let dimensions = [BytecodeBuilder::MAX_HINT_FIELD + 1];
        let none: [u32; 0] = [];
        let answer = self
            .builder
            .emit_hint(&mut self.mine, 3, &dimensions, &none, &none);
        is_refused(answer, 8, self.builder)
    }

    fn is_accepted(&self, length: usize, rows: usize) -> bool {
        length <= self.given.len() && accept::check(&self.given[..length], rows).is_ok()
    }

    // The end of a program.
    fn end(&mut self, line: Line<u32>) {
        let told = BytecodeBuilder {
            len: line.a as usize,
            count: line.b as usize,
        };
        self.tallies.ended.note(self.builder == told);
        if line.d == 1 {
            let accepted = self.is_accepted(told.len, line.c as usize);
            self.tallies.accepted.note(accepted);
        }
        self.builder = BytecodeBuilder::new();
    }

    fn turn(&mut self, line: Line<u32>) {
        match line.code {
            0x00 => self.put_numbers(line),
            0xff => self.put_bytes(line),
            0xfd => {
                let lacks_variant = self.lacks_variant(line);
                self.tallies.variant.note(lacks_variant);
            }
            0xfe => self.end(line),
            _ => self.call(line),
        }
    }
}

fn no_bytes() -> bool {
    match decoder::decode(&[]) {
        Ok(_) => false,
        Err(RefusedAt { refusal, offset }) => u8::from(refusal) == 6 && offset == 0,
    }
}

fn main(rt: HostRuntime) -> io::Result<()> {
    let mut replayed = Replayed {
        builder: BytecodeBuilder::new(),
        given: [0; 8192],
        mine: [0; 8192],
        list: [0; 128],
        tallies: Tallies::default(),
    };
    let large_dimension = replayed.large_dimension();
    replayed.tallies.dimension.note(large_dimension);
    replayed.tallies.bytes.note(no_bytes());
    answers::replay(&mut rt.reader(), answers::read_numbers, |line| {
        replayed.turn(line)
    })?;
    let tallies = replayed.tallies;
    for (title, tally) in [
        ("lengths and counts", tallies.ended),
        ("accepted", tallies.accepted),
        ("emitted", tallies.emitted),
        ("decoded", tallies.decoded),
        ("no room", tallies.room),
        ("no such variant", tallies.variant),
        ("dimension too large", tallies.dimension),
        ("no bytes", tallies.bytes),
    ] {
        answers::tell(&rt, title, tally)?;
    }
    Ok(())
}
