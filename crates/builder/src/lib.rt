//! The emitters: each writes one instruction to a lent buffer, at the length that the builder has reached.
#![tactic(auto)]

mod store;

ghost use Rattle.std.specs.Prelude.{◌≡◌, false, ◌∷◌, ◌+◌, ◌*◌, ◌≤◌, min, Err, IfOk};
ghost use Rattle.common.specs.Lists.{all_below};
ghost use Rattle.bytecode.specs.Layout.{les};
ghost use Rattle.builder.specs.Call.{
  band,
  bor,
  bxor,
  bxor_multi,
  fax,
  select,
  shift,
  iadd_cin_cout,
  iadd_carry,
  isub_bin_bout,
  imul,
  iadd32_cin_cout,
  iadd32_cout,
  assert_eq,
  assert_eq_cond,
  assert_zero,
  assert_non_zero,
  assert_false,
  assert_true,
  hint,
};
ghost use Rattle.builder.specs.Emit.{fresh, no_room, EmitsBytes, Emits};
ghost use Rattle.builder.specs.Working.{reserved};

use refusal::Refusal;
use shift::bad_variant;
use store::{put_counted, put_fields, put_hint, put_shift};

// Bytes written so far, and instructions emitted. The builder moves by value through each emit, and the buffer is lent to each:
// a state that does not fit it is judged there, so the type rules none out.
#[derive(Clone, Copy, PartialEq, Eq, Debug)]
pub struct BytecodeBuilder {
    pub len: usize,
    pub count: usize,
}

// Why an instruction was not emitted, and the builder as it was.
#[derive(Clone, Copy, PartialEq, Eq, Debug)]
pub struct Unemitted {
    pub refusal: Refusal,
    pub builder: BytecodeBuilder,
}

// The state after an instruction, or why it was not emitted.
pub type Emitted = Result<BytecodeBuilder, Unemitted>;

// Whether each dimension fits a field.
fn dims_fit(dims: &[usize]) -> bool
    ensures { result ≡ all_below 4294967296 dims.now }
{
    dims.iter()
        .all(|&dim| dim <= BytecodeBuilder::MAX_HINT_FIELD)
}

// A hint's length; 65,537 where it is more, which no program has room for.
fn hint_bytes(dims: usize, inputs: usize, outputs: usize) -> usize
    ensures { result ≡ min (17 + 4 * (dims + inputs + outputs)) 65537 }
{
    (17 + 4 * (dims.min(65536) + inputs.min(65536) + outputs.min(65536))).min(65537)
}

impl BytecodeBuilder {
    // The largest number that each of a hint's counts and dimensions can carry.
    pub const MAX_HINT_FIELD: usize = 4294967295;

    pub fn new() -> BytecodeBuilder
        ensures { result ≡ fresh }
    {
        BytecodeBuilder { len: 0, count: 0 }
    }

    // A refusal with the state as it is.
    fn refuse(self, refusal: Refusal) -> Emitted
        ensures { result ≡ Err (record { refusal = refusal; builder = self }) }
    {
        Err(Unemitted {
            refusal,
            builder: self,
        })
    }

    // Whether a buffer of `room` bytes lacks room for `more`, or the state is broken.
    #[tactic(auto, unfolding(crate::specs::Emit::no_room))]
    fn lacks_room(self, room: usize, more: usize) -> bool
        ensures { result ≡ no_room self room more }
    {
        self.len < self.count
            || room < self.len
            || room - self.len < more
            || 65536 < self.len + more
    }

    // The state after `more` bytes in a buffer of `room`.
    #[tactic(auto, using(crate::proofs::Room::roomy), unfolding(crate::specs::Working::reserved))]
    fn reserve(self, room: usize, more: usize) -> Emitted
        ensures answer { result ≡ reserved self room more }
        ensures within { IfOk result (λ next. (next.len ≡ self.len + more) × (next.len ≤ room) × (next.len ≤ 65536)) }
    {
        if self.lacks_room(room, more) {
            return self.refuse(Refusal::NoRoom);
        }
        Ok(BytecodeBuilder {
            len: self.len + more,
            count: self.count + 1,
        })
    }

    // An opcode and the fields after it.
    fn emit_fields(self, buf: &mut [u8], op: u8, fields: &[u32]) -> Emitted
        ensures { EmitsBytes false false (op ∷ les fields.now) self buf.old result buf.new }
    {
        let next = self.reserve(buf.len(), 1 + 4 * fields.len())?;
        put_fields(&mut buf[self.len..next.len], op, fields);
        Ok(next)
    }

    // One emitter for each instruction, by the names that callers know: most differ only in the opcode, which is the byte that is
    // written, and in how many fields.
    pub fn emit_band(self, buf: &mut [u8], dst: u32, src1: u32, src2: u32) -> Emitted
        ensures { Emits (band dst src1 src2) self buf.old result buf.new }
    {
        self.emit_fields(buf, 0x01, &[dst, src1, src2])
    }

    pub fn emit_bor(self, buf: &mut [u8], dst: u32, src1: u32, src2: u32) -> Emitted
        ensures { Emits (bor dst src1 src2) self buf.old result buf.new }
    {
        self.emit_fields(buf, 0x02, &[dst, src1, src2])
    }

    pub fn emit_bxor(self, buf: &mut [u8], dst: u32, src1: u32, src2: u32) -> Emitted
        ensures { Emits (bxor dst src1 src2) self buf.old result buf.new }
    {
        self.emit_fields(buf, 0x03, &[dst, src1, src2])
    }

    #[tactic(auto, using(crate::proofs::Stores::fields_fit))]
    pub fn emit_bxor_multi(self, buf: &mut [u8], dst: u32, srcs: &[u32]) -> Emitted
        ensures { Emits (bxor_multi dst srcs.now) self buf.old result buf.new }
    {
        let next = self.reserve(buf.len(), 9 + 4 * srcs.len())?;
        put_counted(&mut buf[self.len..next.len], 0x06, dst, srcs);
        Ok(next)
    }

    pub fn emit_fax(self, buf: &mut [u8], dst: u32, src1: u32, src2: u32, src3: u32) -> Emitted
        ensures { Emits (fax dst src1 src2 src3) self buf.old result buf.new }
    {
        self.emit_fields(buf, 0x07, &[dst, src1, src2, src3])
    }

    pub fn emit_select(self, buf: &mut [u8], dst: u32, cond: u32, t: u32, f: u32) -> Emitted
        ensures { Emits (select dst cond t f) self buf.old result buf.new }
    {
        self.emit_fields(buf, 0x05, &[dst, cond, t, f])
    }

    // BadShift for a variant over 7. The amount is not judged.
    pub fn emit_shift(self, buf: &mut [u8], dst: u32, src: u32, variant: u8, amount: u8) -> Emitted
        ensures { Emits (shift dst src variant amount) self buf.old result buf.new }
    {
        if bad_variant(variant) {
            return self.refuse(Refusal::BadShift);
        }
        let next = self.reserve(buf.len(), 11)?;
        put_shift(&mut buf[self.len..next.len], dst, src, variant, amount);
        Ok(next)
    }

    pub fn emit_iadd_cin_cout(
        self,
        buf: &mut [u8],
        sum: u32,
        cout: u32,
        src1: u32,
        src2: u32,
        cin: u32,
    ) -> Emitted
        ensures { Emits (iadd_cin_cout sum cout src1 src2 cin) self buf.old result buf.new }
    {
        self.emit_fields(buf, 0x21, &[sum, cout, src1, src2, cin])
    }

    pub fn emit_iadd_carry(self, buf: &mut [u8], cout: u32, src1: u32, src2: u32) -> Emitted
        ensures { Emits (iadd_carry cout src1 src2) self buf.old result buf.new }
    {
        self.emit_fields(buf, 0x22, &[cout, src1, src2])
    }

    pub fn emit_isub_bin_bout(
        self,
        buf: &mut [u8],
        diff: u32,
        bout: u32,
        src1: u32,
        src2: u32,
        bin: u32,
    ) -> Emitted
        ensures { Emits (isub_bin_bout diff bout src1 src2 bin) self buf.old result buf.new }
    {
        self.emit_fields(buf, 0x23, &[diff, bout, src1, src2, bin])
    }

    pub fn emit_imul(self, buf: &mut [u8], hi: u32, lo: u32, src1: u32, src2: u32) -> Emitted
        ensures { Emits (imul hi lo src1 src2) self buf.old result buf.new }
    {
        self.emit_fields(buf, 0x30, &[hi, lo, src1, src2])
    }

    // Two sums and two carry words, one of each half, in one word each.
    pub fn emit_iadd32_cin_cout(
        self,
        buf: &mut [u8],
        sums: u32,
        couts: u32,
        src1: u32,
        src2: u32,
        cins: u32,
    ) -> Emitted
        ensures { Emits (iadd32_cin_cout sums couts src1 src2 cins) self buf.old result buf.new }
    {
        self.emit_fields(buf, 0x40, &[sums, couts, src1, src2, cins])
    }

    pub fn emit_iadd32_cout(
        self,
        buf: &mut [u8],
        sums: u32,
        couts: u32,
        src1: u32,
        src2: u32,
    ) -> Emitted
        ensures { Emits (iadd32_cout sums couts src1 src2) self buf.old result buf.new }
    {
        self.emit_fields(buf, 0x46, &[sums, couts, src1, src2])
    }

    pub fn emit_assert_eq(self, buf: &mut [u8], src1: u32, src2: u32, path: u32) -> Emitted
        ensures { Emits (assert_eq src1 src2 path) self buf.old result buf.new }
    {
        self.emit_fields(buf, 0x60, &[src1, src2, path])
    }

    pub fn emit_assert_eq_cond(
        self,
        buf: &mut [u8],
        cond: u32,
        src1: u32,
        src2: u32,
        path: u32,
    ) -> Emitted
        ensures { Emits (assert_eq_cond cond src1 src2 path) self buf.old result buf.new }
    {
        self.emit_fields(buf, 0x61, &[cond, src1, src2, path])
    }

    pub fn emit_assert_zero(self, buf: &mut [u8], src: u32, path: u32) -> Emitted
        ensures { Emits (assert_zero src path) self buf.old result buf.new }
    {
        self.emit_fields(buf, 0x62, &[src, path])
    }

    pub fn emit_assert_non_zero(self, buf: &mut [u8], src: u32, path: u32) -> Emitted
        ensures { Emits (assert_non_zero src path) self buf.old result buf.new }
    {
        self.emit_fields(buf, 0x63, &[src, path])
    }

    pub fn emit_assert_false(self, buf: &mut [u8], src: u32, path: u32) -> Emitted
        ensures { Emits (assert_false src path) self buf.old result buf.new }
    {
        self.emit_fields(buf, 0x64, &[src, path])
    }

    pub fn emit_assert_true(self, buf: &mut [u8], src: u32, path: u32) -> Emitted
        ensures { Emits (assert_true src path) self buf.old result buf.new }
    {
        self.emit_fields(buf, 0x65, &[src, path])
    }

    // BadHint for a dimension over MAX_HINT_FIELD. Neither the id nor the shape is judged.
    pub fn emit_hint(
        self,
        buf: &mut [u8],
        id: u32,
        dimensions: &[usize],
        inputs: &[u32],
        outputs: &[u32],
    ) -> Emitted
        ensures { Emits (hint id dimensions.now inputs.now outputs.now) self buf.old result buf.new }
    {
        if !dims_fit(dimensions) {
            return self.refuse(Refusal::BadHint);
        }
        let more = hint_bytes(dimensions.len(), inputs.len(), outputs.len());
        let next = self.reserve(buf.len(), more)?;
        let bytes = &mut buf[self.len..next.len];
        put_hint(bytes, id, dimensions, inputs, outputs);
        Ok(next)
    }
}
