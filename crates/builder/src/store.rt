//! Stores of bytes and little-endian u32 fields: each fills all the bytes that it is lent.
ghost use Rattle.std.specs.Prelude.{◌≡◌, ℕ, true, [], ◌∷◌, ◌+◌, ◌*◌, ◌<◌, length, map};
ghost use Rattle.common.specs.Lists.{all_below};
ghost use Rattle.bytecode.specs.Layout.{les};
ghost use Rattle.bytecode.specs.Instruction.{make};
ghost use Rattle.bytecode.specs.Encode.{counted, encode};

// A number that a field stores.
pub(crate) trait Field: Copy {
    ghost number: { Self → ℕ };

    fn field(self) -> u32
        requires { number self < 4294967296 }
        ensures { result ≡ number self };
}

impl Field for u32 {
    ghost number = { λ x. x };

    fn field(self) -> u32 {
        self
    }
}

impl Field for usize {
    ghost number = { λ x. x };

    fn field(self) -> u32 {
        self as u32
    }
}

// Numbers in a row, each in a field. That each fits stands in the clauses: the slices are the callers', so no type of their
// elements can say it. By index: after an adapter of `iter_mut` nothing is known of the bytes.
fn put_words<T: Field>(buf: &mut [u8], values: &[T])
    requires room { length buf.old ≡ 4 * length values.now }
    requires fit { all_below 4294967296 (map T.number values.now) ≡ true }
    ensures { buf.new ≡ les (map T.number values.now) }
{
    for (i, &value) in values.iter().enumerate() {
        let number = value.field();
        buf[4 * i..4 * i + 4].copy_from_slice(&number.to_le_bytes());
    }
}

// An opcode and the fields after it.
#[tactic(auto, using(crate::proofs::Stores::fields_fit))]
pub(crate) fn put_fields(buf: &mut [u8], op: u8, fields: &[u32])
    requires { length buf.old ≡ 1 + 4 * length fields.now }
    ensures { buf.new ≡ op ∷ les fields.now }
{
    buf[0] = op;
    put_words(&mut buf[1..], fields);
}

// An opcode, a field, and a list with its length before it.
pub(crate) fn put_counted<T: Field>(buf: &mut [u8], op: u8, first: u32, list: &[T])
    requires room { length buf.old ≡ 9 + 4 * length list.now }
    requires count { length list.now < 65536 }
    requires fit { all_below 4294967296 (map T.number list.now) ≡ true }
    ensures { buf.new ≡ op ∷ les (first ∷ counted (map T.number list.now)) }
{
    put_fields(&mut buf[..9], op, &[first, list.len() as u32]);
    put_words(&mut buf[9..], list);
}

pub(crate) fn put_shift(buf: &mut [u8], dst: u32, src: u32, variant: u8, amount: u8)
    requires { length buf.old ≡ 11 }
    ensures { buf.new ≡ encode (make 0x10 (dst ∷ []) (src ∷ []) (variant ∷ amount ∷ [])) }
{
    put_fields(&mut buf[..9], 0x10, &[dst, src]);
    buf[9..].copy_from_slice(&[variant, amount]);
}

#[tactic(auto, using(crate::proofs::Stores::fields_fit))]
pub(crate) fn put_hint(buf: &mut [u8], id: u32, dims: &[usize], inputs: &[u32], outputs: &[u32])
    requires room { length buf.old ≡ 17 + 4 * (length dims.now + length inputs.now + length outputs.now) }
    requires counts { (length dims.now < 65536) × (length inputs.now < 65536) × (length outputs.now < 65536) }
    requires fit { all_below 4294967296 dims.now ≡ true }
    ensures { buf.new ≡ encode (make 0x80 outputs.now inputs.now (id ∷ dims.now)) }
{
    let (head, rest) = buf.split_at_mut(9 + 4 * dims.len());
    let (counts, registers) = rest.split_at_mut(8);
    let (sources, destinations) = registers.split_at_mut(4 * inputs.len());
    put_counted(head, 0x80, id, dims);
    put_words(counts, &[inputs.len(), outputs.len()]);
    put_words(sources, inputs);
    put_words(destinations, outputs);
}
