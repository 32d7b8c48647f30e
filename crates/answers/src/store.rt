//! Reading and storing where nothing has to be shown of a place: past the end there is the value that is
//! asked for, and nothing is stored.
ghost use Rattle.std.specs.Prelude.{◌≡◌, ◌+◌, ◌^◌, ◌<◌, get_or, set, length, take};
ghost use Rattle.std.proofs.lemmas.List.Edits.{sets};
ghost use Rattle.answers.specs.Tally.{four_at, stand};

pub fn value_at<T: Copy>(list: &[T], place: usize, otherwise: T) -> T
    ensures { result ≡ get_or list.now place otherwise }
{
    list.get(place).copied().unwrap_or(otherwise)
}

pub fn put<T: Copy>(list: &mut [T], place: usize, value: T)
    ensures { list.new ≡ set list.old place value }
{
    if place < list.len() {
        list[place] = value;
    }
}

// The values from a place on, as many as there is room for.
pub fn put_all<T: Copy>(list: &mut [T], place: usize, values: &[T])
    ensures { list.new ≡ sets list.old place values.now }
{
    let place = place.min(list.len());
    let count = (list.len() - place).min(values.len());
    list[place..place + count].copy_from_slice(&values[..count]);
}

// The first so many of the values stand in the list from a place on. The list is read by place and not zipped
// with the values: past its end a value is compared with `otherwise`.
pub fn first_stand<T: Copy + PartialEq>(
    list: &[T],
    place: usize,
    values: &[T],
    count: usize,
    otherwise: T,
) -> bool
    ensures { result ≡ stand T.eq list.now place otherwise (take count values.now) }
{
    let rest = &list[place.min(list.len())..];
    values
        .iter()
        .take(count)
        .enumerate()
        .all(|(i, value)| value_at(rest, i, otherwise) == *value)
}

// Four bytes, the first the most significant of the number that spells them.
pub fn put_four(bytes: &mut [u8], place: usize, four: u32)
    ensures { bytes.new ≡ four_at bytes.old place four }
{
    put_all(bytes, place, &four.to_be_bytes());
}
