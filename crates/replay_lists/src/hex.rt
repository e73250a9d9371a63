// Fields in hexadecimal.
ghost use Rattle.std.specs.Prelude.{◌≤◌, ◌<◌, length, IfSome};

// The field as a string of bytes, which goes to the start of `room`: the part that it fills. None where the field is no such
// string, or has no room there.
pub(crate) fn hex_bytes<'a>(field: &[u8], room: &'a mut [u8]) -> Option<&'a [u8]>
    ensures { IfSome result (λ part. length part.now ≤ length room.old) }
{
    if field == b"-".as_slice() {
        return Some(&[]);
    }
    let (pairs, odd) = field.as_chunks::<2>();
    if !odd.is_empty() || room.len() < pairs.len() {
        return None;
    }
    for (byte, [high, low]) in room.iter_mut().zip(pairs) {
        *byte = digit(*high)? * 16 + digit(*low)?;
    }
    Some(&room[..pairs.len()])
}

// The field as a number of at most sixteen digits.
pub(crate) fn hex_number(field: &[u8]) -> Option<u64> {
    if 16 < field.len() {
        return None;
    }
    let mut value = 0;
    for byte in field {
        value = value << 4 | u64::from(digit(*byte)?);
    }
    Some(value)
}

// The value of a digit. The library's `to_digit` and `from_str_radix` take capitals too, which no list has.
fn digit(byte: u8) -> Option<u8>
    ensures { IfSome result (λ value. value < 16) }
{
    match byte {
        b'0'..=b'9' => Some(byte - b'0'),
        b'a'..=b'f' => Some(byte - b'a' + 10),
        _ => None,
    }
}
