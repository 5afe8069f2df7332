// Decimal words: digits without a leading zero, of a number that fits its width.
ghost use Rattle.std.specs.Prelude.{◌≡◌, ℕ, ◌+◌, ◌-◌, ◌*◌, ◌^◌, ◌<◌, ◌≤◌, length, decimal, MatchBool, ◌≢◌, slice_index};
ghost use Rattle.std.specs.Option.{SomeIff};
ghost use Rattle.words.specs.Reading.{Reads};

pub fn read_u8(word: &[u8]) -> Option<u8>
    ensures { Reads decimal (λ n. n < 2 ^ 8) word.now result }
{
    u8::try_from(read_u16(word)?).ok()
}

pub fn read_u16(word: &[u8]) -> Option<u16>
    ensures { Reads decimal (λ n. n < 2 ^ 16) word.now result }
{
    if !begins_decimal(word) {
        return None;
    }
    let mut number = 0;
    // A loop, since its invariant speaks of the bytes so far, of which the closure of a fold knows nothing.
    for byte in word {
        number = next_digit(number, *byte)?;
    }
    Some(number)
}

// No word is empty, and only 0 itself begins with a zero.
fn begins_decimal(word: &[u8]) -> bool
    ensures { MatchBool result ((0 < length word.now) × (slice_index word.now 0 ≡ 48 → length word.now ≡ 1)) ((n : ℕ) → n < 2 ^ 16 → word.now ≢ decimal n) }
{
    if word.is_empty() {
        return false;
    }
    word[0] != b'0' || word.len() == 1
}

// The number with one digit more; none where the byte is no digit or the number would pass 65,535.
fn next_digit(number: u16, byte: u8) -> Option<u16>
    ensures { SomeIff result ((48 ≤ byte) × (byte ≤ 57) × (number * 10 + (byte - 48) < 2 ^ 16)) (number * 10 + (byte - 48)) }
{
    let more = number as u32 * 10;
    match byte {
        b'0'..=b'9' if more + (byte - b'0') as u32 <= u16::MAX as u32 => Some(
            (more + (byte - b'0') as u32) as u16,
        ),
        _ => None,
    }
}
