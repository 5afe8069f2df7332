// Hexadecimal words: a fixed number of digits, letters in capitals.
ghost use Rattle.std.specs.Prelude.{◌≡◌, ℕ, ◌^◌, ◌<◌, ◌≤◌, MatchOption, ◌≢◌};
ghost use Rattle.words.specs.Texts.{hex, hex_digit};
ghost use Rattle.words.specs.Reading.{Reads};

// An address: eight digits.
pub fn read_address(word: &[u8]) -> Option<u32>
    ensures { Reads (hex 8) (λ n. n < 2 ^ 32) word.now result }
{
    read_hex(word, 8)
}

// Flags: two digits.
pub fn read_flags(word: &[u8]) -> Option<u8>
    ensures { Reads (hex 2) (λ n. n < 2 ^ 8) word.now result }
{
    let n = read_hex(word, 2)?;
    Some(n as u8)
}

fn read_hex(word: &[u8], digits: usize) -> Option<u32>
    requires { digits ≤ 8 }
    ensures { Reads (hex digits) (λ n. n < 16 ^ digits) word.now result }
{
    if word.len() != digits {
        return None;
    }
    let mut number = 0;
    // A loop, since the bound of the number so far is not known inside the closure of a fold.
    for byte in word {
        number = number * 16 + hex_value(*byte)? as u32;
    }
    Some(number)
}

fn hex_value(byte: u8) -> Option<u8>
    ensures { MatchOption result ((d : ℕ) → d < 16 → byte ≢ hex_digit d) (λ d. (d < 16) × (byte ≡ hex_digit d)) }
{
    match byte {
        b'0'..=b'9' => Some(byte - b'0'),
        b'A'..=b'F' => Some(byte - b'A' + 10),
        _ => None,
    }
}
