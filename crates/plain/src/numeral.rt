//! Numbers in words.
ghost use Rattle.std.specs.Prelude.{◌≡◌, ◌≤◌, IfSome};
ghost use Rattle.plain.specs.Numerals.{digit_of, numeral as numeral_of, signed_of};

use crate::word::FromWord;

fn digit(byte: u8) -> Option<u8>
    ensures { result ≡ digit_of byte }
{
    match byte {
        b'0'..=b'9' => Some(byte - b'0'),
        _ => None,
    }
}

/// The number that decimal digits write, if it is at most `most`.
// By hand, since `parse` takes a `+` in front, and a word here is bytes.
fn numeral(word: &[u8], most: u64) -> Option<u64>
    ensures value { result ≡ numeral_of most word.now }
    ensures bound { IfSome result (λ n. n ≤ most) }
{
    if word.is_empty() {
        return None;
    }
    let mut n: u128 = 0;
    for byte in word {
        n = n * 10 + u128::from(digit(*byte)?);
        if u128::from(most) < n {
            return None;
        }
    }
    Some(n as u64)
}

impl FromWord for u8 {
    ghost written = { numeral_of 255 };

    fn from_word(word: &[u8]) -> Option<u8> {
        Some(numeral(word, u64::from(u8::MAX))? as u8)
    }
}

impl FromWord for u32 {
    ghost written = { numeral_of 4294967295 };

    fn from_word(word: &[u8]) -> Option<u32> {
        Some(numeral(word, u64::from(u32::MAX))? as u32)
    }
}

impl FromWord for u64 {
    ghost written = { numeral_of 18446744073709551615 };

    fn from_word(word: &[u8]) -> Option<u64> {
        numeral(word, u64::MAX)
    }
}

/// Digits, perhaps behind a minus sign.
impl FromWord for i32 {
    ghost written = { signed_of };

    fn from_word(word: &[u8]) -> Option<i32> {
        match word {
            [b'-', digits @ ..] => Some(-(numeral(digits, 2_147_483_648)? as i64) as i32),
            _ => Some(numeral(word, 2_147_483_647)? as i32),
        }
    }
}
