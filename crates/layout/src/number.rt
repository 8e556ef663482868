//! Numbers that are read from bytes.
ghost use Rattle.std.specs.Prelude.{◌≡◌, ℕ, ◌^◌, ◌<◌};
ghost use Rattle.layout.specs.Numbers.{big, field, signed, signed_once};

use crate::write::put;

/// The `N` bytes of `bytes` from the place `at` on; where fewer are there, those stand behind zeros.
fn array_at<const N: usize>(bytes: &[u8], at: usize) -> [u8; N]
    ensures { big result ≡ field at N bytes.now }
{
    let rest = bytes.get(at..).unwrap_or(&[]);
    // Where all are there, which is the rule, they are read at once.
    if let Some((whole, _)) = rest.split_first_chunk() {
        return *whole;
    }
    let mut array = [0; N];
    put(&mut array, N - rest.len(), rest);
    array
}

/// A number that a message holds in a fixed count of bytes, the highest first.
pub trait Number: Sized {
    // How many bytes.
    ghost width: { ℕ };

    // What the number that the bytes write means.
    ghost meant: { ℕ → Self };

    /// The number at the place `at` of `bytes`. Of its bytes those count that are there.
    fn read_at(bytes: &[u8], at: usize) -> Self
        ensures { result ≡ meant (field at width bytes.now) };

    // Different bytes never mean the same number.
    ghost once: { (n m : ℕ) → n < 256 ^ width → m < 256 ^ width → meant n ≡ meant m → n ≡ m };
}

impl Number for u16 {
    ghost width = { 2 };

    ghost meant = { λ n. n };

    ghost once = { λ n m h k e. e };

    fn read_at(bytes: &[u8], at: usize) -> u16 {
        u16::from_be_bytes(array_at(bytes, at))
    }
}

impl Number for u32 {
    ghost width = { 4 };

    ghost meant = { λ n. n };

    ghost once = { λ n m h k e. e };

    fn read_at(bytes: &[u8], at: usize) -> u32 {
        u32::from_be_bytes(array_at(bytes, at))
    }
}

impl Number for i32 {
    ghost width = { 4 };

    ghost meant = { signed };

    ghost once = { signed_once };

    fn read_at(bytes: &[u8], at: usize) -> i32 {
        i32::from_be_bytes(array_at(bytes, at))
    }
}

impl Number for u64 {
    ghost width = { 8 };

    ghost meant = { λ n. n };

    ghost once = { λ n m h k e. e };

    fn read_at(bytes: &[u8], at: usize) -> u64 {
        u64::from_be_bytes(array_at(bytes, at))
    }
}
