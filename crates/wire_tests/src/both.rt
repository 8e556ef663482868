//! What is tested of messages both to a book and from it.
use market::refusal::{Layer, Refusal};
use std::process::Abort;
use std::test::Fail;

/// The message layer refuses with this number and this byte, and no byte is taken.
pub(crate) fn refused<M: Drop>(
    rt: &impl Abort,
    read: (Result<M, Refusal>, usize),
    number: u8,
    byte: usize,
) -> Result<(), Fail> {
    let (answer, taken) = read;
    assert!(rt; taken == 0);
    match answer {
        Ok(_) => Err(Fail::new("it was read")),
        Err(refusal) => {
            assert!(rt; refusal.number() == number);
            assert!(rt; refusal.layer() == Layer::Message);
            assert!(rt; refusal.byte() == Some(byte));
            Ok(())
        }
    }
}

/// The bytes are one message, and writing it gives them again and leaves what stands behind them; a byte less of room is too little.
pub(crate) fn exact<M: Drop, W: Fn(&M, &mut [u8]) -> Result<usize, Refusal> + Drop>(
    rt: &impl Abort,
    bytes: &[u8],
    read: (Result<M, Refusal>, usize),
    write: W,
) -> Result<(), Fail>
    requires { W.IsAlwaysCallable write }
{
    let (answer, taken) = read;
    assert!(rt; taken == bytes.len());
    let Ok(message) = answer else {
        return Err(Fail::new("it was refused"));
    };
    let mut buf = [238u8; 64];
    let Ok(size) = write(&message, &mut buf) else {
        return Err(Fail::new("it was not written"));
    };
    assert!(rt; 0 < size && size <= 64);
    assert!(rt; &buf[0..size] == bytes);
    assert!(rt; buf[63] == 238);
    let mut little = [238u8; 64];
    match write(&message, &mut little[0..size - 1]) {
        Ok(_) => Err(Fail::new("it was written")),
        Err(refusal) => {
            assert!(rt; refusal.number() == 19);
            assert!(rt; little[0] == 238);
            Ok(())
        }
    }
}
