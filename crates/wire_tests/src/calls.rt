//! Calls.
use crate::both;
use std::process::Abort;
use std::test::Fail;
use wire_in::message::CallMessage;
use wire_in::read::read;
use wire_in::write::write_call;

fn refused(rt: &impl Abort, input: &[u8], number: u8, byte: usize) -> Result<(), Fail> {
    both::refused(rt, read(input), number, byte)
}

fn exact(rt: &impl Abort, bytes: &[u8]) -> Result<(), Fail> {
    both::exact(rt, bytes, read(bytes), write_call)
}

#[test]
fn short_messages(rt: HostRuntime) -> Result<(), Fail> {
    refused(&rt, &[], 2, 0)?;
    refused(&rt, &[0], 2, 1)?;
    refused(&rt, &[0, 2, 1], 2, 3)?;
    refused(&rt, &[0, 1, 1, 5], 2, 4)?;
    refused(&rt, &[0, 0, 9, 9, 9], 2, 5)?;
    refused(&rt, &[0, 3, 1, 5], 2, 4)?;
    refused(&rt, &[255, 255, 1, 5, 0], 2, 5)
}

#[test]
fn heads(rt: HostRuntime) -> Result<(), Fail> {
    refused(&rt, &[0, 2, 0, 5], 3, 2)?;
    refused(&rt, &[0, 2, 2, 9], 3, 2)?;
    refused(&rt, &[0, 2, 1, 0], 4, 3)?;
    refused(&rt, &[0, 2, 1, 6], 4, 3)?;
    refused(&rt, &[0, 3, 1, 16, 0], 4, 3)?;
    refused(&rt, &[0, 3, 1, 5, 0], 5, 0)?;
    refused(&rt, &[0, 2, 1, 4], 5, 0)?;
    refused(&rt, &[0, 2, 1, 1], 5, 0)
}

/// A message of this kind that has so many bytes behind its length, all of them 0, is refused for its length.
fn misfit(rt: &impl Abort, kind: u8, rest: u8) -> Result<(), Fail> {
    assert!(rt; rest < 62);
    let mut bytes = [0u8; 64];
    bytes[1] = rest;
    bytes[2] = 1;
    bytes[3] = kind;
    refused(rt, &bytes[0..2 + rest as usize], 5, 0)
}

#[test]
fn lengths(rt: HostRuntime) -> Result<(), Fail> {
    misfit(&rt, 1, 24)?;
    misfit(&rt, 1, 42)?;
    misfit(&rt, 2, 18)?;
    misfit(&rt, 2, 20)?;
    misfit(&rt, 3, 6)?;
    misfit(&rt, 3, 8)?;
    misfit(&rt, 4, 9)?;
    misfit(&rt, 4, 11)
}

/// An entry of this side and type, with 0 in all other fields.
fn entry(side: u8, kind: u8) -> [u8; 27] {
    let mut bytes = [0u8; 27];
    bytes[1] = 25;
    bytes[2] = 1;
    bytes[3] = 1;
    bytes[5] = side;
    bytes[6] = kind;
    bytes
}

#[test]
fn sides_and_types(rt: HostRuntime) -> Result<(), Fail> {
    refused(&rt, &entry(2, 0), 6, 5)?;
    refused(&rt, &entry(255, 3), 6, 5)?;
    refused(&rt, &entry(1, 3), 6, 6)?;
    refused(&rt, &entry(0, 255), 6, 6)?;
    exact(&rt, &entry(0, 0))?;
    exact(&rt, &entry(0, 1))?;
    exact(&rt, &entry(1, 2))
}

/// The largest of every field, with a reference of 16 bytes.
const LARGEST: [u8; 43] = [
    0, 41, 1, 1, 255, 1, 2, 127, 255, 255, 255, 255, 255, 255, 255, 255, 255, 255, 255, 255, 255,
    255, 255, 255, 255, 255, 255, 1, 2, 3, 4, 5, 6, 7, 8, 9, 10, 11, 12, 13, 14, 15, 255,
];

#[test]
fn largest_fields(rt: HostRuntime) -> Result<(), Fail> {
    exact(&rt, &LARGEST)?;
    exact(
        &rt,
        &[
            0, 19, 1, 2, 255, 255, 255, 255, 255, 127, 255, 255, 255, 255, 255, 255, 255, 255, 255,
            255, 255,
        ],
    )?;
    exact(&rt, &[0, 7, 1, 3, 255, 255, 255, 255, 255])?;
    exact(&rt, &[0, 10, 1, 4, 255, 255, 255, 255, 255, 255, 255, 255])?;
    exact(&rt, &[0, 2, 1, 5])
}

#[test]
fn an_entry_at_its_edges(rt: HostRuntime) -> Result<(), Fail> {
    let (answer, taken) = read(&LARGEST);
    assert!(rt; taken == 43);
    let Ok(CallMessage::Entry { order, reference }) = answer else {
        return Err(Fail::new("no entry"));
    };
    assert!(rt; order.trader == 255);
    assert!(rt; order.price == 2_147_483_647);
    assert!(rt; order.displayed == 4_294_967_295);
    assert!(rt; order.reserve == 4_294_967_295);
    assert!(rt; order.end == Some(18_446_744_073_709_551_615));
    assert!(rt; reference.len() == 16);
    Ok(())
}

/// The price of a change whose price has these bytes.
fn price(a: u8, b: u8, c: u8, d: u8) -> Option<i32> {
    let message = [
        0, 19, 1, 2, 7, 0, 0, 0, 1, a, b, c, d, 0, 0, 0, 2, 0, 0, 0, 3,
    ];
    let (answer, _) = read(&message);
    match answer {
        Ok(CallMessage::Change(change)) => Some(change.price),
        _ => None,
    }
}

#[test]
fn prices(rt: HostRuntime) {
    assert!(rt; price(0, 0, 0, 0) == Some(0));
    assert!(rt; price(255, 255, 255, 255) == Some(-1));
    assert!(rt; price(0, 15, 66, 64) == Some(1_000_000));
    assert!(rt; price(255, 240, 189, 192) == Some(-1_000_000));
    assert!(rt; price(127, 255, 255, 255) == Some(2_147_483_647));
    assert!(rt; price(128, 0, 0, 0) == Some(-2_147_483_648));
}

#[test]
fn what_follows_is_not_looked_at(rt: HostRuntime) {
    let (answer, taken) = read(&[0, 2, 1, 5, 0, 9]);
    assert!(rt; taken == 4);
    assert!(rt; matches!(answer, Ok(CallMessage::Draw)));
}
