//! Turns lines of plain words into call messages. A line that is no call is reported on the standard error, and skipped.
#![tactic(auto)]

use plain::parse::parse;
use std::io;
use std::io::{BufRead, BufReader, Write};
use wire_in::message::CallMessage;
use wire_in::write::write_call;

/// Writes a call; the longest has 43 bytes.
fn send(rt: &HostRuntime, number: u64, message: &CallMessage) -> io::Result<()> {
    let mut buf = [0u8; 43];
    match write_call(message, &mut buf) {
        Ok(size) => rt.stdout().write_all(&buf[0..size]),
        Err(refusal) => eprintln!(rt; "line {number}: refused {}", refusal.number()),
    }
}

fn compose(rt: &HostRuntime, number: u64, line: &[u8]) -> io::Result<()> {
    match parse(line) {
        Ok(Some(message)) => send(rt, number, &message),
        Ok(None) => Ok(()),
        Err(fault) => eprintln!(rt; "line {number}: {fault}"),
    }
}

fn main(rt: HostRuntime) -> io::Result<()> {
    let lines = BufReader::new(rt.alloc(), rt.stdin())?.split(rt.alloc(), b'\n');
    for (number, line) in (1..=u64::MAX).zip(lines) {
        compose(&rt, number, line?.as_slice())?;
    }
    Ok(())
}
