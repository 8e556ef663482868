//! Records and replies.
use crate::both;
use market::answer::Accepted;
use market::record::{Cause, Record};
use market::refusal::{BookFault, Refusal};
use std::process::Abort;
use std::test::Fail;
use wire_out::output::Output;
use wire_out::read::read_output;
use wire_out::write::write;

fn refused(rt: &impl Abort, input: &[u8], number: u8, byte: usize) -> Result<(), Fail> {
    both::refused(rt, read_output(input), number, byte)
}

fn exact(rt: &impl Abort, bytes: &[u8]) -> Result<(), Fail> {
    both::exact(rt, bytes, read_output(bytes), write)
}

#[test]
fn refusals(rt: HostRuntime) -> Result<(), Fail> {
    refused(&rt, &[], 2, 0)?;
    refused(&rt, &[0, 10, 1, 16], 2, 4)?;
    refused(&rt, &[0, 1, 1, 16], 2, 4)?;
    refused(&rt, &[0, 2, 7, 16], 3, 2)?;
    refused(&rt, &[0, 2, 1, 15], 4, 3)?;
    refused(&rt, &[0, 2, 1, 23], 4, 3)?;
    refused(&rt, &[0, 2, 1, 31], 4, 3)?;
    refused(&rt, &[0, 2, 1, 5], 4, 3)?;
    refused(&rt, &[0, 2, 1, 22], 5, 0)?;
    refused(&rt, &[0, 8, 1, 32, 0, 0, 0, 0, 0, 0], 5, 0)?;
    refused(
        &rt,
        &[
            0, 19, 1, 22, 0, 0, 0, 0, 0, 0, 0, 0, 0, 0, 0, 0, 0, 0, 0, 0, 0,
        ],
        4,
        3,
    )?;
    refused(
        &rt,
        &[
            0, 19, 1, 22, 0, 0, 0, 0, 0, 0, 0, 0, 0, 0, 0, 0, 0, 0, 0, 0, 4,
        ],
        4,
        3,
    )
}

#[test]
fn records_of_a_time(rt: HostRuntime) -> Result<(), Fail> {
    exact(&rt, &[0, 10, 1, 16, 0, 0, 0, 0, 0, 0, 0, 0])?;
    exact(&rt, &[0, 10, 1, 19, 0, 0, 0, 0, 0, 0, 39, 16])?;
    exact(&rt, &[0, 10, 1, 20, 255, 255, 255, 255, 255, 255, 255, 255])?;
    exact(&rt, &[0, 10, 1, 21, 1, 2, 3, 4, 5, 6, 7, 8])
}

#[test]
fn fills_and_sessions(rt: HostRuntime) -> Result<(), Fail> {
    exact(
        &rt,
        &[
            0, 34, 1, 17, 255, 255, 255, 255, 255, 255, 255, 255, 128, 0, 0, 0, 255, 255, 255, 255,
            255, 255, 255, 254, 255, 255, 255, 253, 255, 255, 255, 252, 255, 255, 255, 251,
        ],
    )?;
    exact(
        &rt,
        &[
            0, 18, 1, 18, 0, 0, 0, 0, 0, 0, 0, 1, 255, 240, 189, 192, 255, 255, 255, 255,
        ],
    )
}

#[test]
fn removals_and_replies(rt: HostRuntime) -> Result<(), Fail> {
    exact(
        &rt,
        &[
            0, 19, 1, 22, 0, 0, 0, 0, 0, 0, 0, 1, 0, 0, 0, 2, 0, 0, 0, 3, 1,
        ],
    )?;
    exact(
        &rt,
        &[
            0, 19, 1, 22, 0, 0, 0, 0, 0, 0, 0, 1, 0, 0, 0, 2, 0, 0, 0, 3, 2,
        ],
    )?;
    exact(
        &rt,
        &[
            0, 19, 1, 22, 0, 0, 0, 0, 0, 0, 0, 1, 255, 255, 255, 255, 255, 255, 255, 255, 3,
        ],
    )?;
    exact(&rt, &[0, 7, 1, 32, 0, 0, 0, 0, 0])?;
    exact(&rt, &[0, 7, 1, 32, 19, 0, 0, 0, 0])?;
    exact(&rt, &[0, 7, 1, 32, 255, 255, 255, 255, 255])
}

#[test]
fn answers(rt: HostRuntime) {
    let told = Output::from(Err(Refusal::Book(BookFault::Size)));
    assert!(rt;
        matches!(
            told,
            Output::Reply {
                refusal: 12,
                order: 0
            }
        )
    );
    assert!(rt;
        matches!(
            Output::from(Ok(Accepted::Entered(7))),
            Output::Reply {
                refusal: 0,
                order: 7
            }
        )
    );
    assert!(rt;
        matches!(
            Output::from(Ok(Accepted::Done)),
            Output::Reply {
                refusal: 0,
                order: 0
            }
        )
    );
    let told = Output::from(Ok(Accepted::Drawn(Record::Removal {
        time: 1,
        number: 2,
        displayed: 3,
        cause: Cause::End,
    })));
    let mut buf = [0u8; 21];
    assert!(rt; matches!(write(&told, &mut buf), Ok(21)));
    assert!(rt; buf[20] == 3);
}
