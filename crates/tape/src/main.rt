//! Reads messages of every kind from its input and prints each as a line of plain words, as it comes. At a message that cannot be
//! read it says where and why, and stops.
#![tactic(auto)]

use intake::hold;
use std::io;
use std::io::BufReader;
use transcript::show::InWords;
use wire::read::read_message;

fn main(rt: HostRuntime) -> io::Result<()> {
    let mut input = BufReader::new(rt.alloc(), rt.stdin())?;
    let mut held = Vec::new(rt.alloc());
    let mut at: u64 = 0;
    // The language proves that every loop ends, and this one ends where the input does: so it is counted.
    for _ in 0..u64::MAX {
        hold(&mut input, &mut held)?;
        if held.is_empty() {
            break;
        }
        let (message, taken) = read_message(held.as_slice());
        match message {
            Ok(message) => println!(rt; "{}", InWords(message))?,
            Err(refusal) => {
                return println!(rt; "stopped at byte {at}, {}", InWords(refusal));
            }
        }
        at = at.wrapping_add(taken as u64);
    }
    Ok(())
}
