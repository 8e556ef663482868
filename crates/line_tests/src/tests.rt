//! What every line does, tried on an ordered row and on a heap row.
ghost use Rattle.std.specs.Prelude.{nat_lt};
ghost use Rattle.line.specs.Order.{lower};
ghost use Rattle.std.proofs.Common.{rules};

use heap_row::heap_row::HeapRow;
use line::entry::Entry;
use line::lines::{Line, LineFault};
use ordered_row::ordered_row::OrderedRow;
use std::process::Abort;

/// The earlier hour is ahead, then the lower number.
#[derive(Clone, Copy, PartialEq, Eq, PartialOrd, Ord, Debug)]
struct Ticket {
    hour: u8,
    number: u8,
}

impl Entry for Ticket {
    ghost ahead = { λ a b. lower a.hour b.hour (nat_lt a.number b.number) };

    ghost irreflexive = { Prim.search rules };

    ghost total = { Prim.search rules };

    ghost transitive = { Prim.search rules };

    fn is_ahead(&self, other: &Ticket) -> bool {
        self < other
    }
}

fn at(hour: u8, number: u8) -> Ticket {
    Ticket { hour, number }
}

/// A line of room 0 refuses every entry and holds none.
fn holds_nothing<L: Line<Ticket>>(rt: &impl Abort, line: &mut L) {
    assert_eq!(rt; line.room(), 0);
    assert_eq!(rt; line.put(at(9, 1)), Err(LineFault::Full));
    assert_eq!(rt; line.take(at(9, 1)), Err(LineFault::NotHeld));
    assert_eq!(rt; line.next(at(9, 1)), None);
    assert_eq!(rt; line.first(), None);
    assert_eq!(rt; line.count(), 0);
}

/// A full line names an entry that it holds as held.
fn names_the_cause<L: Line<Ticket>>(rt: &impl Abort, line: &mut L) {
    assert_eq!(rt; line.put(at(9, 1)), Ok(()));
    assert_eq!(rt; line.put(at(9, 1)), Err(LineFault::Held));
    assert_eq!(rt; line.put(at(9, 2)), Err(LineFault::Full));
    assert_eq!(rt; line.take(at(9, 2)), Err(LineFault::NotHeld));
    assert_eq!(rt; line.take(at(9, 1)), Ok(()));
    assert_eq!(rt; line.count(), 0);
}

/// Entries come in order, whatever the order in which they were put.
fn keeps_order<L: Line<Ticket>>(rt: &impl Abort, line: &mut L) {
    for number in [4, 2, 5, 1, 3] {
        assert_eq!(rt; line.put(at(10, number)), Ok(()));
    }
    assert_eq!(rt; line.put(at(9, 8)), Ok(()));
    assert_eq!(rt; line.first(), Some(at(9, 8)));
    assert_eq!(rt; line.next(at(9, 9)), Some(at(10, 1)));
    assert_eq!(rt; line.take(at(10, 2)), Ok(()));
    assert_eq!(rt; line.next(at(10, 1)), Some(at(10, 3)));
    assert_eq!(rt; line.next(at(10, 5)), None);
    assert_eq!(rt; line.count(), 5);
    line.clear();
    assert_eq!(rt; line.first(), None);
    assert_eq!(rt; line.count(), 0);
}

#[test]
fn room_zero(rt: HostRuntime) {
    holds_nothing(&rt, &mut OrderedRow::new(&mut []));
    holds_nothing(&rt, &mut HeapRow::new(&mut []));
}

#[test]
fn causes(rt: HostRuntime) {
    names_the_cause(&rt, &mut OrderedRow::new(&mut [at(0, 0)]));
    names_the_cause(&rt, &mut HeapRow::new(&mut [at(0, 0)]));
}

#[test]
fn order(rt: HostRuntime) {
    keeps_order(&rt, &mut OrderedRow::new(&mut [at(0, 0); 6]));
    keeps_order(&rt, &mut HeapRow::new(&mut [at(0, 0); 6]));
}
