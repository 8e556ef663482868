//! The board.
use crate::privileges::Privileges;
use crate::seats::Seats;
use arrayvec::ArrayVec;
use market::order::Order;
use market::state::{Clock, Completion, Counters, Phase, Session};
use std::marker::Model;

/// The live orders by ascending number, and what else everybody may know. A clause sees the board of the rules.
#[derive(Drop)]
pub struct Board {
    pub orders: ArrayVec<Order, 128>,
    pub phase: Phase,
    pub clock: Clock,
    pub counters: Counters,
    pub session: Session,
    /// Each trader's first order on each side to be filled whole in the session.
    pub completions: Seats<Completion>,
    pub privileges: Privileges,
}

impl Model for Board {
    ghost use Rattle.rules.specs.Board.{Board as Rules};

    ghost Value = { Rules };

    ghost use Rattle.board.specs.Memory.{board_of};

    ghost view = { board_of };
}
