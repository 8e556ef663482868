//! Phases, their ends, and the quiet tape.
ghost use Rattle.std.specs.Prelude.{◌≡◌};
ghost use Rattle.rules.specs.Draws.{phase_end, phase_after, privileges_in, reaching, turned_board, settled_session, rested_board};
ghost use Rattle.board.specs.Memory.{Bounded};
ghost use Rattle.draws.specs.Parts.{with_privileges};

use board::board::Board;
use market::settings::Settings;
use market::state::{Clock, Phase, Session};

/// When the phase ends, if it ends by itself: Rolling so long after the session's last fill, but not before it began.
pub fn phase_end(board: &Board, settings: &Settings) -> Option<u64>
    ensures { Bounded board.now → result ≡ phase_end board.now.phase settings.now board.now.session }
{
    let session = &board.session;
    match board.phase {
        Phase::Open => None,
        Phase::Timed => Some(session.since.saturating_add(settings.timed)),
        Phase::Rolling => {
            let idle = session.last.saturating_add(settings.rolling);
            Some(session.since.max(idle))
        }
        Phase::Fbs => Some(session.since.saturating_add(settings.fbs)),
    }
}

/// The phase that follows.
fn phase_after(phase: Phase) -> Phase
    ensures { result ≡ phase_after phase }
{
    match phase {
        Phase::Open | Phase::Fbs => Phase::Open,
        Phase::Timed => Phase::Rolling,
        Phase::Rolling => Phase::Fbs,
    }
}

/// The privileges as a phase ends: they are settled as the FBS Period begins, and end with it.
fn settle_privileges(board: &mut Board)
    ensures { board.new ≡ with_privileges (privileges_in board.old.phase board.old) board.old }
{
    match board.phase {
        Phase::Rolling => board.privileges.grant(&board.orders, &board.completions),
        Phase::Open | Phase::Timed | Phase::Fbs => board.privileges.clear(),
    }
}

/// The book reaches this time.
pub(crate) fn reach(clock: &mut Clock, time: u64)
    ensures { clock.new ≡ reaching time clock.old }
{
    clock.time = time;
}

/// The phase ends at this time, and the next begins.
pub fn turn(board: &mut Board, time: u64)
    ensures { board.new ≡ turned_board board.old time }
{
    settle_privileges(board);
    board.phase = phase_after(board.phase);
    reach(&mut board.clock, time);
    board.session.since = time;
}

/// The session has had its first quiet.
fn settle_session(session: &mut Session)
    ensures { session.new ≡ settled_session session.old }
{
    session.settled = true;
}

/// The tape is quiet: the book reaches the wished time, and the session, if one runs, has had its first quiet.
pub fn rest(board: &mut Board)
    ensures { board.new ≡ rested_board board.old }
{
    board.clock.time = board.clock.wished;
    board.clock.quiet = true;
    settle_session(&mut board.session);
}
