//! What holds of all sessions. The laws run nothing: a caller names them for their contract.
ghost use Rattle.std.specs.Prelude.{List};
ghost use Rattle.geo_session.specs.Chains.{GoesOnWith};
ghost use Rattle.geo_dialogue.specs.Exchanges.{Exchange, Runs};
ghost use Rattle.geo_session.specs.Seats.{Asker, AnswersCounted};

use crate::clock::Clock;

/// What is told in a run of a backend of a station's seat stands in the one history of its site: the seat's own steps go on with each
/// request and its very reply, in order, and with due flushes alone between them.
pub fn told_in_order<C: Clock>()
    ensures { (clock : C) (old new : Asker) (exchanges : List Exchange)
        → Runs (λ a request reply b. AnswersCounted (C.shows clock) a b request reply) old exchanges new
        → GoesOnWith exchanges old.seat.mark new.seat.mark }
{}
