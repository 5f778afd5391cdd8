// The phases of a gas day, and the events that a house takes or refuses in each.
ghost use Rattle.std.specs.Prelude.{Some};
ghost use Rattle.market.specs.Words.{phase_word};

use std::fmt;

#[derive(Clone, Copy, PartialEq, Eq, Debug)]
pub enum Phase {
    Unopened,
    Evening,
    Morning,
    Session,
    PostSession,
}

impl fmt::Display for Phase {
    ghost output = { λ phase. Some (phase_word phase) };

    fn fmt<W: fmt::Write>(&self, f: &mut fmt::Formatter<W>) -> fmt::Result {
        f.write_str(match self {
            Phase::Unopened => "unopened",
            Phase::Evening => "evening",
            Phase::Morning => "morning",
            Phase::Session => "session",
            Phase::PostSession => "post",
        })
    }
}

#[derive(Clone, Copy, PartialEq, Eq, Debug)]
pub enum Event {
    Open,
    Step, // to the next phase of the day
    Announce,
    Order,
    Cancel,
    Halt,
    Resume,
    List,
    Cascade,
    Close,
    Settle,
    Deposit,
    Withdraw,
    Question, // a call that only asks
}
