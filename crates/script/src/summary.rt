// How many calls a script made of the house, and how many lines were of another form.
ghost use Rattle.std.specs.Prelude.{◌≡◌, ◌+◌, ◌^◌, ◌<◌, is_ok, Some, ◌==◌, if◌then◌else◌};
ghost use Rattle.std.specs.Process.{exit_status};
ghost use Rattle.script.specs.Answers.{outcome_of};
ghost use Rattle.script.specs.Counts.{Answered, counted};
ghost use Rattle.script.specs.Texts.{summary_text};

use crate::answers::{Reply, Trouble};
use anyhow::ensure;
use std::fmt;
use std::io::Eprint;
use std::process::{ExitCode, Termination};

#[derive(Clone, Copy, PartialEq, Eq, Default, Debug)]
pub struct Summary {
    pub calls: u64,
    pub accepted: u64,
    pub refused: u64,
    pub bad: u64,
}

// What became of a line.
#[derive(Clone, Copy, PartialEq, Eq, Debug)]
pub(crate) enum Outcome {
    NoCall, // a line that is copied, a lending, a choice of rule, or something shown
    Accepted,
    Refused,
    Bad,
}

impl Outcome {
    // What a line that was answered so counts as.
    pub(crate) fn of(call: bool, answer: Result<Reply, Trouble>) -> Outcome
        ensures { result ≡ outcome_of call answer }
    {
        match answer {
            Err(Trouble::Bad(_)) => Outcome::Bad,
            Err(Trouble::Refused(_)) if call => Outcome::Refused,
            Ok(_) if call => Outcome::Accepted,
            _ => Outcome::NoCall,
        }
    }
}

impl Summary {
    // What the program that ran the script ends with: an error where a line was bad.
    pub fn status(&self) -> anyhow::Result<()>
        ensures { is_ok result ≡ (self.now.bad == 0) }
    {
        ensure!(self.bad == 0, "a line was bad");
        Ok(())
    }

    // Counts one line more.
    pub(crate) fn counted(self, outcome: Outcome) -> Summary
        requires answered { Answered self }
        requires room { self.calls + self.bad + 1 < 2 ^ 64 }
        ensures { result ≡ counted outcome self }
    {
        match outcome {
            Outcome::NoCall => self,
            Outcome::Accepted => Summary {
                calls: self.calls + 1,
                accepted: self.accepted + 1,
                ..self
            },
            Outcome::Refused => Summary {
                calls: self.calls + 1,
                refused: self.refused + 1,
                ..self
            },
            Outcome::Bad => Summary {
                bad: self.bad + 1,
                ..self
            },
        }
    }
}

// A program that ends with the counts ends with status 1 where a line was bad. Its output says of each what was wrong, so nothing more is printed.
impl Termination for Summary {
    fn report<R: Eprint>(self, _rt: &R) -> ExitCode
        ensures { exit_status result ≡ (if self.bad == 0 then 0 else 1) }
    {
        if self.status().is_ok() {
            ExitCode::SUCCESS
        } else {
            ExitCode::FAILURE
        }
    }
}

impl fmt::Display for Summary {
    ghost output = { λ s. Some (summary_text s) };

    fn fmt<W: fmt::Write>(&self, f: &mut fmt::Formatter<W>) -> fmt::Result {
        let Summary {
            calls,
            accepted,
            refused,
            bad,
        } = *self;
        write!(
            f,
            "# {calls} calls, {accepted} accepted, {refused} refused, {bad} bad"
        )
    }
}
