// The phases of the day: which call each takes, and where it leads.
ghost use Rattle.std.specs.Prelude.{◌≡◌};
ghost use Rattle.market.specs.Phases.{next_phase};
ghost use Rattle.vault.specs.Cash.{Cash};
ghost use Rattle.vault.specs.Checks.{first_that_holds};
ghost use Rattle.history.specs.State.{beside};
ghost use Rattle.history.specs.Calls.{outcome, refusal, led_or_refused, step_refusals, stepping};
ghost use Rattle.history.specs.History.{step};
ghost use Rattle.history.specs.Laws.{Continues};
ghost use Rattle.house.specs.View.{view};

use crate::house::House;
use market::{Event, Phase, Refusal};

impl House<'_> {
    // The phase that an event leads to; a call that is not taken now is refused.
    pub(crate) fn next_phase(&self, event: Event) -> Result<Phase, Refusal>
        ensures { result ≡ led_or_refused (next_phase self.now.phase event) }
    {
        match (self.phase, event) {
            (Phase::Unopened, Event::Open) => Ok(Phase::Evening),
            (Phase::Unopened, _) => Err(Refusal::Phase),
            (phase, Event::Deposit | Event::Withdraw | Event::Question) => Ok(phase),
            (Phase::Evening, Event::Step) => Ok(Phase::Morning),
            (Phase::Evening, Event::List | Event::Cascade | Event::Close | Event::Settle) => Ok(
                Phase::Evening,
            ),
            (Phase::Morning, Event::Step) => Ok(Phase::Session),
            (Phase::Morning, Event::Cancel) => Ok(Phase::Morning),
            (Phase::Session, Event::Step) => Ok(Phase::PostSession),
            (Phase::Session, Event::Order | Event::Cancel | Event::Halt | Event::Resume) => Ok(
                Phase::Session,
            ),
            (Phase::PostSession, Event::Announce) => Ok(Phase::Evening),
            _ => Err(Refusal::Phase),
        }
    }

    // Goes on to the next phase of the day: what each clause of `step` follows from, here as in the other calls.
    fn go_on(&mut self) -> Result<(), Refusal>
        ensures { outcome result (view self.new) ≡ stepping (view self.old) }
    {
        self.phase = self.next_phase(Event::Step)?;
        Ok(())
    }

    // The day steps on: from evening to morning, to session, to post-session.
    pub fn step(&mut self) -> Result<(), Refusal>
        ensures does { outcome result (view self.new) ≡ stepping (view self.old) }
        ensures refused { refusal result ≡ first_that_holds (step_refusals (view self.old)) }
        ensures history { (c : Cash) → Continues (beside (view self.old) c) step (beside (view self.new) c) }
    {
        self.go_on()
    }
}
