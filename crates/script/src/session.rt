// A script being played: line after line, each copied or answered.
ghost use Rattle.std.specs.Prelude.{◌≡◌, IfOk};
ghost use Rattle.grammar.specs.Kinds.{out_of_place};
ghost use Rattle.script.specs.Answers.{is_bad, outcome_of};
ghost use Rattle.script.specs.Counts.{Counts, Fitting};
ghost use Rattle.script.specs.Texts.{Ends};

use crate::answers::{Reply, Trouble};
use crate::desk::Desk;
use crate::report::Report;
use crate::summary::{Outcome, Summary};
use crate::tables::{Record, Years};
use grammar::{Command, Form, Lines, What, begun_after, is_copied};
use house::House;
use margin::{ChosenRule, GasRule, HubRule};
use std::alloc::AllocError;
use std::ops::Range;
use vault::{ACCOUNTS, Vault};

// The house and the vault that a script calls, and the desk that it is answered at.
#[derive(Drop)]
pub(crate) struct Session<'a, V: Vault + Drop> {
    house: House<'a>,
    vault: V,
    desk: Desk,
    rule: ChosenRule, // in force
    years: Option<Years>, // of the open house
}

impl<'a, V: Vault + Drop> Session<'a, V> {
    pub(crate) fn new(house: House<'a>, vault: V, desk: Desk) -> Session<'a, V> {
        Session {
            house,
            vault,
            desk,
            rule: ChosenRule::Gas(GasRule),
            years: None,
        }
    }

    // Plays a script, and writes its counts.
    pub(crate) fn run(mut self, script: &[u8]) -> Result<Report, AllocError>
        ensures counts { IfOk result (λ report. Counts script.now report.summary) }
        ensures ends { IfOk result (λ report. Ends report.output.items report.summary) }
    {
        let summary = self.play_all(script)?;
        self.desk.write_line(summary)?;
        let Session { desk, .. } = self;
        Ok(Report {
            output: desk.output,
            summary,
        })
    }

    // Plays every line of a script.
    fn play_all(&mut self, script: &[u8]) -> Result<Summary, AllocError>
        ensures { IfOk result (λ summary. Counts script.now summary) }
    {
        let mut summary = Summary::default();
        let mut begun = false;
        for line in Lines::new(script) {
            let outcome = self.play(begun, line)?;
            summary = summary.counted(outcome);
            begun = begun_after(begun, line);
        }
        Ok(summary)
    }

    // Plays one line: copies it, or answers it.
    fn play(&mut self, begun: bool, line: &[u8]) -> Result<Outcome, AllocError>
        ensures { IfOk result (λ o. Fitting begun line.now o) }
    {
        if is_copied(line) {
            self.desk.copy(line)?;
            return Ok(Outcome::NoCall);
        }
        match Command::try_from(line) {
            Ok(command) => {
                let answer = self.carry_out(begun, command);
                let outcome = Outcome::of(command.is_call(), answer);
                self.desk.reply(line, answer)?;
                if let Command::Show(what) = command {
                    self.list(what)?;
                }
                Ok(outcome)
            }
            Err(form) => {
                self.desk.reply(line, Err(Trouble::Bad(form)))?;
                Ok(Outcome::Bad)
            }
        }
    }

    // Does what a command asks, and answers it.
    fn carry_out(&mut self, begun: bool, command: Command) -> Result<Reply, Trouble>
        ensures { is_bad result ≡ out_of_place begun command }
    {
        let house = &mut self.house;
        let vault = &mut self.vault;
        match command {
            Command::Lend(_) if begun => return Err(Form::Lend.into()),
            Command::Lend(_) => {}
            Command::GasRule => self.rule = GasRule.into(),
            // Where its figures are refused, the former rule stays.
            Command::HubRule { tax, share } => self.rule = HubRule::new(tax, share)?.into(),
            Command::Open {
                members,
                first_year,
                years,
            } => {
                house.open(members, first_year, years)?;
                self.years = Some(Years::new(years));
            }
            Command::Deposit { member, amount } => house.deposit(vault, member, amount)?,
            Command::Withdraw { member, amount } => {
                house.withdraw(vault, &self.rule, member, amount)?
            }
            Command::List {
                contract,
                price,
                rate,
            } => house.list(contract, price, rate)?,
            Command::Halt { contract } => house.halt(contract)?,
            Command::Resume { contract, price } => house.resume(contract, price)?,
            Command::Step => house.step()?,
            Command::Requirement { member } => {
                return Ok(Reply::Figure(house.requirement(&self.rule, member)?));
            }
            Command::Show(What::Phase) => return Ok(Reply::Now(house.phase())),
            Command::Show(what) => return Ok(Reply::Figure(self.count(what) as u64)),
            Command::NotBuilt => return Err(Form::NotBuilt.into()),
        }
        Ok(Reply::Done)
    }

    // How many records of a kind there are to show. One match beside that of `list`: an iterator for both could not be a result.
    fn count(&self, what: What) -> usize {
        let house = &self.house;
        let vault = &self.vault;
        match what {
            What::Orders => house.orders().len(),
            What::Lots => house.lots().len(),
            What::Tape => house.tape().len(),
            What::Results => results_other_than_0(house.results()),
            What::Balances => balances_other_than_0(vault),
            What::Phase => 0,
        }
    }

    // Writes the records of a kind.
    fn list(&mut self, what: What) -> Result<(), AllocError> {
        let house = &self.house;
        let desk = &mut self.desk;
        match what {
            What::Orders => desk.list(house.orders().iter().copied().map(Record::Order)),
            What::Lots => desk.list(house.lots().iter().copied().map(Record::Lot)),
            What::Tape => desk.list(
                (1usize..).zip(house.tape()).map(|(number, trade)| Record::Trade {
                    number,
                    trade: *trade,
                }),
            ),
            What::Results => self.list_results(),
            What::Balances => self.list_balances(),
            What::Phase => Ok(()),
        }
    }

    fn list_results(&mut self) -> Result<(), AllocError> {
        let Some(years) = self.years else {
            return Ok(());
        };
        let results = self.house.results().iter().enumerate();
        self.desk.list(
            results
                .filter(|(_, value)| **value != 0)
                .map(|(place, value)| years.record(place, *value)),
        )
    }

    fn list_balances(&mut self) -> Result<(), AllocError> {
        let vault = &self.vault;
        let balances = accounts().map(|account| (account, vault.balance(account)));
        self.desk.list(
            balances
                .filter(|(_, amount)| *amount != 0)
                .map(|(account, amount)| Record::Balance { account, amount }),
        )
    }
}

fn accounts() -> Range<u8> {
    0..ACCOUNTS as u8
}

// Two counts by hand: `filter` with `count` takes twice the time.
fn results_other_than_0(results: &[i64]) -> usize {
    let mut n = 0;
    for result in results {
        if *result != 0 {
            n += 1;
        }
    }
    n
}

fn balances_other_than_0<V: Vault>(vault: &V) -> usize {
    let mut n = 0;
    for account in 0..ACCOUNTS {
        if vault.balance(account as u8) != 0 {
            n += 1;
        }
    }
    n
}
