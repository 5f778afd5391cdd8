// Members' cash: what comes into and goes out of the vault that a call names.
ghost use Rattle.std.specs.Prelude.{◌≡◌};
ghost use Rattle.history.specs.State.{beside};
ghost use Rattle.history.specs.Cover.{leaves_too_little};
ghost use Rattle.history.specs.Calls.{outcome, refusal, deposit_refusals, depositing, withdrawal_refusals, withdrawing};
ghost use Rattle.history.specs.History.{deposit, withdraw};
ghost use Rattle.history.specs.Laws.{Continues};
ghost use Rattle.vault.specs.Checks.{first_that_holds};
ghost use Rattle.house.specs.View.{view};

use crate::house::House;
use margin::MarginRule;
use market::{Event, Refusal};
use vault::Vault;

// Whether taking an amount from a balance leaves less than a requirement.
fn leaves_too_little(balance: u64, amount: u64, required: u64) -> bool
    ensures { result ≡ leaves_too_little balance amount required }
{
    balance < required || balance - required < amount
}

impl House<'_> {
    // Credits the member's account, by the rules of a deposit.
    fn pay_in<V: Vault>(&self, vault: &mut V, member: u8, amount: u64) -> Result<(), Refusal>
        ensures { outcome result (beside (view self.now) (V.cash vault.new)) ≡ depositing (beside (view self.now) (V.cash vault.old)) member amount }
    {
        self.next_phase(Event::Deposit)?;
        self.known(member)?;
        vault.credit(member, amount).map_err(|_| Refusal::Vault)
    }

    // Debits the member's account, by the rules of a withdrawal.
    fn pay_out<V: Vault, R: MarginRule>(
        &self,
        vault: &mut V,
        rule: &R,
        member: u8,
        amount: u64,
    ) -> Result<(), Refusal>
        ensures { outcome result (beside (view self.now) (V.cash vault.new)) ≡ withdrawing (R.units rule.now) (beside (view self.now) (V.cash vault.old)) member amount }
    {
        self.next_phase(Event::Withdraw)?;
        self.known(member)?;
        if leaves_too_little(vault.balance(member), amount, self.required(rule, member)) {
            return Err(Refusal::Cover);
        }
        vault.debit(member, amount).map_err(|_| Refusal::Vault)
    }

    // A member's cash comes in.
    pub fn deposit<V: Vault>(&self, vault: &mut V, member: u8, amount: u64) -> Result<(), Refusal>
        ensures does { outcome result (beside (view self.now) (V.cash vault.new)) ≡ depositing (beside (view self.now) (V.cash vault.old)) member amount }
        ensures refused { refusal result ≡ first_that_holds (deposit_refusals (beside (view self.now) (V.cash vault.old)) member amount) }
        ensures history { Continues (beside (view self.now) (V.cash vault.old)) (deposit member amount) (beside (view self.now) (V.cash vault.new)) }
    {
        self.pay_in(vault, member, amount)
    }

    // A member's cash goes out, where enough is left to cover what the member owes.
    pub fn withdraw<V: Vault, R: MarginRule>(
        &self,
        vault: &mut V,
        rule: &R,
        member: u8,
        amount: u64,
    ) -> Result<(), Refusal>
        ensures does { outcome result (beside (view self.now) (V.cash vault.new)) ≡ withdrawing (R.units rule.now) (beside (view self.now) (V.cash vault.old)) member amount }
        ensures refused { refusal result ≡ first_that_holds (withdrawal_refusals (R.units rule.now) (beside (view self.now) (V.cash vault.old)) member amount) }
        ensures history { Continues (beside (view self.now) (V.cash vault.old)) (withdraw (R.units rule.now) member amount) (beside (view self.now) (V.cash vault.new)) }
    {
        self.pay_out(vault, rule, member, amount)
    }
}
