// Both vaults on examples.
use crate::{BalanceTable, CEILING, Entry, Journal, Vault};
use std::process::Abort;

// What a credit answers, a refusal by its number.
fn credit<V: Vault>(vault: &mut V, account: u8, amount: u64) -> Result<(), u8> {
    vault.credit(account, amount).map_err(u8::from)
}

// The same of a debit.
fn debit<V: Vault>(vault: &mut V, account: u8, amount: u64) -> Result<(), u8> {
    vault.debit(account, amount).map_err(u8::from)
}

// Where a movement has several faults, the answer is the first in order.
fn refuses_in_order<V: Vault>(rt: &impl Abort, vault: &mut V) {
    assert_eq!(rt; credit(vault, 64, 0), Err(1));
    assert_eq!(rt; debit(vault, 64, CEILING + 1), Err(1));
    assert_eq!(rt; credit(vault, 63, 0), Err(2));
    assert_eq!(rt; debit(vault, 63, 0), Err(2));
    assert_eq!(rt; credit(vault, 63, CEILING + 1), Err(2));
    assert_eq!(rt; debit(vault, 63, CEILING + 1), Err(2));
    assert_eq!(rt; debit(vault, 63, 1), Err(5));
}

// Both sides of the ceiling and of nothing; no other account is touched.
fn moves<V: Vault>(rt: &impl Abort, vault: &mut V) {
    assert_eq!(rt; credit(vault, 7, CEILING - 1), Ok(()));
    assert_eq!(rt; credit(vault, 7, 2), Err(4));
    assert_eq!(rt; credit(vault, 7, 1), Ok(()));
    assert_eq!(rt; vault.balance(7), CEILING);
    assert_eq!(rt; credit(vault, 7, 1), Err(4));
    assert_eq!(rt; debit(vault, 7, CEILING - 5), Ok(()));
    assert_eq!(rt; debit(vault, 7, 6), Err(5));
    assert_eq!(rt; vault.balance(7), 5);
    assert_eq!(rt; debit(vault, 7, 5), Ok(()));
    assert_eq!(rt; vault.balance(7), 0);
    assert_eq!(rt; vault.balance(6), 0);
    assert_eq!(rt; vault.balance(64), 0);
}

#[test]
fn table_refuses_and_moves(rt: HostRuntime) {
    let mut vault = BalanceTable::new();
    refuses_in_order(&rt, &mut vault);
    moves(&rt, &mut vault);
    assert_eq!(rt; vault.left(), None);
}

#[test]
fn journal_refuses_and_moves(rt: HostRuntime) {
    let mut list = [Entry {
        account: 9,
        amount: 9,
    }; 5];
    let mut vault = Journal::new(&mut list);
    assert_eq!(rt; vault.balance(9), 0);
    refuses_in_order(&rt, &mut vault);
    moves(&rt, &mut vault);
    assert_eq!(rt; vault.left(), Some(1));
}

#[test]
fn journal_fills_up(rt: HostRuntime) {
    let mut list = [Entry {
        account: 9,
        amount: 9,
    }; 2];
    let mut vault = Journal::new(&mut list);
    assert_eq!(rt; credit(&mut vault, 3, 40), Ok(()));
    assert_eq!(rt; vault.left(), Some(1));
    assert_eq!(rt; debit(&mut vault, 3, 15), Ok(()));
    assert_eq!(rt; credit(&mut vault, 3, CEILING), Err(3));
    assert_eq!(rt; debit(&mut vault, 3, 26), Err(3));
    assert_eq!(rt; credit(&mut vault, 3, 0), Err(2));
    assert_eq!(rt; vault.balance(3), 25);
    assert_eq!(rt;
        vault.entries(),
        [
            Entry {
                account: 3,
                amount: 40,
            },
            Entry {
                account: 3,
                amount: -15,
            },
        ]
        .as_slice()
    );
}
