// From a line to what it asks for.
ghost use Rattle.std.specs.Prelude.{◌≡◌};
ghost use Rattle.std.specs.Option.{option_map};
ghost use Rattle.grammar.specs.Forms.{asked, meaning};
ghost use Rattle.grammar.specs.Arguments.{then, ended, vault_kind, lend, rule, what_named};

use crate::commands::{Command, Lending, VaultKind, What};
use crate::forms::Form;
use crate::words::Words;

// What a line asks for, or the form that was expected of it.
impl TryFrom<&[u8]> for Command {
    type Error = Form;

    ghost try_from_gives = { λ line result. result ≡ meaning line.now };

    fn try_from(line: &[u8]) -> Result<Command, Form> {
        let (name, mut words) = Words::split_first(line);
        let form = Form::from(name);
        // A match, since `filter` and `ok_or` would ask the words in a closure, and the check does not see through that alone.
        match command(form, &mut words) {
            Some(command) if words.is_empty() => Ok(command),
            _ => Err(form),
        }
    }
}

// What a line of this form asks for, if its words end where the command does; nothing where they do not fit the form.
fn command(form: Form, words: &mut Words<'_>) -> Option<Command>
    ensures { then result (ended words.new) ≡ asked form words.old }
{
    Some(match form {
        Form::Lend => Command::Lend(Lending {
            orders: words.length()?,
            lots: words.length()?,
            tape: words.length()?,
            results: words.length()?,
            vault: vault_kind(words)?,
        }),
        Form::Rule => rule(words)?,
        Form::Open => Command::Open {
            members: words.number()?,
            first_year: words.number()?,
            years: words.number()?,
        },
        Form::Deposit => Command::Deposit {
            member: words.number()?,
            amount: words.number()?,
        },
        Form::Withdraw => Command::Withdraw {
            member: words.number()?,
            amount: words.number()?,
        },
        Form::List => Command::List {
            contract: words.number()?,
            price: words.number()?,
            rate: words.number()?,
        },
        Form::Halt => Command::Halt {
            contract: words.number()?,
        },
        Form::Resume => Command::Resume {
            contract: words.number()?,
            price: words.number()?,
        },
        Form::Step => Command::Step,
        Form::Requirement => Command::Requirement {
            member: words.number()?,
        },
        Form::Show => Command::Show(what_named(words.next_word()?)?),
        Form::NotBuilt => {
            // The words behind such a name are not read.
            words.skip_all();
            Command::NotBuilt
        }
        Form::Unknown => return None,
    })
}

#[tactic(auto, using(crate::proofs::Spelled::spelled))]
fn vault_kind(words: &mut Words<'_>) -> Option<VaultKind>
    ensures { option_map (λ vault. (vault, words.new)) result ≡ vault_kind words.old }
{
    match words.next_word()? {
        b"table" => Some(VaultKind::Table),
        b"journal" => Some(VaultKind::Journal {
            entries: words.length()?,
        }),
        _ => None,
    }
}

fn rule(words: &mut Words<'_>) -> Option<Command>
    ensures { then result (ended words.new) ≡ rule words.old }
{
    match words.next_word()? {
        b"gas" => Some(Command::GasRule),
        b"hub" => Some(Command::HubRule {
            tax: words.number()?,
            share: words.number()?,
        }),
        _ => None,
    }
}

// An `Option` and no `TryFrom`: what is said of a line is its form, and a word that names nothing has no more to say.
#[tactic(auto, using(crate::proofs::Spelled::spelled))]
fn what_named(word: &[u8]) -> Option<What>
    ensures { result ≡ what_named word.now }
{
    match word {
        b"orders" => Some(What::Orders),
        b"lots" => Some(What::Lots),
        b"tape" => Some(What::Tape),
        b"results" => Some(What::Results),
        b"balances" => Some(What::Balances),
        b"phase" => Some(What::Phase),
        _ => None,
    }
}
