// What the lines of a script ask for.
ghost use Rattle.std.specs.Prelude.{◌≡◌};
ghost use Rattle.grammar.specs.Kinds.{is_call, default_lending};

#[derive(Clone, Copy, Debug, PartialEq, Eq)]
pub enum Command {
    Lend(Lending),
    GasRule,
    HubRule {
        tax: u32,
        share: u32,
    }, // hundredths of a percent
    Open {
        members: u8,
        first_year: u16,
        years: u8,
    },
    Deposit {
        member: u8,
        amount: u64,
    }, // kuruş
    Withdraw {
        member: u8,
        amount: u64,
    }, // kuruş
    List {
        contract: u8,
        price: u32,
        rate: u32,
    }, // kuruş per thousand Sm³, hundredths of a percent
    Halt {
        contract: u8,
    },
    Resume {
        contract: u8,
        price: u32,
    }, // kuruş per thousand Sm³
    Step,
    Requirement {
        member: u8,
    },
    Show(What),
    NotBuilt,
}

impl Command {
    // Whether it calls the house.
    pub fn is_call(self) -> bool
        ensures { result ≡ is_call self }
    {
        !matches!(
            self,
            Command::Lend(_)
                | Command::GasRule
                | Command::HubRule { .. }
                | Command::Show(_)
                | Command::NotBuilt
        )
    }
}

// The lengths of the lent tables, and the vault.
#[derive(Clone, Copy, Debug, PartialEq, Eq)]
pub struct Lending {
    pub orders: usize,
    pub lots: usize,
    pub tape: usize,
    pub results: usize,
    pub vault: VaultKind,
}

// What a script that lends nothing runs on: the greatest house, with 64 members and four years.
impl Default for Lending {
    ghost is_default = { λ lending. lending ≡ default_lending };

    fn default() -> Lending {
        Lending {
            orders: 256,
            lots: 8_192,
            tape: 4_096,
            results: 4_352,
            vault: VaultKind::Table,
        }
    }
}

#[derive(Clone, Copy, Debug, PartialEq, Eq)]
pub enum VaultKind {
    Table,
    Journal { entries: usize },
}

// What can be shown of a house and its vault.
#[derive(Clone, Copy, Debug, PartialEq, Eq)]
pub enum What {
    Orders,
    Lots,
    Tape,
    Results,
    Balances,
    Phase,
}
