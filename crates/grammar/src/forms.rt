// The forms that a line can have, by its first word.
ghost use Rattle.std.specs.Prelude.{◌≡◌, Some};
ghost use Rattle.grammar.specs.Expected.{expected};
ghost use Rattle.grammar.specs.Forms.{form_named};

use std::error::Error;
use std::fmt;

#[derive(Clone, Copy, Debug, PartialEq, Eq)]
pub enum Form {
    Lend,
    Rule,
    Open,
    Deposit,
    Withdraw,
    List,
    Halt,
    Resume,
    Step,
    Requirement,
    Show,
    NotBuilt, // a call that the house does not have yet
    Unknown, // no call has this name
}

// The form of the lines that begin with this word.
impl From<&[u8]> for Form {
    ghost from_gives = { λ word form. form ≡ form_named word.now };

    #[tactic(auto, using(crate::proofs::Spelled::spelled))]
    fn from(word: &[u8]) -> Form {
        match word {
            b"lend" => Form::Lend,
            b"rule" => Form::Rule,
            b"show" => Form::Show,
            b"open" => Form::Open,
            b"deposit" => Form::Deposit,
            b"withdraw" => Form::Withdraw,
            b"step" => Form::Step,
            b"requirement" => Form::Requirement,
            b"list" => Form::List,
            b"halt" => Form::Halt,
            b"resume" => Form::Resume,
            b"order"
            | b"cancel"
            | b"announce"
            | b"cascade"
            | b"close"
            | b"settle"
            | b"estimate"
            | b"calls"
            | b"books" => Form::NotBuilt,
            _ => Form::Unknown,
        }
    }
}

impl Form {
    // What is said of a line that is not of this form.
    fn expected(self) -> &'static str
        ensures { result.now ≡ expected self }
    {
        match self {
            Form::Lend => {
                "expected, as the first line: lend ORDERS LOTS TAPE RESULTS table, or lend ORDERS LOTS TAPE RESULTS journal ENTRIES, each length at most 70000"
            }
            Form::Rule => "expected: rule gas, or rule hub TAX SHARE",
            Form::Open => "expected: open MEMBERS YEAR YEARS",
            Form::Deposit => "expected: deposit MEMBER AMOUNT",
            Form::Withdraw => "expected: withdraw MEMBER AMOUNT",
            Form::List => "expected: list CONTRACT PRICE RATE",
            Form::Halt => "expected: halt CONTRACT",
            Form::Resume => "expected: resume CONTRACT PRICE",
            Form::Step => "expected: step",
            Form::Requirement => "expected: requirement MEMBER",
            Form::Show => "expected: show orders, lots, tape, results, balances or phase",
            Form::NotBuilt => "not built yet",
            Form::Unknown =>
                "expected: lend, rule, open, deposit, withdraw, list, halt, resume, step, requirement or show",
        }
    }
}

impl fmt::Display for Form {
    ghost output = { λ form. Some (expected form) };

    fn fmt<W: fmt::Write>(&self, f: &mut fmt::Formatter<W>) -> fmt::Result {
        f.write_str(self.expected())
    }
}

impl Error for Form {}
