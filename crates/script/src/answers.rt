// What a line is answered: a reply, or why there is none.
ghost use Rattle.std.specs.Prelude.{◌≡◌, Some};
ghost use Rattle.script.specs.declared.answers.Trouble.TheVariants.{Refused, Bad};
ghost use Rattle.script.specs.Texts.{reply_text, trouble_text};

use grammar::Form;
use market::{Phase, Refusal};
use std::error::Error;
use std::fmt;

#[derive(Clone, Copy, PartialEq, Eq, Debug)]
pub(crate) enum Reply {
    Done,
    Figure(u64), // a requirement in kuruş, or how many records follow
    Now(Phase),
}

impl fmt::Display for Reply {
    ghost output = { λ reply. Some (reply_text reply) };

    fn fmt<W: fmt::Write>(&self, f: &mut fmt::Formatter<W>) -> fmt::Result {
        match self {
            Reply::Done => f.write_str("ok"),
            Reply::Figure(figure) => write!(f, "ok {figure}"),
            Reply::Now(phase) => write!(f, "ok {phase}"),
        }
    }
}

#[derive(Clone, Copy, PartialEq, Eq, Debug)]
pub(crate) enum Trouble {
    Refused(Refusal),
    Bad(Form),
}

impl fmt::Display for Trouble {
    ghost output = { λ trouble. Some (trouble_text trouble) };

    fn fmt<W: fmt::Write>(&self, f: &mut fmt::Formatter<W>) -> fmt::Result {
        match self {
            Trouble::Refused(refusal) => {
                let number = u8::from(*refusal);
                let spot = refusal.spot();
                write!(f, "no {number} {spot} ({refusal})")
            }
            Trouble::Bad(form) => write!(f, "bad ({form})"),
        }
    }
}

impl Error for Trouble {}

impl From<Refusal> for Trouble {
    ghost from_gives = { λ refusal trouble. trouble ≡ Refused refusal };

    fn from(refusal: Refusal) -> Trouble {
        Trouble::Refused(refusal)
    }
}

impl From<Form> for Trouble {
    ghost from_gives = { λ form trouble. trouble ≡ Bad form };

    fn from(form: Form) -> Trouble {
        Trouble::Bad(form)
    }
}
