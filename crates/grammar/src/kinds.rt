// The kinds of lines: copied ones, and a first line that lends.
ghost use Rattle.std.specs.Prelude.{◌≡◌};
ghost use Rattle.grammar.specs.Kinds.{is_copied, begun_after, lent};
ghost use Rattle.grammar.specs.Words.{lines};

use crate::commands::{Command, Lending};
use crate::words::Lines;

// Whether a line is copied as it stands, and does nothing else.
pub fn is_copied(line: &[u8]) -> bool
    ensures { result ≡ is_copied line.now }
{
    matches!(line, [] | [b'#', ..])
}

// The lengths and the vault that a script runs on: its first line that is not copied may lend them.
pub fn lent_by(script: &[u8]) -> Lending
    ensures { result ≡ lent (lines script.now) }
{
    let first = Lines::new(script).find(|line| !is_copied(line));
    match first.map(Command::try_from) {
        Some(Ok(Command::Lend(lending))) => lending,
        _ => Lending::default(),
    }
}

// Whether a line that is not copied has come, with this one.
pub fn begun_after(begun: bool, line: &[u8]) -> bool
    ensures { result ≡ begun_after begun line.now }
{
    begun || !is_copied(line)
}
