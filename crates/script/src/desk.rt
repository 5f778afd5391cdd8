// The desk that a script is answered at.
ghost use Rattle.std.specs.Prelude.{◌≡◌, [], ◌∷◌, ◌++◌, if◌then◌else◌, ◌&&◌, not, codes, OnOk, IfSome};
ghost use Rattle.std.specs.Iterator.{IsFinite};
ghost use Rattle.script.specs.Answers.{is_bad};
ghost use Rattle.script.specs.Texts.{answer_text};

use crate::answers::{Reply, Trouble};
use std::alloc::{AllocError, Global};
use std::fmt;

#[derive(Drop)]
pub(crate) struct Desk {
    heap: Global,
    quiet: bool, // only bad lines are written
    pub(crate) output: Vec<u8>,
}

impl Desk {
    pub(crate) fn new(heap: Global, quiet: bool) -> Desk {
        Desk {
            heap,
            quiet,
            output: Vec::new(heap),
        }
    }

    // Copies a line to the output as it stands.
    pub(crate) fn copy(&mut self, line: &[u8]) -> Result<(), AllocError>
        ensures { OnOk result (self.new.output.items ≡ (if self.old.quiet then self.old.output.items else (self.old.output.items ++ line.now) ++ 10 ∷ [])) }
    {
        if self.quiet {
            return Ok(());
        }
        self.output.extend_from_slice(line)?;
        self.end_line()
    }

    // Writes a line and its answer.
    pub(crate) fn reply(
        &mut self,
        line: &[u8],
        answer: Result<Reply, Trouble>,
    ) -> Result<(), AllocError>
        ensures { OnOk result (self.new.output.items ≡ (if self.old.quiet && not (is_bad answer) then self.old.output.items else ((self.old.output.items ++ line.now) ++ codes " : " ++ answer_text answer) ++ 10 ∷ [])) }
    {
        if self.quiet && !matches!(answer, Err(Trouble::Bad(_))) {
            return Ok(());
        }
        self.output.extend_from_slice(line)?;
        match answer {
            Ok(reply) => self.write_line(format_args!(" : {reply}")),
            Err(trouble) => self.write_line(format_args!(" : {trouble}")),
        }
    }

    // Writes records, each on a line that begins with two spaces.
    pub(crate) fn list<T: fmt::Display + Drop, I: Iterator<Item = T> + Drop>(
        &mut self,
        records: I,
    ) -> Result<(), AllocError>
        requires can { I.can_next records }
        requires ends { IsFinite (I.remaining records) }
    {
        if self.quiet {
            return Ok(());
        }
        for record in records {
            self.write_line(format_args!("  {record}"))?;
        }
        Ok(())
    }

    // Writes a line of its own.
    pub(crate) fn write_line<T: fmt::Display + Drop>(&mut self, text: T) -> Result<(), AllocError>
        ensures { OnOk result (IfSome (T.output text) (λ bytes. self.new.output.items ≡ (self.old.output.items ++ bytes) ++ 10 ∷ [])) }
    {
        let text = format!(in self.heap; "{text}")?;
        self.output.extend_from_slice(text.as_bytes())?;
        self.end_line()
    }

    fn end_line(&mut self) -> Result<(), AllocError>
        ensures { OnOk result (self.new.output.items ≡ self.old.output.items ++ 10 ∷ []) }
    {
        self.output.push(b'\n')?;
        Ok(())
    }
}
