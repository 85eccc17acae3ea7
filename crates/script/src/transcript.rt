// What is printed of a whole script.
ghost use Rattle.std.specs.Prelude.{◌≡◌, ℕ, [], ◌∷◌, ◌++◌, IfOk, string_bytes, OnOk};
ghost use Rattle.model.specs.Tables.{fresh};
ghost use Rattle.text.specs.Lines.{lines};
ghost use Rattle.scanner.specs.Legal.{scanned};
ghost use Rattle.script.specs.Answered.{AnswersCalls};
ghost use Rattle.script.specs.Sessions.{begun, session_read, IsSession, Session};
ghost use Rattle.script.specs.Steps.{Promised, Does, keys_layout};
ghost use Rattle.script.specs.Transcript.{line_said, printed, transcript};

use crate::commands::{Keys, Script};
use refusal::Refusal;
use scanner::{Command, scan};
use std::alloc::{AllocError, Global};
use std::fmt::Write;
use text::LineReader;

// The most bytes that a script has.
pub(crate) const MOST_BYTES: usize = 65536;

impl Script<Keys> {
    // Carries out what was read of a line: its command, or how much of it begins a legal line.
    fn carry_out_read(&mut self, read: Result<Command, usize>) -> Result<(), AllocError>
        ensures { Does keys_layout self.old result self.new (λ t. line_said t read) (λ s. session_read s read) }
    {
        match read {
            Ok(command) => self.carry_out(command),
            Err(length) => write!(self.out, "{}", Refusal::LineNotLegal(length as u64)),
        }
    }

    // Carries out a line, and ends the line that is printed of it.
    fn carry_out_line(&mut self, line: &[u8]) -> Result<(), AllocError>
        ensures { Does keys_layout self.old result self.new (λ t. line_said t (scanned line.now) ++ (10 ∷ [])) (λ s. session_read s (scanned line.now)) }
    {
        self.carry_out_read(scan(line))?;
        self.out.push_str("\n")
    }

    // Carries out the lines of a script that is not begun, one after another.
    fn carry_out_lines(&mut self, text: &[u8]) -> Result<(), AllocError>
        ensures { Promised (begun 0) (keys_layout self.old.table) → OnOk result ((string_bytes self.new.out ≡ string_bytes self.old.out ++ printed (fresh 0) (lines text.now)) × ((s : Session) × IsSession (lines text.now) s × Promised s (keys_layout self.new.table))) }
    {
        for line in LineReader::new(text) {
            self.carry_out_line(line)?;
        }
        Ok(())
    }
}

// What a script prints: a line for each line of `input`, which is carried out on a table that has no keys at
// first; or one refusal where the input is too long.
pub fn transcribe(heap: Global, input: &[u8]) -> Result<String, AllocError>
    ensures text { IfOk result (λ out. string_bytes out ≡ transcript input.now) }
    ensures calls { IfOk result (λ out. AnswersCalls input.now (string_bytes out)) }
{
    if input.len() > MOST_BYTES {
        return format!(in heap; "{}\n", Refusal::LineNotLegal(MOST_BYTES as u64));
    }
    let mut script = Script::new(heap);
    script.carry_out_lines(input)?;
    Ok(script.out)
}
