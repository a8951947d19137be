//! Reads a script.
ghost use Rattle.std.specs.Prelude.{◌≡◌, ◌<◌, ◌≤◌, nat_lt, ℕ, ◌+◌, List, [], length, map, IfOk, IfErr, OnOk, Ok, Err, ◌∷◌, ◌++◌};
ghost use Rattle.script_defs.specs.Scripts.{line, act};
ghost use Rattle.script_defs.specs.Sound.{IsSound};
ghost use Rattle.dia_item.specs.KindList.{kind_list};
ghost use Rattle.row_defs.specs.Pieces.{pieces_from, lines_of};
ghost use Rattle.script_defs.specs.Reading.{reading_of, reading_from, nothing_known, known_after, ReadsAs};
ghost use Rattle.script_read.specs.Answering.{after_all, IsReason};
ghost use Rattle.script_read.specs.Knowing.{known_in};
ghost use Rattle.script_read.specs.Statements.{numbered_in, form_in, action_in};

use crate::known::{Earlier, Known};
use crate::line::{LineRead, read_line};
use crate::script::Script;
use crate::statement::{Action, Form, Numbered, Statement};
use dia_edge::{Name, NoMemory};
use dia_item::Kinds;
use dia_text::cut_off;
use row_defs::Cause;
use script_defs::limits::{SCRIPT_LIMIT, SCRIPT_LINES_LIMIT};
use std::alloc::Global;

/// Why a script wasn't read.
#[derive(Clone, Copy, Debug, PartialEq, Eq)]
pub enum ReadErr {
    /// The script is refused.
    Bad {
        /// The first line with a cause, from 1; 257 where the script is too long.
        line: u32,
        /// The line's first cause.
        cause: Cause,
    },
    /// There was no memory.
    NoMemory,
}

impl From<NoMemory> for ReadErr {
    ghost use Rattle.script_read.specs.declared.reader.ReadErr.TheVariants as variants;

    ghost from_gives = { λ _ e. e ≡ variants.NoMemory };

    fn from(_: NoMemory) -> ReadErr {
        ReadErr::NoMemory
    }
}

/// What was read so far.
#[derive(Drop)]
struct Reader {
    known: Known,
    statements: Vec<Numbered>,
}

#[tactic(auto, unfolding(row_defs::specs::Pieces::pieces_from))]
fn has_too_many_lines(bytes: &[u8]) -> bool
    requires { length bytes.now ≤ SCRIPT_LIMIT }
    ensures { result ≡ nat_lt SCRIPT_LINES_LIMIT (length (lines_of bytes.now)) }
{
    let mut rest = bytes;
    let mut lines = 0u32;
    while !rest.is_empty() {
        let (_, more) = cut_off(b'\n', rest);
        rest = more;
        lines += 1;
    }
    lines > SCRIPT_LINES_LIMIT
}

impl Reader {
    fn add_line(&mut self, n: u32, name: Name, form: Form, kinds: Kinds) -> Result<(), NoMemory>
        ensures known { OnOk result (known_in self.new.known ≡ known_after (known_in self.old.known) n (line name (form_in form)) (kind_list kinds)) }
        ensures statements { OnOk result (map numbered_in self.new.statements.items
            ≡ map numbered_in self.old.statements.items ++ record { number = n; statement = line name (form_in form) } ∷ []) }
    {
        self.known.lines.push(Earlier {
            number: n,
            name: name.copy()?,
            kinds,
        })?;
        self.statements.push(Numbered {
            line: n,
            statement: Statement::Line { name, form },
        })?;
        Ok(())
    }

    fn add_action(&mut self, n: u32, action: Action) -> Result<(), NoMemory>
        ensures known { OnOk result (known_in self.new.known ≡ known_after (known_in self.old.known) n (act (action_in action)) []) }
        ensures statements { OnOk result (map numbered_in self.new.statements.items
            ≡ map numbered_in self.old.statements.items ++ record { number = n; statement = act (action_in action) } ∷ []) }
    {
        self.statements.push(Numbered {
            line: n,
            statement: Statement::Act(action),
        })?;
        Ok(())
    }

    /// Reads one more line, the script's line `n`.
    #[tactic(auto, unfolding(script_defs::specs::Reading::reading_from))]
    fn take(&mut self, alloc: Global, n: u32, line: &[u8]) -> Result<(), ReadErr>
        ensures ok { OnOk result ((more : List (List ℕ)) →
            after_all (map numbered_in self.old.statements.items) (reading_from (known_in self.old.known) n (line.now ∷ more))
            ≡ after_all (map numbered_in self.new.statements.items) (reading_from (known_in self.new.known) (n + 1) more)) }
        ensures refused { IfErr result (λ e. (more : List (List ℕ)) → IsReason e (reading_from (known_in self.old.known) n (line.now ∷ more))) }
    {
        match read_line(alloc, &self.known, line)? {
            LineRead::Skipped => Ok(()),
            LineRead::Refused(cause) => Err(ReadErr::Bad { line: n, cause }),
            LineRead::Line { name, form, kinds } => Ok(self.add_line(n, name, form, kinds)?),
            LineRead::Act(action) => Ok(self.add_action(n, action)?),
        }
    }
}

/// Reads a script: at most 256 lines of 512 bytes, one statement a line, empty lines and lines that begin with `#`
/// passed over.
#[tactic(auto, unfolding(script_defs::specs::Reading::reading_of))]
pub fn read_script(alloc: Global, bytes: &[u8]) -> Result<Script, ReadErr>
    ensures ok { IfOk result (λ script. ReadsAs bytes.now script) }
    ensures sound { IfOk result (λ script. IsSound nothing_known 1 script) }
    ensures refused { IfErr result (λ e. IsReason e (reading_of bytes.now)) }
{
    if bytes.len() > SCRIPT_LIMIT || has_too_many_lines(bytes) {
        return Err(ReadErr::Bad {
            line: SCRIPT_LINES_LIMIT + 1,
            cause: Cause::ScriptLong,
        });
    }
    read_lines(alloc, bytes)
}

fn read_lines(alloc: Global, bytes: &[u8]) -> Result<Script, ReadErr>
    requires { length bytes.now ≤ SCRIPT_LIMIT }
    ensures ok { IfOk result (λ script. reading_from nothing_known 1 (lines_of bytes.now) ≡ Ok script) }
    ensures sound { IfOk result (λ script. IsSound nothing_known 1 script) }
    ensures refused { IfErr result (λ e. IsReason e (reading_from nothing_known 1 (lines_of bytes.now))) }
{
    let mut reader = Reader {
        known: Known {
            lines: Vec::new(alloc),
        },
        statements: Vec::new(alloc),
    };
    let mut rest = bytes;
    let mut n = 1;
    while !rest.is_empty() {
        let (line, more) = cut_off(b'\n', rest);
        reader.take(alloc, n, line)?;
        rest = more;
        n += 1;
    }
    Ok(Script::of(reader.statements))
}
