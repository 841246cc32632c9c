//! Whole scripts.
ghost use Rattle.std.specs.Prelude.{◌≡◌, ◌<◌, ◌^◌, IfOk, IfErr, OnOk, Ok, map, length};
ghost use Rattle.script_lang.specs.Script.{IsReading, IsFault, Reading, reading, lines_of, lines_reading, line_step, goes_on, ended_by, no_lines};
ghost use Rattle.script_lang.specs.Script.{State as SpecState};

use crate::state::State;
use script_commands::Command;
use script_forms::{LineFault, ScriptFault};
use std::alloc::{AllocError, Global};
use std::marker::Model;

/// A script, which contracts see as the list of its commands (own).
#[derive(Drop)]
pub struct Script {
    commands: Vec<Command>,
}

impl Model for Script {
    ghost use Rattle.std.specs.Prelude.{List};
    ghost use Rattle.script_commands.specs.declared.command.Command.{Command};

    ghost Value = { List Command };

    ghost view = { λ s. s.commands.items };
}

/// The lines of a text.
pub fn cut_lines(alloc: Global, bytes: &[u8]) -> Result<Vec<&[u8]>, AllocError>
    ensures { IfOk result (λ v. map (λ w. w.now) v.items ≡ lines_of bytes.now) }
{
    bytes.split(|b| *b == b'\n').collect(alloc)
}

/// The line of this number, with its fault as that of a script.
fn take_line(state: &mut State, alloc: Global, number: u64, line: &[u8]) -> Result<(), ScriptFault>
    ensures ok { OnOk result (line_step state.old number line.now ≡ Ok state.new) }
    ensures err { IfErr result (λ e. (others : SpecState → Reading) → IsFault e (goes_on number (line_step state.old number line.now) others)) }
{
    match state.take_line(alloc, number, line) {
        Ok(()) => Ok(()),
        Err(LineFault::Wrong { byte }) => Err(ScriptFault::BadLine { line: number, byte }),
        Err(LineFault::Past { quantity }) => Err(ScriptFault::TooMuch { quantity }),
        Err(LineFault::NoMemory) => Err(ScriptFault::NoMemory),
    }
}

/// The commands, if no block is left open.
fn finish(state: State) -> Result<Vec<Command>, ScriptFault>
    ensures { IsReading (λ v. v.items) result (ended_by state.commands state.block) }
{
    match state.finish() {
        Ok(commands) => Ok(commands),
        Err(line) => Err(ScriptFault::BadLine { line, byte: 0 }),
    }
}

/// What the lines say.
fn read_lines(alloc: Global, lines: &[&[u8]]) -> Result<Vec<Command>, ScriptFault>
    requires { length lines.now < 2 ^ 63 }
    ensures { IsReading (λ v. v.items) result (lines_reading no_lines 1 (map (λ w. w.now) lines.now)) }
{
    let mut state = State::new(alloc)?;
    for (i, line) in lines.iter().enumerate() {
        take_line(&mut state, alloc, i as u64 + 1, line)?;
    }
    finish(state)
}

impl Script {
    /// The script that the text spells, all of the text, or its first fault or the first limit that it passes.
    #[tactic(auto, unfolding(crate::specs::Script::reading))]
    pub fn parse(alloc: Global, bytes: &[u8]) -> Result<Script, ScriptFault>
        ensures { IsReading (λ s. s) result (reading bytes.now) }
    {
        let lines = cut_lines(alloc, bytes)?;
        let commands = read_lines(alloc, &lines)?;
        Ok(Script { commands })
    }

    /// The commands in the order of their lines.
    pub fn lines(&self) -> &[Command]
        ensures { result.now ≡ self.now }
    {
        &self.commands
    }
}
