//! What the lines so far say, and one line more.
ghost use Rattle.std.specs.Prelude.{◌≡◌, IfOk, IfErr, None, length};
ghost use Rattle.std.specs.List.{suffix_len};
ghost use Rattle.annex_base.specs.Lines.{is_not_space};
ghost use Rattle.script_forms.specs.Answers.{Gives, Reads};
ghost use Rattle.script_lang.specs.Numbering.{begun_by};
ghost use Rattle.script_lang.specs.Script as spec;
ghost use Rattle.script_lang.specs.Script.{line_verb_at, with_command, no_lines};

use crate::applying::apply;
use crate::forms::read_command;
use crate::limits::first_limit;
use annex_base::{Items, NoMemory};
use annex_key::Tree;
use script_commands::{Agendum, Command};
use script_forms::{Context, LineFault, LineVerb, Verb};
use script_jobs::read_block_line;
use script_steps::{end, next_word, wrong, wrong_form, wrong_word};
use script_words::Words;
use std::alloc::Global;
use std::collections::BTreeSet;
use std::marker::Model;

/// The lines of an open block, and the number of the line that began it.
#[derive(Drop)]
pub struct Block {
    pub number: u64,
    pub lines: Items<Agendum>,
}

/// What the lines so far say.
#[derive(Drop)]
pub struct State {
    context: Context,
    commands: Vec<Command>,
    block: Option<Block>,
}

impl Model for State {
    ghost use Rattle.script_lang.specs.Script.{State};

    ghost Value = { State };

    ghost view = { λ s. record { context = s.context; commands = s.commands.items; block = s.block } };
}

/// What a line begins with.
fn line_verb(words: &mut Words<'_>) -> Result<LineVerb, LineFault>
    ensures { Reads (λ v. v) result words.new (line_verb_at words.old) }
{
    let word = next_word(words)?;
    match LineVerb::named(word.text()) {
        Some(verb) => Ok(verb),
        None => Err(wrong_word(&word)),
    }
}

impl State {
    /// Before the first line.
    pub fn new(alloc: Global) -> Result<State, NoMemory>
        ensures { IfOk result (λ s. s ≡ no_lines) }
    {
        let context = Context {
            repos: Vec::new(alloc),
            closed: false,
            tree: Tree::new(alloc)?,
            files: 0,
            placed: BTreeSet::new(alloc),
            contents: 0,
            waited: 0,
        };
        Ok(State {
            context,
            commands: Vec::new(alloc),
            block: None,
        })
    }

    /// How many commands there are.
    pub fn count(&self) -> usize
        ensures { result ≡ length self.now.commands }
    {
        self.commands.len()
    }

    /// The number of the line that began what a line ends: that of the open block, or its own.
    pub fn begun(&self, number: u64) -> u64
        ensures { result ≡ begun_by self.now.block number }
    {
        match &self.block {
            None => number,
            Some(block) => block.number,
        }
    }

    /// One command more, outside a block.
    #[tactic(auto, unfolding(crate::specs::Script::with_command))]
    fn accept(&mut self, alloc: Global, command: Command) -> Result<(), LineFault>
        requires { self.old.block ≡ None }
        ensures { Gives (λ _. self.new) result (with_command self.old.context self.old.commands command) }
    {
        if let Some(quantity) = first_limit(&self.context, &command) {
            return Err(LineFault::Past { quantity });
        }
        apply(&mut self.context, alloc, &command)?;
        self.commands.push(command)?;
        Ok(())
    }

    /// A line that stands in no block, from behind its first word on.
    #[tactic(auto, unfolding(crate::specs::Script::line_outside))]
    fn line_outside(
        &mut self,
        alloc: Global,
        number: u64,
        verb: LineVerb,
        words: &mut Words<'_>,
    ) -> Result<(), LineFault>
        requires { self.old.block ≡ None }
        ensures { Gives (λ _. self.new) result (spec.line_outside self.old.context self.old.commands number verb words.old) }
    {
        match verb {
            LineVerb::Par => {
                end(words)?;
                self.block = Some(Block {
                    number,
                    lines: Items::new(alloc),
                });
                Ok(())
            }
            LineVerb::End => Err(wrong_form(words)),
            LineVerb::Says(verb) => {
                let command = read_command(verb, alloc, &self.context, words)?;
                self.accept(alloc, command)
            }
        }
    }

    /// A line of a block, from behind its first word on.
    #[tactic(auto, unfolding(crate::specs::Script::line_inside))]
    fn line_inside(
        &mut self,
        alloc: Global,
        block: Block,
        verb: LineVerb,
        words: &mut Words<'_>,
    ) -> Result<(), LineFault>
        requires { self.old.block ≡ None }
        ensures { Gives (λ _. self.new) result (spec.line_inside self.old.context self.old.commands block verb words.old) }
    {
        let Block { number, mut lines } = block;
        match verb {
            LineVerb::End => {
                end(words)?;
                self.accept(alloc, Command::Par { lines })
            }
            LineVerb::Says(Verb::InBlock(verb)) => {
                let line = read_block_line(verb, alloc, &self.context, words)?;
                lines.push(line)?;
                self.block = Some(Block { number, lines });
                Ok(())
            }
            _ => Err(wrong_form(words)),
        }
    }

    /// A line of words.
    #[tactic(auto, unfolding(crate::specs::Script::words_line))]
    fn words_line(&mut self, alloc: Global, number: u64, line: &[u8]) -> Result<(), LineFault>
        ensures { Gives (λ _. self.new) result (spec.words_line self.old number line.now) }
    {
        let mut words = Words::new(line);
        let verb = line_verb(&mut words)?;
        match self.block.take() {
            None => self.line_outside(alloc, number, verb, &mut words),
            Some(block) => self.line_inside(alloc, block, verb, &mut words),
        }
    }

    /// The line of this number.
    #[tactic(auto, unfolding(crate::specs::Script::line_step))]
    pub fn take_line(&mut self, alloc: Global, number: u64, line: &[u8]) -> Result<(), LineFault>
        ensures { Gives (λ _. self.new) result (spec.line_step self.old number line.now) }
    {
        if !is_skipped(line) {
            return self.words_line(alloc, number, line);
        }
        comment(line)
    }

    /// The commands, or the number of the line whose block isn't ended.
    pub fn finish(self) -> Result<Vec<Command>, u64>
        ensures ok { IfOk result (λ v. spec.ended_by self.commands self.block ≡ spec.Commands v.items) }
        ensures err { IfErr result (λ number. spec.ended_by self.commands self.block ≡ spec.BadLine number 0) }
    {
        let State {
            context: _,
            commands,
            block,
        } = self;
        match block {
            None => Ok(commands),
            Some(block) => Err(block.number),
        }
    }
}

/// An empty line, or a comment.
fn is_skipped(line: &[u8]) -> bool
    ensures { result ≡ spec.is_skipped line.now }
{
    match line.first() {
        None => true,
        Some(b) => *b == b'#',
    }
}

/// A comment.
#[tactic(auto, unfolding(crate::specs::Script::comment_at))]
fn comment(line: &[u8]) -> Result<(), LineFault>
    ensures { Gives (λ _. tt) result (spec.comment_at line.now) }
{
    match str::from_utf8(line) {
        Ok(_) => Ok(()),
        Err(stop) => {
            let (before, _) = line.split_at(stop.valid_up_to());
            Err(wrong(last_word(before)))
        }
    }
}

/// The length of the last word of the bytes.
fn last_len(bytes: &[u8]) -> usize
    ensures { result ≡ suffix_len is_not_space bytes.now }
{
    bytes.iter().rev().take_while(|b| **b != b' ').count()
}

/// The place of the last word of the bytes.
fn last_word(bytes: &[u8]) -> usize
    ensures { result ≡ spec.last_word bytes.now }
{
    let length = last_len(bytes);
    bytes.len() - length
}
