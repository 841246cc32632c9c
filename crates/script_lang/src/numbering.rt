//! On which lines of a text its commands stand.
ghost use Rattle.std.specs.Prelude.{◌≡◌, ◌<◌, ◌^◌, ◌++◌, ◌∷◌, [], List, ℕ, true, false, IfOk, OnOk, Ok, map, length, if◌then◌else◌};
ghost use Rattle.script_lang.specs.Numbering.{line_numbers, numbers_by, numbers_from, numbers_then};
ghost use Rattle.script_lang.specs.Script.{line_step, no_lines};
ghost use Rattle.script_lang.specs.Script.{State as SpecState};

use crate::script::cut_lines;
use crate::state::State;
use annex_base::NoMemory;
use script_forms::LineFault;
use std::alloc::Global;

/// The numbers of the lines, from 1, on which the commands of a text stand, up to its first fault; for a block that of
/// its `par`. It reads the text again.
#[tactic(auto, unfolding(crate::specs::Numbering::line_numbers))]
pub fn line_numbers(alloc: Global, bytes: &[u8]) -> Result<Vec<u64>, NoMemory>
    ensures { IfOk result (λ v. v.items ≡ line_numbers bytes.now) }
{
    let lines = cut_lines(alloc, bytes)?;
    numbers_of(alloc, &lines)
}

fn push_if(numbers: &mut Vec<u64>, more: bool, number: u64) -> Result<(), NoMemory>
    ensures { OnOk result (numbers.new.items ≡ numbers.old.items ++ (if more then number ∷ [] else [])) }
{
    if more {
        numbers.push(number)?;
    }
    Ok(())
}

/// Takes the line of this number, and notes on which line the command stands that it adds, if it adds one; tells whether
/// the line is right.
fn note_line(
    numbers: &mut Vec<u64>,
    state: &mut State,
    alloc: Global,
    number: u64,
    line: &[u8],
) -> Result<bool, NoMemory>
    ensures line { IfOk result (λ right. right ≡ true → line_step state.old number line.now ≡ Ok state.new) }
    ensures added { IfOk result (λ right. right ≡ true → numbers.new.items ≡ numbers.old.items ++ numbers_by state.old number state.new) }
    ensures wrong { IfOk result (λ right. right ≡ false → (others : SpecState → List ℕ) → numbers_then state.old number (line_step state.old number line.now) others ≡ []) }
    ensures same { IfOk result (λ right. right ≡ false → numbers.new.items ≡ numbers.old.items) }
{
    let begun = state.begun(number);
    let count = state.count();
    match state.take_line(alloc, number, line) {
        Ok(()) => {
            push_if(numbers, count < state.count(), begun)?;
            Ok(true)
        }
        Err(LineFault::Wrong { .. }) => Ok(false),
        Err(LineFault::Past { .. }) => Ok(false),
        Err(LineFault::NoMemory) => Err(NoMemory),
    }
}

fn numbers_of(alloc: Global, lines: &[&[u8]]) -> Result<Vec<u64>, NoMemory>
    requires { length lines.now < 2 ^ 63 }
    ensures { IfOk result (λ v. v.items ≡ numbers_from no_lines 1 (map (λ w. w.now) lines.now)) }
{
    let mut state = State::new(alloc)?;
    let mut numbers = Vec::new(alloc);
    for (i, line) in lines.iter().enumerate() {
        if !note_line(&mut numbers, &mut state, alloc, i as u64 + 1, line)? {
            return Ok(numbers);
        }
    }
    Ok(numbers)
}
