//! Laws on readings: each is the contract of a function that does nothing.
ghost use Rattle.std.specs.Prelude.{◌≡◌, ◌≢◌, ◌⊎◌, ◌+◌, ◌++◌, ◌∷◌, List, ℕ, length, Ok, Err, None};
ghost use Rattle.annex_base.specs.Lines.{newline};
ghost use Rattle.script_forms.specs.declared.fault.LineFault.{LineFault};
ghost use Rattle.script_forms.specs.declared.fault.LineFault.TheVariants.{NoMemory};
ghost use Rattle.script_lang.specs.Laws.{behind_lines, HasCommands, HasBadLine, PassesLimit, AtMostOne};
ghost use Rattle.script_lang.specs.Script.{State, line_step, lines_of, lines_reading, no_lines, fault_of, reading, Commands};

/// The first line that is wrong, or passes a limit, is told, whatever follows it.
pub fn first_faults_are_told()
    ensures { (before more : List (List ℕ)) (line : List ℕ) (state : State) (fault : LineFault) → behind_lines no_lines 1 before ≡ Ok state → line_step state (length before + 1) line ≡ Err fault → lines_reading no_lines 1 (before ++ line ∷ more) ≡ fault_of (length before + 1) fault }
{}

/// Where a line of a text is wrong, or passes a limit, what follows the text doesn't change what it says.
pub fn later_lines_change_no_fault()
    ensures { (text more : List ℕ) (fault : LineFault) → behind_lines no_lines 1 (lines_of text) ≡ Err fault → reading (text ++ newline ∷ more) ≡ reading text }
{}

/// Lines of which none is wrong or passes a limit, and which leave no block open, say their commands.
pub fn right_lines_say_their_commands()
    ensures { (lines : List (List ℕ)) (state : State) → behind_lines no_lines 1 lines ≡ Ok state → state.block ≡ None → lines_reading no_lines 1 lines ≡ Commands state.commands }
{}

/// A line is right, wrong at a byte or past a limit: whatever the lines before it said, it never says that memory ran out.
pub fn lines_never_want_memory()
    ensures { (state : State) (number : ℕ) (line : List ℕ) → line_step state number line ≢ Err NoMemory }
{}

/// Each text is a script, has a first line that is wrong, or passes a limit; and no text is two of these.
pub fn each_text_says_one_thing()
    ensures some { (text : List ℕ) → HasCommands text ⊎ (HasBadLine text ⊎ PassesLimit text) }
    ensures one { (text : List ℕ) → AtMostOne (HasCommands text) (HasBadLine text) (PassesLimit text) }
{}
