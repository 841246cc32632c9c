//! What holds of every line and every word: each law is the contract of a function that does nothing.
ghost use Rattle.std.specs.Prelude.{◌≡◌, ◌≢◌, ◌<◌, ◌≤◌, ◌^◌, ◌↔◌, ◌++◌, List, [], Some, ℕ, true, length, codes};
ghost use Rattle.std.specs.Fmt.{decimal};
ghost use Rattle.std.specs.Str.{is_utf8};
ghost use Rattle.script_words.specs.Contents.{content_of, Describes};
ghost use Rattle.annex_base.specs.declared.kinds.Call.{Call};
ghost use Rattle.annex_base.specs.declared.kinds.Level.{Level};
ghost use Rattle.script_words.specs.Fields.{level_word, level_of, call_word, call_of, greatest_offset, offset_of, clock_of, version_of};
ghost use Rattle.script_words.specs.Numbers.{number_up_to};
ghost use Rattle.script_words.specs.Places.{LineWord};
ghost use Rattle.script_words.specs.declared.words.NextWord.TheVariants.{NoWord, BadWord, Word};
ghost use Rattle.script_words.specs.Words.{IsAhead, after_spaces, is_break, next_word, rest_word, printed_word};
ghost use Rattle.script_words.specs.Spelling.{Spells, IsNext, IsBlank};

/// A word is found behind the place from which it is looked for, and within its line.
pub fn words_are_ahead()
    ensures next { (line : List ℕ) (place : ℕ) → place ≤ length line → IsAhead (record { line = line; place = place }) (next_word line place) }
    ensures rest { (line : List ℕ) (place : ℕ) → place ≤ length line → IsAhead (record { line = line; place = place }) (rest_word line place) }
{}

/// A word is found exactly where one is written, none exactly where only spaces are left, and a wrong one is told where
/// it begins.
pub fn words_are_as_written()
    ensures word { (line : List ℕ) (place : ℕ) (word : LineWord) → (next_word line place ≡ Word word) ↔ IsNext line place word }
    ensures none { (line : List ℕ) (place : ℕ) → (next_word line place ≡ NoWord) ↔ IsBlank line place }
    ensures wrong { (line : List ℕ) (place at : ℕ) → next_word line place ≡ BadWord at → at ≡ after_spaces line place }
{}

/// A word of a line is printed as one that says the same, unless it is empty.
pub fn printed_words_say_the_same()
    ensures { (spelled text : List ℕ) → Spells spelled text → text ≢ [] → Spells (printed_word text) text }
{}

/// A word of a line, printed before a space or a line's end, is read back as itself.
pub fn printed_words_are_read_back()
    ensures { (spelled text rest : List ℕ) → Spells spelled text → text ≢ [] → is_utf8 text ≡ true → is_break rest ≡ true → next_word (printed_word text ++ rest) 0 ≡ Word (record { place = 0; text = text; after = length (printed_word text) }) }
{}

/// A number up to a bound is read exactly from its decimal text.
pub fn numbers_are_decimal()
    ensures { (greatest n : ℕ) (word : List ℕ) → greatest < 2 ^ 64 → (number_up_to greatest word ≡ Some n) ↔ ((word ≡ decimal n) × (n ≤ greatest)) }
{}

/// A content is read exactly from the words that describe it.
pub fn contents_are_as_described()
    ensures { (word content : List ℕ) → (content_of word ≡ Some content) ↔ Describes word content }
{}

/// A level of trust and a call of a store have one word each.
pub fn levels_and_calls_have_one_word()
    ensures level { (word : List ℕ) (level : Level) → (level_of word ≡ Some level) ↔ (word ≡ level_word level) }
    ensures call { (word : List ℕ) (call : Call) → (call_of word ≡ Some call) ↔ (word ≡ call_word call) }
{}

/// Options are read exactly from their words; times are milliseconds.
pub fn options_are_as_written()
    ensures offset { (word : List ℕ) (time : ℕ) → (offset_of word ≡ Some time) ↔ ((word ≡ codes "offset=" ++ decimal time) × (time ≤ greatest_offset)) }
    ensures clock { (word : List ℕ) (time : ℕ) → (clock_of word ≡ Some time) ↔ ((word ≡ codes "clock=" ++ decimal time) × (time ≤ greatest_offset)) }
    ensures version { (word : List ℕ) (version : ℕ) → (version_of word ≡ Some version) ↔ ((word ≡ codes "version=" ++ decimal version) × (1 ≤ version) × (version ≤ 3)) }
{}
