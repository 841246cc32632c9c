//! The words of a script's line: how a line is cut into them, what single words say, and how one is printed.
#![tactic(auto)]

mod content;
mod crossing;
mod fields;
mod filling;
mod key_word;
mod laws;
mod marks;
mod numbers;
mod printing;
mod utf8;
mod words;

pub use content::Content;
pub use fields::{
    call_text, is_group, is_name, is_nolock, is_path, is_word, level_text, read_call, read_clock,
    read_id, read_level, read_offset, read_version,
};
pub use key_word::{KeyWord, read_key_word};
pub use laws::{
    contents_are_as_described, levels_and_calls_have_one_word, numbers_are_decimal,
    options_are_as_written, printed_words_are_read_back, printed_words_say_the_same,
    words_are_ahead, words_are_as_written,
};
pub use numbers::read_number;
pub use printing::put_word;
pub use words::{LineWord, NextWord, Words};
