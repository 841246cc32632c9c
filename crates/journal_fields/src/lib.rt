//! The fields of a journal's lines, read off their words.
#![tactic(auto)]

mod bys;
mod files;
mod keys;
mod lists;
mod marks;
mod names;
mod numbers;
mod texts;
mod words;

pub use bys::{read_by, read_other_by};
pub use files::read_file;
pub use keys::{cut_word, read_key, read_key_last, read_named_key};
pub use lists::{ReadsItem, read_joined, read_repo_list, rises};
pub use marks::{behind, cut, read_nothing};
pub use names::{read_other, read_repo, read_repo_or_dash, repo_name};
pub use numbers::{read_byte, read_large, read_large_or_dash, read_small, read_small_or_dash};
pub use texts::{is_line_path, is_one_line, read_line};
pub use words::{read_found, read_side};
