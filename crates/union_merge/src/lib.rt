//! The files of a git-annex branch as sets of lines, and their merge.
#![tactic(auto)]

mod branch;
mod crossing;
mod laws;
mod line_set;

pub use branch::Branch;
pub use laws::{
    any_order_of_merges_gives_one_branch, branches_are_told_by_their_files,
    differences_make_the_union, files_are_changed_alone, merges_by_path_have_the_lines_of_both,
    merges_have_the_files_of_both, new_lines_are_taken_off_again, texts_of_sets_read_back,
    unions_have_the_lines_of_both,
};
pub use line_set::{LineSet, is_line};
