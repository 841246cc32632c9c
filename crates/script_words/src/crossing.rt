//! Which types go from thread to thread.
use crate::content::Content;
use crate::key_word::KeyWord;
use crate::words::{LineWord, NextWord, Words};
use annex_base::crosses;

fn cross_threads() {
    crosses::<Content>();
    crosses::<KeyWord>();
    crosses::<LineWord>();
    crosses::<NextWord>();
    crosses::<Words>();
}
