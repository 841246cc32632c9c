//! Lists of words, and a dash where there is none.

ghost use Rattle.std.specs.Prelude.{◌≡◌, ◌++◌, ◌∷◌, IfOk, OnOk, OnErr};
ghost use Rattle.std.specs.List.{flat_map};
ghost use Rattle.run_text.specs.Words.{joined_text, number_or_dash};

use annex_base::{Text, put_number};
use std::alloc::{AllocError, Global};

/// What puts the word of each item of a list.
pub trait ItemWords<X> {
    ghost use Rattle.std.specs.Prelude.{◌≡◌, ◌++◌, List, ℕ, OnOk};

    /// The word of an item.
    ghost word_of: { Self → X → List ℕ };

    /// Adds the word of an item; without memory it may add a part of it.
    fn put(&self, out: &mut Vec<u8>, item: &X) -> Result<(), AllocError>
        ensures { OnOk result (out.new.items ≡ out.old.items ++ word_of self.now item.now) };
}

/// Texts that are words themselves.
#[derive(Clone, Copy, Debug)]
pub struct OwnWords;

impl ItemWords<Text> for OwnWords {
    ghost word_of = { λ _ text. text };

    fn put(&self, out: &mut Vec<u8>, item: &Text) -> Result<(), AllocError> {
        out.extend_from_slice(item.bytes())
    }
}

/// Adds the words of items with a byte between them, or a dash; without memory it adds nothing.
pub fn put_joined<X, W: ItemWords<X>>(
    out: &mut Vec<u8>,
    between: u8,
    words: &W,
    items: &[X],
) -> Result<(), AllocError>
    ensures ok { OnOk result (out.new.items ≡ out.old.items ++ joined_text between (W.word_of words.now) items.now) }
    ensures err { OnErr result (out.new.items ≡ out.old.items) }
{
    let text = joined_text(*out.allocator(), between, words, items)?;
    out.extend_from_slice(&text)
}

fn joined_text<X, W: ItemWords<X>>(
    alloc: Global,
    between: u8,
    words: &W,
    items: &[X],
) -> Result<Vec<u8>, AllocError>
    ensures { IfOk result (λ text. text.items ≡ joined_text between (W.word_of words.now) items.now) }
{
    let mut text = Vec::new(alloc);
    match items.split_first() {
        None => text.push(b'-')?,
        Some((first, rest)) => {
            words.put(&mut text, first)?;
            put_more_words(&mut text, between, words, rest)?;
        }
    }
    Ok(text)
}

fn put_more_words<X, W: ItemWords<X>>(
    out: &mut Vec<u8>,
    between: u8,
    words: &W,
    items: &[X],
) -> Result<(), AllocError>
    ensures { OnOk result (out.new.items ≡ out.old.items ++ flat_map (λ item. between ∷ W.word_of words.now item) items.now) }
{
    for item in items {
        out.push(between)?;
        words.put(out, item)?;
    }
    Ok(())
}

/// Adds a number, or a dash where there is none; without memory it adds nothing.
pub fn put_number_or_dash(out: &mut Vec<u8>, number: Option<u64>) -> Result<(), AllocError>
    ensures ok { OnOk result (out.new.items ≡ out.old.items ++ number_or_dash number) }
    ensures err { OnErr result (out.new.items ≡ out.old.items) }
{
    match number {
        None => out.extend_from_slice(b"-"),
        Some(number) => put_number(out, number),
    }
}
