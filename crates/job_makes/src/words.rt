//! The words beside what repositories answered a job.
ghost use Rattle.std.specs.Prelude.{◌≡◌};
ghost use Rattle.job_makes.specs.Turns.{word_in};

use annex_base::Word;

pub(crate) fn word_in(words: &[Option<Word>], repo: u32) -> Option<Word>
    ensures { result ≡ word_in words.now repo }
{
    match words.get(repo as usize) {
        Some(word) => *word,
        None => None,
    }
}
