//! What follows a mark at the front of a word.
ghost use Rattle.std.specs.Prelude.{◌≡◌, option_map};
ghost use Rattle.script_words.specs.Marks.{behind_mark};

/// The bytes behind the mark, where the word begins with it.
#[tactic(auto, unfolding(crate::specs::Marks::behind_mark))]
pub(crate) fn behind<'a>(word: &'a [u8], mark: &[u8]) -> Option<&'a [u8]>
    ensures { option_map (λ x. x.now) result ≡ behind_mark mark.now word.now }
{
    word.strip_prefix(mark)
}
