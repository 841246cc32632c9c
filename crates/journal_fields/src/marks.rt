//! What follows a mark, and what stands before a byte and behind it.
ghost use Rattle.std.specs.Prelude.{◌≡◌, ◌==◌, ◌<◌, not, length, IfSome, option_map};
ghost use Rattle.std.specs.List.{prefix_len};
ghost use Rattle.script_words.specs.Marks.{behind_mark};
ghost use Rattle.journal_reading.specs.Forms.{cut, nothing};

/// The bytes behind the mark, where they begin with it.
#[tactic(auto, unfolding(script_words::specs::Marks::behind_mark))]
pub fn behind<'a>(bytes: &'a [u8], mark: &[u8]) -> Option<&'a [u8]>
    ensures { option_map (λ x. x.now) result ≡ behind_mark mark.now bytes.now }
{
    bytes.strip_prefix(mark)
}

fn len_before(bytes: &[u8], byte: u8) -> usize
    ensures { result ≡ prefix_len (λ b. not (b == byte)) bytes.now }
{
    bytes.iter().take_while(|b| **b != byte).count()
}

/// The bytes before the first byte of this kind, and those behind it.
pub fn cut(bytes: &[u8], byte: u8) -> Option<(&[u8], &[u8])>
    ensures parts { option_map (λ x. (x.0.now, x.1.now)) result ≡ cut byte bytes.now }
    ensures shorter { IfSome result (λ x. length x.1.now < length bytes.now) }
{
    let end = len_before(bytes, byte);
    let (front, back) = bytes.split_at(end);
    let Some((_, rest)) = back.split_first() else {
        return None;
    };
    Some((front, rest))
}

/// That there is nothing.
pub fn read_nothing(bytes: &[u8]) -> Option<()>
    ensures { result ≡ nothing.read bytes.now }
{
    match bytes.split_first() {
        None => Some(()),
        Some(_) => None,
    }
}
