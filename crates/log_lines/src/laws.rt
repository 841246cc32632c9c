//! The laws. Each is the contract of a function that does nothing.

ghost use Rattle.std.specs.Prelude.{◌≡◌, ◌≢◌, ◌↔◌, ℕ, List, [], ◌∷◌, ◌++◌, map, Some, None};
ghost use Rattle.std.specs.declared.cmp.Ordering.TheVariants.{Equal};
ghost use Rattle.std.specs.Cmp.{IsTotalOrder};
ghost use Rattle.std.specs.List.Sorted.{IsStrictlySortedBy};
ghost use Rattle.annex_base.specs.Lists.{Member};
ghost use Rattle.log_grammar.specs.declared.entry.LogKind.{LogKind};
ghost use Rattle.log_grammar.specs.declared.entry.Topic.{Topic};
ghost use Rattle.log_grammar.specs.declared.entry.Entry.{Entry};
ghost use Rattle.log_grammar.specs.LineText.{IsLine};
ghost use Rattle.log_lines.specs.Newest.{topic_cmp, entry_cmp, newer, IsNewest, IsReading, ReadAlike, newest, entry_at, newest_of, newest_stamp, next_stamp, greatest_stamp, current_lines};
ghost use Rattle.log_lines.specs.Keeping.{Says, HasNewer, SameLines, Keeps};

/// Topics are in a total order, and so are entries; topics that the order doesn't tell apart are the same, and so are
/// entries of one topic (own).
pub fn order_is_total()
    ensures topics { IsTotalOrder topic_cmp }
    ensures same_topics { (t u : Topic) → topic_cmp t u ≡ Equal → t ≡ u }
    ensures entries { IsTotalOrder entry_cmp }
    ensures same_entries { (e f : Entry) → e.topic ≡ f.topic → entry_cmp e f ≡ Equal → e ≡ f }
{}

/// Lines have one reading, the newest entries; the newest entry of a topic is the one that is newest and speaks of it,
/// and there is none exactly where no line speaks of the topic (git-annex internals: branch files).
pub fn readings_are_exact()
    ensures one { (kind : LogKind) (lines : List (List ℕ)) (es fs : List Entry)
        → IsReading kind lines es → IsReading kind lines fs → es ≡ fs }
    ensures reading { (kind : LogKind) (lines : List (List ℕ)) → IsReading kind lines (newest kind lines) }
    ensures found { (kind : LogKind) (lines : List (List ℕ)) (topic : Topic) (e : Entry)
        → (newest_of kind lines topic ≡ Some e) ↔ (IsNewest kind lines e × (e.topic ≡ topic)) }
    ensures nothing { (kind : LogKind) (lines : List (List ℕ)) (topic : Topic)
        → (newest_of kind lines topic ≡ None) ↔ ((e : Entry) → Says kind lines e → e.topic ≢ topic) }
{}

/// Of entries in order of topic, one a topic, the entry of a topic is the one among them that speaks of it (own).
pub fn entries_are_found_by_topic()
    ensures { (es : List Entry) (topic : Topic) (e : Entry) → IsStrictlySortedBy topic_cmp (map (λ e. e.topic) es)
        → (entry_at es topic ≡ Some e) ↔ (Member e es × (e.topic ≡ topic)) }
{}

/// What lines say depends on which they are, and neither on their order nor on how often each stands there (git-annex
/// internals: branch files, which merge as the union of their lines).
pub fn readings_depend_on_the_set()
    ensures { (kind : LogKind) (xs ys : List (List ℕ)) → SameLines xs ys → ReadAlike kind xs ys }
{}

/// Compaction keeps what a file says, also after lines are added to it or other files are merged into it; it leaves out
/// exactly the lines that have an entry of which another line has a newer one (own).
pub fn compaction_keeps_the_reading()
    ensures alike { (kind : LogKind) (lines : List (List ℕ)) → ReadAlike kind (current_lines kind lines) lines }
    ensures later { (kind : LogKind) (xs ys more : List (List ℕ))
        → ReadAlike kind xs ys → ReadAlike kind (xs ++ more) (ys ++ more) }
    ensures merged { (kind : LogKind) (xs ys others all : List (List ℕ))
        → ReadAlike kind xs ys → ReadAlike kind others all → ReadAlike kind (xs ++ others) (ys ++ all) }
    ensures kept { (kind : LogKind) (kept ever : List (List ℕ)) → Keeps kind kept ever → ReadAlike kind kept ever }
    ensures within { (kind : LogKind) (lines : List (List ℕ)) (line : List ℕ)
        → Member line (current_lines kind lines) → Member line lines }
    ensures left_out { (kind : LogKind) (lines : List (List ℕ)) (line : List ℕ)
        → Member line lines → (¬ Member line (current_lines kind lines)) ↔ HasNewer kind lines line }
    ensures stays { (kind : LogKind) (lines : List (List ℕ)) (line : List ℕ)
        → Member line lines → ¬ HasNewer kind lines line → Member line (current_lines kind lines) }
    ensures outside { (kind : LogKind) (lines : List (List ℕ)) (line : List ℕ)
        → Member line lines → ((e : Entry) → ¬ IsLine kind line e) → Member line (current_lines kind lines) }
{}

/// An entry with the next stamp is the newest of its topic as soon as its line is added, unless the newest one has the
/// greatest stamp; then, as at any stamp, the newer of the two is read, and the other topics stay (own).
pub fn next_entries_are_read()
    ensures last { (kind : LogKind) (lines : List (List ℕ)) (line : List ℕ) (e : Entry) (clock : ℕ)
        → IsLine kind line e
        → e.stamp ≡ Some (next_stamp (newest_stamp kind lines e.topic) clock)
        → newest_stamp kind lines e.topic ≢ Some greatest_stamp
        → newest_of kind (lines ++ line ∷ []) e.topic ≡ Some e }
    ensures first { (kind : LogKind) (lines : List (List ℕ)) (line : List ℕ) (e : Entry) (clock : ℕ)
        → IsLine kind line e
        → e.stamp ≡ Some (next_stamp (newest_stamp kind lines e.topic) clock)
        → newest_stamp kind lines e.topic ≢ Some greatest_stamp
        → newest_of kind (line ∷ lines) e.topic ≡ Some e }
    ensures newer { (kind : LogKind) (lines : List (List ℕ)) (line : List ℕ) (old e : Entry)
        → IsLine kind line e → newest_of kind lines e.topic ≡ Some old
        → newest_of kind (lines ++ line ∷ []) e.topic ≡ Some (newer old e) }
    ensures newer_first { (kind : LogKind) (lines : List (List ℕ)) (line : List ℕ) (old e : Entry)
        → IsLine kind line e → newest_of kind lines e.topic ≡ Some old
        → newest_of kind (line ∷ lines) e.topic ≡ Some (newer old e) }
    ensures only { (kind : LogKind) (lines : List (List ℕ)) (line : List ℕ) (e : Entry)
        → IsLine kind line e → newest_of kind lines e.topic ≡ None
        → newest_of kind (lines ++ line ∷ []) e.topic ≡ Some e }
    ensures others { (kind : LogKind) (lines : List (List ℕ)) (line : List ℕ) (e : Entry) (topic : Topic)
        → IsLine kind line e → e.topic ≢ topic
        → newest_of kind (lines ++ line ∷ []) topic ≡ newest_of kind lines topic }
{}
