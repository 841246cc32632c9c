//! The laws of ends and flights. Each is the contract of a function that does nothing.
ghost use Rattle.std.specs.Prelude.{◌≡◌, ◌≢◌, ◌<◌, ◌+◌, ◌-◌, ◌*◌, ◌^◌, ℕ, List, [], ◌∷◌, false, true, flat_map, length, map, replicate, IfSome, Option, Some, None};
ghost use Rattle.std.specs.Option.{option_map, option_to_list};
ghost use Rattle.annex_base.specs.Lists.{Each, Member};
ghost use Rattle.annex_base.specs.declared.kinds.EntryStamp.{EntryStamp};
ghost use Rattle.annex_base.specs.declared.kinds.Word.{Word};
ghost use Rattle.link_ring.specs.Ends.{EndView, after_carry, after_drop, fresh, next_frame};
ghost use Rattle.run_data.specs.declared.entry.Entry.{Entry};
ghost use Rattle.run_data.specs.declared.entry.EntryKind.{EntryKind};
ghost use Rattle.run_data.specs.declared.entry.EntryKind.TheVariants as kinds;
ghost use Rattle.run_data.specs.declared.entry.FrameText.TheVariants as texts;
ghost use Rattle.run_data.specs.declared.entry.FrameView.{FrameView};
ghost use Rattle.run_data.specs.declared.job.Job.{Job};
ghost use Rattle.run_data.specs.declared.job.Outcome.{Outcome};
ghost use Rattle.run_model.specs.Past.{is_of};
ghost use Rattle.run_model.specs.States.{state_of, works};
ghost use Rattle.node_model.specs.AnyTime.{all_ends, close_at, closes_all};
ghost use Rattle.node_model.specs.Ends.{EndName, is_opening, sent_at, taken_at};
ghost use Rattle.node_model.specs.Jobs.{Work};
ghost use Rattle.node_model.specs.Look.{Look, Effect, entry_of};
ghost use Rattle.node_model.specs.SetUp.{SetUp};
ghost use Rattle.node_model.specs.Slots.{job_of};
ghost use Rattle.node_model.specs.State.{State};
ghost use Rattle.node_model.specs.Step.{step};
ghost use Rattle.node_ends.specs.declared.sending.Sending.{Sending};
ghost use Rattle.node_ends.specs.declared.sending.Sending.TheVariants as sendings;
ghost use Rattle.node_ends.specs.Ends.{AreEnds, SeesEnds, frame_at, hand_at, link_at, room_at, stands};
ghost use Rattle.node_ends.specs.Sent.{text_of_sending};
ghost use Rattle.driver_model.specs.Driver.{Driver, DriverInput, adds, at_first, piece_of, without_old_flights};
ghost use Rattle.driver_model.specs.Sound.{IsSound};
ghost use Rattle.driver_model.specs.Turning.{makes, plain_look, store_after, told_words};
ghost use Rattle.link_flights.specs.Entries.{PostsAt, SendsInOrder, link_after};
ghost use Rattle.link_flights.specs.Fleets.{AreAllCarried, AreEndsIn, AreOwnEndsIn, PostsAsDefined};
ghost use Rattle.driver_model.specs.Ways.{other_end};
ghost use Rattle.driver_model.specs.WordsRead.{AgreeWhereRead};
ghost use Rattle.link_flights.specs.Flights.{HasAtHand, IsEndIn};
ghost use Rattle.run_laws.specs.Jobs.{AnswersAsked, AreJobs, TakesAnswer};
ghost use Rattle.link_flights.specs.Heard.{HeardSo, SameWords, WordsGoOn};
ghost use Rattle.link_flights.specs.Words.{AreAllWorded, TellsWords};

use driver_model::{ends_are_apart, ends_have_small_numbers};
use node_ends::ends_are_there;
use step_facts::{
    steps_find_their_cause, steps_name_their_jobs, steps_open_closed_ends,
    steps_take_what_is_at_hand,
};

/// A look at the ends of a repository, before or after they dropped what is old, finds the frames and the room that a plain look of
/// the driver finds once it dropped the old flights. Where the ends of all repositories are as the flights tell, so are its. An end
/// has room there while numbers are left for its frames and openings, which the driver doesn't count; they are left where the driver
/// is sound and has made fewer than 2 ^ 30 entries (own).
pub fn looks_see_the_flights()
    ensures at_hand { (links : List EndView) (s : SetUp) (st : State) (d : Driver) (k : Look) → AreEnds links s st
        → AreOwnEndsIn d.flights s links → SeesEnds links s k → k.at_hand ≡ (plain_look s (without_old_flights st s.number d)).at_hand }
    ensures dropped { (links : List EndView) (s : SetUp) (st : State) (d : Driver) (k : Look) → AreEnds links s st
        → AreOwnEndsIn d.flights s links → SeesEnds (map after_drop links) s k → k.at_hand ≡ (plain_look s (without_old_flights st s.number d)).at_hand }
    ensures own { (s : SetUp) (d : Driver) (ends : ℕ → List EndView) → s.number < length s.repos → AreEndsIn d.flights (length s.repos) ends
        → AreOwnEndsIn d.flights s (ends s.number) }
    ensures room { (links : List EndView) (s : SetUp) (st : State) (d : Driver) (a : EndName) (v : EndView) → Member a (all_ends s)
        → link_at links a ≡ Some v → IsEndIn d.flights s.number a v → v.sent + 1 < 2 ^ 62 → v.epoch < 2 ^ 32 - 1
        → room_at links a ≡ (plain_look s (without_old_flights st s.number d)).room a }
    ensures in_runs { (g : DriverInput) (links : List EndView) (s : SetUp) (d : Driver) (a : EndName) (v : EndView) → IsSound g d → length d.past < 2 ^ 30
        → AreEnds links s (state_of s d.past) → Member a (all_ends s) → link_at links a ≡ Some v → IsEndIn d.flights s.number a v
        → room_at links a ≡ (plain_look s (without_old_flights (state_of s d.past) s.number d)).room a }
{
    // Laws: all ends are there, each at another repository, and have small numbers where the driver is sound.
    ends_are_there();
    ends_have_small_numbers();
}

/// What the driver drops before a turn of r is what the ends of r drop. At the ends of others the same frames stay at hand (own).
pub fn dropped_ends_keep_their_flights()
    ensures own { (d : Driver) (st : State) (r : ℕ) (a : EndName) (v : EndView) → a.peer ≢ r → st.ends a ≡ stands v → IsEndIn d.flights r a v
        → IsEndIn (without_old_flights st r d).flights r a (after_drop v) }
    ensures others { (d : Driver) (st : State) (r q : ℕ) (b : EndName) (w : EndView) → q ≢ r → HasAtHand d.flights q b w
        → HasAtHand (without_old_flights st r d).flights q b w }
    ensures beside { (d : Driver) (st : State) (r q : ℕ) (b : EndName) (w : EndView) → q ≢ r → b.peer ≢ r → IsEndIn d.flights q b w
        → IsEndIn (without_old_flights st r d).flights q b w }
{}

/// Where both ends of a connection are as the flights tell, frames that are carried over it change neither (own).
pub fn ends_in_flight_are_carried()
    ensures { (d : Driver) (r : ℕ) (a : EndName) (v w : EndView) → IsEndIn d.flights r a v → IsEndIn d.flights a.peer (other_end r a) w
        → after_carry v w ≡ v }
{}

/// What an entry of r takes and sends at an end of r, it takes and sends in the driver, once frames were carried over the
/// connection: both ends are as the flights tell. Old frames are dropped before a turn; a Close or a Crash of the script, which
/// takes and opens nothing, comes without (own).
pub fn entries_fly_over_connections()
    ensures turn { (d : Driver) (st : State) (r : ℕ) (a : EndName) (v w : EndView) (e : Entry) (said : List Sending) (sender : EntryStamp) (word : Sending → Option Word)
        → a.peer ≢ r → st.ends a ≡ stands v → IsEndIn d.flights r a v → IsEndIn d.flights a.peer (other_end r a) w
        → PostsAt (without_old_flights st r d) st r a (after_drop v) e.taken e.sent said
        → IsEndIn (adds st r e (without_old_flights st r d)).flights r a (after_carry (link_after sender word a e.taken said (after_drop v)) w)
        × IsEndIn (adds st r e (without_old_flights st r d)).flights a.peer (other_end r a) (after_carry w (link_after sender word a e.taken said (after_drop v))) }
    ensures idle { (d : Driver) (st : State) (r : ℕ) (a : EndName) (v w : EndView)
        → a.peer ≢ r → st.ends a ≡ stands v → IsEndIn d.flights r a v → IsEndIn d.flights a.peer (other_end r a) w
        → IsEndIn (without_old_flights st r d).flights r a (after_carry (after_drop v) w)
        × IsEndIn (without_old_flights st r d).flights a.peer (other_end r a) (after_carry w (after_drop v)) }
    ensures close { (d : Driver) (st : State) (r : ℕ) (a : EndName) (v w : EndView) (e : Entry) (said : List Sending) (sender : EntryStamp) (word : Sending → Option Word)
        → a.peer ≢ r → IsEndIn d.flights r a v → IsEndIn d.flights a.peer (other_end r a) w
        → PostsAt d st r a v e.taken e.sent said → taken_at a e.taken ≡ None → Each (λ b. is_opening b ≡ false) (map (λ f. f.body) (sent_at a e.sent))
        → IsEndIn (adds st r e d).flights r a (after_carry (link_after sender word a e.taken said v) w)
        × IsEndIn (adds st r e d).flights a.peer (other_end r a) (after_carry w (link_after sender word a e.taken said v)) }
    ensures beside { (d : Driver) (st : State) (r q : ℕ) (b : EndName) (w : EndView) (e : Entry) → q ≢ r → b.peer ≢ r → IsEndIn d.flights q b w
        → IsEndIn (adds st r e d).flights q b w }
{}

/// A turn of one repository, with an entry or without, after which frames were carried between it and each other one, leaves the ends
/// of all repositories as the flights tell; and so does a Close or a Crash of the script, which takes and opens nothing (own).
pub fn turns_keep_all_ends()
    ensures moved { (s : SetUp) (st : State) (d : Driver) (was now : ℕ → List EndView) (mine : List EndView) (e : Entry) (sender : EntryStamp)
        (word : EndName → Sending → Option Word) (said : EndName → List Sending) → s.number < length s.repos → AreEnds (was s.number) s st
        → AreEndsIn d.flights (length s.repos) was
        → PostsAsDefined s st (without_old_flights st s.number d) sender word said (map after_drop (was s.number)) mine e
        → AreAllCarried (length s.repos) s.number mine was now
        → AreEndsIn (adds st s.number e (without_old_flights st s.number d)).flights (length s.repos) now }
    ensures idle { (s : SetUp) (st : State) (d : Driver) (was now : ℕ → List EndView) → s.number < length s.repos → AreEnds (was s.number) s st
        → AreEndsIn d.flights (length s.repos) was
        → AreAllCarried (length s.repos) s.number (map after_drop (was s.number)) was now
        → AreEndsIn (without_old_flights st s.number d).flights (length s.repos) now }
    ensures closed { (s : SetUp) (st : State) (d : Driver) (was now : ℕ → List EndView) (mine : List EndView) (e : Entry) (sender : EntryStamp)
        (word : EndName → Sending → Option Word) (said : EndName → List Sending) → s.number < length s.repos
        → AreEndsIn d.flights (length s.repos) was
        → e.taken ≡ None → Each (λ f. is_opening f.body ≡ false) e.sent → PostsAsDefined s st d sender word said (was s.number) mine e
        → AreAllCarried (length s.repos) s.number mine was now → AreEndsIn (adds st s.number e d).flights (length s.repos) now }
{
    // A law: all ends of a repository are listed, so what is known of the listed ones is known of each.
    ends_are_there();
}

/// Before the first entry no end has a frame, and there are no flights; an entry that takes and sends nothing changes neither, nor does
/// what a step does to its store (own).
pub fn ends_begin_without_flights()
    ensures first { (r : ℕ) (a : EndName) → IsEndIn at_first.flights r a fresh }
    ensures all { (count : ℕ) → AreEndsIn at_first.flights count (λ q. replicate (count * 8) fresh) }
    ensures quiet { (d : Driver) (st : State) (r : ℕ) (e : Entry) → e.taken ≡ None → e.sent ≡ [] → (adds st r e d).flights ≡ d.flights }
    ensures store { (d : Driver) (st : State) (r : ℕ) (m : Effect) (bytes : List ℕ) (kind : EntryKind) → (store_after st r m bytes kind d).flights ≡ d.flights }
    ensures made { (d : Driver) (st : State) (r : ℕ) (k : Look) (m : Effect) → (makes st r k (Some m) d).flights ≡ (adds st r (entry_of r k m) d).flights }
{}

/// What a step takes is the first frame at its end that isn't old, and what it sends is what the ends send next; an Opening is sent
/// only as the first frame at an end, and that where the end is closed and nothing was taken at it. The same holds of the Closes that
/// a script makes (own).
pub fn steps_send_in_order()
    ensures takes { (links : List EndView) (s : SetUp) (st : State) (k : Look) (m : Effect) (a : EndName) (v : EndView)
        → k.at_hand ≡ flat_map (λ b. option_to_list (hand_at links b)) (all_ends s) → step s st k ≡ Some m → link_at links a ≡ Some v
        → IfSome (taken_at a m.taken) (λ f. option_map (frame_at a) (next_frame v) ≡ Some f) }
    ensures sends { (s : SetUp) (st : State) (k : Look) (m : Effect) (a : EndName) → step s st k ≡ Some m → SendsInOrder (st.ends a) a m.taken m.sent }
    ensures close { (s : SetUp) (st : State) (a b : EndName) → SendsInOrder (st.ends a) a None (close_at s st b) }
    ensures crash { (s : SetUp) (st : State) (a : EndName) → SendsInOrder (st.ends a) a None (closes_all s st) }
{
    // Laws: ends are listed once; a step found its cause, opens closed ends alone, and takes what is at hand.
    ends_are_apart();
    steps_find_their_cause();
    steps_open_closed_ends();
    steps_take_what_is_at_hand();
}

/// An entry with what a step takes and sends is posted, where what was said at each end is what the entry lists there, the ends became
/// what node_ends' calls make of them, and each piece has the bytes that the definition gives (own).
pub fn steps_are_posted()
    ensures { (s : SetUp) (st : State) (d : Driver) (k : Look) (m : Effect) (e : Entry) (was now : List EndView) (sender : EntryStamp)
        (word : EndName → Sending → Option Word) (said : EndName → List Sending) → AreEnds was s st
        → k.at_hand ≡ flat_map (λ b. option_to_list (hand_at was b)) (all_ends s) → step s st k ≡ Some m → e.taken ≡ m.taken → e.sent ≡ m.sent
        → ((a : EndName) → map text_of_sending (said a) ≡ map (λ f. f.body) (sent_at a e.sent))
        → ((a : EndName) → link_at now a ≡ option_map (link_after sender (word a) a e.taken (said a)) (link_at was a))
        → ((a : EndName) (f : FrameView) (bytes : List ℕ) → Member f (sent_at a e.sent) → Member (sendings.Bytes bytes) (said a) → f.body ≡ texts.Bytes (length bytes)
        → bytes ≡ piece_of d st s.number f f.body)
        → PostsAsDefined s st d sender word said was now e }
{
    // Laws: the ends of a job are apart; a step found its cause, opens closed ends, and takes what is at hand.
    ends_are_apart();
    steps_find_their_cause();
    steps_open_closed_ends();
    steps_take_what_is_at_hand();
}

/// The words beside the frames at hand at the clients' ends are those of the past: beside each line whose sender was asked for a word
/// stands what that entry found. So it is at first; a turn, with an entry or without, keeps it, where what is said has its word; and so
/// do a Close and a Crash of the script, and any entry that takes and sends nothing (own).
pub fn words_stay_with_frames()
    ensures first { (count : ℕ) → AreAllWorded [] count (λ q. replicate (count * 8) fresh) }
    ensures moved { (s : SetUp) (d : Driver) (was now : ℕ → List EndView) (mine : List EndView) (e : Entry) (sender : EntryStamp)
        (word : EndName → Sending → Option Word) (said : EndName → List Sending) → s.number < length s.repos
        → AreEnds (was s.number) s (state_of s d.past) → AreEndsIn d.flights (length s.repos) was → AreAllWorded d.past (length s.repos) was
        → e.repo ≡ Some s.number → TellsWords e word
        → PostsAsDefined s (state_of s d.past) (without_old_flights (state_of s d.past) s.number d) sender word said (map after_drop (was s.number)) mine e
        → AreAllCarried (length s.repos) s.number mine was now → AreAllWorded (e ∷ d.past) (length s.repos) now }
    ensures idle { (s : SetUp) (d : Driver) (was now : ℕ → List EndView) → s.number < length s.repos
        → AreEnds (was s.number) s (state_of s d.past) → AreEndsIn d.flights (length s.repos) was → AreAllWorded d.past (length s.repos) was
        → AreAllCarried (length s.repos) s.number (map after_drop (was s.number)) was now → AreAllWorded d.past (length s.repos) now }
    ensures closed { (s : SetUp) (d : Driver) (was now : ℕ → List EndView) (mine : List EndView) (e : Entry) (sender : EntryStamp)
        (word : EndName → Sending → Option Word) (said : EndName → List Sending) → s.number < length s.repos
        → AreEnds (was s.number) s (state_of s d.past) → AreEndsIn d.flights (length s.repos) was → AreAllWorded d.past (length s.repos) was
        → e.repo ≡ Some s.number → e.taken ≡ None → Each (λ f. is_opening f.body ≡ false) e.sent
        → PostsAsDefined s (state_of s d.past) d sender word said (was s.number) mine e
        → AreAllCarried (length s.repos) s.number mine was now → AreAllWorded (e ∷ d.past) (length s.repos) now }
    ensures quiet { (past : List Entry) (count : ℕ) (ends : ℕ → List EndView) (e : Entry) → e.taken ≡ None → e.sent ≡ []
        → AreAllWorded past count ends → AreAllWorded (e ∷ past) count ends }
{
    // A law: all ends of a repository are listed, so what is known of the listed ones is known of each.
    ends_are_there();
}

/// The words that a repository's jobs were told, as its node keeps them, are those of the past, of each repository whose word the end
/// of a job reads; so the words with which a job ends agree with the driver's where they are read. A step keeps it, where the node
/// keeps the word beside the answer that a job takes, and where such an answer comes of an entry that was asked for a word; the job isn't
/// as it was. So do entries of others, and those that no job makes or that begin one (own).
pub fn heard_words_are_told()
    ensures first { (r : ℕ) (words : ℕ → ℕ → Option Word) → HeardSo [] r words }
    ensures stepped { (s : SetUp) (past : List Entry) (k : Look) (m : Effect) (e : Entry) (ends : ℕ → List EndView) (was now : ℕ → ℕ → Option Word)
        → s.number < length s.repos → AreEnds (ends s.number) s (state_of s past) → AreAllWorded past (length s.repos) ends
        → k.at_hand ≡ flat_map (λ b. option_to_list (hand_at (map after_drop (ends s.number)) b)) (all_ends s)
        → step s (state_of s past) k ≡ Some m → e.repo ≡ Some s.number → e.kind ≡ m.kind → e.taken ≡ m.taken
        → AreJobs (works past s.number) → AnswersAsked past s.number e → WordsGoOn (map after_drop (ends s.number)) past s.number e was now
        → HeardSo past s.number was → HeardSo (e ∷ past) s.number now }
    ensures changed { (s : SetUp) (past : List Entry) (k : Look) (m : Effect) (e : Entry) (w v : Work) (f : FrameView)
        → step s (state_of s past) k ≡ Some m → e.repo ≡ Some s.number → e.kind ≡ m.kind → e.taken ≡ m.taken → e.sent ≡ m.sent
        → AreJobs (works past s.number) → Member w (works past s.number) → Member v (works (e ∷ past) s.number) → v.number ≡ w.number
        → TakesAnswer w e f → v.phase ≢ w.phase }
    ensures other { (past : List Entry) (e : Entry) (r : ℕ) (words : ℕ → ℕ → Option Word) → is_of r e ≡ false → HeardSo past r words
        → HeardSo (e ∷ past) r words }
    ensures beside { (past : List Entry) (e : Entry) (r : ℕ) (was now : ℕ → ℕ → Option Word) → is_of r e ≡ true → job_of e.kind ≡ None
        → SameWords past r was now → HeardSo past r was → HeardSo (e ∷ past) r now }
    ensures begun { (past : List Entry) (e : Entry) (r job : ℕ) (what : Job) (was now : ℕ → ℕ → Option Word) → is_of r e ≡ true
        → e.kind ≡ kinds.Begin job what → e.taken ≡ None → SameWords past r was now → HeardSo past r was → HeardSo (e ∷ past) r now }
    ensures read { (s : SetUp) (past : List Entry) (m : Effect) (words : ℕ → ℕ → Option Word) (own : ℕ → Option Word) → HeardSo past s.number words
        → ((j : ℕ) (outcome : Outcome) → m.kind ≡ kinds.End j outcome → (c : ℕ) → own c ≡ words j c)
        → AgreeWhereRead s (state_of s past) m own (told_words past s.number m.kind) }
{
    // Laws: all ends are at other repositories; a step found its cause, takes what is at hand, and names its job.
    ends_are_there();
    steps_find_their_cause();
    steps_take_what_is_at_hand();
    steps_name_their_jobs();
}
