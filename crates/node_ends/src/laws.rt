//! The laws of ends. Each is the contract of a function that does nothing.
ghost use Rattle.std.specs.Prelude.{◌≡◌, ◌≢◌, ◌<◌, ◌*◌, ℕ, List, [], true, None, is_some, length, map, replicate};
ghost use Rattle.annex_base.specs.Lists.{Member};
ghost use Rattle.link_ring.specs.Ends.{EndView, after_drop, fresh};
ghost use Rattle.run_data.specs.declared.entry.Entry.{Entry};
ghost use Rattle.run_data.specs.declared.entry.FrameText.{FrameText};
ghost use Rattle.run_data.specs.declared.entry.FrameText.TheVariants as texts;
ghost use Rattle.node_model.specs.After.{first_state, state_after};
ghost use Rattle.node_model.specs.AnyTime.{all_ends};
ghost use Rattle.node_model.specs.Ends.{EndName, never};
ghost use Rattle.node_model.specs.Look.{Look, waiting_frame};
ghost use Rattle.node_model.specs.SetUp.{SetUp};
ghost use Rattle.node_model.specs.State.{State};
ghost use Rattle.node_ends.specs.Ends.{AreEnds, IsEndOf, SeesEnds, end_at, link_at, room_at, wait_at};
ghost use Rattle.node_ends.specs.Going.{AreAfter};
ghost use Rattle.node_ends.specs.Joined.{AreCarried, AreJoined, StayPaired};
ghost use Rattle.node_ends.specs.Sent.{may_send};

/// The ends of a repository are those that all ends list, and each of them is there.
pub fn ends_are_there()
    ensures listed { (s : SetUp) (a : EndName) → IsEndOf s a → Member a (all_ends s) }
    ensures numbers { (s : SetUp) (a : EndName) → Member a (all_ends s) → IsEndOf s a }
    ensures there { (links : List EndView) (count : ℕ) (a : EndName) → length links ≡ count * 8 → a.peer < count → a.slot < 4 → is_some (link_at links a) ≡ true }
{}

/// What waits at an end for a look is what waits there.
pub fn frames_wait_at_ends()
    ensures { (links : List EndView) (s : SetUp) (st : State) (k : Look) (a : EndName) → AreEnds links s st → SeesEnds links s k → Member a (all_ends s)
        → waiting_frame (st.ends a) k a ≡ wait_at links a }
{}

/// Before any entry the ends are those of the first state.
pub fn ends_begin_closed()
    ensures never { (count : ℕ) (a : EndName) → end_at (replicate count fresh) a ≡ never }
    ensures ends { (s : SetUp) → AreEnds (replicate (length s.repos * 8) fresh) s (first_state s) }
{}

/// The ends that took what an entry takes, and then sent what it sends, are those of the state after it.
pub fn ends_go_on()
    ensures begin { (links : List EndView) → AreAfter links links None [] }
    ensures ends { (was now : List EndView) (s : SetUp) (st : State) (e : Entry) → AreEnds was s st → AreAfter was now e.taken e.sent → AreEnds now s (state_after s st e) }
{}

/// Where an end has room, it may send any frame but a Close; where it is open, a Close.
pub fn room_permits_frames()
    ensures opening { (links : List EndView) (a : EndName) → room_at links a ≡ true → may_send links a texts.Opening ≡ true }
    ensures line { (links : List EndView) (a : EndName) (line : List ℕ) → room_at links a ≡ true → may_send links a (texts.Line line) ≡ true }
    ensures bytes { (links : List EndView) (a : EndName) (n : ℕ) → room_at links a ≡ true → may_send links a (texts.Bytes n) ≡ true }
    ensures closing { (links : List EndView) (a : EndName) → (end_at links a).opened ≡ true → may_send links a texts.Closing ≡ true }
{}

/// The ends of two repositories that are joined stay so, whatever either takes and sends.
pub fn ends_stay_joined()
    ensures fresh { (count a b : ℕ) → a < count → b < count → AreJoined a b (replicate (count * 8) fresh) (replicate (count * 8) fresh) }
    ensures other { (a b : ℕ) (xs ys : List EndView) → AreJoined a b xs ys → AreJoined b a ys xs }
    ensures elsewhere { (a b c : ℕ) (xs now ys zs : List EndView) → c ≢ b → AreCarried a b xs now ys → AreJoined a c xs zs → AreJoined a c now zs }
    ensures call { (a b : ℕ) (xs now ys : List EndView) → StayPaired xs now → AreJoined a b xs ys → AreJoined a b now ys }
{}

/// An end that drops the frames that are never taken is that of the same state, and a look finds the same there.
pub fn dropped_frames_change_no_end()
    ensures ends { (links : List EndView) (s : SetUp) (st : State) → AreEnds links s st → AreEnds (map after_drop links) s st }
    ensures looks { (links : List EndView) (s : SetUp) (k : Look) → SeesEnds links s k → SeesEnds (map after_drop links) s k }
{}
