//! The laws of states and steps. Each is the contract of a function that does nothing.

ghost use Rattle.std.specs.Prelude.{◌≡◌, ◌⊎◌, ℕ, true, false, List, Option, Some, None};
ghost use Rattle.annex_base.specs.Lists.{Each, Member};
ghost use Rattle.annex_base.specs.declared.kinds.Word.{Word};
ghost use Rattle.run_data.specs.declared.entry.Entry.{Entry};
ghost use Rattle.run_data.specs.declared.entry.FrameText.{FrameText};
ghost use Rattle.run_data.specs.declared.entry.FrameView.{FrameView};
ghost use Rattle.node_model.specs.Ends.{EndName, is_opening, may_take, sends_at, takes_at};
ghost use Rattle.node_model.specs.Found.{ByJob, BySession, StepFound};
ghost use Rattle.node_model.specs.Jobs.{partner};
ghost use Rattle.node_model.specs.JobStep.{Turn};
ghost use Rattle.node_model.specs.Look.{Look, Effect};
ghost use Rattle.node_model.specs.Sessions.{Doing, Session};
ghost use Rattle.node_model.specs.SessionStep.{Here, Reply, gives_next, on_frame};
ghost use Rattle.node_model.specs.SetUp.{SetUp};
ghost use Rattle.node_model.specs.Slots.{job_of};
ghost use Rattle.node_model.specs.State.{State};
ghost use Rattle.node_model.specs.Step.{step};
ghost use Rattle.node_model.specs.Turns.{goes, is_awaiting, takes_frame};
ghost use Rattle.run_model.specs.Run.{OwnPart};
ghost use Rattle.run_model.specs.States.{end_at};

/// What an own entry of a repository takes, the end to which it comes may take; and what it sends to a client is no Opening (own).
pub fn own_entries_suit_their_ends()
    ensures takes { (s : SetUp) (past : List Entry) (words : ℕ → Option Word) (e : Entry) (f : FrameView) (a : EndName) → OwnPart s past words e
        → e.taken ≡ Some f → takes_at a f ≡ true → may_take (end_at past s.number a) f ≡ true }
    ensures sends { (s : SetUp) (past : List Entry) (words : ℕ → Option Word) (e : Entry) → OwnPart s past words e
        → Each (λ g. g.up ≡ false → is_opening g.body ≡ false) e.sent }
{}

/// A step sends an Opening as a client alone, at an end that is closed (own).
pub fn steps_open_closed_ends()
    ensures { (s : SetUp) (st : State) (k : Look) (m : Effect) (g : FrameView) (a : EndName) → step s st k ≡ Some m → Member g m.sent
        → sends_at a g ≡ true → is_opening g.body ≡ true → (a.client ≡ true) × ((st.ends a).opened ≡ false) }
{}

/// What a step takes is among the frames at hand at its look. A job that goes on takes none, and one that takes a frame of its
/// partner takes that (own).
pub fn steps_take_what_is_at_hand()
    ensures at_hand { (s : SetUp) (st : State) (k : Look) (m : Effect) (f : FrameView) → step s st k ≡ Some m → m.taken ≡ Some f
        → Member f k.at_hand }
    ensures goes { (t : Turn) → (partner t.w.what.peer t.w.phase ≡ None) ⊎ (is_awaiting t.w.phase ≡ false) → (goes t t.w.phase).taken ≡ None }
    ensures takes { (t : Turn) (peer : ℕ) (f : FrameView) → partner t.w.what.peer t.w.phase ≡ Some peer
        → (takes_frame t peer f f.body).taken ≡ Some f }
{}

/// The entry of a job's step names this job, and that of a session none. So do what a session answers and gives, and what a job makes
/// where it goes on, or takes a frame of its partner (own).
pub fn steps_name_their_jobs()
    ensures session { (s : SetUp) (st : State) (k : Look) (m : Effect) → BySession s st k m → job_of m.kind ≡ None }
    ensures job { (s : SetUp) (st : State) (k : Look) (m : Effect) (x : ByJob s st k m) → job_of m.kind ≡ Some x.w.number }
    ensures answers { (h : Here) (was : Session) (body : FrameText) → job_of (on_frame h was body).kind ≡ None }
    ensures gives { (h : Here) (doing : Doing) (x : Reply) → gives_next h doing ≡ Some x → job_of x.kind ≡ None }
    ensures goes { (t : Turn) → (partner t.w.what.peer t.w.phase ≡ None) ⊎ (is_awaiting t.w.phase ≡ false)
        → job_of (goes t t.w.phase).kind ≡ Some t.w.number }
    ensures takes { (t : Turn) (peer : ℕ) (f : FrameView) → partner t.w.what.peer t.w.phase ≡ Some peer
        → job_of (takes_frame t peer f f.body).kind ≡ Some t.w.number }
{}

/// A step that makes an entry found what the table of `Found` says of that kind of entry, in any state (own).
pub fn steps_find_their_cause()
    ensures { (s : SetUp) (st : State) (k : Look) (m : Effect) → step s st k ≡ Some m → StepFound s st k m }
{}
