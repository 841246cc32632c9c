//! The laws of a job's step. Each is the contract of a function that does nothing.

ghost use Rattle.std.specs.Prelude.{◌≡◌, Some};
ghost use Rattle.run_data.specs.declared.entry.FrameView.{FrameView};
ghost use Rattle.node_model.specs.Ends.{end_took, taken_at};
ghost use Rattle.node_model.specs.Jobs.{Work};
ghost use Rattle.node_model.specs.JobStep.{turn_of};
ghost use Rattle.node_model.specs.Look.{Look, Effect};
ghost use Rattle.node_model.specs.SetUp.{SetUp};
ghost use Rattle.node_model.specs.Slots.{job_of};
ghost use Rattle.node_model.specs.State.{State};
ghost use Rattle.node_model.specs.Turns.{slot_step};
ghost use Rattle.job_frames.specs.Sending.{IsOwnEntry, SendsWell};
ghost use Rattle.job_frames.specs.Standing.{StandsWell, TakesAtRoom};

/// The step of a job that stands well sends each frame where it has its place, at the ends after they took the frame that the step
/// takes: it is what its end sends next; and it is a Close at an end that is open then, or the first at an end with room (own).
pub fn jobs_send_where_there_is_room()
    ensures { (s : SetUp) (st : State) (k : Look) (w : Work) (m : Effect) → StandsWell (turn_of s st k w) → slot_step s st k (Some w) ≡ Some m
        → SendsWell (λ a. end_took (st.ends a) (taken_at a m.taken)) k.room m.sent }
{}

/// The entry that the step of a job makes is one of this job's: it adds no line, takes no opening, and takes and sends frames only at
/// ends whose client the repository is (own).
pub fn jobs_make_their_own_entries()
    ensures own { (s : SetUp) (st : State) (k : Look) (w : Work) (m : Effect) → slot_step s st k (Some w) ≡ Some m → IsOwnEntry m }
    ensures number { (s : SetUp) (st : State) (k : Look) (w : Work) (m : Effect) → slot_step s st k (Some w) ≡ Some m
        → job_of m.kind ≡ Some w.number }
{}

/// A frame that the step of a job takes waits at the client's end of the connection with the job's partner in its slot, which is open
/// and has room (own).
pub fn jobs_take_at_room()
    ensures { (s : SetUp) (st : State) (k : Look) (w : Work) (m : Effect) (f : FrameView) → slot_step s st k (Some w) ≡ Some m
        → m.taken ≡ Some f → TakesAtRoom (turn_of s st k w) f }
{}
