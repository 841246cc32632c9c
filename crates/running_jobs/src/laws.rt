//! The laws of running jobs. Each is the contract of a function that does nothing.
ghost use Rattle.std.specs.Prelude.{◌≡◌, ◌&&◌, ℕ, List, [], None, Some, bytes_eq};
ghost use Rattle.std.specs.List.{list_any};
ghost use Rattle.annex_base.specs.Lists.{Each};
ghost use Rattle.annex_base.specs.declared.kinds.Call.TheVariants.{PutFile};
ghost use Rattle.link_ring.specs.Ends.{EndView};
ghost use Rattle.run_data.specs.declared.entry.By.{By};
ghost use Rattle.run_data.specs.declared.entry.Entry.{Entry};
ghost use Rattle.run_data.specs.declared.entry.EntryKind.TheVariants as kinds;
ghost use Rattle.object_store.specs.Stores.{Parts};
ghost use Rattle.node_model.specs.After.{state_after};
ghost use Rattle.node_model.specs.Ends.{end_took, taken_at};
ghost use Rattle.node_model.specs.Evidence as evidence;
ghost use Rattle.node_model.specs.Evidence.{standing_by};
ghost use Rattle.node_model.specs.Look.{Look, Effect};
ghost use Rattle.node_model.specs.SetUp.{SetUp};
ghost use Rattle.node_model.specs.Slots.{job_of};
ghost use Rattle.node_model.specs.State.{State};
ghost use Rattle.node_model.specs.Turns.{job_step};
ghost use Rattle.content_lock.specs.Rows.{Rows};
ghost use Rattle.trust_groups.specs.Settings.{Lines, settings};
ghost use Rattle.job_frames.specs.Sending.{IsOwnEntry, SendsWell};
ghost use Rattle.node_tasks.specs.Tasks.{IsTask};
ghost use Rattle.running_jobs.specs.declared.acted.Acted.{Acted};
ghost use Rattle.running_jobs.specs.Acting.{HasLockRoom, HasPart};
ghost use Rattle.running_jobs.specs.Running.{AreAllFed, AreWorks, Jobs, OwnAll, fills_at};

use key_verify::verdicts_are_matches;
use log_lines::readings_are_exact;

/// The running jobs are those of the state after an entry that is no job's and no crash, whatever it changes of the logs: what
/// a drop has read stays as it was, and one that is to begin reads what the logs say then.
pub fn jobs_stay()
    ensures { (s : SetUp) (st : State) (e : Entry) (jobs : Jobs) (rows : Rows) → AreWorks s st jobs → OwnAll jobs rows → job_of e.kind ≡ None → ((clock : ℕ) → e.kind ≡ kinds.Crash clock → ⊥)
        → AreWorks s (state_after s st e) jobs }
{}

/// The running jobs are those of the state after an entry that says that a line couldn't be written, whoever owed it.
pub fn jobs_stay_where_lines_fail()
    ensures { (s : SetUp) (st : State) (e : Entry) (jobs : Jobs) (rows : Rows) (by : By) → AreWorks s st jobs → OwnAll jobs rows → e.kind ≡ kinds.Fault PutFile by → AreWorks s (state_after s st e) jobs }
{}

/// No line of a log names a repository without an identifier, so that logs see one as a repository that is asked (git-annex
/// internals: branch files).
pub fn nameless_are_asked()
    ensures { (lines : Lines) (key : List ℕ) → standing_by (settings lines) key [] ≡ evidence.Asked }
{
    // A law, for the proof: there is no newest entry of a repository of which no line speaks.
    readings_are_exact();
}

/// The step of a job sends each frame where it has its place, at the ends after they took the frame that the step takes: it is
/// what its end sends next; and it is a Close at an end that is open then, or the first at an end with room.
pub fn jobs_send_where_there_is_room()
    ensures { (s : SetUp) (st : State) (k : Look) (jobs : Jobs) (m : Effect) → AreWorks s st jobs → Each (IsTask jobs.place) jobs.running → Each (HasLockRoom s st k) jobs.running → job_step s st k ≡ Some m
        → SendsWell (λ a. end_took (st.ends a) (taken_at a m.taken)) k.room m.sent }
{
    // The law of any job that stands well.
    job_frames::jobs_send_where_there_is_room();
}

/// The entry that such a step makes is one of a job's: it adds no line, takes no opening, and takes and sends frames only at ends whose client the
/// repository is.
pub fn jobs_make_their_own_entries()
    ensures { (s : SetUp) (st : State) (k : Look) (jobs : Jobs) (m : Effect) → AreWorks s st jobs → Each (IsTask jobs.place) jobs.running → job_step s st k ≡ Some m → IsOwnEntry m }
{
    // The law of any job.
    job_frames::jobs_make_their_own_entries();
}

/// A look may find the part that a step asks for, where what the jobs have taken of their parts is the store's.
pub fn jobs_see_parts()
    ensures { (q : Parts) (jobs : Jobs) (links : List EndView) (a : Acted) → AreAllFed q jobs.running → HasPart (Some q) jobs links a }
{
    // A law, for the proof: a verdict tells whether a part matches its key.
    verdicts_are_matches();
}

/// The keys that running jobs fill are those that the works of their state fill.
pub fn jobs_fill()
    ensures { (s : SetUp) (st : State) (jobs : Jobs) (key : List ℕ) → AreWorks s st jobs → fills_at jobs.running key ≡ list_any (λ w. w.fills && bytes_eq w.what.key key) st.works }
{}
