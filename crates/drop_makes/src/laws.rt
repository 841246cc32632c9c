//! What is kept of the logs for a drop is what the definitions read.
ghost use Rattle.std.specs.Prelude.{◌≡◌};
ghost use Rattle.node_model.specs.SetUp.{SetUp};
ghost use Rattle.node_model.specs.State.{State};
ghost use Rattle.job_makes.specs.Turns.{set_up_in, turn_in};
ghost use Rattle.job_makes.specs.declared.turn.Turn.{Turn};
ghost use Rattle.state_jobs.specs.Works.{work_of};
ghost use Rattle.state_reads.specs.Known.{AreLogsRead, KnownLogs};
ghost use Rattle.drop_makes.specs.Knowings.{drop_in};

/// Where these are the logs that a job has read, its turn is that of a drop that has read them.
pub fn readings_are_kept()
    ensures { (x : Turn) (known : KnownLogs) (s : SetUp) (st : State) → AreLogsRead (st.read x.work.now.number) (set_up_in x s) (work_of x.work.now) known → turn_in x s st ≡ drop_in x known s st }
{}
