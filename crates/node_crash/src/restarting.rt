//! The sessions, the jobs and the lock table of a repository start anew.
ghost use Rattle.std.specs.Prelude.{◌≡◌, ◌<◌, ◌+◌, ◌^◌, []};
ghost use Rattle.node_sessions.specs.Sessions.{AreFilled, OwnAll};
ghost use Rattle.running_jobs.specs.Running.{OwnAll as JobsOwn, fills_at};
ghost use Rattle.node_crash.specs.Restarting.{Restarts};

use content_lock::LockTable;
use node_sessions::Sessions;
use running_jobs::Jobs;

/// What is in memory is lost, and the repository starts anew, as a crash leaves it: each session is as new, no job runs, and no bar stands.
/// Each hold stays, and is nobody's, for ten minutes of a clock that is set anew to this, in milliseconds. How many jobs were begun
/// stays. It takes no memory.
pub fn restart(sessions: &mut Sessions, jobs: &mut Jobs, table: &mut LockTable, clock: u64)
    requires early { clock + 600000 < 2 ^ 62 }
    requires serving { OwnAll table.old sessions.old }
    requires acting { JobsOwn jobs.old table.old }
    requires filled { AreFilled table.old sessions.old (fills_at jobs.old.running) }
    ensures jobs { jobs.new ≡ record jobs.old { running = [] } }
    ensures restarts { Restarts clock sessions.old sessions.new jobs.old table.old table.new }
{
    sessions.all_closed(table);
    jobs.end_all(table);
    table.restart(clock);
}
