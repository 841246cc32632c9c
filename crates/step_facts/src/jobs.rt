//! The laws of running jobs, of the frames that repositories send and take, and of the answers whose words are kept.

ghost use Rattle.std.specs.Prelude.{◌≡◌, ℕ};
ghost use Rattle.run_data.specs.declared.entry.Entry.{Entry};
ghost use Rattle.node_model.specs.Jobs.{RowsAndEnds, Work, running_job, work_after};

/// An entry of its repository leaves a running job the same: its number, its slot and what was asked of it (own).
pub fn running_jobs_stay_the_same()
    ensures { (rows : RowsAndEnds) (r : ℕ) (e : Entry) (w : Work) → running_job (work_after rows r e w) ≡ running_job w }
{}
