//! The step of a job.
ghost use Rattle.std.specs.Prelude.{◌≡◌, ◌≤◌, ◌*◌, false, [], length, slice_get, unwrap_or, IfOk, IfSome, OnErr};
ghost use Rattle.std.specs.Option.{option_map};
ghost use Rattle.annex_base.specs.Causes.{Rose};
ghost use Rattle.drop_proof.specs.declared.rule.Side.TheVariants as sides;
ghost use Rattle.trust_groups.specs.View.{settings_of};
ghost use Rattle.node_model.specs.Jobs.{or_own};
ghost use Rattle.node_model.specs.Look.{failed_in};
ghost use Rattle.content_lock.specs.CallsMade.{fewer};
ghost use Rattle.content_lock.specs.Stored.{Agrees};
ghost use Rattle.drop_worker.specs.Doing.{HasToken, OthersStay};
ghost use Rattle.drop_worker.specs.Feeding.{ToldAt};
ghost use Rattle.drop_worker.specs.Leaving.{stands_on};
ghost use Rattle.drop_worker.specs.Sides.{CanShare, FitsSide, HasTarget, IsNumbered, side_in};
ghost use Rattle.node_drops.specs.Calling.{JobMakes, WorkerMakes};
ghost use Rattle.node_drops.specs.Doings.{Acts, Does, Steps};
ghost use Rattle.node_drops.specs.Drops.{HasHeardOwn, HasReadByPhase, place_reading};

use crate::desk::Desk;
use crate::feed::Feed;
use crate::job::DropJob;
use crate::known::KnownLogs;
use crate::place::{Clock, Place};
use annex_base::{NoMemory, RepoId};
use content_lock::LockTable;
use drop_worker::{Input, Output, Time, Worker, step};
use node_ends::Ends;
use object_store::Keeper;
use std::alloc::Global;
use trust_groups::Settings;

/// The step of a job that is told this: at its first it reads the settings.
pub fn act<K: Keeper>(
    job: &mut DropJob,
    alloc: Global,
    place: &Place,
    clock: Clock,
    settings: &Settings,
    ends: &Ends,
    table: &mut LockTable,
    keeper: &mut K,
    input: &Input,
) -> Result<Output, NoMemory>
    requires target { HasTarget (side_in job.old.worker) job.old.worker.job.peer (place_reading place.now) }
    requires own { HasHeardOwn place.now job.old.worker }
    requires fits { FitsSide (side_in job.old.worker) job.old.worker.phase job.old.worker.token }
    requires told { ToldAt (stands_on job.old.worker) input.now.taken }
    requires owns { HasToken job.old.worker.number job.old.worker.job.key job.old.worker.token table.old }
    requires shares { CanShare (side_in job.old.worker) (K.records keeper.old) table.old.holds input.now.number }
    requires stands { HasReadByPhase place.now job.old.worker.phase job.old.known }
    requires count { length ends.now ≡ length place.now.ids * 8 }
    ensures acts { IfOk result (Acts place.now clock ends.now (settings_of settings.now) input.now (K.contents keeper.old) table.old job.old job.new) }
    ensures calls { IfOk result (JobMakes place.now clock ends.now (settings_of settings.now) input.now (K.contents keeper.old) table.old (K.failing keeper.old) (K.failing keeper.new) job.old) }
    ensures left { IfOk result (λ out. K.failing keeper.new ≡ option_map (fewer (failed_in out.kind)) (K.failing keeper.old)) }
    ensures err_failing { OnErr result (K.failing keeper.new ≡ K.failing keeper.old) }
    ensures steps { IfOk result (Steps place.now (K.contents keeper.old) (K.contents keeper.new) input.now table.old table.new job.old.worker job.new.worker) }
    ensures stands { IfOk result (λ out. out.ended ≡ false → HasReadByPhase place.now job.new.worker.phase job.new.known) }
    ensures paths { job.new.paths ≡ job.old.paths }
    ensures causes { job.new.causes ≡ job.old.causes }
    ensures owns { HasToken job.new.worker.number job.new.worker.job.key job.new.worker.token table.new }
    ensures others { OthersStay job.old.worker.number table.old table.new }
    ensures agrees { Agrees (K.records keeper.old) table.old.holds → Agrees (K.records keeper.new) table.new.holds }
    ensures numbered { IfOk result (λ out. IsNumbered input.now.number out.kind) }
    ensures local { side_in job.old.worker ≡ sides.Local → (table.new.holds ≡ table.old.holds) × (K.records keeper.new ≡ K.records keeper.old) }
    ensures err { OnErr result ((job.new ≡ job.old) × (table.new ≡ table.old) × (K.contents keeper.new ≡ K.contents keeper.old) × (K.records keeper.new ≡ K.records keeper.old)) }
    ensures later { K.faults keeper.old ≤ K.faults keeper.new }
    ensures cause { IfOk result (λ out. IfSome (failed_in out.kind) (λ call. Rose (K.faults keeper.old) (K.faults keeper.new))) }
    ensures parts { K.parts keeper.new ≡ K.parts keeper.old }
    ensures files { K.files keeper.new ≡ K.files keeper.old }
{
    match &job.known {
        Some(known) => advance(
            &mut job.worker,
            alloc,
            place,
            clock,
            known,
            ends,
            table,
            keeper,
            input,
        ),
        None => {
            let known = KnownLogs::read(
                alloc,
                settings,
                job.worker.key(),
                target_id(&job.worker, place),
                job.paths.as_slice(),
                place.ids(),
            )?;
            let out = advance(
                &mut job.worker,
                alloc,
                place,
                clock,
                &known,
                ends,
                table,
                keeper,
                input,
            )?;
            job.known = Some(known);
            Ok(out)
        }
    }
}

/// The identifier of the repository from which it removes.
fn target_id(worker: &Worker, place: &Place) -> RepoId
    requires target { HasTarget (side_in worker.now) worker.now.job.peer (place_reading place.now) }
    ensures { result ≡ unwrap_or (slice_get place.now.ids (or_own place.now.number (side_in worker.now) worker.now.job.peer)) [] }
{
    match worker.target() {
        None => place.id_of(place.number()),
        Some(target) => place.id_of(target),
    }
}

/// The step of a worker that has read this.
fn advance<K: Keeper>(
    worker: &mut Worker,
    alloc: Global,
    place: &Place,
    clock: Clock,
    known: &KnownLogs,
    ends: &Ends,
    table: &mut LockTable,
    keeper: &mut K,
    input: &Input,
) -> Result<Output, NoMemory>
    requires target { HasTarget (side_in worker.old) worker.old.job.peer (place_reading place.now) }
    requires own { HasHeardOwn place.now worker.old }
    requires fits { FitsSide (side_in worker.old) worker.old.phase worker.old.token }
    requires told { ToldAt (stands_on worker.old) input.now.taken }
    requires owns { HasToken worker.old.number worker.old.job.key worker.old.token table.old }
    requires shares { CanShare (side_in worker.old) (K.records keeper.old) table.old.holds input.now.number }
    requires count { length ends.now ≡ length place.now.ids * 8 }
    ensures does { IfOk result (Does place.now clock ends.now known.now input.now (K.contents keeper.old) table.old worker.old worker.new) }
    ensures calls { IfOk result (WorkerMakes place.now clock ends.now known.now input.now (K.contents keeper.old) table.old worker.old (K.failing keeper.old) (K.failing keeper.new)) }
    ensures left { IfOk result (λ out. K.failing keeper.new ≡ option_map (fewer (failed_in out.kind)) (K.failing keeper.old)) }
    ensures err_failing { OnErr result (K.failing keeper.new ≡ K.failing keeper.old) }
    ensures steps { IfOk result (Steps place.now (K.contents keeper.old) (K.contents keeper.new) input.now table.old table.new worker.old worker.new) }
    ensures owns { HasToken worker.new.number worker.new.job.key worker.new.token table.new }
    ensures others { OthersStay worker.old.number table.old table.new }
    ensures agrees { Agrees (K.records keeper.old) table.old.holds → Agrees (K.records keeper.new) table.new.holds }
    ensures numbered { IfOk result (λ out. IsNumbered input.now.number out.kind) }
    ensures local { side_in worker.old ≡ sides.Local → (table.new.holds ≡ table.old.holds) × (K.records keeper.new ≡ K.records keeper.old) }
    ensures err { OnErr result ((worker.new ≡ worker.old) × (table.new ≡ table.old) × (K.contents keeper.new ≡ K.contents keeper.old) × (K.records keeper.new ≡ K.records keeper.old)) }
    ensures later { K.faults keeper.old ≤ K.faults keeper.new }
    ensures cause { IfOk result (λ out. IfSome (failed_in out.kind) (λ call. Rose (K.faults keeper.old) (K.faults keeper.new))) }
    ensures parts { K.parts keeper.new ≡ K.parts keeper.old }
    ensures files { K.files keeper.new ≡ K.files keeper.old }
{
    let desk = Desk {
        place,
        clock,
        known,
        ends,
    };
    step(worker, alloc, &desk, table, keeper, input)
}
