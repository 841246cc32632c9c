//! Calls of one of the nodes: each does what the node's own does, and leaves the others as they are.
ghost use Rattle.std.specs.Prelude.{◌≡◌, ◌≢◌, ◌⊎◌, ℕ, ◌+◌, ◌≤◌, ◌<◌, ◌^◌, Bool, true, [], ◌∷◌, Err, Some, max, length, map, is_some, nat_le, slice_get, IfOk, IfErr, IsErrOf, OnErr, OnOk};
ghost use Rattle.std.specs.Map.{keys_of};
ghost use Rattle.std.specs.Option.{ForSome, option_copied, option_map};
ghost use Rattle.annex_base.specs.Causes.{Rose};
ghost use Rattle.annex_base.specs.declared.kinds.Call.TheVariants as calls;
ghost use Rattle.branch_bundle.specs.Bundle.{IsBundle, IsFirstWrong};
ghost use Rattle.key_verify.specs.Matching.{MatchesKey};
ghost use Rattle.link_ring.specs.Ends.{after_drop};
ghost use Rattle.log_lines.specs.LineText.{line_text};
ghost use Rattle.node_ends.specs.Joined.{StayPaired};
ghost use Rattle.repo_node.specs.Beginning.{Begins, MayBegin};
ghost use Rattle.node_model.specs.SetUp.{SetUp};
ghost use Rattle.node_model.specs.Step.{step};
ghost use Rattle.object_store.specs.Calls.{one_more};
ghost use Rattle.object_store.specs.Stores.{AreSmallParts};
ghost use Rattle.run_data.specs.Files.{file_of};
ghost use Rattle.run_data.specs.declared.entry.EntryKind.TheVariants.{Begin};
ghost use Rattle.union_merge.specs.Branch.{Files};
ghost use Rattle.union_merge.specs.LineSet.{IsLine};
ghost use Rattle.repo_node.specs.Calls.{IsDoneBy, Makes, MeetsFull, MeetsFullBehind, StopsAt, lacks_of, lacks_some, shrinks_at, to_compact, to_log, to_merge, to_place, to_place_part};
ghost use Rattle.content_lock.specs.CallsMade.{fewer};
ghost use Rattle.repo_node.specs.Closing.{ClosesEach, ends_to, lacks_places};
ghost use Rattle.repo_node.specs.Crashing.{Crashes};
ghost use Rattle.repo_node.specs.Debts.{failed_put};
ghost use Rattle.repo_node.specs.Logs.{IsLogOf, log_of, stamped_by, with_lines};
ghost use Rattle.repo_node.specs.Nodes.{MatchesSetup, NodeView, told_of, with_entry};
ghost use Rattle.repo_node.specs.Placing.{IsPlaced, IsTaken, PartAfter, StopsBefore, StopsPlacing};
ghost use Rattle.repo_node.specs.Refusals.{RefusesSo};
ghost use Rattle.run_data.specs.Histories.{most_entries};
ghost use Rattle.repo_node.specs.Stored.{TellsSame, store_view};
ghost use Rattle.repo_node.specs.Turning.{Adds, HasStep, IsIdle, StepsBy};
ghost use Rattle.repo_node.specs.Walks.{IsOfBundle, StopsAfter, compact_files, merge_files, over};
ghost use Rattle.joined_nodes.specs.Joined.{AtNode};

use crate::laws::nodes_stay_joined;
use crate::nodes::Nodes;
use annex_base::{Call, Items, NoMemory, Text};
use annex_key::Key;
use branch_bundle::bundles_are_exact;
use log_lines::{Entry, LogKind};
use object_store::{FailingKeeper, Keeper};
use repo_node::{BeginRefused, Node, NodeRefused, Turn};
use run_data::Job;

/// A node makes ready to crash, and crashes.
fn crash<K: Keeper>(node: &mut Node<K>, clock: u64) -> Result<(), NodeRefused>
    requires near { clock ≤ 100000000000 }
    ensures ok { OnOk result (Crashes (told_of (K.contents node.old.keeper) (K.parts node.old.keeper)) clock node.old node.new) }
    ensures full { IsErrOf result NodeRefused.Full → nat_le most_entries (length node.old.history) ≡ true }
    ensures lacks { nat_le most_entries (length node.old.history) ≡ true → result ≡ Err NodeRefused.Full }
    ensures refused { IfErr result (λ e. (e ≡ NodeRefused.Full) ⊎ (e ≡ NodeRefused.NoMemory)) }
    ensures paired { StayPaired node.old.parts.links node.new.parts.links }
    ensures err { OnErr result (node.new ≡ node.old) }
{
    let ready = node.make_ready()?;
    ready.crash(clock);
    Ok(())
}

impl<K: Keeper> Nodes<K> {
    /// Raises the time of a node, in milliseconds of the script, and its count of the last entry, as `Node::advance` does.
    pub fn advance(&mut self, repo: usize, time: u64, count: u64)
        requires there { repo < length self.old }
        requires time { time ≤ 1000000000000 }
        requires count { count < 2 ^ 61 }
        ensures node { AtNode repo self.old self.new (λ was now. now ≡ record was { time = max was.time time; count = max was.count count }) }
        ensures others { (i : ℕ) → i ≢ repo → slice_get self.new i ≡ slice_get self.old i }
        ensures count { length self.new ≡ length self.old }
    {
        // A law, for the proof that the nodes stay joined.
        nodes_stay_joined::<K>();
        self.nodes[repo].advance(time, count);
    }

    /// Begins a job of a node, on a key with these paths, as `Node::begin` does.
    pub fn begin(&mut self, repo: usize, job: Job, paths: Items<Text>) -> Result<u32, BeginRefused>
        requires there { repo < length self.old }
        requires may { (n : NodeView K) → slice_get self.old repo ≡ Some n → MayBegin (record { number = n.setup.number; ids = n.setup.repos }) job.kind job.peer }
        ensures number { AtNode repo self.old self.new (λ was now. IfOk result (λ number. number ≡ was.parts.jobs.begun + 1)) }
        ensures jobs { AtNode repo self.old self.new (λ was now. OnOk result (Begins was.parts.jobs job paths now.parts.jobs)) }
        ensures ok { AtNode repo self.old self.new (λ was now. IfOk result (λ number. now ≡ record (with_entry was was.keeper was.branch (Begin number job) []) { parts = record was.parts { jobs = now.parts.jobs } })) }
        ensures slot { AtNode repo self.old self.new (λ was now. IsErrOf result BeginRefused.NoSlot → 4 ≤ length was.parts.jobs.running) }
        ensures free { AtNode repo self.old self.new (λ was now. (result ≡ Err BeginRefused.NoSlot → ⊥) → length was.parts.jobs.running < 4) }
        ensures full { AtNode repo self.old self.new (λ was now. IsErrOf result BeginRefused.Full → length was.history ≡ most_entries) }
        ensures err { AtNode repo self.old self.new (λ was now. OnErr result (now ≡ was)) }
        ensures others { (i : ℕ) → i ≢ repo → slice_get self.new i ≡ slice_get self.old i }
        ensures count { length self.new ≡ length self.old }
    {
        // A law, for the proof that the nodes stay joined.
        nodes_stay_joined::<K>();
        self.nodes[repo].begin(job, paths)
    }

    /// One turn of a node, as `Node::turn` makes it. What it sent stays on its way until frames are carried.
    pub fn turn(&mut self, repo: usize) -> Turn
        requires there { repo < length self.old }
        ensures moved { AtNode repo self.old self.new (λ was now. result ≡ Turn.Moved → Adds (map after_drop was.parts.links) (store_view (K.contents was.keeper) (K.parts was.keeper) (K.failing was.keeper) (K.faults was.keeper)) (store_view (K.contents now.keeper) (K.parts now.keeper) (K.failing now.keeper) (K.faults now.keeper)) was now) }
        ensures step { AtNode repo self.old self.new (λ was now. result ≡ Turn.Moved → ForSome (told_of (K.contents was.keeper) (K.parts was.keeper)) (λ c. StepsBy step (store_view (K.contents was.keeper) (K.parts was.keeper) (K.failing was.keeper) (K.faults was.keeper)) (store_view (K.contents now.keeper) (K.parts now.keeper) (K.failing now.keeper) (K.faults now.keeper)) was now)) }
        ensures idle { AtNode repo self.old self.new (λ was now. result ≡ Turn.Idle → ForSome (told_of (K.contents was.keeper) (K.parts was.keeper)) (λ c. (s : SetUp) → MatchesSetup was.setup s → IsIdle was s)) }
        ensures full { AtNode repo self.old self.new (λ was now. result ≡ Turn.Full → length was.history ≡ most_entries) }
        ensures ready { AtNode repo self.old self.new (λ was now. result ≡ Turn.Full → ForSome (told_of (K.contents was.keeper) (K.parts was.keeper)) (λ c. (s : SetUp) → MatchesSetup was.setup s → HasStep was s)) }
        ensures stays { AtNode repo self.old self.new (λ was now. result ≢ Turn.Moved → now ≡ record was { keeper = now.keeper; parts = record was.parts { links = map after_drop was.parts.links } }) }
        ensures unasked { AtNode repo self.old self.new (λ was now. result ≢ Turn.Moved → result ≢ Turn.NoMemory → now.keeper ≡ was.keeper) }
        ensures short { AtNode repo self.old self.new (λ was now. result ≡ Turn.NoMemory → TellsSame (K.contents was.keeper) (K.contents now.keeper) (K.parts was.keeper) (K.parts now.keeper) (K.records was.keeper) (K.records now.keeper) (K.files was.keeper) (K.files now.keeper) (K.failing was.keeper) (K.failing now.keeper)) }
        ensures told_parts { AtNode repo self.old self.new (λ was now. is_some (K.parts now.keeper) ≡ is_some (K.parts was.keeper)) }
        ensures small { AtNode repo self.old self.new (λ was now. AreSmallParts (K.parts was.keeper) → AreSmallParts (K.parts now.keeper)) }
        ensures told_contents { AtNode repo self.old self.new (λ was now. is_some (K.parts was.keeper) ≡ true → is_some (K.contents now.keeper) ≡ is_some (K.contents was.keeper)) }
        ensures paired { AtNode repo self.old self.new (λ was now. StayPaired was.parts.links now.parts.links) }
        ensures later { AtNode repo self.old self.new (λ was now. K.faults was.keeper ≤ K.faults now.keeper) }
        ensures others { (i : ℕ) → i ≢ repo → slice_get self.new i ≡ slice_get self.old i }
        ensures count { length self.new ≡ length self.old }
    {
        // A law, for the proof that the nodes stay joined.
        nodes_stay_joined::<K>();
        self.nodes[repo].turn()
    }

    /// Closes a node's ends of the connections with another, as `Node::close_end` does. What it sent stays on its way until frames are
    /// carried.
    pub fn close_end(&mut self, repo: usize, peer: u32) -> Result<(), NodeRefused>
        requires there { repo < length self.old }
        requires known { (n : NodeView K) → slice_get self.old repo ≡ Some n → peer < length n.setup.repos }
        requires other { (n : NodeView K) → slice_get self.old repo ≡ Some n → peer ≢ n.setup.number }
        ensures ok { AtNode repo self.old self.new (λ was now. OnOk result (ClosesEach (told_of (K.contents was.keeper) (K.parts was.keeper)) (ends_to peer) was now)) }
        ensures full { AtNode repo self.old self.new (λ was now. IsErrOf result NodeRefused.Full → lacks_places was peer ≡ true) }
        ensures lacks { AtNode repo self.old self.new (λ was now. lacks_places was peer ≡ true → result ≡ Err NodeRefused.Full) }
        ensures refused { IfErr result (λ e. (e ≡ NodeRefused.Full) ⊎ (e ≡ NodeRefused.NoMemory)) }
        ensures paired { AtNode repo self.old self.new (λ was now. StayPaired was.parts.links now.parts.links) }
        ensures err { AtNode repo self.old self.new (λ was now. OnErr result (now ≡ was)) }
        ensures others { (i : ℕ) → i ≢ repo → slice_get self.new i ≡ slice_get self.old i }
        ensures count { length self.new ≡ length self.old }
    {
        // A law, for the proof that the nodes stay joined.
        nodes_stay_joined::<K>();
        self.nodes[repo].close_end(peer)
    }

    /// A node makes ready to crash, as `Node::make_ready` does, and crashes, as `ReadyNode::crash` does. What it sent stays on its way until frames are carried.
    pub fn crash(&mut self, repo: usize, clock: u64) -> Result<(), NodeRefused>
        requires there { repo < length self.old }
        requires near { clock ≤ 100000000000 }
        ensures ok { AtNode repo self.old self.new (λ was now. OnOk result (Crashes (told_of (K.contents was.keeper) (K.parts was.keeper)) clock was now)) }
        ensures full { AtNode repo self.old self.new (λ was now. IsErrOf result NodeRefused.Full → nat_le most_entries (length was.history) ≡ true) }
        ensures lacks { AtNode repo self.old self.new (λ was now. nat_le most_entries (length was.history) ≡ true → result ≡ Err NodeRefused.Full) }
        ensures refused { IfErr result (λ e. (e ≡ NodeRefused.Full) ⊎ (e ≡ NodeRefused.NoMemory)) }
        ensures paired { AtNode repo self.old self.new (λ was now. StayPaired was.parts.links now.parts.links) }
        ensures err { AtNode repo self.old self.new (λ was now. OnErr result (now ≡ was)) }
        ensures others { (i : ℕ) → i ≢ repo → slice_get self.new i ≡ slice_get self.old i }
        ensures count { length self.new ≡ length self.old }
    {
        // A law, for the proof that the nodes stay joined.
        nodes_stay_joined::<K>();
        crash(&mut self.nodes[repo], clock)
    }

    /// Adds a line to a file of a node's branch, as `Node::write_raw` does.
    pub fn write_raw(&mut self, repo: usize, path: &[u8], line: &[u8]) -> Result<(), NodeRefused>
        requires there { repo < length self.old }
        requires path { IsLine path.now }
        requires line { IsLine line.now }
        ensures ok { AtNode repo self.old self.new (λ was now. OnOk result (now ≡ with_lines was now.keeper (file_of path.now) (line.now ∷ []))) }
        ensures err { AtNode repo self.old self.new (λ was now. IfErr result (λ e. RefusesSo e calls.PutFile was now)) }
        ensures contents { AtNode repo self.old self.new (λ was now. K.contents now.keeper ≡ K.contents was.keeper) }
        ensures parts { AtNode repo self.old self.new (λ was now. K.parts now.keeper ≡ K.parts was.keeper) }
        ensures records { AtNode repo self.old self.new (λ was now. K.records now.keeper ≡ K.records was.keeper) }
        ensures later { AtNode repo self.old self.new (λ was now. K.faults was.keeper ≤ K.faults now.keeper) }
        ensures cause { AtNode repo self.old self.new (λ was now. IsErrOf result NodeRefused.StoreFault → Rose (K.faults was.keeper) (K.faults now.keeper)) }
        ensures calls { AtNode repo self.old self.new (λ was now. Makes (to_log was (file_of path.now) (line.now ∷ [])) calls.PutFile result (K.failing was.keeper) (K.failing now.keeper)) }
        ensures full { AtNode repo self.old self.new (λ was now. IsErrOf result NodeRefused.Full → lacks_some was (file_of path.now) (line.now ∷ []) ≡ true) }
        ensures unasked { AtNode repo self.old self.new (λ was now. IsErrOf result NodeRefused.Full → now.keeper ≡ was.keeper) }
        ensures others { (i : ℕ) → i ≢ repo → slice_get self.new i ≡ slice_get self.old i }
        ensures count { length self.new ≡ length self.old }
    {
        // A law, for the proof that the nodes stay joined.
        nodes_stay_joined::<K>();
        self.nodes[repo].write_raw(path, line)
    }

    /// Adds an entry to a log of a node, as `Node::write_log` does.
    pub fn write_log(
        &mut self,
        repo: usize,
        kind: LogKind,
        key: Option<&Key>,
        entry: &Entry,
    ) -> Result<(), NodeRefused>
        requires there { repo < length self.old }
        requires file { IsLogOf kind (option_copied key) }
        requires line { (n : NodeView K) → slice_get self.old repo ≡ Some n → IsLine (line_text kind (stamped_by n kind (option_copied key) entry.now)) }
        ensures ok { AtNode repo self.old self.new (λ was now. OnOk result (now ≡ with_lines was now.keeper (log_of kind (option_copied key.entry)) (line_text kind (stamped_by was kind (option_copied key.entry) entry.now) ∷ []))) }
        ensures err { AtNode repo self.old self.new (λ was now. IfErr result (λ e. RefusesSo e calls.PutFile was now)) }
        ensures contents { AtNode repo self.old self.new (λ was now. K.contents now.keeper ≡ K.contents was.keeper) }
        ensures parts { AtNode repo self.old self.new (λ was now. K.parts now.keeper ≡ K.parts was.keeper) }
        ensures records { AtNode repo self.old self.new (λ was now. K.records now.keeper ≡ K.records was.keeper) }
        ensures later { AtNode repo self.old self.new (λ was now. K.faults was.keeper ≤ K.faults now.keeper) }
        ensures cause { AtNode repo self.old self.new (λ was now. IsErrOf result NodeRefused.StoreFault → Rose (K.faults was.keeper) (K.faults now.keeper)) }
        ensures calls { AtNode repo self.old self.new (λ was now. Makes (to_log was (log_of kind (option_copied key.entry)) (line_text kind (stamped_by was kind (option_copied key.entry) entry.now) ∷ [])) calls.PutFile result (K.failing was.keeper) (K.failing now.keeper)) }
        ensures full { AtNode repo self.old self.new (λ was now. IsErrOf result NodeRefused.Full → lacks_some was (log_of kind (option_copied key.entry)) (line_text kind (stamped_by was kind (option_copied key.entry) entry.now) ∷ []) ≡ true) }
        ensures unasked { AtNode repo self.old self.new (λ was now. IsErrOf result NodeRefused.Full → now.keeper ≡ was.keeper) }
        ensures others { (i : ℕ) → i ≢ repo → slice_get self.new i ≡ slice_get self.old i }
        ensures count { length self.new ≡ length self.old }
    {
        // A law, for the proof that the nodes stay joined.
        nodes_stay_joined::<K>();
        self.nodes[repo].write_log(kind, key, entry)
    }

    /// Merges the branch of a node, as a bundle, into that of the node of number `repo`, as `Node::merge_bundle` does.
    pub fn merge(&mut self, repo: usize, from: usize) -> Result<(), NodeRefused>
        requires there { repo < length self.old }
        requires other { from < length self.old }
        ensures ok { (other : NodeView K) → slice_get self.old from ≡ Some other → AtNode repo self.old self.new (λ was now. OnOk result (now ≡ over now.keeper (merge_files was other.branch))) }
        ensures err { (other : NodeView K) → slice_get self.old from ≡ Some other → AtNode repo self.old self.new (λ was now. IfErr result (λ e. StopsAfter (merge_files was) other.branch e now)) }
        ensures contents { AtNode repo self.old self.new (λ was now. K.contents now.keeper ≡ K.contents was.keeper) }
        ensures parts { AtNode repo self.old self.new (λ was now. K.parts now.keeper ≡ K.parts was.keeper) }
        ensures records { AtNode repo self.old self.new (λ was now. K.records now.keeper ≡ K.records was.keeper) }
        ensures later { AtNode repo self.old self.new (λ was now. K.faults was.keeper ≤ K.faults now.keeper) }
        ensures cause { AtNode repo self.old self.new (λ was now. IsErrOf result NodeRefused.StoreFault → Rose (K.faults was.keeper) (K.faults now.keeper)) }
        ensures calls { (other : NodeView K) → slice_get self.old from ≡ Some other → AtNode repo self.old self.new (λ was now. Makes (to_merge was other.branch) calls.PutFile result (K.failing was.keeper) (K.failing now.keeper)) }
        ensures alone { AtNode repo self.old self.new (λ was now. IsErrOf result NodeRefused.StoreFault → ForSome (K.failing was.keeper) (λ failing. RefusesSo NodeRefused.StoreFault calls.PutFile was now)) }
        ensures full { (other : NodeView K) → slice_get self.old from ≡ Some other → AtNode repo self.old self.new (λ was now. IsErrOf result NodeRefused.Full → MeetsFull (merge_files was) lacks_of other.branch (K.failing was.keeper) (K.failing now.keeper) was now) }
        ensures others { (i : ℕ) → i ≢ repo → slice_get self.new i ≡ slice_get self.old i }
        ensures count { length self.new ≡ length self.old }
    {
        // A law, for the proof that the nodes stay joined.
        nodes_stay_joined::<K>();
        let bundle = self.nodes[from].bundle()?;
        self.nodes[repo].merge_bundle(&bundle)
    }

    /// Merges a bundle into the branch of a node, as `Node::merge_bundle` does.
    pub fn merge_bundle(&mut self, repo: usize, bytes: &[u8]) -> Result<(), NodeRefused>
        requires there { repo < length self.old }
        ensures found { OnOk result (IsOfBundle bytes.now) }
        ensures ok { (files : Files) → IsBundle bytes.now files → AtNode repo self.old self.new (λ was now. OnOk result (now ≡ over now.keeper (merge_files was files))) }
        ensures err { (files : Files) → IsBundle bytes.now files → AtNode repo self.old self.new (λ was now. IfErr result (λ e. StopsAfter (merge_files was) files e now)) }
        ensures wrong { (at : ℕ) → result ≡ Err (NodeRefused.BadBundle at) → IsFirstWrong bytes.now at }
        ensures first { (at : ℕ) → IsFirstWrong bytes.now at → (result ≡ Err (NodeRefused.BadBundle at)) ⊎ (result ≡ Err NodeRefused.NoMemory) }
        ensures unread { (at : ℕ) → IsFirstWrong bytes.now at → AtNode repo self.old self.new (λ was now. now ≡ was) }
        ensures contents { AtNode repo self.old self.new (λ was now. K.contents now.keeper ≡ K.contents was.keeper) }
        ensures parts { AtNode repo self.old self.new (λ was now. K.parts now.keeper ≡ K.parts was.keeper) }
        ensures records { AtNode repo self.old self.new (λ was now. K.records now.keeper ≡ K.records was.keeper) }
        ensures later { AtNode repo self.old self.new (λ was now. K.faults was.keeper ≤ K.faults now.keeper) }
        ensures cause { AtNode repo self.old self.new (λ was now. IsErrOf result NodeRefused.StoreFault → Rose (K.faults was.keeper) (K.faults now.keeper)) }
        ensures calls { (files : Files) → IsBundle bytes.now files → AtNode repo self.old self.new (λ was now. Makes (to_merge was files) calls.PutFile result (K.failing was.keeper) (K.failing now.keeper)) }
        ensures left { AtNode repo self.old self.new (λ was now. K.failing now.keeper ≡ option_map (fewer (failed_put result)) (K.failing was.keeper)) }
        ensures alone { AtNode repo self.old self.new (λ was now. IsErrOf result NodeRefused.StoreFault → ForSome (K.failing was.keeper) (λ failing. RefusesSo NodeRefused.StoreFault calls.PutFile was now)) }
        ensures full { (files : Files) → IsBundle bytes.now files → AtNode repo self.old self.new (λ was now. IsErrOf result NodeRefused.Full → MeetsFull (merge_files was) lacks_of files (K.failing was.keeper) (K.failing now.keeper) was now) }
        ensures others { (i : ℕ) → i ≢ repo → slice_get self.new i ≡ slice_get self.old i }
        ensures count { length self.new ≡ length self.old }
    {
        // Laws: the nodes stay joined, since a text is the bundle of a branch or goes wrong at a place.
        nodes_stay_joined::<K>();
        bundles_are_exact();
        self.nodes[repo].merge_bundle(bytes)
    }

    /// Takes the outdated lines of a node's files away, as `Node::compact` does.
    pub fn compact(&mut self, repo: usize) -> Result<(), NodeRefused>
        requires there { repo < length self.old }
        ensures ok { AtNode repo self.old self.new (λ was now. OnOk result (now ≡ over now.keeper (compact_files was (keys_of was.branch)))) }
        ensures err { AtNode repo self.old self.new (λ was now. IfErr result (λ e. StopsAfter (compact_files was) (keys_of was.branch) e now)) }
        ensures contents { AtNode repo self.old self.new (λ was now. K.contents now.keeper ≡ K.contents was.keeper) }
        ensures parts { AtNode repo self.old self.new (λ was now. K.parts now.keeper ≡ K.parts was.keeper) }
        ensures records { AtNode repo self.old self.new (λ was now. K.records now.keeper ≡ K.records was.keeper) }
        ensures later { AtNode repo self.old self.new (λ was now. K.faults was.keeper ≤ K.faults now.keeper) }
        ensures cause { AtNode repo self.old self.new (λ was now. IsErrOf result NodeRefused.StoreFault → Rose (K.faults was.keeper) (K.faults now.keeper)) }
        ensures calls { AtNode repo self.old self.new (λ was now. Makes (to_compact was) calls.PutFile result (K.failing was.keeper) (K.failing now.keeper)) }
        ensures alone { AtNode repo self.old self.new (λ was now. IsErrOf result NodeRefused.StoreFault → ForSome (K.failing was.keeper) (λ failing. RefusesSo NodeRefused.StoreFault calls.PutFile was now)) }
        ensures full { AtNode repo self.old self.new (λ was now. IsErrOf result NodeRefused.Full → MeetsFull (compact_files was) shrinks_at (keys_of was.branch) (K.failing was.keeper) (K.failing now.keeper) was now) }
        ensures others { (i : ℕ) → i ≢ repo → slice_get self.new i ≡ slice_get self.old i }
        ensures count { length self.new ≡ length self.old }
    {
        // A law, for the proof that the nodes stay joined.
        nodes_stay_joined::<K>();
        self.nodes[repo].compact()
    }

    /// Places a content at a node, as `Node::place` does.
    pub fn place(&mut self, repo: usize, key: &Key, bytes: &[u8]) -> Result<(), NodeRefused>
        requires there { repo < length self.old }
        requires right { MatchesKey key.now bytes.now }
        ensures ok { AtNode repo self.old self.new (λ was now. OnOk result (IsPlaced key.now bytes.now (K.contents was.keeper) (K.parts was.keeper) (K.contents now.keeper) was now)) }
        ensures err { AtNode repo self.old self.new (λ was now. IfErr result (λ e. StopsPlacing key.now bytes.now (K.contents was.keeper) (K.parts was.keeper) (K.contents now.keeper) e was now)) }
        ensures records { AtNode repo self.old self.new (λ was now. K.records now.keeper ≡ K.records was.keeper) }
        ensures later { AtNode repo self.old self.new (λ was now. K.faults was.keeper ≤ K.faults now.keeper) }
        ensures cause { AtNode repo self.old self.new (λ was now. IsErrOf result NodeRefused.StoreFault → Rose (K.faults was.keeper) (K.faults now.keeper)) }
        ensures done { AtNode repo self.old self.new (λ was now. OnOk result (IsDoneBy to_place key.now [] was.parts.table (K.contents was.keeper) (K.parts was.keeper) (K.parts now.keeper) (K.failing was.keeper) (K.failing now.keeper))) }
        ensures stops { AtNode repo self.old self.new (λ was now. IfErr result (λ e. StopsAt to_place key.now bytes.now (K.contents was.keeper) (K.contents now.keeper) (K.parts was.keeper) (K.parts now.keeper) (K.failing was.keeper) (K.failing now.keeper) e was now)) }
        ensures full { AtNode repo self.old self.new (λ was now. IsErrOf result NodeRefused.Full → ((length was.history ≡ most_entries) × (now ≡ over now.keeper was)) ⊎ MeetsFullBehind key.now bytes.now (K.contents was.keeper) (K.failing was.keeper) (K.failing now.keeper) was now) }
        ensures room { AtNode repo self.old self.new (λ was now. OnOk result (length was.history < most_entries)) }
        ensures others { (i : ℕ) → i ≢ repo → slice_get self.new i ≡ slice_get self.old i }
        ensures count { length self.new ≡ length self.old }
    {
        // A law, for the proof that the nodes stay joined.
        nodes_stay_joined::<K>();
        self.nodes[repo].place(key, bytes)
    }

    /// Replaces a part at a node, as `Node::place_part` does.
    pub fn place_part(&mut self, repo: usize, key: &Key, bytes: &[u8]) -> Result<(), NodeRefused>
        requires there { repo < length self.old }
        ensures ok { AtNode repo self.old self.new (λ was now. OnOk result (now ≡ over now.keeper was)) }
        ensures part { AtNode repo self.old self.new (λ was now. OnOk result ((taken : Bool) × IsTaken taken (K.contents was.keeper) was.parts.table key.now × PartAfter taken key.now bytes.now (K.parts was.keeper) (K.parts now.keeper))) }
        ensures err { AtNode repo self.old self.new (λ was now. IfErr result (λ e. StopsBefore e was now)) }
        ensures contents { AtNode repo self.old self.new (λ was now. K.contents now.keeper ≡ K.contents was.keeper) }
        ensures records { AtNode repo self.old self.new (λ was now. K.records now.keeper ≡ K.records was.keeper) }
        ensures later { AtNode repo self.old self.new (λ was now. K.faults was.keeper ≤ K.faults now.keeper) }
        ensures cause { AtNode repo self.old self.new (λ was now. IsErrOf result NodeRefused.StoreFault → Rose (K.faults was.keeper) (K.faults now.keeper)) }
        ensures done { AtNode repo self.old self.new (λ was now. OnOk result (IsDoneBy to_place_part key.now bytes.now was.parts.table (K.contents was.keeper) (K.parts was.keeper) (K.parts now.keeper) (K.failing was.keeper) (K.failing now.keeper))) }
        ensures stops { AtNode repo self.old self.new (λ was now. IfErr result (λ e. StopsAt to_place_part key.now bytes.now (K.contents was.keeper) (K.contents now.keeper) (K.parts was.keeper) (K.parts now.keeper) (K.failing was.keeper) (K.failing now.keeper) e was now)) }
        ensures room { AtNode repo self.old self.new (λ was now. OnOk result (length was.history < most_entries)) }
        ensures others { (i : ℕ) → i ≢ repo → slice_get self.new i ≡ slice_get self.old i }
        ensures count { length self.new ≡ length self.old }
    {
        // A law, for the proof that the nodes stay joined.
        nodes_stay_joined::<K>();
        self.nodes[repo].place_part(key, bytes)
    }
}

impl<K: FailingKeeper> Nodes<K> {
    /// Lets one more of the next calls of this kind of a node's store fail, as `Node::fail_next` does.
    pub fn fail_next(&mut self, repo: usize, call: Call) -> Result<(), NoMemory>
        requires there { repo < length self.old }
        ensures ok { AtNode repo self.old self.new (λ was now. OnOk result (K.failing now.keeper ≡ option_map (one_more call) (K.failing was.keeper))) }
        ensures err { AtNode repo self.old self.new (λ was now. OnErr result (K.failing now.keeper ≡ K.failing was.keeper)) }
        ensures contents { AtNode repo self.old self.new (λ was now. K.contents now.keeper ≡ K.contents was.keeper) }
        ensures parts { AtNode repo self.old self.new (λ was now. K.parts now.keeper ≡ K.parts was.keeper) }
        ensures records { AtNode repo self.old self.new (λ was now. K.records now.keeper ≡ K.records was.keeper) }
        ensures files { AtNode repo self.old self.new (λ was now. K.files now.keeper ≡ K.files was.keeper) }
        ensures faults { AtNode repo self.old self.new (λ was now. K.faults now.keeper ≡ K.faults was.keeper) }
        ensures rest { AtNode repo self.old self.new (λ was now. now ≡ record was { keeper = now.keeper }) }
        ensures others { (i : ℕ) → i ≢ repo → slice_get self.new i ≡ slice_get self.old i }
        ensures count { length self.new ≡ length self.old }
    {
        // A law, for the proof that the nodes stay joined.
        nodes_stay_joined::<K>();
        self.nodes[repo].fail_next(call)
    }
}
