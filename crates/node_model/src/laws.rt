//! The laws of one repository. Each is the contract of a function that does nothing.

ghost use Rattle.std.specs.Prelude.{◌≡◌, ℕ, ◌+◌, true, List, [], Option, Some, None};
ghost use Rattle.std.specs.Option.{option_map};
ghost use Rattle.annex_base.specs.declared.kinds.Call.{Call};
ghost use Rattle.annex_base.specs.Lists.{Member};
ghost use Rattle.run_data.specs.declared.entry.Entry.{Entry};
ghost use Rattle.run_data.specs.declared.entry.EntryKind.TheVariants.{Crash};
ghost use Rattle.run_data.specs.declared.row.Hold.{Hold};
ghost use Rattle.node_model.specs.After.{state_after};
ghost use Rattle.node_model.specs.Calls.{AreRising};
ghost use Rattle.node_model.specs.Clocks.{hold_time};
ghost use Rattle.node_model.specs.Look.{Look, Effect, failed_in, failing_call};
ghost use Rattle.node_model.specs.SetUp.{SetUp};
ghost use Rattle.node_model.specs.State.{State};
ghost use Rattle.node_model.specs.Step.{step};

/// A crash ends each job and takes each bar and each owed line away. It sets the clock; contents stay, and so do holds, kept
/// for ten minutes of the new clock (own).
pub fn crashes_keep_contents_and_holds()
    ensures jobs { (s : SetUp) (st : State) (e : Entry) (clock : ℕ) → e.kind ≡ Crash clock → (state_after s st e).works ≡ [] }
    ensures owed { (s : SetUp) (st : State) (e : Entry) (clock : ℕ) → e.kind ≡ Crash clock → (state_after s st e).owed ≡ [] }
    ensures bars { (s : SetUp) (st : State) (e : Entry) (clock : ℕ) (key : List ℕ) → e.kind ≡ Crash clock
        → (state_after s st e).bar key ≡ None }
    ensures clock { (s : SetUp) (st : State) (e : Entry) (clock : ℕ) → e.kind ≡ Crash clock
        → (state_after s st e).clock e.time ≡ clock }
    ensures contents { (s : SetUp) (st : State) (e : Entry) (clock : ℕ) (key : List ℕ) → e.kind ≡ Crash clock
        → ((state_after s st e).present key ≡ st.present key) × ((state_after s st e).content key ≡ st.content key) }
    ensures holds { (s : SetUp) (st : State) (e : Entry) (clock : ℕ) (h : Hold) → e.kind ≡ Crash clock
        → Member h (state_after s st e).holds → (h.kept ≡ true) × (h.end ≡ clock + hold_time) }
{}

/// A step fails where the call that is to fail is one of its calls. Which calls these are doesn't hang on that, and they are in
/// the order of all calls.
pub fn steps_tell_their_calls()
    ensures fails { (s : SetUp) (st : State) (k : Look) (m : Effect) → step s st k ≡ Some m → failed_in m.kind ≡ failing_call k.fails m.calls }
    ensures same { (s : SetUp) (st : State) (k : Look) (fails : Option Call)
        → option_map (λ (m : Effect). m.calls) (step s st (record k { fails = fails })) ≡ option_map (λ (m : Effect). m.calls) (step s st k) }
    ensures rising { (s : SetUp) (st : State) (k : Look) (m : Effect) → step s st k ≡ Some m → AreRising m.calls }
{}
