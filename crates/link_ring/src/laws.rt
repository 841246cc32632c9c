//! Laws on the ends of connections: each is the contract of a function that does nothing.
ghost use Rattle.std.specs.Prelude.{◌≡◌, ℕ, List, false, IfSome};
ghost use Rattle.link_ring.specs.Frames.{is_old};
ghost use Rattle.link_ring.specs.Ends.{EndView, ArePaired, after_carry, fresh, next_frame};
ghost use Rattle.link_ring.specs.Ways.{Call, Event, after_call, after_events, new_way, of_epoch, IsFront};

/// Two ends of one connection stay so, whatever is called at either.
pub fn ends_stay_paired()
    ensures fresh { ArePaired fresh fresh }
    ensures other { (a b : EndView) → ArePaired a b → ArePaired b a }
    ensures call { (c : Call) (a b : EndView) → ArePaired a b → ArePaired (after_call c a) b }
    ensures carry { (a b : EndView) → ArePaired a b → ArePaired (after_carry a b) (after_carry b a) }
{}

/// Whatever is called at the two ends and however often frames are carried, of each epoch the frames that were taken
/// are the first of those that were sent, in their order and each once. None is taken of an epoch that the end has
/// closed, or of one before that.
pub fn frames_keep_their_order()
    ensures order { (events : List Event) (e : ℕ) → IsFront (of_epoch e (after_events events new_way).taken) (of_epoch e (after_events events new_way).sent) }
    ensures none_old { (a : EndView) → IfSome (next_frame a) (λ f. is_old a.epoch a.phase f ≡ false) }
{}
