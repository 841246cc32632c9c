//! A drop of a job, and what it says at its end.
ghost use Rattle.std.specs.Prelude.{◌≡◌, ◌≤◌, ◌+◌, ◌<◌, ◌^◌, ℕ, List, [], ◌∷◌, map, find, true, false, not, ◌&&◌, ◌==◌, Some, None, IfOk, IfSome, OnErr, OnOk};
ghost use Rattle.std.specs.Option.{ForSome, option_map};
ghost use Rattle.run_data.specs.declared.job.DropRefusal.{DropRefusal};
ghost use Rattle.node_model.specs.Jobs.{drop_side, partner};
ghost use Rattle.node_model.specs.Rows.{option_is};
ghost use Rattle.node_model.specs.JobStep.{is_held};
ghost use Rattle.drop_phases.specs.Doing.{AreProtocolLines};
ghost use Rattle.drop_phases.specs.Sides.{side_in, target_on};
ghost use Rattle.drop_phases.specs.Working.{frames_of, heard_in, is_lock, with_version, newest_of, end_frames, partings, phase_as, texts_of};

use crate::here::Here;
use crate::phase::{Ending, Heard, Phase, Token};
use crate::said::Said;
use crate::sends::Sends;
use crate::turn::{Output, Parcel, ParcelBody};
use annex_base::{Call, NoMemory, Word};
use annex_key::{Key, key_texts_have_no_fault};
use content_lock::{Bar, LockTable, Share};
use drop_proof::Side;
use p2p_wire::{Message, sent_messages_have_lines};
use run_data::{By, DropRefusal, EntryKind, Job, JobKind, Outcome};
use std::alloc::Global;
use std::marker::Model;
use std::mem;

/// A job's drop. Job numbers count a repository's begun jobs.
pub struct Worker {
    number: u32,
    slot: u32,
    job: Job,
    /// What the job's peer answered to VERSION.
    version: u64,
    /// What it heard of each candidate's copy, the newest first.
    heard: Vec<(u32, Heard)>,
    /// The word beside the target's answer to an order.
    word: Option<Word>,
    phase: Phase,
    token: Token,
}

impl Model for Worker {
    ghost use Rattle.drop_phases.specs.Worker.{Worker};

    ghost Value = { Worker };

    ghost view = { λ w. record { number = w.number; slot = w.slot; job = w.job; version = w.version; heard = w.heard.items; word = w.word; phase = w.phase; token = w.token } };
}

impl Worker {
    /// The drop of a job that begins it: of a begun job, or of a move that is done with its transfer. The version is what the job's
    /// peer answered, or 3 where it wasn't asked.
    pub fn start(alloc: Global, number: u32, slot: u32, job: Job, version: u64) -> Worker
        ensures { result ≡ record { number = number; slot = slot; job = job; version = version; heard = []; word = None; phase = Phase.Fresh; token = Token.Nothing } }
    {
        Worker {
            number,
            slot,
            job,
            version,
            heard: Vec::new(alloc),
            word: None,
            phase: Phase::Fresh,
            token: Token::Nothing,
        }
    }

    pub fn number(&self) -> u32
        ensures { result ≡ self.now.number }
    {
        self.number
    }

    pub fn slot(&self) -> u32
        ensures { result ≡ self.now.slot }
    {
        self.slot
    }

    pub fn key(&self) -> &Key
        ensures { result.now ≡ self.now.job.key }
    {
        &self.job.key
    }

    /// What it heard of each candidate's copy, the newest first.
    pub fn heard(&self) -> &[(u32, Heard)]
        ensures { result.now ≡ self.now.heard }
    {
        &self.heard
    }

    /// Where it stands.
    pub fn phase(&self) -> Phase
        ensures { result ≡ self.now.phase }
    {
        self.phase
    }

    /// What the job's peer answered to VERSION.
    pub fn version(&self) -> u64
        ensures { result ≡ self.now.version }
    {
        self.version
    }

    /// The word beside the target's answer to an order.
    pub fn word(&self) -> Option<Word>
        ensures { result ≡ self.now.word }
    {
        self.word
    }

    /// Goes on so.
    pub fn go_to(&mut self, phase: Phase)
        ensures { self.new ≡ record self.old { phase = phase } }
    {
        self.phase = phase;
    }

    /// What it has of the table, as the worker ends.
    pub fn into_token(self) -> Token
        ensures { result ≡ self.token }
    {
        let Worker {
            number: _,
            slot: _,
            job: _,
            version: _,
            heard: _,
            word: _,
            phase: _,
            token,
        } = self;
        token
    }

    /// Hands over what it has of the table.
    pub fn take_token(&mut self) -> Token
        ensures token { result ≡ self.old.token }
        ensures bare { self.new ≡ record self.old { token = Token.Nothing } }
    {
        mem::replace(&mut self.token, Token::Nothing)
    }

    /// The peer whose frame the job awaits, if it awaits one.
    pub fn awaits(&self) -> Option<u32>
        ensures { result ≡ partner self.now.job.peer (phase_as self.now.phase) }
    {
        match self.phase {
            Phase::Opens { peer } | Phase::Greets { peer } => Some(peer),
            Phase::AsksLock { peer, since: _ } | Phase::AsksLook { peer } => Some(peer),
            Phase::AsksTime | Phase::Orders => self.job.peer,
            Phase::Fresh | Phase::Next | Phase::Removed | Phase::Denied => None,
            Phase::Late { time: _ } | Phase::Ends(_) => None,
        }
    }

    /// Whether this is the job's peer.
    fn is_partner(&self, peer: u32) -> bool
        ensures { result ≡ option_is self.now.job.peer peer }
    {
        match self.job.peer {
            Some(other) => other == peer,
            None => false,
        }
    }

    /// Keeps the version that the job's peer answered.
    pub fn learn(&mut self, peer: u32, version: u64)
        ensures { self.new ≡ with_version self.old peer version }
    {
        if self.is_partner(peer) {
            self.version = version;
        }
    }

    /// Where it removes.
    pub fn side(&self) -> Side
        ensures { result ≡ drop_side self.now.job.kind self.now.job.peer }
    {
        match (self.job.kind, self.job.peer) {
            (JobKind::Drop, None) | (JobKind::MoveTo, _) => Side::Local,
            _ => Side::Remote,
        }
    }

    /// The repository from which a remote drop removes.
    pub fn target(&self) -> Option<u32>
        ensures { result ≡ target_on (side_in self.now) self.now.job.peer }
    {
        match self.side() {
            Side::Local => None,
            Side::Remote => self.job.peer,
        }
    }

    /// Whether a peer gave it a lock.
    pub fn has_lock(&self, peer: u32) -> bool
        ensures { result ≡ is_held (heard_in self.now.heard peer) }
    {
        is_lock(newest(self.heard(), peer))
    }

    /// What is sent to a peer at the end, on an open connection.
    fn parting(&self, alloc: Global, peer: u32, lost: bool) -> Result<Parcel, NoMemory>
        ensures { IfOk result (λ p. (p.peer ≡ peer) × (texts_of p.body ≡ end_frames self.now lost peer true)) }
    {
        if self.has_lock(peer) && !lost {
            // For the proof: what it says are lines of the protocol.
            reads(self.key());
            let key = self.key().copy()?;
            let said = Said::new(alloc, Message::UnlockContent(key))?;
            return Ok(Parcel {
                peer,
                body: ParcelBody::Last(said),
            });
        }
        Ok(Parcel {
            peer,
            body: ParcelBody::Close,
        })
    }

    /// What is sent at the end.
    pub fn partings<H: Here>(&self, alloc: Global, here: &H, lost: bool) -> Result<Sends, NoMemory>
        ensures { IfOk result (λ ps. frames_of (H.ends here.now) self.now.slot ps.items ≡ partings (H.reading here.now) (H.ends here.now) self.now lost) }
    {
        let mut parcels = Sends::new(alloc);
        let count = here.count();
        let repo = here.repo();
        for peer in 0..count {
            if peer != repo && here.is_open(peer, self.slot()) {
                parcels.push(self.parting(alloc, peer, lost)?)?;
            }
        }
        Ok(parcels)
    }

    /// A store call failed: the job ends next.
    pub fn fail(&mut self, alloc: Global, call: Call) -> Output
        ensures says { (result.kind ≡ EntryKind.Fault call (By.Job self.old.number)) × (result.sends.items ≡ []) × (result.ended ≡ false) }
        ensures next { self.new ≡ record self.old { phase = Phase.Ends Ending.StoreFault } }
    {
        self.go_to(Phase::Ends(Ending::StoreFault));
        Output {
            kind: EntryKind::Fault {
                call,
                by: By::Job(self.number()),
            },
            sends: Sends::new(alloc),
            ended: false,
        }
    }

    /// Hears of a candidate's copy, and goes on.
    pub fn hear(&mut self, peer: u32, heard: Heard) -> Result<(), NoMemory>
        ensures ok { OnOk result (self.new ≡ record self.old { heard = (peer, heard) ∷ self.old.heard; phase = Phase.Next }) }
        ensures err { OnErr result (self.new ≡ self.old) }
    {
        self.heard.insert(0, (peer, heard))?;
        self.phase = Phase::Next;
        Ok(())
    }

    /// Hears another thing in place of what it heard last.
    pub fn rehear(&mut self, heard: Heard)
        ensures { (peer : ℕ) (before : Heard) (rest : List (ℕ × Heard)) → self.old.heard ≡ (peer, before) ∷ rest → self.new ≡ record self.old { heard = (peer, heard) ∷ rest } }
    {
        rehear(&mut self.heard, heard);
    }

    /// Takes back what it heard last, and stands as before.
    pub fn unhear(&mut self, phase: Phase)
        ensures { (x : ℕ × Heard) (rest : List (ℕ × Heard)) → self.old.heard ≡ x ∷ rest → self.new ≡ record self.old { heard = rest; phase = phase } }
    {
        unhear(&mut self.heard);
        self.phase = phase;
    }

    /// Keeps the word beside the target's answer to an order.
    pub fn keep_word(&mut self, word: Option<Word>)
        ensures { self.new ≡ record self.old { word = word } }
    {
        self.word = word;
    }

    /// Has a share.
    pub fn take_share(&mut self, share: Share)
        requires bare { self.old.token ≡ Token.Nothing }
        ensures { self.new ≡ record self.old { token = Token.Share share } }
    {
        match mem::replace(&mut self.token, Token::Share(share)) {
            Token::Nothing => {}
            Token::Bar(_before) => unreachable!(),
            Token::Share(_before) => unreachable!(),
        }
    }

    /// Has a bar.
    pub fn take_bar(&mut self, bar: Bar)
        requires bare { self.old.token ≡ Token.Nothing }
        ensures { self.new ≡ record self.old { token = Token.Bar bar } }
    {
        match mem::replace(&mut self.token, Token::Bar(bar)) {
            Token::Nothing => {}
            Token::Bar(_before) => unreachable!(),
            Token::Share(_before) => unreachable!(),
        }
    }
}

fn rehear(all: &mut Vec<(u32, Heard)>, heard: Heard)
    ensures { (peer : ℕ) (before : Heard) (rest : List (ℕ × Heard)) → all.old.items ≡ (peer, before) ∷ rest → all.new.items ≡ (peer, heard) ∷ rest }
{
    if !all.is_empty() {
        let peer = all[0].0;
        all[0] = (peer, heard);
    }
}

fn unhear(all: &mut Vec<(u32, Heard)>)
    ensures { (x : ℕ × Heard) (rest : List (ℕ × Heard)) → all.old.items ≡ x ∷ rest → all.new.items ≡ rest }
{
    if !all.is_empty() {
        all.remove(0);
    }
}

/// What was heard of a repository last.
pub fn newest(heard: &[(u32, Heard)], peer: u32) -> Option<Heard>
    ensures { result ≡ newest_of heard.now peer }
{
    match heard.iter().find(|x| x.0 == peer) {
        Some(x) => Some(x.1),
        None => None,
    }
}

fn is_lock(heard: Option<Heard>) -> bool
    ensures { result ≡ is_lock heard }
{
    match heard {
        Some(Heard::Held { since: _ }) => true,
        _ => false,
    }
}

/// The job ends so.
pub fn ending(number: u32, outcome: Outcome, sends: Sends) -> Output
    ensures { result ≡ record { kind = EntryKind.End number outcome; sends = sends; ended = true } }
{
    Output {
        kind: EntryKind::End {
            job: number,
            outcome,
        },
        sends,
        ended: true,
    }
}

/// A peer is told something.
pub fn telling(alloc: Global, number: u32, peer: u32, body: ParcelBody) -> Result<Output, NoMemory>
    ensures { IfOk result (λ out. (out.kind ≡ EntryKind.Talk (Some number)) × (out.sends.items ≡ record { peer = peer; body = body } ∷ []) × (out.ended ≡ false)) }
{
    let mut sends = Sends::new(alloc);
    sends.push(Parcel { peer, body })?;
    Ok(Output {
        kind: EntryKind::Talk { job: Some(number) },
        sends,
        ended: false,
    })
}

/// The kind of an entry that says something at most.
pub fn talk(job: u32) -> EntryKind
    ensures { result ≡ EntryKind.Talk (Some job) }
{
    EntryKind::Talk { job: Some(job) }
}

/// Nothing is sent, and the job goes on.
pub fn quietly(alloc: Global, kind: EntryKind) -> Output
    ensures { (result.kind ≡ kind) × (result.sends.items ≡ []) × (result.ended ≡ false) }
{
    Output {
        kind,
        sends: Sends::new(alloc),
        ended: false,
    }
}

/// That what a drop says are lines of the protocol: it is called for proofs alone, and does nothing (own).
pub fn reads(key: &Key)
    ensures { AreProtocolLines key.now }
{
    key_texts_have_no_fault();
    sent_messages_have_lines();
    let _text = key.text();
}
