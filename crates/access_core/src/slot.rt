//! One slot, and what each command does with it.
ghost use Rattle.std.specs.Prelude.{◌≡◌, ◌⊎◌, List, true, false, MatchOption};
ghost use Rattle.rbac_policy.specs.declared.commands.Entry.{Entry};
ghost use Rattle.rbac_policy.specs.StandsFor.{StandsFor};
ghost use Rattle.refusal_rules.specs.Rules.{accept, ◌▸◌};
ghost use Rattle.access_core.specs.Answering.{ByRules, no_memory};
ghost use Rattle.access_core.specs.SlotStep.{SlotStep, no_instant};
ghost use Rattle.access_core.specs.SlotStep.{NamesUndecided, step_rules, slot_entry_rules};
ghost use Rattle.access_core.specs.SlotStep.{stamp_of, Offers, AddsEntry, Steps};
ghost use Rattle.access_core.specs.SlotStep.{Looks, Audits, Loads, tells_added};
ghost use Rattle.reactor_core.specs.Meaning.{is_loaded};
ghost use Rattle.reactor_core.specs.Instants.{HasNoOutcome};
ghost use Rattle.access_core.specs.Holding.{journal_of, IsHeldRight};

use crate::admission::stamp;
use crate::command::SlotCommand;
use crate::refusal::Refusal;
use crate::reply::{Added, Reply};
use crate::shown::{find_observed, keep_observed, list_names, list_statuses};
use est_kernel::state::Stuck;
use est_text::identifier::Identifier;
use rbac_policy::commands::SessionId;
use rbac_policy::objects::SlotNumber;
use rbac_policy::policy::Policy;
use reactor_core::entry::{Load, Move, SlotWord, Stamp};
use reactor_core::journal::Journal;
use reactor_core::reactor::Reactor;
use reactor_core::refusal::ModuleRefusal;
use std::alloc::Global;
use std::marker::Model;
use std::mem;

/// What a slot holds.
#[derive(Drop)]
enum Content {
    /// No module runs.
    Empty(Journal),
    Loaded(Reactor),
}

/// A slot: its number, and a journal with no module or a reactor. A contract sees the number and
/// the journal.
#[derive(Drop)]
pub struct Slot {
    alloc: Global,
    number: SlotNumber,
    content: Content,
}

impl Model for Slot {
    ghost use Rattle.std.specs.Coded.{codes};
    ghost use Rattle.reactor_core.specs.contracts.entry.SlotEntry as entry;
    ghost use Rattle.access_core.specs.SlotState.{SlotState};

    ghost Value = { SlotState };

    ghost coded = { Prim.hlevel (codes, entry.the_row.coded) };

    ghost use Rattle.access_core.specs.Holding.{journal_of, IsHeldRight};

    ghost view = { λ s. record { number = s.number; journal = journal_of s.content } };

    ghost invariant = { λ s. IsHeldRight s.content };
}

/// What the session is shown of an instant of the reactor.
fn show_instant(
    alloc: Global,
    policy: &Policy,
    slot: SlotNumber,
    session: SessionId,
    reactor: &Reactor,
    instant: u64,
) -> Reply
    ensures { (entries : List Entry) → StandsFor policy.now entries
        → ByRules (no_instant reactor.now instant ▸ no_memory ▸ accept)
        (Looks entries slot session instant)
        reactor.now result reactor.now }
{
    let interface = reactor.interface();
    let seen = find_observed(policy, slot, session, interface);
    match reactor.shown(instant, seen) {
        Ok(shown) => match list_statuses(alloc, interface, shown.mask, shown.present) {
            Ok(signals) => Reply::Look {
                instant,
                signals,
                version: policy.version(),
            },
            Err(_) => Reply::Refused(Refusal::Memory),
        },
        Err(_) => Reply::Refused(Refusal::Module(ModuleRefusal::NoInstant)),
    }
}

/// The refusal of a step that has no reaction: it names the undecided outputs and inputoutputs that
/// the session may observe.
fn refuse_stuck(
    alloc: Global,
    policy: &Policy,
    slot: SlotNumber,
    session: SessionId,
    reactor: &Reactor,
    stuck: Stuck,
) -> Refusal
    requires { HasNoOutcome reactor.now stuck.undecided }
    ensures { (entries : List Entry) → StandsFor policy.now entries
        → no_memory.refuses result ⊎ NamesUndecided entries slot session reactor.now result }
{
    let interface = reactor.interface();
    let seen = find_observed(policy, slot, session, interface);
    let undecided = keep_observed(seen, stuck.undecided);
    match list_names(alloc, interface, undecided) {
        Ok(undecided) => Refusal::Stuck { undecided },
        Err(_) => Refusal::Memory,
    }
}

/// The reply to the command of this word, which added the last entry of the reactor's journal.
fn added_to(reactor: &Reactor, word: SlotWord, stamp: Stamp) -> Reply
    ensures { result ≡ tells_added word stamp.version reactor.now }
{
    Reply::Added(Added {
        word,
        place: reactor.journal().len() as u64,
        version: stamp.version,
        instants: reactor.instants(),
    })
}

/// Loads a module: the reply, and what the slot holds afterwards.
fn load_module(alloc: Global, journal: Journal, stamp: Stamp, load: Load) -> (Reply, Content)
    requires { is_loaded journal ≡ false }
    ensures held { IsHeldRight result.1 }
    ensures step { Loads stamp load.main load.text journal result.0 (journal_of result.1) }
{
    match Reactor::load(alloc, journal, stamp, load) {
        Ok(reactor) => {
            let reply = added_to(&reactor, SlotWord::Load, stamp);
            (reply, Content::Loaded(reactor))
        }
        Err((refusal, journal)) => (
            Reply::Refused(Refusal::from(refusal)),
            Content::Empty(journal),
        ),
    }
}

/// Offers the signal to the reactor.
fn offer_signal(reactor: &mut Reactor, stamp: Stamp, signal: &Identifier) -> Reply
    ensures loaded { is_loaded reactor.new ≡ true }
    ensures step { Offers stamp signal.now reactor.old result reactor.new }
{
    match reactor.offer(stamp, signal) {
        Ok(()) => added_to(reactor, SlotWord::Offer, stamp),
        Err(refusal) => Reply::Refused(Refusal::from(refusal)),
    }
}

/// Takes the reactor's pending inputs away.
fn discard_inputs(reactor: &mut Reactor, stamp: Stamp) -> Reply
    ensures loaded { is_loaded reactor.new ≡ true }
    ensures step { ByRules (slot_entry_rules reactor.old) (AddsEntry Move.Discard stamp)
        reactor.old result reactor.new }
{
    match reactor.discard(stamp) {
        Ok(()) => added_to(reactor, SlotWord::Discard, stamp),
        Err(refusal) => Reply::Refused(Refusal::from(refusal)),
    }
}

/// Takes the module out: the reply, and what the slot holds afterwards.
fn unload_module(reactor: Reactor, stamp: Stamp) -> (Reply, Content)
    requires { is_loaded reactor ≡ true }
    ensures held { IsHeldRight result.1 }
    ensures step { ByRules (slot_entry_rules reactor) (AddsEntry Move.Unload stamp) reactor
        result.0 (journal_of result.1) }
{
    match reactor.unload(stamp) {
        Ok(journal) => {
            let reply = Reply::Added(Added {
                word: SlotWord::Unload,
                place: journal.len() as u64,
                version: stamp.version,
                instants: 0,
            });
            (reply, Content::Empty(journal))
        }
        Err((refusal, reactor)) => (
            Reply::Refused(Refusal::from(refusal)),
            Content::Loaded(reactor),
        ),
    }
}

/// Steps the reactor: opens the next instant, settles it and commits it. The reply, and the reactor
/// afterwards.
fn step_reactor(
    alloc: Global,
    policy: &Policy,
    slot: SlotNumber,
    session: SessionId,
    reactor: Reactor,
) -> (Reply, Reactor)
    ensures loaded { is_loaded result.1 ≡ true }
    ensures step { (entries : List Entry) → StandsFor policy.now entries
        → ByRules (step_rules entries slot session reactor) (Steps (stamp_of entries session))
        reactor result.0 result.1 }
{
    let opened = match reactor.open() {
        Ok(opened) => opened,
        Err((refusal, reactor)) => return (Reply::Refused(Refusal::from(refusal)), reactor),
    };
    let settled = match opened.settle() {
        Ok(settled) => settled,
        Err((stuck, reactor)) => {
            let refusal = refuse_stuck(alloc, policy, slot, session, &reactor, stuck);
            return (Reply::Refused(refusal), reactor);
        }
    };
    let stamp = stamp(policy, session);
    match settled.commit(stamp) {
        Ok(reactor) => (added_to(&reactor, SlotWord::Step, stamp), reactor),
        Err((refusal, reactor)) => (Reply::Refused(Refusal::from(refusal)), reactor),
    }
}

impl Slot {
    ghost use Rattle.access_core.specs.Desk.{empty_slot};
    ghost use Rattle.access_core.specs.SlotStep.{occupied, empty, journal_rules, Does};

    /// An empty slot with an empty journal. It takes no memory.
    pub fn new(alloc: Global, number: SlotNumber) -> Slot
        ensures { result ≡ empty_slot number }
    {
        Slot {
            alloc,
            number,
            content: Content::Empty(Journal::new(alloc)),
        }
    }

    /// Its number.
    pub fn number(&self) -> SlotNumber
        ensures { result ≡ self.now.number }
    {
        self.number
    }

    /// Its journal.
    pub fn journal(&self) -> &Journal
        ensures { result.now ≡ self.now.journal }
    {
        match &self.content {
            Content::Empty(journal) => journal,
            Content::Loaded(reactor) => reactor.journal(),
        }
    }

    /// What runs in it, if a module does. It takes no memory.
    pub fn reactor(&self) -> Option<&Reactor>
        ensures { MatchOption result (is_loaded self.now.journal ≡ false)
            (λ reactor. reactor.now ≡ self.now.journal) }
    {
        match &self.content {
            Content::Empty(_) => None,
            Content::Loaded(reactor) => Some(reactor),
        }
    }

    /// Its journal alone. It adds no entry and takes no memory.
    pub fn into_journal(self) -> Journal
        ensures { result ≡ self.journal }
    {
        let Slot { content, .. } = self;
        match content {
            Content::Empty(journal) => journal,
            Content::Loaded(reactor) => reactor.into_journal(),
        }
    }

    pub(crate) fn load(&mut self, stamp: Stamp, load: Load) -> Reply
        ensures number { self.new.number ≡ self.old.number }
        ensures step { ByRules (occupied self.old.journal ▸ accept)
            (Loads stamp load.main load.text)
            self.old.journal result self.new.journal }
    {
        // The content is moved out; each arm puts it back.
        let empty = Content::Empty(Journal::new(self.alloc));
        match mem::replace(&mut self.content, empty) {
            Content::Empty(journal) => {
                let (reply, loaded) = load_module(self.alloc, journal, stamp, load);
                self.content = loaded;
                reply
            }
            Content::Loaded(reactor) => {
                self.content = Content::Loaded(reactor);
                Reply::Refused(Refusal::Occupied)
            }
        }
    }

    fn offer(&mut self, stamp: Stamp, signal: &Identifier) -> Reply
        ensures number { self.new.number ≡ self.old.number }
        ensures step { ByRules (empty self.old.journal ▸ accept) (Offers stamp signal.now)
            self.old.journal result self.new.journal }
    {
        if let Content::Loaded(reactor) = &mut self.content {
            return offer_signal(reactor, stamp, signal);
        }
        Reply::Refused(Refusal::Empty)
    }

    fn step(&mut self, policy: &Policy, session: SessionId) -> Reply
        ensures number { self.new.number ≡ self.old.number }
        ensures step { (entries : List Entry) → StandsFor policy.now entries
            → ByRules (empty self.old.journal ▸ step_rules entries self.old.number session
            self.old.journal)
            (Steps (stamp_of entries session)) self.old.journal result self.new.journal }
    {
        // The content is moved out; each arm puts it back.
        let empty = Content::Empty(Journal::new(self.alloc));
        match mem::replace(&mut self.content, empty) {
            Content::Empty(journal) => {
                self.content = Content::Empty(journal);
                Reply::Refused(Refusal::Empty)
            }
            Content::Loaded(reactor) => {
                let (reply, reactor) = step_reactor(
                    self.alloc,
                    policy,
                    self.number,
                    session,
                    reactor,
                );
                self.content = Content::Loaded(reactor);
                reply
            }
        }
    }

    fn discard(&mut self, stamp: Stamp) -> Reply
        ensures number { self.new.number ≡ self.old.number }
        ensures step { ByRules (empty self.old.journal ▸ slot_entry_rules self.old.journal)
            (AddsEntry Move.Discard stamp)
            self.old.journal result self.new.journal }
    {
        if let Content::Loaded(reactor) = &mut self.content {
            return discard_inputs(reactor, stamp);
        }
        Reply::Refused(Refusal::Empty)
    }

    fn unload(&mut self, stamp: Stamp) -> Reply
        ensures number { self.new.number ≡ self.old.number }
        ensures step { ByRules (empty self.old.journal ▸ slot_entry_rules self.old.journal)
            (AddsEntry Move.Unload stamp)
            self.old.journal result self.new.journal }
    {
        // The content is moved out; each arm puts it back.
        let empty = Content::Empty(Journal::new(self.alloc));
        match mem::replace(&mut self.content, empty) {
            Content::Empty(journal) => {
                self.content = Content::Empty(journal);
                Reply::Refused(Refusal::Empty)
            }
            Content::Loaded(reactor) => {
                let (reply, content) = unload_module(reactor, stamp);
                self.content = content;
                reply
            }
        }
    }

    /// Makes the move, which the session may make.
    pub(crate) fn make_move(
        &mut self,
        policy: &Policy,
        session: SessionId,
        asked: Move<()>,
    ) -> Reply
        ensures number { self.new.number ≡ self.old.number }
        ensures step { (entries : List Entry) → StandsFor policy.now entries
            → ByRules (journal_rules entries self.old.number session (SlotCommand.Move asked)
            self.old.journal)
            (Does entries self.old.number session (SlotCommand.Move asked)) self.old.journal result
            self.new.journal }
    {
        match asked {
            Move::Load(load) => self.load(stamp(policy, session), load),
            Move::Offer(signal) => self.offer(stamp(policy, session), &signal),
            Move::Discard => self.discard(stamp(policy, session)),
            Move::Step(()) => self.step(policy, session),
            Move::Unload => self.unload(stamp(policy, session)),
        }
    }

    pub(crate) fn audit(&self, policy: &Policy) -> Reply
        ensures { (entries : List Entry) → StandsFor policy.now entries
            → Audits entries self.now.journal result self.now.journal }
    {
        let instants = match &self.content {
            Content::Empty(_) => 0,
            Content::Loaded(reactor) => reactor.instants(),
        };
        Reply::Audit {
            entries: self.journal().len() as u64,
            instants,
            version: policy.version(),
        }
    }

    pub(crate) fn look(&self, policy: &Policy, session: SessionId, instant: u64) -> Reply
        ensures { (entries : List Entry) → StandsFor policy.now entries
            → ByRules (empty self.now.journal ▸ no_instant self.now.journal instant ▸ no_memory
            ▸ accept)
            (Looks entries self.now.number session instant) self.now.journal result
            self.now.journal }
    {
        match &self.content {
            Content::Empty(_) => Reply::Refused(Refusal::Empty),
            Content::Loaded(reactor) => show_instant(
                self.alloc,
                policy,
                self.number,
                session,
                reactor,
                instant,
            ),
        }
    }
}
