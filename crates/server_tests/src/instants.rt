//! An instant that is given up, which no line of the protocol asks for.
use crate::audit::journals::load_of;
use est_text::identifier::Identifier;
use reactor_core::entry::{Move, PastInstant, Stamp};
use reactor_core::journal::Journal;
use reactor_core::reactor::Reactor;
use reactor_core::reactor::instant::{Instant, Settled};
use std::alloc::Global;
use std::process::Abort;

const STAMP: Stamp = Stamp {
    version: 9,
    session: 1,
};

/// A module that runs.
fn loaded(rt: &impl Abort, alloc: Global) -> Reactor {
    let text = "module M: input I; output O; present I then emit O end; pause end module";
    let load = load_of(rt, alloc, text);
    match Reactor::load(alloc, Journal::new(alloc), STAMP, load) {
        Ok(reactor) => reactor,
        Err((_, _journal)) => None.expect(rt, "a module"),
    }
}

/// The next instant, opened.
fn opened(rt: &impl Abort, reactor: Reactor) -> Instant {
    match reactor.open() {
        Ok(opened) => opened,
        Err((_, reactor)) => {
            let _journal = reactor.into_journal();
            None.expect(rt, "an instant")
        }
    }
}

/// The next instant, opened and settled.
fn settled(rt: &impl Abort, reactor: Reactor) -> Settled {
    match opened(rt, reactor).settle() {
        Ok(settled) => settled,
        Err((_, reactor)) => {
            let _journal = reactor.into_journal();
            None.expect(rt, "a reaction")
        }
    }
}

/// The next instant, opened, settled and committed.
fn committed(rt: &impl Abort, reactor: Reactor) -> Reactor {
    match settled(rt, reactor).commit(STAMP) {
        Ok(reactor) => reactor,
        Err((_, reactor)) => {
            let _journal = reactor.into_journal();
            None.expect(rt, "room")
        }
    }
}

/// The pending inputs, how many instants there were, and how many entries there are.
fn counted(reactor: &Reactor) -> (u64, u64, usize) {
    (
        reactor.pending(),
        reactor.instants(),
        reactor.journal().len(),
    )
}

/// Whether both signals are shown present in the first instant.
fn are_shown(reactor: &Reactor) -> bool {
    match reactor.shown(1, 3) {
        Ok(shown) => shown.mask == 3 && shown.present == 3,
        Err(_) => false,
    }
}

/// Whether the last entry keeps an instant with the first input and the second output.
fn is_kept(journal: &Journal) -> bool {
    let wanted = PastInstant {
        inputs: 1,
        outputs: 2,
    };
    match journal.entries().last() {
        Some(entry) => matches!(&entry.done, Move::Step(kept) if *kept == wanted),
        None => false,
    }
}

/// An instant that is given up, opened or settled, leaves the reactor as it was: what was offered
/// is in the next instant that is committed, and in its entry.
#[test]
fn an_abandoned_instant_leaves_the_reactor(rt: HostRuntime) {
    let signal = Identifier::from_text("I").expect(&rt, "a name");
    let mut reactor = loaded(&rt, rt.alloc());
    assert!(rt; reactor.offer(STAMP, &signal).is_ok());
    let reactor = opened(&rt, reactor).abandon();
    let reactor = settled(&rt, reactor).abandon();
    assert_eq!(rt; counted(&reactor), (1, 0, 2));
    let reactor = committed(&rt, reactor);
    assert_eq!(rt; counted(&reactor), (0, 1, 3));
    assert!(rt; are_shown(&reactor));
    assert!(rt; is_kept(&reactor.into_journal()));
}
