//! A walk over a kernel's statement: the sides of each `||` that tell each other are swept in their
//! order (`side_order` of `est_net`).
//!
//! A walk goes to those `||`s as they are run, one after another, and sweeps besides what says
//! whether they are begun. Each part is swept by what is known then: present is what the parts
//! before it surely emit, and absent what no emission may emit any more. The cells of the signals
//! are not told: the run does that, after its sweep. What a walk leaves out costs time alone, since
//! a run ends by a full sweep.
//!
//! What calls itself here does so on a part of the statement that it was given, and goes as deep as
//! the statement is.

ghost use Rattle.std.specs.Prelude.{◌≡◌, ◌<◌, ◌≤◌, ◌+◌, ℕ, Bool, length};
ghost use Rattle.est_kernel.specs.Bits.{bits};
ghost use Rattle.est_kernel.specs.View.{query_of};
ghost use Rattle.est_kernel.specs.declared.statement.Statement.TheVariants.{Suspend', Trap'};
ghost use Rattle.est_meaning.specs.Environments.{status_of};
ghost use Rattle.est_meaning.specs.States.{IsState};
ghost use Rattle.est_meaning.specs.Views.{env_of};
ghost use Rattle.est_net.specs.Cells.{decided};
ghost use Rattle.est_net.specs.Kept.{kept};
ghost use Rattle.est_micro.specs.Engine.{IsNetOf};
ghost use Rattle.est_micro.specs.Parts.{AgreeBut, AreInputsAlone};
ghost use Rattle.est_micro.specs.Inner.Parts.{GoesOn, IsBody, IsGateInside, IsLoop, IsPar};
ghost use Rattle.est_micro.specs.Inner.Parts.{IsPlaced, IsPresent, IsScope, IsSeq, PartEnds};
ghost use Rattle.est_micro.specs.Inner.Walks.{SideWalks, Walks};
ghost use Rattle.est_micro.specs.Runs.{Ready};

use crate::cells::StatementPlace;
use crate::direction::Direction;
use crate::extents::{is_live, past};
use crate::lead::{close_part, lead_part, without_silent};
use crate::part::Part;
use crate::question::Question;
use crate::sides::Sides;
use est_kernel::state::State;
use est_kernel::statement::{LocalSignal, Signal, Statement, Test};
use est_meaning::signal_set::{self, Env};
use est_meaning::status::Status;
use est_net::net::Net;
use est_rounds::answer::answer_to;

/// What a walk over a part is to do besides sweeping sides in their order.
#[derive(Clone, Copy)]
enum Wish {
    /// Nothing that this doesn't need.
    Order,
    /// All parts of the part are to be swept.
    Parts,
    /// Its cells are to tell whether it ends.
    End,
}

impl Wish {
    /// The same of what is inside, where the cells of the part itself are told afterwards.
    #[inline(always)]
    fn inside(self) -> Wish {
        match self {
            Wish::Parts => Wish::Parts,
            Wish::Order | Wish::End => Wish::Order,
        }
    }
}

/// Whether sides of a `||` in this part tell each other.
#[inline(always)]
fn tells(net: &Net, part: &Part<'_>) -> bool
    requires { part.now.place.number < length net.now.extents.items }
{
    net.extent(part.place.number).tells
}

/// Whether a part is surely not begun.
#[inline(always)]
fn is_idle(part: &Part<'_>) -> bool {
    matches!((part.gate, part.pauses), (Status::Absent, None))
}

/// Whether a walk over the parts of a part has told whether it ends: a `;` ends as its second part
/// does, and a `||` that is begun is closed.
#[inline(always)]
fn is_told(part: &Part<'_>) -> bool {
    match part.statement {
        Statement::Seq(_, _) => true,
        Statement::Par(_, _) => part.pauses.is_none(),
        _ => false,
    }
}

/// The gate of the body of a `suspend` whose test has this status.
fn gate_inside(part: &Part<'_>, asked: Status) -> Status
    ensures { (t : _) (l : _) → asked ≡ status_of l (query_of t)
        → IsGateInside part.now t l result }
{
    match part.pauses {
        None => part.gate,
        Some(_) => part.gate.and(asked.opposite()),
    }
}

/// What is known of whether a part ends. The cells of a `;` may be open where its second part tells
/// that.
fn ends_of(net: &Net, part: &Part<'_>) -> Status
    requires placed { IsPlaced net.now.extents.items (length net.now.cells.items) part.now }
    ensures { PartEnds part.now net.now.cells.items result }
{
    match part.statement {
        Statement::Seq(p, q) => ends_of(net, &part.second(net, p, q)),
        _ => net.status(part.place.cell + 1),
    }
}

/// Walks over a side of a `||`, all of whose parts are to be swept. One that is over is not begun.
#[cycle(walk)]
#[inline(always)]
fn walk_side(net: &mut Net, question: &Question<'_>, side: &Part<'_>, known: &Env) -> Env
    requires net { IsNetOf net.old question.now.kernel.now }
    requires placed { IsPlaced net.old.extents.items (length net.old.cells.items) side.now }
    ensures walked { SideWalks question.now side.now (env_of known.now) (env_of result)
        net.old.cells.items net.new.cells.items }
    ensures net { IsNetOf net.new question.now.kernel.now }
    ensures kept { kept net.new ≡ kept net.old }
{
    let at = &side.place;
    if let Some(pauses) = side.pauses {
        if !is_live(net, at.number, at.traps, side.statement, pauses) {
            return lead_part(net, &side.begun(Status::Absent), known);
        }
    }
    let reads = net.extent(at.number).reads.interface;
    let heard = without_silent(net, question, known, reads);
    walk(net, question, side, &heard, Wish::Parts)
}

/// Walks over the sides of a `||` in their order, if they have one. Then the `||` is closed, unless
/// it goes on from its pauses.
#[cycle(walk)]
fn walk_par<'a>(
    net: &mut Net,
    question: &Question<'_>,
    part: &Part<'a>,
    p: &'a Statement,
    q: &'a Statement,
    known: &Env,
) -> Env
    requires net { IsNetOf net.old question.now.kernel.now }
    requires placed { IsPlaced net.old.extents.items (length net.old.cells.items) part.now }
    requires is { IsPar part.now.statement.now p.now q.now }
    ensures walked { Walks question.now part.now (env_of known.now) (env_of result)
        net.old.cells.items net.new.cells.items }
    ensures net { IsNetOf net.new question.now.kernel.now }
    ensures kept { kept net.new ≡ kept net.old }
{
    let Some(order) = net.orders().get(part.place.number) else {
        return *known;
    };
    let sides = Sides::of(net, &part.place, p, q);
    let mut known = *known;
    for n in 0..order.count {
        if let Some(side) = sides.get(order.sides[n] as usize) {
            known = walk_side(net, question, &part.side(&side), &known);
        }
    }
    close_part(net, part);
    known
}

/// What a walk over a `;` with this second part is to do with the first one.
fn first_wish(net: &Net, second: &Part<'_>, wish: Wish) -> Wish
    requires { second.now.place.number < length net.now.extents.items }
{
    match wish {
        Wish::Parts | Wish::End => Wish::End,
        Wish::Order => {
            if tells(net, second) {
                Wish::End
            } else {
                Wish::Order
            }
        }
    }
}

/// Walks over a `;`, whose first part tells whether the second is begun.
#[cycle(walk)]
fn walk_seq<'a>(
    net: &mut Net,
    question: &Question<'_>,
    part: &Part<'a>,
    p: &'a Statement,
    q: &'a Statement,
    known: &Env,
    wish: Wish,
) -> Env
    requires net { IsNetOf net.old question.now.kernel.now }
    requires placed { IsPlaced net.old.extents.items (length net.old.cells.items) part.now }
    requires live { GoesOn part.now }
    requires is { IsSeq part.now.statement.now p.now q.now }
    ensures walked { Walks question.now part.now (env_of known.now) (env_of result)
        net.old.cells.items net.new.cells.items }
    ensures net { IsNetOf net.new question.now.kernel.now }
    ensures kept { kept net.new ≡ kept net.old }
{
    let first = part.first(p);
    let second = part.second(net, p, q);
    if let Some(pauses) = part.pauses {
        if !is_live(net, first.place.number, first.place.traps, p, pauses) {
            let mid = lead_part(net, &first.begun(Status::Absent), known);
            return walk(net, question, &second, &mid, wish);
        }
    }
    let mid = walk(net, question, &first, known, first_wish(net, &second, wish));
    let ends = ends_of(net, &first);
    walk(net, question, &second.begun(ends), &mid, wish)
}

/// Walks over the branches of a `present`, or over the one that goes on.
#[cycle(walk)]
fn walk_present<'a>(
    net: &mut Net,
    question: &Question<'_>,
    part: &Part<'a>,
    test: &Test,
    p: &'a Statement,
    q: &'a Statement,
    known: &Env,
    wish: Wish,
) -> Env
    requires net { IsNetOf net.old question.now.kernel.now }
    requires placed { IsPlaced net.old.extents.items (length net.old.cells.items) part.now }
    requires live { GoesOn part.now }
    requires is { IsPresent part.now.statement.now test.now p.now q.now }
    ensures walked { Walks question.now part.now (env_of known.now) (env_of result)
        net.old.cells.items net.new.cells.items }
    ensures net { IsNetOf net.new question.now.kernel.now }
    ensures kept { kept net.new ≡ kept net.old }
{
    let first = part.first(p);
    let second = part.second(net, p, q);
    if let Some(pauses) = part.pauses {
        if is_live(net, first.place.number, first.place.traps, p, pauses) {
            return walk(net, question, &first, known, wish.inside());
        }
        return walk(net, question, &second, known, wish.inside());
    }
    let taken = part.gate.and(answer_to(known, test));
    let mid = walk(net, question, &first.gated(taken), known, wish.inside());
    let other = part.gate.and(answer_to(&mid, test).opposite());
    walk(net, question, &second.gated(other), &mid, wish.inside())
}

/// Walks over the body of a loop, and then, if the loop goes on, over its restart.
#[cycle(walk)]
fn walk_loop<'a>(
    net: &mut Net,
    question: &Question<'_>,
    part: &Part<'a>,
    p: &'a Statement,
    known: &Env,
    wish: Wish,
) -> Env
    requires net { IsNetOf net.old question.now.kernel.now }
    requires placed { IsPlaced net.old.extents.items (length net.old.cells.items) part.now }
    requires live { GoesOn part.now }
    requires is { IsLoop part.now.statement.now p.now }
    ensures walked { Walks question.now part.now (env_of known.now) (env_of result)
        net.old.cells.items net.new.cells.items }
    ensures net { IsNetOf net.new question.now.kernel.now }
    ensures kept { kept net.new ≡ kept net.old }
{
    let traps = part.place.traps;
    let body = part.body(p, 3, traps);
    if part.pauses.is_none() {
        return walk(net, question, &body, known, wish.inside());
    }
    let mid = walk(net, question, &body, known, Wish::End);
    let again = Part {
        place: StatementPlace {
            main: false,
            cell: past(net, &body.place, p),
            ..body.place
        },
        gate: ends_of(net, &body),
        pauses: None,
        ..body
    };
    walk(net, question, &again, &mid, wish.inside())
}

/// Walks over a body inside this many traps, by this gate.
#[cycle(walk)]
fn walk_inside<'a>(
    net: &mut Net,
    question: &Question<'_>,
    part: &Part<'a>,
    p: &'a Statement,
    traps: usize,
    gate: Status,
    known: &Env,
    wish: Wish,
) -> Env
    requires net { IsNetOf net.old question.now.kernel.now }
    requires body { IsBody net.old.extents.items (length net.old.cells.items) part.now p.now
        3 traps }
    ensures trap { (a : _) → part.now.statement.now ≡ Trap' a p.now
        → traps ≡ part.now.place.traps + 1 → gate ≡ part.now.gate → Walks question.now
        part.now (env_of known.now) (env_of result) net.old.cells.items net.new.cells.items }
    ensures suspend { (t a : _) → part.now.statement.now ≡ Suspend' t a p.now
        → traps ≡ part.now.place.traps → IsGateInside part.now t (env_of known.now) gate
        → Walks question.now part.now (env_of known.now) (env_of result) net.old.cells.items
        net.new.cells.items }
    ensures net { IsNetOf net.new question.now.kernel.now }
    ensures kept { kept net.new ≡ kept net.old }
{
    let body = part.body(p, 3, traps).gated(gate);
    walk(net, question, &body, known, wish.inside())
}

/// Walks over the scope of a local signal.
#[cycle(walk)]
fn walk_local<'a>(
    net: &mut Net,
    question: &Question<'_>,
    part: &Part<'a>,
    s: LocalSignal,
    p: &'a Statement,
    known: &Env,
    wish: Wish,
) -> Env
    requires net { IsNetOf net.old question.now.kernel.now }
    requires placed { IsPlaced net.old.extents.items (length net.old.cells.items) part.now }
    requires live { GoesOn part.now }
    requires is { IsScope part.now.statement.now s p.now }
    ensures walked { Walks question.now part.now (env_of known.now) (env_of result)
        net.old.cells.items net.new.cells.items }
    ensures net { IsNetOf net.new question.now.kernel.now }
    ensures kept { kept net.new ≡ kept net.old }
{
    let traps = part.place.traps;
    let status = net.status(part.place.cell + traps + 3);
    let inside = signal_set::set_local(known, s, status);
    let body = part.body(p, 4, traps);
    let after = walk(net, question, &body, &inside, wish.inside());
    let outside = signal_set::status_of_signal(known, Signal::Local(s));
    signal_set::set_local(&after, s, outside)
}

/// Walks over the parts of a statement.
#[cycle(walk)]
fn walk_parts(
    net: &mut Net,
    question: &Question<'_>,
    part: &Part<'_>,
    known: &Env,
    wish: Wish,
) -> Env
    requires net { IsNetOf net.old question.now.kernel.now }
    requires placed { IsPlaced net.old.extents.items (length net.old.cells.items) part.now }
    requires live { GoesOn part.now }
    ensures walked { Walks question.now part.now (env_of known.now) (env_of result)
        net.old.cells.items net.new.cells.items }
    ensures net { IsNetOf net.new question.now.kernel.now }
    ensures kept { kept net.new ≡ kept net.old }
{
    let traps = part.place.traps;
    match part.statement {
        Statement::Par(p, q) => walk_par(net, question, part, p, q, known),
        Statement::Seq(p, q) => walk_seq(net, question, part, p, q, known, wish),
        Statement::Present(t, p, q) => walk_present(net, question, part, t, p, q, known, wish),
        Statement::Loop(p) => walk_loop(net, question, part, p, known, wish),
        Statement::Trap(p) => walk_inside(
            net,
            question,
            part,
            p,
            traps + 1,
            part.gate,
            known,
            wish,
        ),
        Statement::Suspend(t, p) => {
            let gate = gate_inside(part, answer_to(known, t));
            walk_inside(net, question, part, p, traps, gate, known, wish)
        }
        Statement::Local(s, p) => walk_local(net, question, part, *s, p, known, wish),
        Statement::Nothing => *known,
        Statement::Pause(_) => *known,
        Statement::Emit(_) => *known,
        Statement::Exit(_) => *known,
    }
}

/// Walks over a part of a kernel's statement, if sides of a `||` in it tell each other.
/// Besides it does what it is asked to do. Answers what is known then.
#[cycle(walk)]
#[inline(always)]
fn walk(net: &mut Net, question: &Question<'_>, part: &Part<'_>, known: &Env, wish: Wish) -> Env
    requires net { IsNetOf net.old question.now.kernel.now }
    requires placed { IsPlaced net.old.extents.items (length net.old.cells.items) part.now }
    requires live { GoesOn part.now }
    ensures walked { Walks question.now part.now (env_of known.now) (env_of result)
        net.old.cells.items net.new.cells.items }
    ensures net { IsNetOf net.new question.now.kernel.now }
    ensures kept { kept net.new ≡ kept net.old }
{
    let tells = tells(net, part);
    if !tells || is_idle(part) {
        return match wish {
            Wish::Order if !tells => *known,
            _ => lead_part(net, part, known),
        };
    }
    let mid = walk_parts(net, question, part, known, wish);
    match wish {
        Wish::End if !is_told(part) => lead_part(net, part, &mid),
        _ => mid,
    }
}

/// Walks over a kernel's statement, if sides of a `||` in it tell each other. Answers whether some
/// signal was found to be absent.
pub fn lead_round(net: &mut Net, question: &Question<'_>, env: &Env) -> bool
    requires net { IsNetOf net.old question.now.kernel.now }
    requires state { IsState question.now.kernel.now.root question.now.state.now }
    requires apart { AreInputsAlone question.now.kernel.now.interface (bits question.now.unasked) }
    ensures more { decided net.old.cells.items ≤ decided net.new.cells.items }
    ensures ready { (others : ℕ → Bool)
        → AgreeBut (bits question.now.unasked) (bits question.now.inputs) others
        → Ready (bits question.now.unasked) question.now.kernel.now question.now.state.now others
        net.old.cells.items env.now
        → Ready (bits question.now.unasked) question.now.kernel.now question.now.state.now others
        net.new.cells.items env.now }
    ensures net { IsNetOf net.new question.now.kernel.now }
    ensures kept { kept net.new ≡ kept net.old }
{
    let pauses = match question.state {
        State::Fresh => None,
        State::Paused(pauses) => Some(pauses),
        State::Done => return false,
    };
    let part = Part {
        statement: question.kernel.root(),
        place: StatementPlace {
            number: 0,
            main: true,
            direction: Direction::Forwards,
            cell: net.output_count(),
            traps: 0,
        },
        gate: Status::Present,
        pauses,
    };
    let known = walk(net, question, &part, env, Wish::Order);
    known.possible.interface != env.possible.interface
}
