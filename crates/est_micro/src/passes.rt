//! Between the rounds of a run: a walk in the order of the sides of `||`s, or passes over what
//! reads the signals that the one before decided. Then the cells of the signals are told what is
//! emitted.

ghost use Rattle.std.specs.Prelude.{◌≡◌, ◌≤◌, ℕ, Bool};
ghost use Rattle.std.specs.List.{list_any};
ghost use Rattle.est_kernel.specs.Bits.{bits};
ghost use Rattle.est_meaning.specs.States.{IsState};
ghost use Rattle.est_meaning.specs.Views.{env_of};
ghost use Rattle.est_cells.specs.Tables.{is_possible, is_sure};
ghost use Rattle.est_net.specs.Cells.{cell_at, decided};
ghost use Rattle.est_net.specs.Emissions.{is_of};
ghost use Rattle.est_net.specs.Kept.{kept};
ghost use Rattle.est_net.specs.Layout.{output_count};
ghost use Rattle.est_micro.specs.Engine.{IsNetOf};
ghost use Rattle.est_micro.specs.Parts.{AgreeBut, AreInputsAlone};
ghost use Rattle.est_micro.specs.Inner.Passes.{IsPassRound, SheetPasses};
ghost use Rattle.est_micro.specs.Runs.{Ready};

use crate::cells::StatementPlace;
use crate::direction::Direction;
use crate::outputs::update_signals;
use crate::pass_begin::pass_begun;
use crate::pass_resume::pass_resumed;
use crate::question::Question;
use crate::walk::lead_round;
use est_kernel::code_set::CodeSet;
use est_kernel::mask;
use est_kernel::state::State;
use est_meaning::signal_set::{Env, SignalSet};
use est_meaning::status::Status;
use est_net::net::Net;
use est_rounds::acts::{Acts, MustCan};

/// The signals that one environment decides, and the other does not.
pub fn newly_decided(old: &Env, new: &Env) -> u64 {
    mask::union(
        mask::difference(new.present.interface, old.present.interface),
        mask::difference(old.possible.interface, new.possible.interface),
    )
}

/// The acts that emit these signals of the interface.
fn emitting(signals: u64) -> Acts
    ensures { result.signals.interface ≡ signals }
{
    Acts {
        signals: SignalSet {
            interface: signals,
            local: 0,
        },
        codes: CodeSet::empty(),
    }
}

/// What the emissions say.
fn judged(net: &Net) -> MustCan
    ensures sure { (n : ℕ) → bits result.must.signals.interface n
        ≡ list_any (is_of is_sure (cell_at net.now.cells.items) n) net.now.emissions.items }
    ensures possible { (n : ℕ) → bits result.can.signals.interface n
        ≡ list_any (is_of is_possible (cell_at net.now.cells.items) n) net.now.emissions.items }
{
    let said = net.emitted();
    MustCan {
        must: emitting(said.sure),
        can: emitting(said.possible),
    }
}

/// Passes over the cells of a kernel's statement by what is known.
fn pass_sheet(net: &mut Net, question: &Question<'_>, env: &Env, just_decided: u64)
    requires net { IsNetOf net.old question.now.kernel.now }
    requires state { IsState question.now.kernel.now.root question.now.state.now }
    ensures passes { SheetPasses question.now.kernel.now.root question.now.state.now
        (output_count question.now.kernel.now.interface) (env_of env.now)
        net.old.cells.items net.new.cells.items }
    ensures net { IsNetOf net.new question.now.kernel.now }
    ensures kept { kept net.new ≡ kept net.old }
{
    let root = question.kernel.root();
    let place = StatementPlace {
        number: 0,
        main: true,
        direction: Direction::Forwards,
        cell: net.output_count(),
        traps: 0,
    };
    let run = Status::Present;
    match question.state {
        State::Fresh => pass_begun(net, &place, root, run, env, just_decided),
        State::Done => pass_begun(net, &place, root, Status::Absent, env, just_decided),
        State::Paused(pauses) => pass_resumed(net, &place, root, pauses, run, env, just_decided),
    }
}

/// One pass, and then the cells of the signals.
fn pass_round(net: &mut Net, question: &Question<'_>, env: &mut Env, just_decided: u64)
    requires net { IsNetOf net.old question.now.kernel.now }
    requires state { IsState question.now.kernel.now.root question.now.state.now }
    ensures made { IsPassRound question.now.kernel.now.interface (bits question.now.unasked)
        (bits question.now.inputs) question.now.kernel.now.root question.now.state.now
        env.old env.new net.old.cells.items net.new.cells.items }
    ensures net { IsNetOf net.new question.now.kernel.now }
    ensures kept { kept net.new ≡ kept net.old }
{
    pass_sheet(net, question, env, just_decided);
    let said = judged(net);
    *env = update_signals(net, question, &said);
}

/// Passes until no signal is decided any more.
fn pass_all(net: &mut Net, question: &Question<'_>, env: &mut Env, just_decided: u64)
    requires net { IsNetOf net.old question.now.kernel.now }
    requires state { IsState question.now.kernel.now.root question.now.state.now }
    requires apart { AreInputsAlone question.now.kernel.now.interface (bits question.now.unasked) }
    ensures more { decided net.old.cells.items ≤ decided net.new.cells.items }
    ensures ready { (others : ℕ → Bool)
        → AgreeBut (bits question.now.unasked) (bits question.now.inputs) others
        → Ready (bits question.now.unasked) question.now.kernel.now question.now.state.now others
        net.old.cells.items env.old
        → Ready (bits question.now.unasked) question.now.kernel.now question.now.state.now others
        net.new.cells.items env.new }
    ensures net { IsNetOf net.new question.now.kernel.now }
    ensures kept { kept net.new ≡ kept net.old }
{
    let places = question.kernel.interface().len();
    let mut just_decided = just_decided;
    for _ in 0..places {
        if just_decided == 0 {
            return;
        }
        let env_before = *env;
        pass_round(net, question, env, just_decided);
        just_decided = newly_decided(&env_before, env);
    }
}

/// Walks in the order of the sides of `||`s, and then tells the cells of the signals what is
/// emitted. Answers whether some signal was found to be absent.
fn lead_again(net: &mut Net, question: &Question<'_>, env: &mut Env) -> bool
    requires net { IsNetOf net.old question.now.kernel.now }
    requires state { IsState question.now.kernel.now.root question.now.state.now }
    requires apart { AreInputsAlone question.now.kernel.now.interface (bits question.now.unasked) }
    ensures more { decided net.old.cells.items ≤ decided net.new.cells.items }
    ensures ready { (others : ℕ → Bool)
        → AgreeBut (bits question.now.unasked) (bits question.now.inputs) others
        → Ready (bits question.now.unasked) question.now.kernel.now question.now.state.now others
        net.old.cells.items env.old
        → Ready (bits question.now.unasked) question.now.kernel.now question.now.state.now others
        net.new.cells.items env.new }
    ensures net { IsNetOf net.new question.now.kernel.now }
    ensures kept { kept net.new ≡ kept net.old }
{
    let is_absent = lead_round(net, question, env);
    let said = judged(net);
    *env = update_signals(net, question, &said);
    is_absent
}

/// After a sweep that was slow: walks in the order of the sides of `||`s. Where that decides
/// nothing, passes by the signals that were just decided. Answers whether some signal was found to
/// be absent in the walk.
pub fn catch_up(net: &mut Net, question: &Question<'_>, env: &mut Env, just_decided: u64) -> bool
    requires net { IsNetOf net.old question.now.kernel.now }
    requires state { IsState question.now.kernel.now.root question.now.state.now }
    requires apart { AreInputsAlone question.now.kernel.now.interface (bits question.now.unasked) }
    ensures more { decided net.old.cells.items ≤ decided net.new.cells.items }
    ensures ready { (others : ℕ → Bool)
        → AgreeBut (bits question.now.unasked) (bits question.now.inputs) others
        → Ready (bits question.now.unasked) question.now.kernel.now question.now.state.now others
        net.old.cells.items env.old
        → Ready (bits question.now.unasked) question.now.kernel.now question.now.state.now others
        net.new.cells.items env.new }
    ensures net { IsNetOf net.new question.now.kernel.now }
    ensures kept { kept net.new ≡ kept net.old }
{
    if just_decided == 0 {
        return false;
    }
    let decided_before = net.steps();
    let is_absent = lead_again(net, question, env);
    if net.steps() == decided_before {
        pass_all(net, question, env, just_decided);
    }
    is_absent
}
