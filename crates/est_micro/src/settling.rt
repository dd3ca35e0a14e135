//! A run over the table of a kernel: rounds, until nothing more can be decided. A round is a sweep,
//! after which the cells of the signals are told what is emitted.

ghost use Rattle.std.specs.Prelude.{◌≡◌, ◌≢◌, ◌⊎◌, ℕ, Bool, true, false, length};
ghost use Rattle.est_kernel.specs.Bits.{bits};
ghost use Rattle.est_meaning.specs.States.{IsState};
ghost use Rattle.est_meaning.specs.Views.{env_of};
ghost use Rattle.est_net.specs.Cells.{AllOpen};
ghost use Rattle.est_net.specs.Kept.{kept, reopened};
ghost use Rattle.est_net.specs.Layout.{output_count};
ghost use Rattle.est_micro.specs.Engine.{IsNetOf};
ghost use Rattle.est_micro.specs.Parts.{AgreeBut, AreInputsAlone};
ghost use Rattle.est_micro.specs.Runs.{IsSettledBut, sheet_swept};
ghost use Rattle.est_micro.specs.Inner.FirstSweep.{IsFirstSweep};
ghost use Rattle.est_micro.specs.Inner.Views.{IsFresh, IsSwept};

use crate::cells::{StatementPlace, Swept};
use crate::direction::Direction;
use crate::outputs::{in_doubt, update_signals};
use crate::passes::{catch_up, newly_decided};
use crate::question::Question;
use crate::sweep_begin::sweep_begun;
use crate::sweep_kind::{FirstSweep, LaterSweep, SweepKind};
use crate::sweep_resume::sweep_resumed;
use crate::walk::lead_round;
use est_kernel::state::State;
use est_meaning::signal_set::Env;
use est_meaning::status::Status;
use est_net::net::Net;

/// Sweeps the cells of a kernel's statement by what is known.
fn sweep<K: SweepKind>(
    net: &mut Net,
    question: &Question<'_>,
    env: &Env,
    direction: Direction,
) -> Swept
    requires net { IsNetOf net.old question.now.kernel.now }
    requires state { IsState question.now.kernel.now.root question.now.state.now }
    requires fresh { IsFresh K.first (output_count question.now.kernel.now.interface)
        (length net.old.cells.items) net.old.cells.items }
    ensures swept { IsSwept true question.now.kernel.now.root
        (output_count question.now.kernel.now.interface) 0
        (sheet_swept direction question.now.kernel.now.root question.now.state.now
        (env_of env.now))
        net.old.cells.items net.new.cells.items result }
    ensures net { IsNetOf net.new question.now.kernel.now }
    ensures kept { kept net.new ≡ kept net.old }
{
    let root = question.kernel.root();
    let place = StatementPlace {
        number: 0,
        main: true,
        cell: net.output_count(),
        traps: 0,
        direction,
    };
    let run = Status::Present;
    match question.state {
        State::Fresh => sweep_begun::<K>(net, &place, root, run, env),
        State::Done => sweep_begun::<K>(net, &place, root, Status::Absent, env),
        State::Paused(pauses) => sweep_resumed::<K>(net, &place, root, pauses, run, env),
    }
}

/// How a run begins. It changes no answer.
#[derive(Clone, Copy)]
pub struct Beginning {
    /// Which way the first sweep goes.
    pub direction: Direction,
    /// Whether a walk in the order of the sides of `||`s comes before it.
    pub leads: bool,
}

/// What a run ends with, where nothing more can be decided.
#[derive(Clone, Copy)]
pub struct RunEnd {
    /// What the cells of the statement say.
    pub swept: Swept,
    /// What is known of the signals of the interface.
    pub env: Env,
    /// How the next run is to begin: as the last sweep went, and with the order of the sides if it
    /// told of a signal that it is absent, or goes across the text.
    pub next: Beginning,
}

/// What the first sweep of an instant finds, and whether some signal was found to be absent before.
#[derive(Clone, Copy)]
struct Started {
    swept: Swept,
    is_absent: bool,
}

/// The first sweep of an instant. If a walk in the order of the sides of `||`s is wanted, and there
/// is an order, that comes before it, and then some of the cells are decided.
fn sweep_first(net: &mut Net, question: &Question<'_>, env: &Env, beginning: Beginning) -> Started
    requires net { IsNetOf net.old question.now.kernel.now }
    requires state { IsState question.now.kernel.now.root question.now.state.now }
    requires apart { AreInputsAlone question.now.kernel.now.interface (bits question.now.unasked) }
    requires open { AllOpen (output_count question.now.kernel.now.interface)
        (length net.old.cells.items) net.old.cells.items }
    ensures swept { IsFirstSweep (bits question.now.unasked) (bits question.now.inputs)
        question.now.kernel.now question.now.state.now beginning.direction env.now
        net.old.cells.items net.new.cells.items result.swept }
    ensures net { IsNetOf net.new question.now.kernel.now }
    ensures kept { kept net.new ≡ kept net.old }
{
    let direction = beginning.direction;
    if beginning.leads && net.orders().are_some() {
        let is_absent = lead_round(net, question, env);
        let swept = sweep::<LaterSweep>(net, question, env, direction);
        Started { swept, is_absent }
    } else {
        let swept = sweep::<FirstSweep>(net, question, env, direction);
        Started {
            swept,
            is_absent: false,
        }
    }
}

/// Whether more may be decided: the last round has decided something, and there is an open cell.
fn goes_on(decided: usize, decided_before: usize, cell_count: usize) -> bool
    ensures more { result ≡ true → decided ≢ decided_before }
    ensures rest { result ≡ false → (decided ≡ decided_before) ⊎ (decided ≡ cell_count) }
{
    decided != decided_before && decided != cell_count
}

/// Whether a sweep decided less than half, rounded down, of the open cells. The first sweep of an
/// instant has 0 as `decided_before`: what was decided at the beginning counts with it.
fn is_slow(decided: usize, decided_before: usize, cell_count: usize) -> bool {
    decided.saturating_sub(decided_before) < cell_count.saturating_sub(decided_before) / 2
}

/// Which way to sweep next: a sweep that was slow is followed by one the other way.
fn next_direction(
    direction: Direction,
    decided: usize,
    decided_before: usize,
    cell_count: usize,
) -> Direction {
    if is_slow(decided, decided_before, cell_count) {
        direction.turned()
    } else {
        direction
    }
}

/// The signals that lead a pass: after a sweep that was slow, those that the last round decided.
fn to_pass(
    env_before: &Env,
    env: &Env,
    decided: usize,
    decided_before: usize,
    cell_count: usize,
) -> u64 {
    if is_slow(decided, decided_before, cell_count) {
        newly_decided(env_before, env)
    } else {
        0
    }
}

/// How the next run is to begin, where some signal was found to be absent in a walk, or none was.
fn next_beginning(net: &Net, direction: Direction, is_absent: bool) -> Beginning {
    Beginning {
        direction,
        leads: is_absent || net.orders().are_mixed(),
    }
}

/// Opens the table, and makes rounds until nothing more can be decided. Of the inputs that are not
/// asked nothing is known: what is decided is so whatever they are.
pub fn decide_cells(net: &mut Net, question: &Question<'_>, beginning: Beginning) -> RunEnd
    requires net { IsNetOf net.old question.now.kernel.now }
    requires state { IsState question.now.kernel.now.root question.now.state.now }
    requires apart { AreInputsAlone question.now.kernel.now.interface (bits question.now.unasked) }
    ensures net { IsNetOf net.new question.now.kernel.now }
    ensures settled { (others : ℕ → Bool)
        → AgreeBut (bits question.now.unasked) (bits question.now.inputs) others
        → IsSettledBut (bits question.now.unasked) question.now.kernel.now question.now.state.now
        others net.new.cells.items result }
    ensures kept { kept net.new ≡ reopened net.old }
{
    let cell_count = net.cells();
    let possible = net.reach().from_state(question.state);
    net.clear();
    let mut env = update_signals(net, question, &in_doubt(possible));
    let started = sweep_first(net, question, &env, beginning);
    let mut swept = started.swept;
    let mut is_absent = started.is_absent;
    let mut decided_before = 0;
    let mut direction = beginning.direction;
    let mut env_before = env;
    env = update_signals(net, question, &swept.judged);
    let mut decided = net.steps();
    while goes_on(decided, decided_before, cell_count) {
        direction = next_direction(direction, decided, decided_before, cell_count);
        let just_decided = to_pass(&env_before, &env, decided, decided_before, cell_count);
        if catch_up(net, question, &mut env, just_decided) {
            is_absent = true;
        }
        decided_before = net.steps();
        env_before = env;
        swept = sweep::<LaterSweep>(net, question, &env, direction);
        env = update_signals(net, question, &swept.judged);
        decided = net.steps();
    }
    RunEnd {
        swept,
        env,
        next: next_beginning(net, direction, is_absent),
    }
}
