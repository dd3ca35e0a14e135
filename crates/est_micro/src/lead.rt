//! What a walk does with a part of a kernel's statement (`walk`): it is swept by what is known, and
//! a `||` whose sides were swept is closed, unless it goes on from its pauses.

ghost use Rattle.std.specs.Prelude.{length};
ghost use Rattle.est_kernel.specs.Bits.{bits};
ghost use Rattle.est_meaning.specs.Environments.{Env as Known};
ghost use Rattle.est_meaning.specs.Views.{env_of};
ghost use Rattle.est_cells.specs.Tables.{sheet_size};
ghost use Rattle.est_net.specs.Kept.{kept};
ghost use Rattle.est_micro.specs.Engine.{IsNetOf};
ghost use Rattle.est_micro.specs.Inner.Parts.{GoesOn, IsPlaced};
ghost use Rattle.est_micro.specs.Inner.Views.{IsFresh};
ghost use Rattle.est_micro.specs.Inner.Walks.{Walks};
ghost use Rattle.std.specs.Prelude.{◌≡◌, ◌+◌};

use crate::closing::close;
use crate::extents::past;
use crate::must_can;
use crate::part::Part;
use crate::question::Question;
use crate::sweep_begin::sweep_begun;
use crate::sweep_kind::{FirstSweep, LaterSweep, SweepKind};
use crate::sweep_resume::sweep_resumed;
use est_kernel::mask;
use est_meaning::signal_set::{Env, SignalSet};
use est_net::net::Net;

/// What is known, and that those of these signals are absent that may be emitted nowhere any more.
pub fn without_silent(net: &Net, question: &Question<'_>, known: &Env, signals: u64) -> Env
    requires net { IsNetOf net.now question.now.kernel.now }
    ensures silent { (f : _) → Walks question.now f (env_of known.now) (env_of result)
        net.now.cells.items net.now.cells.items }
{
    let told = mask::union(
        known.present.interface,
        mask::union(question.unasked, question.inputs),
    );
    let may_be = mask::intersection(net.emittable(), known.possible.interface);
    let open = mask::difference(mask::intersection(signals, may_be), told);
    if open == 0 {
        return *known;
    }
    let silent = net.silent_among(open);
    Env {
        present: known.present,
        possible: SignalSet {
            interface: mask::difference(known.possible.interface, silent),
            local: known.possible.local,
        },
    }
}

/// Sweeps a part. Answers what is known then. Where `K` is the first sweep, all cells of the part
/// have to be open.
#[inline(always)]
fn sweep_by<K: SweepKind>(net: &mut Net, part: &Part<'_>, known: &Env) -> Env
    requires placed { IsPlaced net.old.extents.items (length net.old.cells.items) part.now }
    requires live { GoesOn part.now }
    requires fresh { IsFresh K.first part.now.place.cell (part.now.place.cell
        + sheet_size part.now.place.main part.now.statement.now part.now.place.traps)
        net.old.cells.items }
    ensures walked { (asked : _) → Walks asked part.now (env_of known.now) (env_of result)
        net.old.cells.items net.new.cells.items }
    ensures kept { kept net.new ≡ kept net.old }
{
    let at = &part.place;
    let s = part.statement;
    let swept = match part.pauses {
        None => sweep_begun::<K>(net, at, s, part.gate, known),
        Some(pauses) => sweep_resumed::<K>(net, at, s, pauses, part.gate, known),
    };
    must_can::with_emitted(known, swept.judged.must.signals)
}

/// Sweeps a part. Answers what is known then.
#[inline(always)]
pub fn lead_part(net: &mut Net, part: &Part<'_>, known: &Env) -> Env
    requires placed { IsPlaced net.old.extents.items (length net.old.cells.items) part.now }
    requires live { GoesOn part.now }
    ensures walked { (asked : _) → Walks asked part.now (env_of known.now) (env_of result)
        net.old.cells.items net.new.cells.items }
    ensures kept { kept net.new ≡ kept net.old }
{
    if net.all_open(part.place.cell, past(net, &part.place, part.statement)) {
        sweep_by::<FirstSweep>(net, part, known)
    } else {
        sweep_by::<LaterSweep>(net, part, known)
    }
}

/// Closes a `||` whose sides were swept, unless it goes on from its pauses.
pub fn close_part(net: &mut Net, part: &Part<'_>)
    requires placed { IsPlaced net.old.extents.items (length net.old.cells.items) part.now }
    ensures walked { (asked : _) (known : Known) → Walks asked part.now known known
        net.old.cells.items net.new.cells.items }
    ensures kept { kept net.new ≡ kept net.old }
{
    if part.pauses.is_none() {
        let top = &part.place;
        close(net, top, top.number, top.cell, part.statement, part.gate);
    }
}
