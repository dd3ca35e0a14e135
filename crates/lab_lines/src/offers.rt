//! Which signals somebody may offer.

ghost use Rattle.std.specs.Prelude.{◌≡◌, ℕ, IfErr, IfOk, map};
ghost use Rattle.est_kernel.specs.Bits.{bits};
ghost use Rattle.lab_lines.specs.Offers.{AreNamed, FirstNotOfferable, IsNotOfferable, IsOfferable};
ghost use Rattle.lab_lines.specs.Offers.{has_name};

use est_kernel::interface::Interface;
use est_kernel::mask;
use est_relations::refusal::PendingRefusal;
use est_text::identifier::Identifier;

/// The signal of this name, alone in a mask, if it may be offered.
fn offerable_signal(interface: &Interface, name: &str) -> Result<u64, PendingRefusal>
    ensures offered { IfOk result (λ m. IsOfferable interface.now name.now) }
    ensures only { IfOk result (λ m. (n : ℕ) → bits m n ≡ has_name interface.now n name.now) }
    ensures fault { IfErr result (IsNotOfferable interface.now name.now) }
{
    let Some(name) = Identifier::from_text(name) else {
        return Err(PendingRefusal::UnknownSignal);
    };
    let Some(signal) = interface.find(&name) else {
        return Err(PendingRefusal::UnknownSignal);
    };
    if !interface.kind(signal).can_be_offered() {
        return Err(PendingRefusal::NotInput);
    }
    Ok(mask::single(signal.index))
}

/// The signals of these names as a mask.
///
/// # Errors
///
/// Where one of them is no signal, or may not be offered.
pub fn signals_of_names(interface: &Interface, names: &[&str]) -> Result<u64, PendingRefusal>
    ensures named { IfOk result (AreNamed interface.now (map (λ t. t.now) names.now)) }
    ensures fault { IfErr result (FirstNotOfferable interface.now (map (λ t. t.now) names.now)) }
{
    let mut signals = 0;
    for name in names {
        let signal = offerable_signal(interface, name)?;
        signals = mask::union(signals, signal);
    }
    Ok(signals)
}
