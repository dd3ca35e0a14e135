//! Writes the report of an audit, after all that was written before.
ghost use Rattle.std.specs.Prelude.{◌≡◌, Err, true};
ghost use Rattle.wire_reader.specs.Meters.{has_failed};
ghost use Rattle.program_run.specs.declared.fault.Fault.TheVariants as fault;
ghost use Rattle.program_run.specs.Reports.{Reports};

use crate::fault::Fault;
use audit_report::reports::report;
use rbac_policy::journal::PolicyJournal;
use rbac_policy::objects::SLOTS;
use reactor_core::journal::Journal;
use std::alloc::Global;
use std::io::Write;
use wire_reader::meter::{MeteredMemory, MeteredWriter};
use wire_reader::replies::ReplyBuffer;

/// Writes the report on these journals.
///
/// # Errors
///
/// Where memory was refused for it, and then nothing is written; or where it could not be written,
/// and then a beginning of it is.
pub fn write_report<O: Write>(
    alloc: Global,
    policy: &PolicyJournal,
    slots: &[Journal; SLOTS as usize],
    output: &mut MeteredWriter<O>,
) -> Result<(), Fault>
    ensures reports { Reports policy.now slots.now (O.contents output.old.device) result
        (O.contents output.new.device) }
    ensures failed { result ≡ Err fault.Write →
        has_failed output.old.faults output.new.faults ≡ true }
{
    let Ok(text) = report(alloc, policy, slots) else {
        return Err(Fault::Memory);
    };
    let mut memory = MeteredMemory::new(alloc);
    let Ok(mut waiting) = ReplyBuffer::new(&mut memory) else {
        return Err(Fault::Memory);
    };
    let Ok(()) = waiting.add(output, text.as_bytes()) else {
        return Err(Fault::Write);
    };
    let Ok(()) = waiting.write_out(output) else {
        return Err(Fault::Write);
    };
    Ok(())
}
