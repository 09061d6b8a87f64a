//! The faults of the binary format, in the format's own words. There is no code here but what names the law.
//!
//! - `specs/Places` says in which places the bytes of an encoding stand: an opcode, a section number, a value type, or
//!   another byte. `specs/Layouts` says what a module's bytes are if the stated sizes of its sections and bodies are
//!   free, and which of these sizes are kept.
//! - `specs/FirstFault` says when a byte decides that bytes encode no module, and which fault that is.
//! - `proofs/Stops` to `proofs/LocalGroups` find where the reading of each part stops, `proofs/Breaks` to
//!   `proofs/Modules` where parts with their sizes, sections and modules do, and `proofs/Deciding` is the law.
//! - `proofs/Meeting` to `proofs/Joining` show where two modules differ first: in a byte, in one place, or at the end
//!   of one of them. So no bytes have two faults (`proofs/OneFault`). `proofs/EncodedModules` has the marks of a
//!   module that is encoded, and `proofs/Readers` shows that it has no fault.
#![tactic(auto)]

ghost use Rattle.law_format.specs.FirstFault.{FirstFaultDecides, OneFault, ModulesHaveNone, ReaderAnswersFirst};

/// If bytes encode no module, the first byte that cannot continue an encoding, or that breaks a stated size, decides.
pub fn fault_laws()
    ensures { FirstFaultDecides }
{}

/// No bytes have two faults of this kind, and bytes that encode a module have none: the reader answers a fault exactly
/// if the bytes have it.
pub fn one_fault_laws()
    ensures one { OneFault }
    ensures none { ModulesHaveNone }
    ensures exact { ReaderAnswersFirst }
{}
