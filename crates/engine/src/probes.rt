//! Probes that take nothing out.

ghost use Rattle.std.specs.Prelude.{◌≡◌};
ghost use Rattle.engine_calls.specs.Calls.{LookingGives};
ghost use Rattle.engine_calls.specs.Faults.{fault_of};
ghost use Rattle.engine_calls.specs.declared.call.Call.TheVariants as calls;

use crate::engine::Engine;
use engine_calls::{Call, Probe, Reply, fault_of_look, look};
use point_to_point::Refusal;

impl Engine {
    /// The first rule that such a probe breaks, of 6, 4, 3, 5 and 11. It takes no memory.
    pub(crate) fn fault_of_probe(&self, probe: Probe) -> Option<Refusal>
        ensures { result ≡ fault_of self.now (calls.Iprobe probe) }
    {
        fault_of_look(
            &self.parts.core,
            &self.parts.communicators,
            &self.parts.sessions,
            probe,
        )
    }

    /// Tells what message such a receive would take now, and changes nothing (MPI 3.1, 3.8.1). Refused is the first
    /// that holds of 6, 4, 3, 5 and 11; a refusal hands the call back. It takes no memory.
    pub(crate) fn iprobe(&self, probe: Probe) -> Reply
        ensures { LookingGives self.now probe result self.now }
    {
        match look(
            &self.parts.core,
            &self.parts.communicators,
            &self.parts.sessions,
            probe,
        ) {
            Ok(found) => Reply::Probed(found),
            Err(refused) => Reply::Refused(refused, Call::Iprobe(probe)),
        }
    }
}
