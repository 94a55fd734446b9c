//! Looks at requests and messages, which are no calls: they may be made while a call is blocked.

ghost use Rattle.std.specs.Prelude.{◌≡◌};
ghost use Rattle.engine.specs.Looks.{type_probed};
ghost use Rattle.point_to_point.specs.Looks.{type_taken_out};
ghost use Rattle.requests.specs.Table.{finished_at};

use crate::engine::Engine;
use engine_calls::Probe;
use requests::Request;
use vocabulary::BasicType;

impl Engine {
    /// Whether the request is finished, and leaves it as it is (MPI 3.1, 3.7.6); none where there is no such request, or
    /// it is a message that was taken out. It takes no memory.
    pub fn is_finished(&self, request: Request) -> Option<bool>
        ensures { result ≡ finished_at self.now.core.slots request }
    {
        self.parts.core.is_finished(request)
    }

    /// The basic type of the message that such a probe would find now; none where there is none, or no such
    /// communicator, and for the null process. It takes no memory.
    pub fn type_of_probed(&self, probe: Probe) -> Option<BasicType>
        ensures { result ≡ type_probed self.now probe }
    {
        let known = self.parts.sessions.incarnations();
        match self
            .parts
            .communicators
            .route(known, probe.comm, probe.source)
        {
            Some(route) => self
                .parts
                .core
                .type_of_found(route.named, probe.tag, route.context),
            None => None,
        }
    }

    /// The basic type of a message that a matching probe took out; none where it is received, or its sender's rank was
    /// started anew. It takes no memory.
    pub fn type_of_message(&self, message: Request) -> Option<BasicType>
        ensures { result ≡ type_taken_out self.now.core message }
    {
        self.parts.core.type_of_message(message)
    }
}
