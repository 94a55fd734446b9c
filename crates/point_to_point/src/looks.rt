//! Looks at requests and messages, which change nothing and take no memory.

ghost use Rattle.std.specs.Prelude.{◌≡◌};
ghost use Rattle.point_to_point.specs.Looks.{type_found, type_taken_out};
ghost use Rattle.requests.specs.Table.{finished_at};

use crate::probes::probed_by;
use crate::rank::Core;
use requests::Request;
use vocabulary::{BasicType, Source};

impl Core {
    /// Whether the request is finished, and leaves it as it is (MPI 3.1, 3.7.6); none where there is no such request.
    pub fn is_finished(&self, request: Request) -> Option<bool>
        ensures { result ≡ finished_at self.now.state.slots request }
    {
        self.requests.look(request)
    }

    /// The basic type of the message that a receive of this source, tag and context would take now, if there is one.
    pub fn type_of_found(&self, source: Source, tag: Option<u32>, context: u64) -> Option<BasicType>
        ensures { result ≡ type_found self.now.state source tag context }
    {
        let posted = probed_by(source, tag, context);
        match self.queues.message_for(&posted) {
            Some(message) => Some(message.basic()),
            None => None,
        }
    }

    /// The basic type of a message that was taken out; none where it isn't there any more, or its sender's rank was
    /// started anew.
    pub fn type_of_message(&self, message: Request) -> Option<BasicType>
        ensures { result ≡ type_taken_out self.now.state message }
    {
        match self.requests.message(message) {
            Some(message) => Some(message.basic()),
            None => None,
        }
    }
}
