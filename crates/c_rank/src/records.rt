//! The records by which calls and answers are told: numbers alone.
//!
//! Ranks, tags and colours are 32 bits each. In C they are signed, and those below 0 mean no rank, tag or colour; here
//! they are unsigned, so that -1 is 4,294,967,295.

use std::default::Default;

/// A request, or a message that a matching probe took out.
#[repr(C)]
#[derive(Clone, Copy, Debug, Default, PartialEq, Eq)]
pub struct RequestRecord {
    /// Its place among the requests.
    pub key: u64,
    /// Its number in the order of starting.
    pub serial: u64,
}

/// Where a rank stands in its job.
#[repr(C)]
#[derive(Clone, Copy, Debug, Default, PartialEq, Eq)]
pub struct PlaceRecord {
    /// The job's number.
    pub job: u64,
    /// The most bytes of a send.
    pub message_limit: u64,
    /// The rank in `world`.
    pub rank: u16,
    /// How many ranks the job has.
    pub size: u16,
    /// The incarnation at which the rank runs.
    pub incarnation: u16,
    /// Whether all ranks are on one machine: there what isn't answered is late, and hardly ever lost.
    pub is_near: bool,
    /// The most bytes of data of a frame.
    pub frame_limit: u32,
    /// How many bytes that came the socket of a rank keeps: what is on its way to each is bounded by that, and has a
    /// congestion window. 0: neither.
    pub room: u32,
}

/// What is asked of a rank. Each kind reads some of the fields.
#[repr(C)]
#[derive(Clone, Copy, Debug, Default, PartialEq, Eq)]
pub struct CallRecord {
    /// Which call it is.
    pub kind: u32,
    /// The place of the communicator, or 4,294,967,295 for MPI_COMM_NULL.
    pub communicator: u32,
    /// A rank of the communicator; any rank (4,294,967,295), or the null process (4,294,967,294).
    pub peer: u32,
    /// The tag; 4,294,967,295 is the wildcard.
    pub tag: u32,
    /// The code of a basic type.
    pub basic: u32,
    /// The code of a reduction's operation.
    pub operation: u32,
    /// How many elements a receive has room for, or a block has.
    pub count: u64,
    /// The request or the message that is named.
    pub request: RequestRecord,
    /// The place of the communicator that the first one is compared with.
    pub other: u32,
    /// The colour of a split; 4,294,967,295 is MPI_UNDEFINED.
    pub colour: u32,
    /// The key of a split.
    pub order: i32,
    /// Whether the elements are handed in: 1 at the root of a broadcast or scatter, else 0.
    pub has_data: u32,
}

/// What a rank answers.
#[repr(C)]
#[derive(Clone, Copy, Debug, Default, PartialEq, Eq)]
pub struct AnswerRecord {
    /// Which answer it is.
    pub kind: u32,
    /// 0, or why the call was refused, or why the operation ended so.
    pub number: u32,
    /// How an operation ended.
    pub outcome: u32,
    /// The code of the elements' basic type.
    pub basic: u32,
    /// The request that was started, or the message that was taken out.
    pub request: RequestRecord,
    /// The rank that a message came from, or 4,294,967,294 for the null process.
    pub source: u32,
    /// The tag of a message, or 4,294,967,295 for that of the null process.
    pub tag: u32,
    /// How many elements there are.
    pub count: u64,
    /// How many bytes of data may be taken.
    pub bytes: u64,
    /// What was asked about a communicator or a request.
    pub fact: u64,
    /// The place of the communicator that was made, or 4,294,967,295 for MPI_COMM_NULL.
    pub communicator: u32,
}
