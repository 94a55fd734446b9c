//! What calls and frames are to a rank, before its queues and requests are asked: sends and receives, what is made
//! ready for them, what is heard from other ranks, and why an event is refused.
//!
//! Nothing here holds the state of a rank: each function looks at values, or makes a frame, a message or the room for
//! it.
#![tactic(auto)]

mod call;
mod frames;
mod news;
mod receives;
mod refusal;
mod sends;

pub use call::{
    CallRoute, HandedBack, MessageReceive, Probe, Receive, RoutedProbe, RoutedReceive, RoutedSend,
    Send, SoughtProbe, SoughtReceive,
};
pub use frames::{data_frames, frames_of, list_of};
pub use news::{
    Match, News, PreparedNews, announced_of, answer_to_match, bad_unless, collection_of_match,
    fault_of_plane, first_of, message_from,
};
pub use receives::{
    answer_on_post, collection_on_post, is_source_beyond, is_tag_above, null_status, posted_by,
    progress_on_post, status_of,
};
pub use refusal::Refusal;
pub use sends::{
    AddressedSend, Destination, address, elements_of, fault_of, frame_to, into_elements, is_own,
    own_message, pack, rank_to, show_widths,
};
