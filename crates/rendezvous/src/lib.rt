//! What a rank knows of its transfers: the large messages and the large payloads of collectives, which go in pieces.
//!
//! MPI 3.1, 3.4 leaves open how a standard send goes; this protocol is the project's own. A message of more bytes
//! than a frame of the job has (1,024 in a script's) is announced first ('request to send'), under a number that its sender counts to each rank. The receiver
//! answers ('clear to send') once it wants the data, and then they come in order, in pieces of as many bytes as a frame has, of which
//! the last one may be shorter.
//!
//! MPI 3.1, chapter 5 leaves open how the data of a collective go; they go in the same way, under numbers of the same
//! count. A payload is asked for at once, whether or not its receiver has entered the collective. With its last piece it
//! is taken out whole, in the memory that was taken for it when it began to come; where its message is refused then, it
//! is put back as it was before that piece. Room is made first, and then each change takes no memory and can't fail.
#![tactic(auto)]

mod collection;
mod laws;
mod offer;
mod payload_lists;
mod payload_transfers;
mod payloads;
mod piece;
mod transfers;

pub use collection::{Collected, Collection};
pub use laws::{
    numbers_are_counted_alike, offers_are_handed_out_once, pieces_are_whole,
    transfers_are_whole_or_nothing,
};
pub use offer::Offer;
pub use payloads::{AnnouncedPayload, ComingPayload, WholePayload};
pub use piece::{Piece, count_of, is_next_piece, piece_count, pieces, pieces_of};
pub use transfers::{Numbers, Transfers};
pub use vocabulary::OutOfMemory;
