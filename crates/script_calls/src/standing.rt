//! Whether what names stand for, and what answers are awaited for, stands alike.

use crate::pending::{NamedCommunicator, NamedMessage, NamedRequest, Pending};
use alike::Alike;

impl Alike for NamedRequest {
    fn stands_as(&self, other: &Self) -> bool {
        self.request == other.request && self.buffer.stands_as(&other.buffer)
    }
}

impl Alike for NamedMessage {
    fn stands_as(&self, other: &Self) -> bool {
        match (self, other) {
            (NamedMessage::TakenOut(request), NamedMessage::TakenOut(other_request)) => {
                request == other_request
            }
            (NamedMessage::Ended, NamedMessage::Ended) => true,
            _ => false,
        }
    }
}

impl Alike for NamedCommunicator {
    fn stands_as(&self, other: &Self) -> bool {
        self.place == other.place && self.rank == other.rank
    }
}

impl Alike for Pending {
    fn stands_as(&self, other: &Self) -> bool {
        match (self, other) {
            (Pending::Nothing, Pending::Nothing) => true,
            (Pending::Starting(name, buffer), Pending::Starting(other_name, other_buffer)) => {
                name.stands_as(other_name) && buffer.stands_as(other_buffer)
            }
            (Pending::StartingToWait(buffer), Pending::StartingToWait(other_buffer)) => {
                buffer.stands_as(other_buffer)
            }
            (Pending::Waiting(request), Pending::Waiting(other_request)) => {
                request.stands_as(other_request)
            }
            (Pending::WaitingUnnamed(buffer), Pending::WaitingUnnamed(other_buffer)) => {
                buffer.stands_as(other_buffer)
            }
            (Pending::WaitingForSeveral(names), Pending::WaitingForSeveral(other_names)) => {
                names.stands_as(other_names)
            }
            (Pending::Searching(name), Pending::Searching(other_name)) => name.stands_as(
                other_name,
            ),
            (Pending::Receiving(name, buffer), Pending::Receiving(other_name, other_buffer)) => {
                name.stands_as(other_name) && buffer.stands_as(other_buffer)
            }
            (Pending::Making(name), Pending::Making(other_name)) => name.stands_as(other_name),
            (Pending::Seating(name, place), Pending::Seating(other_name, other_place)) => {
                name.stands_as(other_name) && place == other_place
            }
            (Pending::Entering(buffer), Pending::Entering(other_buffer)) => {
                buffer.stands_as(other_buffer)
            }
            (Pending::AskingRank(place), Pending::AskingRank(other_place)) => place == other_place,
            (Pending::AskingSize(rank), Pending::AskingSize(other_rank)) => rank == other_rank,
            (Pending::Oversized, Pending::Oversized) => true,
            _ => false,
        }
    }
}
