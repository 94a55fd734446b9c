//! The place of a rank.

/// The place of a rank in its job, as its launcher knows it.
#[derive(Clone, Copy, Debug, PartialEq, Eq)]
pub struct RankPlace {
    /// The rank, below the size.
    pub rank: u16,
    /// How many ranks the job has, 1 to 1,024.
    pub size: u16,
    /// The incarnation of the rank: how often it was started before.
    pub incarnation: u16,
    /// The number of the job.
    pub job: u64,
    /// The port of rank 0. Rank r has the port of this number and r; all these are 1 to 65,535.
    pub base_port: u16,
    /// For how many milliseconds nothing may move until the rank gives up, 1 to 3,600,000, where the launch says so.
    pub patience: Option<u32>,
}
