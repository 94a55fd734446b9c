//! What the words ask for.

/// What the words of the rank program ask for.
#[derive(Clone, Copy, Debug)]
pub struct Settings<'a> {
    /// The rank, below the size.
    pub rank: u16,
    /// How many ranks the job has: 1 to 1,024.
    pub size: u16,
    /// The incarnation of the rank: how often it was started before.
    pub incarnation: u16,
    /// The number of the job.
    pub job: u64,
    /// The rank's own port. Rank s has port `port - rank + s`; all these are 1 to 65,535.
    pub port: u16,
    /// For how many milliseconds nothing may move until the rank gives up: 1 to 3,600,000.
    pub patience: u64,
    /// The addresses of the ranks, as a text that lists one for each; without it all are at 127.0.0.1.
    pub hosts: Option<&'a str>,
    /// The name of the script's file.
    pub file: &'a str,
}
