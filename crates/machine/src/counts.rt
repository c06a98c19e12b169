/// What a report counts: the known connections, closed ones among them, the live subscriptions, those of them that are
/// due, the open jobs, and the transactions that were accepted, whose number is the version.
#[derive(Clone, Copy, Debug, PartialEq, Eq)]
pub struct Counts {
    pub connections: u64,
    pub live: u64,
    pub due: u64,
    pub jobs: u64,
    pub version: u64,
}
