use hub::{Hub, Job};

/// A hub, and the jobs that a script took of it and that are still open.
#[derive(Drop)]
pub(crate) struct Runner {
    pub hub: Hub,
    pub jobs: Vec<Job>,
}
