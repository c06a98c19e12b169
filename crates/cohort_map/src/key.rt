use plan_core::Binding;
use scalar_val::{Str, Word};

/// What subscriptions of one poller have in common: the word of their operation, their role and the canonical text of
/// their query. It decides their plan.
#[derive(Debug, Drop)]
pub struct PollerKey {
    pub word: Word,
    pub role: Str,
    pub canon: Str,
}

/// What subscriptions of one cohort have in common: their poller and the values that its plan is run with.
#[derive(Debug, Drop)]
pub(crate) struct CohortKey {
    pub(crate) poller: PollerKey,
    pub(crate) binding: Binding,
}
