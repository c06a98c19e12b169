/// The word of an operation that is served: a query's, or a subscription's.
#[derive(Clone, Copy, Debug, PartialEq, Eq)]
pub enum Word {
    Query,
    Subscription,
}
