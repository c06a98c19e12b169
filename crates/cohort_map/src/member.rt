use scalar_val::List;

/// The numbers of subscriptions.
pub type SubList = List<u64>;

pub type MemberList = List<Member>;

/// A member of a batch: the number of a subscription, and the place of its cohort in the batch, from 1, which is its
/// result id.
#[derive(Clone, Copy, Debug, PartialEq, Eq)]
pub struct Member {
    pub sub: u64,
    pub id: u32,
}
