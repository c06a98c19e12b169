use crate::{Answers, CommitReply, ConnReply, DrainReply, Job, PublishReply};

fn is_send_and_sync<T: Send + Sync>() {}

#[test]
fn jobs_and_answers_may_be_shared_with_other_threads() {
    is_send_and_sync::<Job>();
    is_send_and_sync::<Answers>();
}

#[test]
fn replies_may_be_shared_with_other_threads() {
    is_send_and_sync::<ConnReply>();
    is_send_and_sync::<CommitReply>();
    is_send_and_sync::<DrainReply>();
    is_send_and_sync::<PublishReply>();
}
