use crate::{cohorts, results};

#[test]
fn laws_take_no_time() {
    results();
    cohorts();
}
