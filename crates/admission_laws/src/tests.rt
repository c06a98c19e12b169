use crate::{plans, pollers, requests};

#[test]
fn laws_take_no_time() {
    requests();
    plans();
    pollers();
}
