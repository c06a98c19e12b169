use crate::{few_slots, few_variables};

#[test]
fn laws_take_no_time() {
    few_variables();
    few_slots();
}
