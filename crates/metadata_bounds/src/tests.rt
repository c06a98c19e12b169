use crate::{filters, names};

#[test]
fn laws_take_no_time() {
    filters();
    names();
}
