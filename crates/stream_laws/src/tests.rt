use crate::streams;

#[test]
fn laws_take_no_time() {
    streams();
}
