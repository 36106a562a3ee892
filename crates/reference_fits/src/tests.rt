use super::*;

#[test]
fn the_law_is_called() {
    reference_answers_fit();
}
