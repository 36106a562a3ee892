use super::*;

#[test]
fn the_law_may_be_cited() {
    values_read_back();
}
