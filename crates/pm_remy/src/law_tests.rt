use crate::{growth_is_one_to_one, words_are_one_to_one};

#[test]
fn laws_are_calls_that_do_nothing(_rt: HostRuntime) {
    growth_is_one_to_one();
    words_are_one_to_one();
}
