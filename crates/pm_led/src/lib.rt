//! Where darts that go out lead: which structures the walk passes whole, and which orientation it follows.
#![tactic(auto)]

mod laws;

pub use laws::{
    each_led_map_is_walked, each_walked_map_is_led, one_orientation, turned_orientation_is_one,
    vertices_have_heads, walked_map_has_one_orientation,
};
