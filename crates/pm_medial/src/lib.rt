//! Medial maps and duals of rooted maps.
#![tactic(auto)]

mod colours;
mod duals;
mod laws;
mod medials;
mod unmedials;

pub use colours::{ColourRefusal, colour};
pub use duals::dual;
pub use laws::{
    dual_exchanges_degrees, faces_have_two_colours, medial_answer_is_unique, medial_is_quartic,
    unmedial_undoes_medial,
};
pub use medials::{MedialRefusal, medial};
pub use unmedials::{UnmedialRefusal, unmedial, unmedial_of_quartic};

#[cfg(test)]
mod tests;
