//! What can be had at all: heads under which no transformation has both properties, and for each head a function to
//! begin with.
//!
//! The layers above rely on these laws: the properties of a function are those of the transformation that it is;
//! where text is plain, and insertions and deletions are kinds, no transformation that keeps operations has both
//! (`plain_text_has_no_transformation`); and the template of each head has TP1, and TP2 too wherever some function of
//! that head has both (`templates_have_what_can_be_had`). `template` gives it.
#![tactic(auto)]

mod function;
mod head;
mod laws;
mod template_laws;

pub use function::template;
pub use head::inserts_and_deletes_on_plain;
pub use laws::{
    plain_functions_lack_a_property, plain_text_has_no_transformation,
    properties_are_those_of_transformations, the_test_decides_the_fact,
};
pub use template_laws::templates_have_what_can_be_had;
