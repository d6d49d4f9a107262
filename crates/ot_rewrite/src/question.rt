//! What a form comes to.
use ot_terms::{Form, Place};

/// What a form comes to at its first question.
#[derive(Clone, Copy)]
pub enum Split<'a> {
    /// Nothing is asked: the form is true.
    Yes,

    /// Nothing is asked: the form is false.
    No,

    /// Whether `x` is at most `y` is asked. The form is `yes` where it is, and `no` where it is not.
    Ask {
        x: Place,
        y: Place,
        yes: &'a Form<'a>,
        no: &'a Form<'a>,
    },
}
