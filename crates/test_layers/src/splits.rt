//! Forms split at their first questions, and finished cells compared. Further rows are `proofs/LaidRows.antt`.
use bumpalo::Bump;
use ot_questions::Finished;
use ot_rewrite::{Front, Split, same_finished, split};
use ot_terms::{Form, NoMemory, Place};

const X: Place = Place { var: 3, off: 0 };

const Y: Place = Place { var: 6, off: 2 };

fn less_is_split(bump: &Bump) -> Result<bool, NoMemory> {
    let less = Form::lt(bump, X, Y)?;
    let before = Place { var: 6, off: 1 };
    Ok(matches!(split(bump, less)?, Split::Ask { x, y, .. } if x == X && y == before))
}

// Two different names are not equal, and the first is not behind the second.
fn other_forms_are_made(bump: &Bump) -> Result<bool, NoMemory> {
    let equal = Form::eq(bump, X, Y)?;
    let behind = Form::lt(bump, Y, X)?;
    let either = Form::or(bump, equal, behind)?;
    Ok(matches!(Form::not(bump, either)?, Form::Not(_)))
}

#[test]
fn places_of_one_name_are_compared_at_once(rt: HostRuntime) {
    let below = Place { var: 6, off: 1 };
    assert!(rt;
        Y.is_at_most(Y) == Some(true)
            && Y.is_at_most(below) == Some(false)
            && X.is_at_most(Y).is_none()
    );
}

#[test]
fn forms_are_split_at_their_first_question(rt: HostRuntime) {
    let bump = Bump::new(rt.alloc());
    assert!(rt; less_is_split(&bump) == Ok(true));
    assert!(rt; other_forms_are_made(&bump) == Ok(true));
}

#[test]
fn a_finished_cell_is_itself(rt: HostRuntime) {
    let bump = Bump::new(rt.alloc());
    let cell = Finished::base(1);
    assert!(rt; matches!(same_finished(&bump, cell, cell), Ok(Front::Holds)));
}
