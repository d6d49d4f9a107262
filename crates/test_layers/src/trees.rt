//! The numbers of a cycle.
use ask_core::{Picks, Tok};

fn is_cycle_of(token: &Tok, numbers: &[u32]) -> bool {
    match token {
        Tok::Cycle(picks) => picks.as_slice() == numbers,
        _ => false,
    }
}

#[test]
fn numbers_come_back_in_their_order(rt: HostRuntime) {
    let mut picks = Picks::new(rt.alloc());
    picks.push(11);
    picks.push(14);
    picks.push(7);
    assert!(rt; is_cycle_of(&Tok::Cycle(picks), &[11, 14, 7]));
}
