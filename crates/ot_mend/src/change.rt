//! Changes of the cases of one block.
use fn_rules::{Atom, Res};

/// The guard of a case that is put in.
#[derive(Clone, Copy)]
pub enum NewGuard {
    /// The two positions are one, and the atom holds.
    Tie(Atom),

    /// The atom holds.
    Compare(Atom),

    /// It is always true.
    Always,
}

/// A change of a block's cases. Cases, and the atoms of a guard from left to right, are counted from 0.
#[derive(Clone, Copy)]
pub enum Change {
    /// An atom of a case becomes another one.
    NewAtom {
        case: usize,
        atom: usize,
        from: Atom,
        to: Atom,
    },

    /// The result of a case becomes another one.
    NewResult {
        case: usize,
        from: Res,
        to: Res,
    },

    /// A case is taken out.
    TakeOut {
        case: usize,
    },

    /// A case and the next one change places.
    Exchange {
        case: usize,
    },

    /// A case is put in, in front of the case of this number, or at the end.
    PutIn {
        case: usize,
        guard: NewGuard,
        res: Res,
    },
}
