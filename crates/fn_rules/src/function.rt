//! The parts of a function, and the names of what has to be shown of it.
ghost use Rattle.std.specs.Prelude.{◌≡◌};
ghost use Rattle.ot_model.specs.Operations.{kind_of};
ghost use Rattle.fn_rules.specs.Functions.{is_declared, is_declared_pair, is_for_kind};

use crate::guard::{Guard, Side};
use ot_model::{Kind, Mode, Op};

/// What the transformed operation becomes.
#[derive(Clone, Copy, PartialEq, Eq)]
pub enum Res {
    /// It keeps its kind, character and site, at the position of `base` plus `k`.
    Keep { base: Side, k: i32 },

    /// It becomes nop.
    Nop,
}

/// A guarded case.
#[derive(Drop)]
pub struct Case {
    pub guard: Guard,
    pub res: Res,
}

/// The cases for one ordered pair of kinds.
#[derive(Drop)]
pub struct Block {
    pub first: Kind,
    pub second: Kind,
    pub cases: Vec<Case>,
}

/// What a function says before its cases.
#[derive(Clone, Copy, PartialEq, Eq)]
pub struct Head {
    pub mode: Mode,

    /// Whether it transforms insertions.
    pub ins: bool,

    /// Whether it transforms deletions.
    pub del: bool,

    /// Whether it transforms updates.
    pub upd: bool,

    /// Whether it assumes that two operations come from different sites.
    pub sites_differ: bool,

    /// Whether it assumes that the characters of two operations differ, where both have one.
    pub chars_differ: bool,
}

impl Head {
    /// Whether the function transforms operations of this kind.
    pub fn declares(&self, kind: Kind) -> bool
        ensures { result ≡ is_declared self.now kind }
    {
        match kind {
            Kind::Ins => self.ins,
            Kind::Del => self.del,
            Kind::Upd => self.upd,
        }
    }

    /// Whether it transforms operations of both kinds.
    pub fn declares_pair(&self, first: Kind, second: Kind) -> bool
        ensures { result ≡ is_declared_pair self.now first second }
    {
        self.declares(first) && self.declares(second)
    }

    /// Whether the operation is nop, or of a kind that the function transforms.
    pub fn admits(&self, op: &Op) -> bool
        ensures { result ≡ is_for_kind self.now (kind_of op.now) }
    {
        match op.kind() {
            Some(kind) => self.declares(kind),
            None => true,
        }
    }
}

/// Which properties are meant.
#[derive(Clone, Copy, Debug, PartialEq, Eq)]
pub enum Level {
    /// TP1 alone.
    Tp1,

    /// TP1 and TP2.
    Tp2,
}

/// The kinds of the operations that an obligation speaks of.
#[derive(Clone, Copy, PartialEq, Eq)]
pub enum ObName {
    /// Two operations: an instance of TP1.
    Pair(Kind, Kind),

    /// Three operations: an instance of TP2.
    Triple(Kind, Kind, Kind),
}
