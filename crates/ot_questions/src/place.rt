//! Places, and operations whose parts have names.
ghost use Rattle.std.specs.Prelude.{◌≡◌, pos, IsTrue, Some, None, if◌then◌else◌, nat_eq, int_le};
ghost use Rattle.ot_questions.specs.Nears.{IsNear, IsNearOp, IsResultOf, IsDeclaredOp};
ghost use Rattle.ot_questions.specs.Places as places;
ghost use Rattle.fn_rules.specs.declared.function.Head.{Head};
ghost use Rattle.fn_rules.specs.Functions.{is_declared};

use crate::name::{INDEX, LENGTH, Who, ZERO, char_name, position_name, site_name};
use fn_rules::{Res, Side, Sort};
use ot_model::{Kind, Mode};

/// The integer that is named by `var`, plus `off`.
#[derive(Clone, Copy, PartialEq, Eq)]
pub struct Place {
    pub var: u8,
    pub off: i32,
}

/// An operation whose position is a place and whose character and site are names.
#[derive(Clone, Copy, PartialEq, Eq)]
pub enum SymOp {
    /// Puts the character named `ch` at the place.
    Ins { at: Place, ch: u8, site: u8 },

    /// Deletes the cell at the place.
    Del { at: Place, site: u8 },

    /// Puts the character named `ch` in place of that of the cell at the place.
    Upd { at: Place, ch: u8, site: u8 },

    /// Changes nothing.
    Nop,
}

impl Place {
    /// The integer of a name.
    pub fn named(var: u8) -> Place
        ensures { result ≡ places.place var (pos 0) }
    {
        Place { var, off: 0 }
    }

    /// Zero.
    pub fn zero() -> Place
        ensures { result ≡ places.zero_place }
    {
        Place::named(ZERO)
    }

    /// The length of the document, plus an offset.
    pub fn length_and(off: i32) -> Place
        ensures { result ≡ places.length_and off }
    {
        Place { var: LENGTH, off }
    }

    /// The index, plus an offset.
    pub fn index_and(off: i32) -> Place
        ensures { result ≡ places.index_and off }
    {
        Place { var: INDEX, off }
    }

    /// The place, plus an offset.
    pub fn plus(self, off: i32) -> Place
        requires self_near { IsNear 1000 self.off }
        requires off_near { IsNear 1000 off }
        ensures { result ≡ places.plus self off }
    {
        Place {
            var: self.var,
            off: self.off + off,
        }
    }

    /// Whether this place is at most another one of its name. None where the two names differ: then it is a question.
    #[inline(always)]
    pub fn is_at_most(self, other: Place) -> Option<bool>
        ensures { result ≡ (if nat_eq self.var other.var then Some (int_le self.off other.off) else None) }
    {
        if self.var != other.var {
            return None;
        }
        Some(self.off <= other.off)
    }
}

// The integer of a name, or zero where there is no name.
fn place_of_name(name: Option<u8>) -> Place
    ensures { result ≡ places.place_of_name name }
{
    match name {
        None => Place::zero(),
        Some(var) => Place::named(var),
    }
}

impl SymOp {
    /// An operation of a kind, each part of which is a name of its own.
    pub fn named(kind: Kind, who: Who) -> SymOp
        ensures value { result ≡ places.sym_op kind who }
        ensures near { IsNearOp 0 result }
        ensures declared { (head : Head) → IsTrue (is_declared head kind) → IsDeclaredOp head result }
    {
        let at = Place::named(position_name(who));
        let ch = char_name(who);
        let site = site_name(who);
        match kind {
            Kind::Ins => SymOp::Ins { at, ch, site },
            Kind::Del => SymOp::Del { at, site },
            Kind::Upd => SymOp::Upd { at, ch, site },
        }
    }

    /// The kind, which nop has not.
    pub fn kind(self) -> Option<Kind>
        ensures { result ≡ places.sym_kind self }
    {
        match self {
            SymOp::Ins { .. } => Some(Kind::Ins),
            SymOp::Del { .. } => Some(Kind::Del),
            SymOp::Upd { .. } => Some(Kind::Upd),
            SymOp::Nop => None,
        }
    }

    /// The position, or zero for nop.
    pub fn at(self) -> Place
        ensures { result ≡ places.sym_at self }
    {
        match self {
            SymOp::Ins { at, .. } | SymOp::Del { at, .. } | SymOp::Upd { at, .. } => at,
            SymOp::Nop => Place::zero(),
        }
    }

    /// The name of the site.
    pub fn site(self) -> Option<u8>
        ensures { result ≡ places.sym_site self }
    {
        match self {
            SymOp::Ins { site, .. } | SymOp::Del { site, .. } | SymOp::Upd { site, .. } => Some(
                site,
            ),
            SymOp::Nop => None,
        }
    }

    /// The name of the character, which a deletion has not.
    pub fn ch(self) -> Option<u8>
        ensures { result ≡ places.sym_char self }
    {
        match self {
            SymOp::Ins { ch, .. } | SymOp::Upd { ch, .. } => Some(ch),
            SymOp::Del { .. } | SymOp::Nop => None,
        }
    }

    // The same operation at another place.
    fn placed(self, to: Place) -> SymOp
        ensures { result ≡ places.sym_placed self to }
    {
        match self {
            SymOp::Ins { ch, site, .. } => SymOp::Ins { at: to, ch, site },
            SymOp::Del { site, .. } => SymOp::Del { at: to, site },
            SymOp::Upd { ch, site, .. } => SymOp::Upd { at: to, ch, site },
            SymOp::Nop => SymOp::Nop,
        }
    }

    /// What an atom of the sort compares.
    #[inline(always)]
    pub fn thing(self, sort: Sort) -> Place
        ensures { result ≡ places.sym_thing sort self }
    {
        match sort {
            Sort::Pos => self.at(),
            Sort::Site => place_of_name(self.site()),
            Sort::Char => place_of_name(self.ch()),
        }
    }

    /// How many cells the operation adds to a document.
    pub fn growth(self, mode: Mode) -> i32
        ensures value { result ≡ places.growth mode self }
        ensures small { IsNear 1 result }
    {
        match self {
            SymOp::Ins { .. } => 1,
            SymOp::Del { .. } => match mode {
                Mode::Plain => -1,
                Mode::Tomb => 0,
            },
            SymOp::Upd { .. } | SymOp::Nop => 0,
        }
    }

    // What a result makes of the operation.
    fn made_by(self, res: Res, other: SymOp) -> SymOp
        requires self_near { IsNearOp 500 self }
        requires other_near { IsNearOp 500 other }
        requires near { IsNear 99 (places.offset_of res) }
        ensures { result ≡ places.sym_result res self other }
    {
        match res {
            Res::Keep { base, k } => {
                let from = match base {
                    Side::First => self.at(),
                    Side::Second => other.at(),
                };
                self.placed(from.plus(k))
            }
            Res::Nop => SymOp::Nop,
        }
    }

    /// What a result makes of the operation, beside the second one.
    pub fn result(self, res: Res, other: SymOp) -> SymOp
        requires self_near { IsNearOp 500 self }
        requires other_near { IsNearOp 500 other }
        requires near { IsNear 99 (places.offset_of res) }
        ensures value { result ≡ places.sym_result res self other }
        ensures near { IsResultOf self other result }
    {
        self.made_by(res, other)
    }
}
