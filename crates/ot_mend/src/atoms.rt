//! Guards with another atom.
ghost use Rattle.std.specs.Prelude.{◌≡◌, ◌-◌, ◌++◌, nat_lt, IfOk, OnOk};
ghost use Rattle.fn_rules.specs.Atoms.{guard_atoms};
ghost use Rattle.fn_rules.specs.Formulas.{formula_of};
ghost use Rattle.ot_mend.specs.Edits.{with_atom};
ghost use Rattle.ot_mend.specs.Offers.{atoms_in};

use fn_rules::{Atom, Guard, NoMemory};
use std::alloc::Global;

/// An equal guard of its own memory.
pub(crate) fn copied(alloc: Global, guard: &Guard) -> Result<Guard, NoMemory>
    ensures { IfOk result (λ copy. formula_of copy ≡ formula_of guard.now) }
{
    match guard {
        Guard::True => Ok(Guard::True),
        Guard::Atom(atom) => Ok(Guard::Atom(*atom)),
        Guard::And(g, h) => {
            let left = Box::new(alloc, copied(alloc, g)?)?;
            let right = Box::new(alloc, copied(alloc, h)?)?;
            Ok(Guard::And(left, right))
        }
        Guard::Or(g, h) => {
            let left = Box::new(alloc, copied(alloc, g)?)?;
            let right = Box::new(alloc, copied(alloc, h)?)?;
            Ok(Guard::Or(left, right))
        }
        Guard::Not(g) => Ok(Guard::Not(Box::new(alloc, copied(alloc, g)?)?)),
    }
}

// What is left of a number when the atoms of a guard are counted off.
fn past(guard: &Guard, number: usize) -> usize
    ensures { result ≡ number - guard_atoms (formula_of guard.now) }
{
    match guard {
        Guard::True => number,
        Guard::Atom(_) => number.saturating_sub(1),
        Guard::And(g, h) | Guard::Or(g, h) => past(h, past(g, number)),
        Guard::Not(g) => past(g, number),
    }
}

// Whether the guard has an atom of this number.
fn has_atom(guard: &Guard, number: usize) -> bool
    ensures { result ≡ nat_lt number (guard_atoms (formula_of guard.now)) }
{
    match guard {
        Guard::True => false,
        Guard::Atom(_) => number == 0,
        Guard::And(g, h) | Guard::Or(g, h) => has_atom(g, number) || has_atom(h, past(g, number)),
        Guard::Not(g) => has_atom(g, number),
    }
}

/// The guard with another atom in place of the one of this number.
pub(crate) fn with_atom(
    alloc: Global,
    guard: &Guard,
    number: usize,
    to: Atom,
) -> Result<Guard, NoMemory>
    ensures { IfOk result (λ new. formula_of new ≡ with_atom to number (formula_of guard.now)) }
{
    match guard {
        Guard::True => Ok(Guard::True),
        Guard::Atom(atom) => Ok(Guard::Atom(if number == 0 { to } else { *atom })),
        Guard::And(g, h) => {
            if has_atom(g, number) {
                let left = Box::new(alloc, with_atom(alloc, g, number, to)?)?;
                Ok(Guard::And(left, Box::new(alloc, copied(alloc, h)?)?))
            } else {
                let left = Box::new(alloc, copied(alloc, g)?)?;
                let right = Box::new(alloc, with_atom(alloc, h, past(g, number), to)?)?;
                Ok(Guard::And(left, right))
            }
        }
        Guard::Or(g, h) => {
            if has_atom(g, number) {
                let left = Box::new(alloc, with_atom(alloc, g, number, to)?)?;
                Ok(Guard::Or(left, Box::new(alloc, copied(alloc, h)?)?))
            } else {
                let left = Box::new(alloc, copied(alloc, g)?)?;
                let right = Box::new(alloc, with_atom(alloc, h, past(g, number), to)?)?;
                Ok(Guard::Or(left, right))
            }
        }
        Guard::Not(g) => Ok(Guard::Not(Box::new(alloc, with_atom(alloc, g, number, to)?)?)),
    }
}

/// Puts the atoms of a guard at the end, from left to right.
pub(crate) fn push_atoms(guard: &Guard, atoms: &mut Vec<Atom>) -> Result<(), NoMemory>
    ensures { OnOk result (atoms.new.items ≡ atoms.old.items ++ atoms_in (formula_of guard.now)) }
{
    match guard {
        Guard::True => Ok(()),
        Guard::Atom(atom) => {
            atoms.push(*atom)?;
            Ok(())
        }
        Guard::And(g, h) | Guard::Or(g, h) => {
            push_atoms(g, atoms)?;
            push_atoms(h, atoms)
        }
        Guard::Not(g) => push_atoms(g, atoms),
    }
}
