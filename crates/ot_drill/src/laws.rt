//! Laws of the workload. Each is the contract of a function that does nothing.
ghost use Rattle.std.specs.Prelude.{◌≡◌, ◌≤◌, ℕ, false, IsTrue};
ghost use Rattle.fn_rules.specs.Properties.{HasTp1, HasTp2};
ghost use Rattle.fn_rules.specs.Validity.{is_valid};
ghost use Rattle.fn_rules.specs.declared.limits.TheConstants.{MOST_ROUNDS};
ghost use Rattle.ot_drill.specs.Workload.{drill_function};

/// The functions of workloads have both properties, do not assume that characters differ, and keep the limits.
pub fn drill_functions_have_both_properties()
    ensures tp1 { (n : ℕ) → HasTp1 (drill_function n) }
    ensures tp2 { (n : ℕ) → HasTp2 (drill_function n) }
    ensures chars { (n : ℕ) → (drill_function n).head.chars_differ ≡ false }
    ensures valid { (n : ℕ) → n ≤ MOST_ROUNDS → IsTrue (is_valid (drill_function n)) }
{}
