//! How many cases a function has.
ghost use Rattle.std.specs.Prelude.{◌≡◌, ◌≤◌};
ghost use Rattle.fn_rules.specs.Rules.{function_of};
ghost use Rattle.ot_drill.specs.Workload.{case_count, cases_for, cases_with};

use fn_rules::Rules;
use ot_model::{KINDS, Kind};

// The cases for a pair of kinds, which are of account where both are declared.
fn cases_for(rules: &Rules, first: Kind, second: Kind) -> usize
    ensures count { result ≡ cases_for (function_of rules.now) first second }
    ensures few { result ≤ 64 }
{
    if rules.head().declares_pair(first, second) {
        rules.cases(first, second).len()
    } else {
        0
    }
}

// The cases for pairs with this first kind.
fn cases_with(rules: &Rules, first: Kind) -> usize
    ensures count { result ≡ cases_with (function_of rules.now) first }
    ensures few { result ≤ 192 }
{
    let mut count = 0;
    for second in KINDS {
        let more = cases_for(rules, first, second);
        count += more;
    }
    count
}

/// How many cases a function has.
pub fn count_cases(rules: &Rules) -> usize
    ensures { result ≡ case_count (function_of rules.now) }
{
    let mut count = 0;
    for first in KINDS {
        let more = cases_with(rules, first);
        count += more;
    }
    count
}
