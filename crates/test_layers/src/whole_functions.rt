//! The function of the rows.
use crate::samples::SITES_OT;
use fn_rules::Rules;
use fn_text::read;
use std::alloc::Global;

fn function_in(alloc: Global, text: &str) -> Option<Rules> {
    if text.len() >= 1_048_576 {
        return None;
    }
    match read(alloc, text.as_bytes()) {
        Ok(rules) => Some(rules),
        Err(_) => None,
    }
}

/// The function, or none where memory is wanting.
pub(crate) fn sites(alloc: Global) -> Option<Rules> {
    function_in(alloc, SITES_OT)
}
