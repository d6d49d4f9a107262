//! Lists of sections: whether what a feed gives is a section for each obligation and the last line, one after another,
//! and where and why not. A single section is judged in `ot_sections`.
#![tactic(auto)]

mod section;

pub use section::judge_sections;
