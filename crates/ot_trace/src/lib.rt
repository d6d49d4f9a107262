//! What happens in a case, operation by operation, and in a session or a hub, event by event.
//!
//! Of each operation it is told over what it is carried, with the case that is taken of each transformation, and the
//! document after it.
//!
//! The layers above rely on this: `trace_case` appends `case_trace_text`, which is the text of `order_trace` for each
//! order; and what `order_trace` says of an order ends as `integrated` says (`traces_end_as_integrated`).
#![tactic(auto)]

mod carrying;
mod columns;
mod hub;
mod laws;
mod lines;
mod order;
mod session;

pub use hub::trace_hub;
pub use laws::traces_end_as_integrated;
pub use order::trace_case;
pub use ot_model::NoMemory;
pub use session::trace_session;
