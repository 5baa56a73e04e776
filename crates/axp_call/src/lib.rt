//! One call of a processor: what it asked, and what it was answered. A lock that keeps a history of
//! calls and whatever it serves speak of this one type.
#![tactic(auto)]

mod calls;

pub use calls::Call;
