//! The three rules on a recorded order: what they still ask for, what follows by them, and what would follow.
#![tactic(auto)]

mod claim;
mod closing;
mod missing;
mod pair;
mod rule_a;
mod rule_b;
mod rule_c;
mod scan;
mod size;
mod split;
mod trial;

pub use claim::Claim;
pub use closing::{close_under_rules, least_order, record_first};
pub use missing::first_missing;
pub use rule_a::first_a;
pub use rule_b::first_b;
pub use rule_c::first_c;
pub use split::first_split;
pub use trial::what_if;
