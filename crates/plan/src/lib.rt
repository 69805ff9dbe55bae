//! Slot plans of the low latency mode (LLDN) of IEEE 802.15.4: which device may send when.
#![tactic(auto)]

mod comparison;
mod even;
mod even_grants;
mod grant;
mod grants;
mod listed;
mod lookups;
mod numbers;
mod slot_plan;

pub use comparison::answer_alike;
pub use even::EvenPlan;
pub use even_grants::EvenGrants;
pub use grant::Grant;
pub use grants::Grants;
pub use listed::ListedPlan;
pub use lookups::{grant_holding, grant_with_address};
pub use numbers::Numbers;
pub use slot_plan::SlotPlan;
