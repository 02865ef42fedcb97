//! The part of a core that one entry built, as plain data: its things with their drivers unfolded to trees, what it offers
//! and what it took of others. The runs of a part, the signals of its services in them, and the laws that hold in all of them.
#![tactic(auto)]

mod alone;
mod law;
mod signals;
mod terms;

pub use alone::one_service_is_all;
pub use law::parts_have_all;
pub use signals::signals_are_named;
pub use terms::owners_are_told;
