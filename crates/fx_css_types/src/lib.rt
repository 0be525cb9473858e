//! A style sheet as it is read (CSS, Selectors Level 3): rules with selectors and declarations, where a sheet stands in
//! the cascade, and what matching and the cascade hand on. Readers make it; selectors, the cascade and styles use it.
#![tactic(auto)]

mod declarations;
mod laws;
mod names;
mod same;
mod selectors;
mod sheets;

pub use declarations::{Declaration, Declared, Found, FoundValue, Paint};
pub use laws::sheets_within_limits_are_short;
pub use names::NameList;
pub use selectors::{Combinator, Compound, Selector};
pub use sheets::{Candidate, Rule, Sheet, SheetAt, SheetOrigin};
