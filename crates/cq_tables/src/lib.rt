//! Configurations, and the tables that they give.
//!
//! A configuration is a TOML document. `specs/Document.antt` lists its checks in order, one line a key,
//! and says which tables it gives where they all hold. The reader stops at the first check that does not
//! hold, with its number and the path of its key.
#![tactic(auto)]

mod addresses;
mod arrays;
mod entries;
mod figures;
mod files;
mod known;
mod laws;
mod limits;
mod place;
mod read;
mod refusal;
mod rows;
mod top;
mod value;
mod version;

pub use cq_route::{AddressRow, PortRow, RuleRow, Tables};
pub use laws::version_two_keeps_classes;
pub use read::read_tables;
pub use refusal::{TOO_LONG, TableRefusal};
