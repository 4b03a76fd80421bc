//! The trials, by the crate that they try, and what they share.
mod crew;
mod drawn;
mod followed;
mod ledger;
mod list;
mod opposed;
mod pair;
mod prefs;
mod urgency;
mod xbar;
