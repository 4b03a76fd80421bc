//! The trials, by the crate that they try.
mod base;
mod frame;
mod lines;
mod pcap;
mod report;
mod route;
mod words;
