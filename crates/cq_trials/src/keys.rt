//! Configurations.
use cq_base::NoMemory;
use std::alloc::Global;

/// The version of a configuration, and its keys beside its files and its addresses: among the first keys, at port 0,
/// and at the end.
#[derive(Clone, Copy)]
pub struct Keys {
    /// The version.
    pub version: u8,
    /// Among the first keys.
    pub first: &'static str,
    /// At port 0.
    pub port: &'static str,
    /// At the end.
    pub last: &'static str,
}

/// Version 1 and no keys: everything has its default.
pub const DEFAULTS: Keys = Keys {
    version: 1,
    first: "",
    port: "",
    last: "",
};

/// A fair output, where a cell costs 2^128 - 1.
pub const DEAREST: Keys = Keys {
    port: "discipline = \"fair\"\n",
    last: "[[class]]\ncost = \"340282366920938463463374607431768211455\"\n",
    ..DEFAULTS
};

/// The table of port 0.
const FIRST_PORT: &str = "[[port]]\nread = \"in0.pcap\"\nwrite = \"out0.pcap\"\n";

/// Its address, and then the table of each port behind it and its address.
const TABLES: &[&str] = &[
    "[[address]]\nmac = \"02:00:00:00:00:00\"\noutput = 0\n",
    "[[port]]\nread = \"in1.pcap\"\nwrite = \"out1.pcap\"\n\
    [[address]]\nmac = \"02:00:00:00:00:01\"\noutput = 1\n",
    "[[port]]\nread = \"in2.pcap\"\nwrite = \"out2.pcap\"\n\
    [[address]]\nmac = \"02:00:00:00:00:02\"\noutput = 2\n",
    "[[port]]\nread = \"in3.pcap\"\nwrite = \"out3.pcap\"\n\
    [[address]]\nmac = \"02:00:00:00:00:03\"\noutput = 3\n",
];

fn put_pieces(text: &mut String, pieces: &[&str]) -> Result<(), NoMemory> {
    for piece in pieces {
        text.push_str(piece)?;
    }
    Ok(())
}

/// Puts the tables of so many ports and of their addresses, and the last keys.
fn put_tables(text: &mut String, ports: usize, keys: &Keys) -> Result<(), NoMemory> {
    put_pieces(text, &[FIRST_PORT, keys.port])?;
    put_pieces(text, &TABLES[..ports.min(TABLES.len())])?;
    put_pieces(text, &[keys.last])
}

/// The configuration of a switch of one to four ports with so many workers, whose input i reads `in<i>.pcap` and
/// whose output i, with the address that ends in i, writes `out<i>.pcap`.
pub fn configuration(
    alloc: Global,
    ports: usize,
    workers: u8,
    keys: &Keys,
) -> Result<String, NoMemory> {
    let mut text = format!(in alloc;
        "version = {}\ntrace = \"trace.txt\"\nlog = \"log.txt\"\nworkers = {workers}\n{}",
        keys.version, keys.first
    )?;
    put_tables(&mut text, ports, keys)?;
    Ok(text)
}
