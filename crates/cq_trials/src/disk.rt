//! Files that a call of the program can begin with.
ghost use Rattle.std.specs.Prelude.{◌<◌};

use crate::capture::capture_of;
use crate::keys::configuration;
use crate::{Frame, Keys, Left};
use cq_space::MemFiles;
use std::alloc::Global;
use std::marker::Model;

/// Files in memory, of which none is open, so that any call of the program can begin. Contracts see
/// nothing else of them.
///
/// Where there is no memory for what is to stand here, the disk keeps that in mind, and no trial over it comes out as
/// it should: so what makes a disk has no way out, and its proof is short.
#[derive(Drop)]
pub struct Disk {
    pub(crate) files: MemFiles,
    /// Whether there was memory for all that is to stand here, and a name for each port.
    pub(crate) is_whole: bool,
}

/// What the inputs of a switch read.
const INPUTS: [&str; 4] = ["in0.pcap", "in1.pcap", "in2.pcap", "in3.pcap"];

impl Model for Disk {
    ghost use Rattle.std.specs.Prelude.{◌≡◌};
    ghost use Rattle.cq_space.specs.Space.{Closed};

    ghost Value = { Unit {0} };

    ghost view = { λ _. tt };

    ghost invariant = { λ d. d.files.mode ≡ Closed };
}

impl Disk {
    /// With no file, and set to fail nowhere.
    pub fn new(alloc: Global) -> Disk {
        Disk {
            files: MemFiles::new(alloc),
            is_whole: true,
        }
    }

    /// Puts these bytes under the name.
    fn put(&mut self, name: &str, bytes: &[u8]) {
        self.is_whole &= self.files.set(name, bytes).is_ok();
    }

    /// Puts the configuration under `c.toml`.
    fn put_configuration(&mut self, alloc: Global, ports: usize, workers: u8, keys: &Keys) {
        match configuration(alloc, ports, workers, keys) {
            Ok(text) => self.put("c.toml", text.as_bytes()),
            Err(_) => self.is_whole = false,
        }
    }

    /// Puts a capture of these frames under the name.
    fn put_capture(&mut self, alloc: Global, name: &str, frames: &[Frame]) {
        match capture_of(alloc, frames) {
            Ok(capture) => self.put(name, &capture),
            Err(_) => self.is_whole = false,
        }
    }

    /// With `c.toml` alone, the configuration of a switch with so many ports, one to four, and so many workers. With
    /// any other number of ports no trial comes out as it should.
    pub fn of_ports(alloc: Global, ports: usize, workers: u8, keys: &Keys) -> Disk {
        let mut disk = Disk::new(alloc);
        disk.is_whole = 0 < ports && ports <= INPUTS.len();
        disk.put_configuration(alloc, ports, workers, keys);
        disk
    }

    /// With `c.toml`, the configuration of a switch with so many inputs, four at most, and so many workers, and with
    /// the captures of its inputs.
    pub fn of_switch(alloc: Global, inputs: &[&[Frame]], workers: u8, keys: &Keys) -> Disk {
        let mut disk = Disk::of_ports(alloc, inputs.len(), workers, keys);
        for (name, frames) in INPUTS.iter().zip(inputs) {
            disk.put_capture(alloc, name, frames);
        }
        disk
    }

    /// With these bytes under these names too, whether there were such names or not.
    pub fn holding(mut self, given: &[(&str, &[u8])]) -> Disk {
        for (name, bytes) in given {
            self.put(name, bytes);
        }
        self
    }

    /// With reading the name set to fail after so many bytes.
    pub fn failing_read(mut self, name: &str, after: u64) -> Disk {
        self.is_whole &= self.files.fail_read(name, after).is_ok();
        self
    }

    /// With writing the name set to fail after so many bytes.
    pub fn failing_write(mut self, name: &str, after: u64) -> Disk {
        self.is_whole &= self.files.fail_write(name, after).is_ok();
        self
    }

    /// With the outside call of this number set to fail.
    pub fn failing_call(mut self, call: u64) -> Disk {
        self.is_whole &= self.files.fail_call(call).is_ok();
        self
    }

    /// Moves at most so many bytes a call from now on.
    pub fn short(&mut self, most: usize)
        requires { 0 < most }
    {
        self.files.short(most);
    }

    /// Whether the name is there with just these bytes.
    pub(crate) fn holds(&self, name: &str, bytes: &[u8]) -> bool {
        self.files.bytes(name) == Some(bytes)
    }

    /// Whether none of these names is there.
    pub(crate) fn lacks(&self, names: &[&str]) -> bool {
        for name in names {
            if self.files.bytes(name).is_some() {
                return false;
            }
        }
        true
    }

    /// Whether each of these names is there with just its bytes.
    fn holds_all(&self, given: &[(&str, &[u8])]) -> bool {
        for (name, bytes) in given {
            if !self.holds(name, bytes) {
                return false;
            }
        }
        true
    }

    /// Whether all that is to be left is there, and nothing that is to be lacking.
    pub(crate) fn is_left(&self, left: Left) -> bool {
        let (given, lacking) = left;
        self.holds_all(given) && self.lacks(lacking)
    }
}
