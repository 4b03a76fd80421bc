//! Worked runs: what a switch is told, and all that it writes.
use crate::capture::capture_of;
use crate::trial::{WRITTEN, tells, tells_ahead};
use crate::{Call, Disk, Frame, Keys, Left, leaves};
use cq_crew::{Gate, OpenGate};
use cq_stream::Watch;
use std::alloc::Global;
use std::sync::Wait;
use std::thread::Threads;

/// A run: what it shows, its configuration, the frames of each input and of each output, and the texts.
#[derive(Clone, Copy)]
pub struct Run {
    /// What it shows.
    pub shows: &'static str,
    /// What its configuration has beside its files and its addresses.
    pub keys: Keys,
    /// The frames of each input.
    pub inputs: &'static [&'static [Frame]],
    /// The frames of each output.
    pub outputs: &'static [&'static [Frame]],
    /// The lines of `trace.txt`.
    pub trace: &'static str,
    /// The lines of `log.txt`.
    pub log: &'static str,
    /// What standard output takes.
    pub report: &'static str,
}

/// What the outputs of a switch write.
const OUTPUTS: [&str; 4] = ["out0.pcap", "out1.pcap", "out2.pcap", "out3.pcap"];

/// Whether the name is there with just a capture of these frames.
fn holds_capture(alloc: Global, disk: &Disk, name: &str, frames: &[Frame]) -> bool {
    match capture_of(alloc, frames) {
        Ok(capture) => disk.holds(name, &capture),
        Err(_) => false,
    }
}

impl Run {
    /// What the run begins with, where it has so many workers.
    pub fn disk(&self, alloc: Global, workers: u8) -> Disk {
        Disk::of_switch(alloc, self.inputs, workers, &self.keys)
    }

    /// Whether the call, where these files are there beside what the run begins with, tells what it should and leaves
    /// this.
    pub fn leaves<R: Threads + Sync>(
        &self,
        rt: &R,
        alloc: Global,
        call: Call,
        given: &[(&str, &[u8])],
        left: Left,
    ) -> bool {
        let disk = self.disk(alloc, 1).holding(given);
        leaves(rt, alloc, call, disk, left)
    }

    /// Whether the captures and the trace are those of the run.
    fn is_sent(&self, alloc: Global, disk: &Disk) -> bool {
        for (name, frames) in OUTPUTS.iter().zip(self.outputs) {
            if !holds_capture(alloc, disk, name, frames) {
                return false;
            }
        }
        self.outputs.len() <= OUTPUTS.len() && disk.holds("trace.txt", self.trace.as_bytes())
    }

    /// Whether the captures, the trace and the log are those of the run.
    fn is_crossed(&self, alloc: Global, disk: &Disk) -> bool {
        disk.holds("log.txt", self.log.as_bytes()) && self.is_sent(alloc, disk)
    }

    /// Whether the call of the words does all of the run, where the gate is told of the workers' steps.
    fn is_done<R: Threads + Sync, G: Gate>(
        &self,
        rt: &R,
        alloc: Global,
        words: &[&str],
        disk: &mut Disk,
        gate: &G,
    ) -> bool {
        let call = (words, (0, self.report, ""));
        tells(rt, alloc, call, disk, gate) && self.is_crossed(alloc, disk)
    }

    /// Whether the crossbar switch does all of the run, from this disk on, and leaves these files as they are.
    pub fn crosses<R: Threads + Sync>(
        &self,
        rt: &R,
        alloc: Global,
        mut disk: Disk,
        kept: &[(&str, &[u8])],
    ) -> bool {
        self.is_done(rt, alloc, &["run", "c.toml"], &mut disk, &OpenGate)
            && disk.is_left((kept, &[]))
    }

    /// Whether the crossbar switch with so many workers does all of the run, where the gate is told of their steps.
    pub fn crosses_watched<R: Threads + Sync, G: Gate>(
        &self,
        rt: &R,
        alloc: Global,
        workers: u8,
        gate: &G,
    ) -> bool {
        let mut disk = self.disk(alloc, workers);
        self.is_done(rt, alloc, &["run", "c.toml"], &mut disk, gate)
    }

    /// Whether the call that reads ahead does all of the run, from this disk on.
    fn is_streamed<R, W: Watch + 'static>(
        &self,
        rt: R,
        alloc: Global,
        disk: &mut Disk,
        watch: &W,
    ) -> bool
    where
        R: Threads + Wait + Sync + Copy + Send + 'static,
    {
        let call: Call = (&["stream", "c.toml"], (0, self.report, ""));
        tells_ahead(rt, alloc, call, disk, watch) && self.is_crossed(alloc, disk)
    }

    /// Whether the call that reads ahead does all of the run too, where the watch is told of its readers.
    pub fn streams<R, W: Watch + 'static>(&self, rt: R, alloc: Global, watch: &W) -> bool
    where
        R: Threads + Wait + Sync + Copy + Send + 'static,
    {
        let mut disk = self.disk(alloc, 1);
        self.is_streamed(rt, alloc, &mut disk, watch)
    }

    /// Whether the crossbar switch does all of the run from this disk on, and an audit says yes to what it leaves.
    fn is_crossed_and_audited<R: Threads + Sync>(
        &self,
        rt: &R,
        alloc: Global,
        disk: &mut Disk,
    ) -> bool {
        let audit: Call = (&["audit", "c.toml"], (0, "audit yes\n", ""));
        self.is_done(rt, alloc, &["run", "c.toml"], disk, &OpenGate)
            && tells(rt, alloc, audit, disk, &OpenGate)
            && self.is_sent(alloc, disk)
    }

    /// Whether the crossbar switch with so many workers does all of the run, and an audit says yes to what it leaves.
    pub fn is_audited<R: Threads + Sync>(&self, rt: &R, alloc: Global, workers: u8) -> bool {
        let mut disk = self.disk(alloc, workers);
        self.is_crossed_and_audited(rt, alloc, &mut disk)
    }

    /// Whether a run from this disk on stops after so many slots and writes its state alone, and what goes on from
    /// there, where the gate is told of its workers' steps, does all of the run.
    fn is_resumed<R: Threads + Sync, G: Gate>(
        &self,
        rt: &R,
        alloc: Global,
        slots: &str,
        disk: &mut Disk,
        gate: &G,
    ) -> bool {
        let part: Call = (&["part", "c.toml", slots, "s.txt"], (0, "", ""));
        let resume = ["resume", "c.toml", "s.txt"];
        tells(rt, alloc, part, disk, &OpenGate)
            && disk.lacks(WRITTEN)
            && self.is_done(rt, alloc, &resume, disk, gate)
    }

    /// Whether a run that stops after so many slots writes its state alone, and what goes on from there does all of the
    /// run.
    pub fn goes_on<R: Threads + Sync>(&self, rt: &R, alloc: Global, slots: &str) -> bool {
        let mut disk = self.disk(alloc, 1);
        self.is_resumed(rt, alloc, slots, &mut disk, &OpenGate)
    }

    /// Whether what goes on from the first slot with so many workers does all of the run, where the gate is told of
    /// their steps.
    pub fn goes_on_watched<R: Threads + Sync, G: Gate>(
        &self,
        rt: &R,
        alloc: Global,
        workers: u8,
        gate: &G,
    ) -> bool {
        let mut disk = self.disk(alloc, workers);
        self.is_resumed(rt, alloc, "0", &mut disk, gate)
    }

    /// Whether the ideal switch sends from this disk on what the run sends, and touches no log.
    fn is_sent_ideally<R: Threads + Sync>(&self, rt: &R, alloc: Global, disk: &mut Disk) -> bool {
        let call: Call = (&["ideal", "c.toml"], (0, "", ""));
        tells(rt, alloc, call, disk, &OpenGate)
            && disk.lacks(&["log.txt"])
            && self.is_sent(alloc, disk)
    }

    /// Whether the ideal switch sends what the run sends, and touches no log.
    pub fn is_ideal<R: Threads + Sync>(&self, rt: &R, alloc: Global) -> bool {
        let mut disk = self.disk(alloc, 1);
        self.is_sent_ideally(rt, alloc, &mut disk)
    }
}
