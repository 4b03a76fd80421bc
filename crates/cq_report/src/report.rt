//! The report of a run.
ghost use Rattle.std.specs.Prelude.{◌≡◌, ◌≤◌, ◌++◌, All, IfOk, OnOk};
ghost use Rattle.std.specs.List.{flat_map};
ghost use Rattle.cq_report.specs.Report.{report_with, run_lines, numbered_lines, input_line, output_line, limit_line};

use crate::lines::put_named;
use cq_base::{Figures, InputFigures, NoMemory, OutputFigures};
use cq_ideal::Refused;
use std::alloc::Global;

// The most bytes of the three lines of the run as a whole, and of a line of an input, an output or a limit: a
// number has at most 20 digits.
const RUN_LINES: usize = 3 * 20 + 24;

const PORT_LINE: usize = 4 * 20 + 30;

/// The report of the figures: the slots of the run, its proposals and the most proposals of one phase,
/// each on a line; a line for each input with its number, its cells, the greatest length of its list
/// and the least slack; a line for each output with its number, its cells, the slots in which it
/// was idle and the longest wait; and a line for each output that has a limit with its number, and the packets
/// and the cells that were refused there. Each figure stands behind its name, and `-` stands for one that there
/// is not. No output can have sent more cells than the run has slots. The error is want of memory.
pub fn report_text(
    alloc: Global,
    figures: &Figures,
    refused: &[Refused],
) -> Result<Vec<u8>, NoMemory>
    requires { All (λ x. x.cells ≤ figures.now.slots) figures.now.outputs }
    ensures { IfOk result (λ text. text.items ≡ report_with figures.now refused.now) }
{
    let inputs = figures.inputs.as_slice();
    let outputs = figures.outputs.as_slice();
    let ports = inputs.len().saturating_add(outputs.len());
    let lines = ports.saturating_add(refused.len());
    let room = lines.saturating_mul(PORT_LINE).saturating_add(RUN_LINES);
    let mut text = Vec::with_capacity(alloc, room)?;
    put_run(&mut text, figures)?;
    put_inputs(&mut text, inputs)?;
    put_outputs(&mut text, figures.slots, outputs)?;
    put_limits(&mut text, refused)?;
    Ok(text)
}

#[tactic(auto, using(std::proofs::Common::append_assoc), unfolding(crate::specs::Report::run_lines))]
fn put_run(text: &mut Vec<u8>, figures: &Figures) -> Result<(), NoMemory>
    ensures { OnOk result (text.new.items ≡ text.old.items ++ run_lines figures.now) }
{
    put_named(text, b"slots", Some(figures.slots), b'\n')?;
    put_named(text, b"proposals", Some(figures.proposals), b'\n')?;
    put_named(text, b"most", Some(figures.most), b'\n')
}

fn put_inputs(text: &mut Vec<u8>, inputs: &[InputFigures]) -> Result<(), NoMemory>
    ensures { OnOk result (text.new.items ≡ text.old.items ++ numbered_lines input_line 0 inputs.now) }
{
    'inputs: for (number, input) in inputs.iter().enumerate() {
        put_input(text, number as u64, input)?;
    }
    Ok(())
}

#[tactic(auto, using(std::proofs::Common::append_assoc), unfolding(crate::specs::Report::input_line))]
fn put_input(text: &mut Vec<u8>, number: u64, input: &InputFigures) -> Result<(), NoMemory>
    ensures { OnOk result (text.new.items ≡ text.old.items ++ input_line number input.now) }
{
    put_named(text, b"input", Some(number), b' ')?;
    put_named(text, b"cells", Some(input.cells), b' ')?;
    put_named(text, b"longest", Some(input.longest), b' ')?;
    put_named(text, b"slack", input.slack, b'\n')
}

fn put_outputs(text: &mut Vec<u8>, slots: u64, outputs: &[OutputFigures]) -> Result<(), NoMemory>
    requires { All (λ x. x.cells ≤ slots) outputs.now }
    ensures { OnOk result (text.new.items ≡ text.old.items ++ numbered_lines (output_line slots) 0 outputs.now) }
{
    'outputs: for (number, output) in outputs.iter().enumerate() {
        put_output(text, slots, number as u64, output)?;
    }
    Ok(())
}

#[tactic(auto, using(std::proofs::Common::append_assoc), unfolding(crate::specs::Report::output_line))]
fn put_output(
    text: &mut Vec<u8>,
    slots: u64,
    number: u64,
    output: &OutputFigures,
) -> Result<(), NoMemory>
    requires { output.now.cells ≤ slots }
    ensures { OnOk result (text.new.items ≡ text.old.items ++ output_line slots number output.now) }
{
    put_named(text, b"output", Some(number), b' ')?;
    put_named(text, b"cells", Some(output.cells), b' ')?;
    put_named(text, b"idle", Some(slots - output.cells), b' ')?;
    put_named(text, b"wait", output.wait, b'\n')
}

#[tactic(auto, using(crate::proofs::OneMore::one_line_more))]
fn put_limits(text: &mut Vec<u8>, refused: &[Refused]) -> Result<(), NoMemory>
    ensures { OnOk result (text.new.items ≡ text.old.items ++ flat_map limit_line refused.now) }
{
    'limits: for count in refused {
        put_limit(text, *count)?;
    }
    Ok(())
}

#[tactic(auto, using(std::proofs::Common::append_assoc), unfolding(crate::specs::Report::limit_line))]
fn put_limit(text: &mut Vec<u8>, count: Refused) -> Result<(), NoMemory>
    ensures { OnOk result (text.new.items ≡ text.old.items ++ limit_line count) }
{
    put_named(text, b"limit", Some(count.output as u64), b' ')?;
    put_named(text, b"refused", Some(count.packets), b' ')?;
    put_named(text, b"cells", Some(count.cells), b'\n')
}
