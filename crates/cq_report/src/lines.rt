//! Figures behind their names, put at the end of what is built so far. The error of each is want of memory.
ghost use Rattle.std.specs.Prelude.{◌≡◌, ◌∷◌, ◌++◌, [], OnOk};
ghost use Rattle.cq_base.specs.Decimal.{decimal, field};
ghost use Rattle.cq_report.specs.Report.{named};

use cq_base::{MOST_DIGITS, NoMemory, digits};

fn put_decimal(text: &mut Vec<u8>, number: u64) -> Result<(), NoMemory>
    ensures { OnOk result (text.new.items ≡ text.old.items ++ decimal number) }
{
    let mut places = [0; MOST_DIGITS];
    let count = digits(u128::from(number), &mut places);
    text.extend_from_slice(&places[..count])?;
    Ok(())
}

fn put_figure(text: &mut Vec<u8>, number: Option<u64>) -> Result<(), NoMemory>
    ensures { OnOk result (text.new.items ≡ text.old.items ++ field number) }
{
    match number {
        Some(number) => put_decimal(text, number),
        None => {
            text.push(b'-')?;
            Ok(())
        }
    }
}

/// A name with its figure, and behind it what parts it from the next, or ends the line.
#[tactic(auto, using(std::proofs::Common::append_assoc), unfolding(crate::specs::Report::named))]
pub fn put_named(
    text: &mut Vec<u8>,
    name: &[u8],
    number: Option<u64>,
    end: u8,
) -> Result<(), NoMemory>
    ensures { OnOk result (text.new.items ≡ text.old.items ++ (named name.now number ++ end ∷ [])) }
{
    text.extend_from_slice(name)?;
    text.push(b' ')?;
    put_figure(text, number)?;
    text.push(end)?;
    Ok(())
}
