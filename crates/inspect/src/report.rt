// What is printed of a file.
#![tactic(auto, using(crate::proofs::Joins::then, crate::proofs::Joins::whole))]

ghost use Rattle.std.specs.Prelude.{◌≡◌, true, IfOk, IsOkUnless, OnOk};
ghost use Rattle.policy.specs.Reading.{reads};
ghost use Rattle.policy.specs.Refusals as refusals;
ghost use Rattle.policy.specs.View as view;
ghost use Rattle.inspect.specs.declared.failure.Failure.TheVariants.{NoMemory};
ghost use Rattle.inspect.specs.Kinds.{NeedsMemoryAlone};
ghost use Rattle.inspect.specs.Plain.{all_plain};
ghost use Rattle.inspect.specs.Reports.{refusal_line, Formulated, Accounts, Reports};
ghost use Rattle.inspect.specs.Written.{written};

use crate::failure::Failure;
use crate::formula::formula;
use crate::lines::lines;
use crate::text::Text;
use policy::{ReadFault, Reader, check};
use std::alloc::{AllocError, Global};

// The line for a file that is refused; reading is layer 1.
fn refusal(heap: Global, fault: ReadFault) -> Result<Text, AllocError>
    ensures { IfOk result (λ t. written t ≡ refusal_line (refusals.number fault) (refusals.place fault)) }
{
    let mut text = Text::new(heap);
    text.add("refused 1 ")?;
    text.number(fault.number() as usize)?;
    text.add(" ")?;
    text.number(fault.place())?;
    text.add("\n")?;
    Ok(text)
}

// The formula of a file that reads well; the reader knows all that the file declares. That memory alone can be wanting is said
// of each function that hands a failure on: no type of failures says which file it is about.
fn add_formula(heap: Global, text: &mut Text, reader: &Reader, file: &[u8]) -> Result<(), Failure>
    ensures exact { OnOk result (Formulated text.old text.new (view.context reader.now) (reads file.now)) }
    ensures memory { NeedsMemoryAlone result (reads file.now) }
{
    text.add("formula: ")?;
    let policy = formula(heap, file)?;
    text.policy(reader, &policy)?;
    Ok(())
}

// The commands, the formula and the number of pairs of a file that reads well.
fn account(heap: Global, file: &[u8], pairs: u8) -> Result<Text, Failure>
    ensures exact { IfOk result (λ t. Accounts (written t) file.now pairs (reads file.now)) }
    ensures memory { NeedsMemoryAlone result (reads file.now) }
{
    let mut text = Text::new(heap);
    let mut reader = Reader::new(file);
    lines(&mut text, &mut reader)?;
    add_formula(heap, &mut text, &reader, file)?;
    text.add("\npairs ")?;
    text.number(pairs as usize)?;
    text.add("\n")?;
    Ok(text)
}

// All that is printed of a file.
pub(crate) fn report(heap: Global, file: &[u8]) -> Result<Text, Failure>
    ensures exact { IfOk result (λ t. Reports (written t) file.now (reads file.now)) }
    ensures plain { IfOk result (λ t. all_plain (written t) ≡ true) }
    ensures memory { IsOkUnless result NoMemory }
{
    match check(file) {
        Ok(pairs) => account(heap, file, pairs),
        Err(fault) => Ok(refusal(heap, fault)?),
    }
}
