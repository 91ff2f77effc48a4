//! Reads scenario texts for the tests. `tests/scenarios.sh` tests which texts are bad, and at which line.
use ledger_model::AppKinds;
use scenario_texts::{Command, Scenario, read};
use std::alloc::{AllocError, Global};

/// What `look` finds in the scenario of the text, if it is one.
pub(crate) fn seen<T, F: FnOnce(&Scenario) -> T>(alloc: Global, text: &[u8], look: F) -> Option<T>
    requires { F.IsAlwaysCallable look }
{
    match read(alloc, AppKinds::Three, text) {
        Ok(scenario) => Some(look(&scenario)),
        Err(_) => None,
    }
}

/// The text of four replicas, of which replica 1 lies, followed by this line.
fn text_of_line(alloc: Global, line: &[u8]) -> Result<Vec<u8>, AllocError> {
    let mut text = Vec::from_slice(alloc, b"config 4 1 1\nliar 1\n")?;
    text.extend_from_slice(line)?;
    text.push(b'\n')?;
    Ok(text)
}

/// What `look` finds in the command of this line in that text, if it is the only command.
pub(crate) fn seen_step<T, F: FnOnce(&Command) -> T>(
    alloc: Global,
    line: &[u8],
    look: F,
) -> Option<T>
    requires { F.IsAlwaysCallable look }
{
    let text = text_of_line(alloc, line).ok()?;
    let scenario = read(alloc, AppKinds::Three, text.as_slice()).ok()?;
    match scenario.commands.as_slice() {
        [step] => Some(look(step)),
        _ => None,
    }
}
