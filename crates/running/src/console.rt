//! Runs a whole script.
use crate::Failure;
use script::call::Call;
use script::script::Script;
use std::alloc::{AllocError, Global};
use std::io::Write;

/// What performs the calls of a script and prints its answers.
pub trait Console: Drop {
    /// It stands before the first call.
    fn begin(heap: Global) -> Result<Self, AllocError>;

    /// Performs a call and prints what it answers, if anything.
    fn answer<W: Write>(&mut self, call: Call<'_>, out: &mut W) -> Result<(), Failure>;

    /// Prints the account of the calls so far.
    fn close<W: Write>(&self, out: &mut W) -> Result<(), Failure>;
}

/// Performs the calls of a script and prints their answers.
fn perform<C: Console, W: Write>(console: &mut C, text: &[u8], out: &mut W) -> Result<(), Failure> {
    let mut script = Script::new(text);
    while let Some(call) = script.next_call()? {
        console.answer(call, out)?;
    }
    Ok(())
}

/// Runs a script and prints its account, also where the script ends in an error.
pub fn run<C: Console, W: Write>(heap: Global, text: &[u8], out: &mut W) -> Result<(), Failure> {
    let mut console = C::begin(heap)?;
    let done = perform(&mut console, text, out);
    console.close(out)?;
    out.flush()?;
    done
}
