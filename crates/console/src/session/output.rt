//! What a session prints of its calls.
use super::Session;
use answers::answer::Answer;
use printing::page::put_page;
use running::{Console, Failure};
use script::call::Call;
use std::alloc::{AllocError, Global};
use std::io::Write;

impl Session {
    /// Prints the text of a file that was read.
    fn print_page<W: Write>(&self, answer: Answer, out: &mut W) -> Result<(), Failure> {
        if let Answer::Read(_, Ok(length)) = answer
            && let Some(text) = self.page.get(0..length)
        {
            let mut lines = Vec::new(self.heap);
            put_page(text, &mut lines)?;
            out.write_all(lines.as_slice())?;
        }
        Ok(())
    }
}

impl Console for Session {
    fn begin(heap: Global) -> Result<Session, AllocError> {
        Session::new(heap)
    }

    fn answer<W: Write>(&mut self, call: Call<'_>, out: &mut W) -> Result<(), Failure> {
        let answer = self
            .perform(call)
            .map_err(|stop| Failure::at_line(call.line, stop))?;
        if let Some(answer) = answer {
            writeln!(out, "{answer}")?;
            self.print_page(answer, out)?;
        }
        Ok(())
    }

    fn close<W: Write>(&self, out: &mut W) -> Result<(), Failure> {
        let account = self.account();
        writeln!(out, "{account}")?;
        Ok(())
    }
}
