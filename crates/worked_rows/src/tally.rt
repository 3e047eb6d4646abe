use std::alloc::{AllocError, Global};
use std::io;

/// What a row comes to, or why it can't be run.
pub fn told(alloc: Global, ended: io::Result<String>) -> Result<String, AllocError> {
    match ended {
        Ok(ended) => Ok(ended),
        Err(error) => format!(in alloc; "{error}"),
    }
}

/// How many rows there were, and how many ended in another way than they should.
#[derive(Clone, Copy)]
pub struct Tally {
    rows: u32,
    differ: u32,
}

impl Tally {
    pub fn new() -> Tally {
        Tally { rows: 0, differ: 0 }
    }

    /// Counts a row, and tells its name where it ends in another way than is wanted.
    pub fn count(
        &mut self,
        rt: &impl Print,
        name: &str,
        wanted: &str,
        ended: &str,
    ) -> io::Result<()> {
        self.rows = self.rows.saturating_add(1);
        if ended != wanted {
            self.differ = self.differ.saturating_add(1);
            println!(rt; "{name}: {ended}, not {wanted}")?;
        }
        Ok(())
    }

    /// Prints the counts of a file.
    pub fn tell(self, rt: &impl Print, file: &str) -> io::Result<()> {
        println!(rt; "{file}: {} rows, {} differ", self.rows, self.differ)
    }
}
