//! Sessions, as a document requires them.
use crate::fault::Fault;
use crate::run::Run;
use crate::texts::Named;
use lei_values::NoMemory;
use std::alloc::Global;

/// Some runs, and what they show.
#[derive(Drop)]
pub struct Session {
    title: String,
    runs: Vec<Run>,
}

impl Session {
    /// A session without any run.
    pub fn new(alloc: Global, title: &str) -> Result<Self, NoMemory> {
        Ok(Session {
            title: String::from_str(alloc, title)?,
            runs: Vec::new(alloc),
        })
    }

    /// What the session shows.
    pub fn title(&self) -> &str {
        self.title.as_str()
    }

    pub fn runs(&self) -> &[Run] {
        self.runs.as_slice()
    }

    /// The session after one more line.
    pub fn with_line(mut self, alloc: Global, known: &[Named], line: &str) -> Result<Self, Fault> {
        let (word, rest) = line.split_once(' ').unwrap_or((line, ""));
        match word {
            "" | "#" => {}
            "$" => self.runs.push(Run::of(alloc, rest)?)?,
            _ => {
                let Some(run) = self.runs.pop() else {
                    return Err(Fault::Form);
                };
                self.runs.push(run.with_line(alloc, known, word, rest)?)?;
            }
        }
        Ok(self)
    }
}
