//! Documents with named texts and sessions in them.
use crate::fault::Fault;
use crate::filling::text_parts;
use crate::session::Session;
use crate::texts::{Named, text_named};
use lei_values::{List, NoMemory, Text};
use std::alloc::Global;

/// A line that can't be read, counted from 1, and the reason.
#[derive(Clone, Copy)]
pub struct LineFault {
    pub line: usize,
    pub fault: Fault,
}

// The place of a line.
#[derive(Drop)]
enum Place {
    // Within the text for the reader.
    Outside,
    // Among named texts.
    Texts,
    // In a session.
    Session(Session),
}

/// What was read of a document: the texts that are known, the sessions, and the place of the next line.
#[derive(Drop)]
pub struct Document {
    known: Vec<Named>,
    sessions: Vec<Session>,
    place: Place,
}

impl Document {
    /// What a document says, if these texts are known.
    pub fn read(alloc: Global, known: Vec<Named>, text: &str) -> Result<Self, LineFault> {
        let mut document = Document {
            known,
            sessions: Vec::new(alloc),
            place: Place::Outside,
        };
        let mut line: usize = 0;
        for content in text.split('\n') {
            line = line.saturating_add(1);
            document = match document.with_line(alloc, content) {
                Ok(document) => document,
                Err(fault) => return Err(LineFault { line, fault }),
            };
        }
        match document.place {
            Place::Outside => Ok(document),
            _ => Err(LineFault {
                line,
                fault: Fault::Form,
            }),
        }
    }

    fn with_line(self, alloc: Global, line: &str) -> Result<Self, Fault> {
        let Document {
            mut known,
            mut sessions,
            place,
        } = self;
        let ends = line == "```";
        let place = match place {
            Place::Outside => block_place(alloc, line)?,
            Place::Texts if ends => Place::Outside,
            Place::Texts => {
                put_known(alloc, &mut known, line)?;
                Place::Texts
            }
            Place::Session(session) if ends => {
                sessions.push(session)?;
                Place::Outside
            }
            Place::Session(session) => Place::Session(session.with_line(alloc, &known, line)?),
        };
        Ok(Document {
            known,
            sessions,
            place,
        })
    }

    pub fn sessions(&self) -> &[Session] {
        self.sessions.as_slice()
    }

    /// The texts that are known after the document.
    pub fn into_known(self) -> Vec<Named> {
        let Document { known, .. } = self;
        known
    }
}

// What starts with a line that is outside texts and sessions.
fn block_place(alloc: Global, line: &str) -> Result<Place, NoMemory> {
    match line.split_once(' ') {
        Some((word, title)) if word == "```session" => {
            Ok(Place::Session(Session::new(alloc, title)?))
        }
        None if line == "```texts" => Ok(Place::Texts),
        _ => Ok(Place::Outside),
    }
}

// Adds the text of this line to the known ones.
fn put_known(alloc: Global, known: &mut Vec<Named>, line: &str) -> Result<(), Fault> {
    let Some((head, text)) = line.split_once('=') else {
        return Err(Fault::Form);
    };
    let words: Vec<&str> = head.split(' ').collect(alloc)?;
    let [name, parameters @ ..] = words.as_slice() else {
        return Err(Fault::Form);
    };
    if text_named(known.as_slice(), name, parameters.len()).is_some() {
        return Err(Fault::Form);
    }
    let parts = text_parts(alloc, known.as_slice(), parameters, text)?;
    known.push(Named {
        name: Text::copy_of(alloc, name)?,
        parameters: parameters.len(),
        parts: List::from(parts),
    })?;
    Ok(())
}
