//! A host for tests.
use crate::words::{Narrow, Trickle};
use mq_host::{Failure, Host, Identity, NewFile, Outlet, Reason, Trouble, Unmade};
use mq_tasks::run;
use std::alloc::Global;
use std::io;
use std::io::{ErrorKind, Write};

/// A session of four events.
pub const GOOD: &[u8] = b"MQTR\x01\x00\x01\x00\
    \x01\x00\x00\x00\x00\
    \x02\x00\x00\x00\x0f\x10\x0d\x00\x04MQTT\x05\x02\x00\x3c\x00\x00\x00\
    \x03\x00\x00\x00\x05\x20\x03\x00\x00\x00\
    \x02\x00\x00\x00\x09\x32\x07\x00\x01a\x00\x01\x00x";

/// That session with a Packet Identifier of 0.
pub const FAULTY: &[u8] = b"MQTR\x01\x00\x01\x00\
    \x01\x00\x00\x00\x00\
    \x02\x00\x00\x00\x0f\x10\x0d\x00\x04MQTT\x05\x02\x00\x3c\x00\x00\x00\
    \x03\x00\x00\x00\x05\x20\x03\x00\x00\x00\
    \x02\x00\x00\x00\x09\x32\x07\x00\x01a\x00\x00\x00x";

/// A file that is held in memory.
#[derive(Drop)]
pub struct Held {
    pub bytes: Vec<u8>,
}

impl Write for Held {
    fn write(&mut self, buf: &[u8]) -> io::Result<usize> {
        self.bytes.extend_from_slice(buf)?;
        Ok(buf.len())
    }

    fn flush(&mut self) -> io::Result<()> {
        Ok(())
    }
}

impl NewFile for Held {
    ghost use Rattle.std.specs.Prelude.{⊤};

    ghost is_saved = { λ _. ⊤ };

    fn save(&mut self) -> Result<(), Failure> {
        self.flush().map_err(|_| Failure::Write)
    }
}

impl NewFile for Narrow {
    ghost use Rattle.std.specs.Prelude.{⊤};

    ghost is_saved = { λ _. ⊤ };

    fn save(&mut self) -> Result<(), Failure> {
        self.flush().map_err(|_| Failure::Write)
    }
}

/// A host with these words, one file, at `a.log`, and a standard input. Its readers give one byte a
/// call. A file can be made at `b.log`, and one be replaced there and at `d.log`. The log is at
/// `./a.log` too.
#[derive(Drop)]
pub struct Desk {
    pub alloc: Global,
    pub words: &'static [&'static str],
    pub file: &'static [u8],
    pub input: &'static [u8],
    /// Why another file can't be opened, or the words not be read if there are none.
    pub trouble: Trouble,
    /// After how many bytes a reader fails, if it does.
    pub fails_after: Option<usize>,
    /// The kind of its error.
    pub kind: ErrorKind,
    /// How many bytes the file that is made takes, and whether it stays unsaved.
    pub room: usize,
    pub stays: bool,
    /// How many files were made, and how many closed.
    pub made: u8,
    pub kept: u8,
}

impl Desk {
    // Makes a file.
    fn made(&mut self) -> Narrow {
        self.made = self.made.saturating_add(1);
        Narrow {
            room: self.room,
            stays: self.stays,
        }
    }

    /// A host with these words, this file and this standard input, and without a file at any other
    /// path.
    pub fn of(
        alloc: Global,
        words: &'static [&'static str],
        file: &'static [u8],
        input: &'static [u8],
    ) -> Self {
        Desk {
            alloc,
            words,
            file,
            input,
            trouble: Trouble::Unread(Reason::Missing),
            fails_after: None,
            kind: ErrorKind::Other,
            room: 1_000,
            stays: false,
            made: 0,
            kept: 0,
        }
    }
}

impl Host for Desk {
    ghost use Rattle.std.specs.Prelude.{None, ⊤};

    type File = Trickle<'static>;

    type Made = Narrow;

    type Stdin = Trickle<'static>;

    ghost gives = { λ _. record {
      words = None;
      file = λ _. None;
      standard = None;
      unread = λ _. ⊤;
      unopened = λ _ _. ⊤;
      unmade = λ _ _. ⊤;
      opened = λ _. ⊤;
      identified = λ _. ⊤;
    } };

    ghost did = { λ _ _. ⊤ };

    fn arguments(&self) -> Result<Vec<String>, Trouble> {
        let mut arguments = Vec::new(self.alloc);
        for word in self.words {
            let word = String::from_str(self.alloc, word).map_err(|_| Trouble::Memory)?;
            arguments.push(word).map_err(|_| Trouble::Memory)?;
        }
        if arguments.is_empty() {
            return Err(self.trouble);
        }
        Ok(arguments)
    }

    fn open(&self, path: &str) -> Result<Trickle<'static>, Trouble> {
        if path == "a.log" {
            Ok(Trickle::failing(self.file, self.fails_after, self.kind))
        } else {
            Err(self.trouble)
        }
    }

    fn file_identity(&self, _file: &Trickle<'static>) -> Option<Identity> {
        None
    }

    fn input_identity(&self) -> Option<Identity> {
        None
    }

    fn make(&mut self, path: &str) -> Result<Narrow, Unmade> {
        match path {
            "b.log" => Ok(self.made()),
            "a.log" | "d.log" => Err(Unmade::Exists),
            _ => Err(Unmade::Failed(Trouble::Write)),
        }
    }

    fn replace(&mut self, path: &str, _log: Option<Identity>) -> Result<Narrow, Unmade> {
        match path {
            "b.log" | "d.log" => Ok(self.made()),
            "./a.log" => Err(Unmade::IsLog),
            _ => Err(Unmade::Failed(Trouble::Write)),
        }
    }

    fn keep(&mut self, _made: Narrow) {
        self.kept = self.kept.saturating_add(1);
    }

    fn input(&self) -> Trickle<'static> {
        Trickle::failing(self.input, self.fails_after, self.kind)
    }
}

/// Whether the program has this status, and writes this and says this, on this host.
pub fn does(desk: &mut Desk, status: u8, written: &str, said: &str) -> bool {
    let mut output = Outlet::new(Vec::new(desk.alloc));
    let mut error = Vec::new(desk.alloc);
    run(desk.alloc, desk, &mut output, &mut error, &mut ()) == status
        && output.get_ref().as_slice() == written.as_bytes()
        && error.as_slice() == said.as_bytes()
}
