//! What the program takes from the system.
ghost use Rattle.std.specs.Prelude.{◌≡◌, ◌⊎◌, IfErr};
ghost use Rattle.std.specs.IoError.{error_kind};
ghost use Rattle.mq_host.specs.Troubles.{making_trouble_for, trouble_for, unmade_for, words_trouble_for};

use crate::new_file::NewFile;
use crate::trouble::{Reason, Trouble};
use std::alloc::Global;
use std::env;
use std::fs::{self, File, Metadata, OpenFile, OpenOptions};
use std::io::{self, BufWriter, ErrorKind, Input, Read, Write};
use std::os::unix::fs::MetadataExt;
use std::rt::{Env, Files};

/// What messages call standard input.
pub const STANDARD_INPUT: &str = "standard input";

// Where the system tells which file standard input is.
const STANDARD_INPUT_FILE: &str = "/dev/stdin";

/// Which file an open file is. On one system two that are equal are the same file, whatever its
/// names are.
#[derive(Clone, Copy, Debug, PartialEq, Eq)]
pub struct Identity {
    /// The number of the device that the file is on.
    device: u64,
    /// Its number there (inode).
    node: u64,
}

/// Why a file wasn't made, or not written over.
#[derive(Clone, Copy, Debug, PartialEq, Eq)]
pub enum Unmade {
    /// There is something at its path.
    Exists,
    /// It is the log that is read, by another name.
    IsLog,
    /// The system can't make it, or memory ran out.
    Failed(Trouble),
}

/// What the program takes from the system: the words of its command line, files, also new ones, and
/// standard input. Only `make`, `replace` and `keep` change anything there.
pub trait Host {
    ghost use Rattle.std.specs.Prelude.{IfErr, IfOk, IfSome, List, None, Option, Some, ◌≡◌, ◌≢◌, ◌∷◌, map, string_bytes};
    ghost use Rattle.std.specs.Io.KnownBytes.{Keeps};
    ghost use Rattle.mq_host.specs.Effects.{Effect, keeping, making, replacing};
    ghost use Rattle.mq_host.specs.Given.{Given, HasOpened};

    /// A file that is open.
    type File: Read + Drop;

    /// A file that was made.
    type Made: NewFile + Drop;

    /// Standard input.
    type Stdin: Read + Drop;

    ghost gives: { Self → Given };

    // These were done so far to files, the latest first.
    ghost did: { Self → List Effect → Type 0 };

    /// The words of the command line. The first is the program's name.
    ///
    /// # Errors
    ///
    /// `Unread` if a word isn't UTF-8, and `Memory`.
    fn arguments(&self) -> Result<Vec<String>, Trouble>
        ensures words { IfOk result (λ given. IfSome (gives self.now).words
            (λ words. map string_bytes given.items ≡ words)) }
        ensures failed { IfErr result (gives self.now).unread };

    /// Opens the file at this path, to be read from its first byte.
    ///
    /// # Errors
    ///
    /// `Unread` if the file can't be opened, and `Memory`.
    fn open(&self, path: &str) -> Result<Self::File, Trouble>
        ensures bytes { IfOk result (λ opened. Keeps ((gives self.now).file path.now) (Self.File.remaining opened)) }
        ensures opened { IfOk result (λ _. (gives self.now).opened (Some path.now)) }
        ensures failed { IfErr result ((gives self.now).unopened path.now) };

    /// Which file this open file is, if the system says so.
    fn file_identity(&self, file: &Self::File) -> Option<Identity>
        ensures { (gives self.now).identified result };

    /// Which file standard input is, if the system says so.
    fn input_identity(&self) -> Option<Identity>
        ensures { (gives self.now).identified result };

    /// Makes the file at this path, where there is nothing, to be written from its first byte. What
    /// is read was opened before, so that nothing is made if that fails.
    ///
    /// # Errors
    ///
    /// `Exists` if there is something at the path, and `Failed`. If memory ran out for its buffer,
    /// an empty file is left there.
    fn make(&mut self, path: &str) -> Result<Self::Made, Unmade>
        requires opened { HasOpened (gives self.old) }
        ensures made { (past : List Effect) → did self.old past → IfOk result (λ made. did self.new (making path.now (Self.Made.contents made) ∷ past)) }
        ensures unmade { (past : List Effect) → did self.old past → IfErr result (λ _. did self.new past) }
        ensures failed { IfErr result ((gives self.old).unmade path.now) }
        ensures other { IfErr result (λ why. why ≢ Unmade.IsLog) };

    /// Empties the file at this path, or makes it if there is none, to be written from its first
    /// byte. `log` says which file the log is: that one isn't emptied.
    ///
    /// # Errors
    ///
    /// `IsLog` if it is the log, and `Failed`.
    fn replace(&mut self, path: &str, log: Option<Identity>) -> Result<Self::Made, Unmade>
        requires opened { HasOpened (gives self.old) }
        requires identified { (gives self.old).identified log }
        ensures made { (past : List Effect) → did self.old past → IfOk result (λ made. did self.new (replacing path.now (Self.Made.contents made) ∷ past)) }
        ensures unmade { (past : List Effect) → did self.old past → IfErr result (λ _. did self.new past) }
        ensures failed { IfErr result ((gives self.old).unmade path.now) }
        ensures other { IfErr result (λ why. why ≢ Unmade.Exists) };

    /// Closes a file that was made and saved: nothing more is written to it.
    fn keep(&mut self, made: Self::Made)
        requires saved { Self.Made.is_saved made }
        ensures kept { (past : List Effect) → did self.old past → did self.new (keeping (Self.Made.contents made) ∷ past) };

    /// Standard input.
    fn input(&self) -> Self::Stdin
        ensures bytes { Keeps (gives self.now).standard (Self.Stdin.remaining result) }
        ensures opened { (gives self.now).opened None };
}

/// The operating system, reached through a runtime.
#[derive(Drop)]
pub struct System<'a, R> {
    /// The runtime.
    pub rt: &'a R,
}

impl<R: AllocGlobal + Env + Files + Input> Host for System<'_, R> {
    ghost use Rattle.std.specs.Prelude.{None, ◌≡◌, ◌≢◌, ⊤};
    ghost use Rattle.mq_host.specs.Troubles.{IsOfMaking};
    ghost use Rattle.mq_host.specs.declared.trouble.Trouble.TheVariants.{Write};

    type File = R::File;

    type Made = BufWriter<R::File>;

    type Stdin = R::Reader;

    // Nothing is known of the bytes that the system gives.
    ghost gives = { λ _. record {
      words = None;
      file = λ _. None;
      standard = None;
      unread = λ trouble. trouble ≢ Write;
      unopened = λ _ trouble. trouble ≢ Write;
      unmade = λ _ why. IsOfMaking why;
      opened = λ _. ⊤;
      identified = λ _. ⊤;
    } };

    ghost did = { λ _ _. ⊤ };

    fn arguments(&self) -> Result<Vec<String>, Trouble> {
        match env::args(self.rt) {
            Ok(arguments) => arguments
                .collect(self.rt.alloc())
                .map_err(|_| Trouble::Memory),
            Err(error) => Err(failed_words(&error)),
        }
    }

    fn open(&self, path: &str) -> Result<R::File, Trouble> {
        match File::open(self.rt, path) {
            Ok(file) => Ok(file),
            Err(error) => Err(failed_opening(&error)),
        }
    }

    fn file_identity(&self, file: &R::File) -> Option<Identity> {
        identity_of(file.metadata())
    }

    fn input_identity(&self) -> Option<Identity> {
        identity_of(fs::metadata(self.rt, STANDARD_INPUT_FILE))
    }

    fn make(&mut self, path: &str) -> Result<BufWriter<R::File>, Unmade> {
        match File::create_new(self.rt, path) {
            Ok(file) => buffered(self.rt.alloc(), file),
            Err(error) => Err(unmade_for(&error)),
        }
    }

    // The file is emptied only once it is known which one it is.
    fn replace(&mut self, path: &str, log: Option<Identity>) -> Result<BufWriter<R::File>, Unmade> {
        match OpenOptions::new()
            .write(true)
            .create(true)
            .open(self.rt, path)
        {
            Ok(file) => {
                if log.is_some() && identity_of(file.metadata()) == log {
                    return Err(Unmade::IsLog);
                }
                emptied(self.rt.alloc(), file)
            }
            Err(error) => Err(Unmade::Failed(failed_making(&error))),
        }
    }

    fn keep(&mut self, _made: BufWriter<R::File>) {}

    fn input(&self) -> R::Reader {
        self.rt.reader()
    }
}

// Why a file couldn't be opened.
fn failed_opening(error: &io::Error) -> Trouble
    ensures { result ≡ trouble_for (error_kind error.now) }
{
    match error.kind() {
        ErrorKind::OutOfMemory => Trouble::Memory,
        kind => Trouble::Unread(Reason::of(kind)),
    }
}

// Which file the system says that it is.
fn identity_of(told: io::Result<Metadata>) -> Option<Identity> {
    match told {
        Ok(metadata) => Some(Identity {
            device: metadata.dev(),
            node: metadata.ino(),
        }),
        Err(_) => None,
    }
}

// A file with a buffer.
fn buffered<F: Write + Drop>(alloc: Global, file: F) -> Result<BufWriter<F>, Unmade>
    ensures failed { IfErr result (λ why. why ≡ Unmade.Failed Trouble.Memory) }
{
    match BufWriter::new(alloc, file) {
        Ok(made) => Ok(made),
        Err(_) => Err(Unmade::Failed(Trouble::Memory)),
    }
}

// A file that is emptied, with a buffer. A device or a pipe holds nothing that can be emptied.
fn emptied<F: Write + OpenFile + Drop>(alloc: Global, file: F) -> Result<BufWriter<F>, Unmade>
    ensures failed { IfErr result (λ why. (why ≡ Unmade.Failed Trouble.Memory) ⊎ (why ≡ Unmade.Failed Trouble.Write)) }
{
    let is_plain = match file.metadata() {
        Ok(metadata) => metadata.is_file(),
        Err(_) => return Err(Unmade::Failed(Trouble::Write)),
    };
    let made = buffered(alloc, file)?;
    if is_plain && made.get_ref().set_len(0).is_err() {
        return Err(Unmade::Failed(Trouble::Write));
    }
    Ok(made)
}

// Why a new file wasn't made.
fn unmade_for(error: &io::Error) -> Unmade
    ensures { result ≡ unmade_for (error_kind error.now) }
{
    match error.kind() {
        ErrorKind::AlreadyExists => Unmade::Exists,
        _ => Unmade::Failed(failed_making(error)),
    }
}

// Why a file couldn't be made.
fn failed_making(error: &io::Error) -> Trouble
    ensures { result ≡ making_trouble_for (error_kind error.now) }
{
    match error.kind() {
        ErrorKind::OutOfMemory => Trouble::Memory,
        _ => Trouble::Write,
    }
}

// Why the words couldn't be read. Invalid data is a word that isn't UTF-8.
fn failed_words(error: &io::Error) -> Trouble
    ensures { result ≡ words_trouble_for (error_kind error.now) }
{
    match error.kind() {
        ErrorKind::OutOfMemory => Trouble::Memory,
        ErrorKind::InvalidData => Trouble::Unread(Reason::NotUtf8),
        _ => Trouble::Unread(Reason::Other),
    }
}
