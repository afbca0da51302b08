//! What programs do before and after their work: they take the words of the command line, read files,
//! leave out the mark at the head of one, print, and end with a status.

ghost use Rattle.std.specs.Prelude.{◌≡◌};
ghost use Rattle.std.specs.Option.{option_map};
ghost use Rattle.words.specs.Programs.{about, is_flag, without_mark};

use interpolator::Error;
use std::process::ExitCode;
use std::{env, fs, io};

/// The status of a run that did what it was asked.
pub const WRITTEN: u8 = 0;

/// The status of a run that reported a fault, or ran out of memory.
pub const FAULT: u8 = 1;

/// The status of a wrong use.
pub const BAD_USE: u8 = 2;

/// The status of a refused write, and of a file that cannot be read.
pub const REFUSED: u8 = 3;

/// The byte order mark, which some editors write at the head of a file.
const MARK: &str = "\u{feff}";

/// The words after the program's name.
pub fn arguments(rt: &HostRuntime) -> io::Result<Vec<String>> {
    let words = env::args(rt)?.skip(1).collect::<Vec<String>>(rt.alloc())?;
    Ok(words)
}

/// Whether a word looks like a flag.
pub fn is_flag(word: &str) -> bool
    ensures { result ≡ is_flag word.now }
{
    word.starts_with("-")
}

/// A text without the byte order mark at its head.
pub fn without_mark(text: &str) -> &str
    ensures { result.now ≡ without_mark text.now }
{
    text.strip_prefix(MARK).unwrap_or(text)
}

/// The status of a run that ends with this write.
pub fn ended(written: io::Result<()>, status: u8) -> ExitCode {
    match written {
        Ok(()) => ExitCode::from(status),
        Err(_) => ExitCode::from(REFUSED),
    }
}

/// Ends a wrong use with a line that says what is right, on standard error.
pub fn usage(rt: &HostRuntime, line: &str) -> ExitCode {
    ended(eprintln!(rt; "{line}"), BAD_USE)
}

/// Ends a run for lack of memory.
pub fn out_of_memory(rt: &HostRuntime) -> ExitCode {
    ended(eprintln!(rt; "{}", Error::NoMemory), FAULT)
}

/// The words after the program's name, or how a run ends that cannot read them: memory ran out, or a
/// word is not UTF-8, which is a wrong use, and this line says what is right.
pub fn words_in(rt: &HostRuntime, line: &str) -> Result<Vec<String>, ExitCode> {
    match arguments(rt) {
        Ok(words) => Ok(words),
        Err(error) if error.kind() == io::ErrorKind::OutOfMemory => Err(out_of_memory(rt)),
        Err(_) => Err(usage(rt, line)),
    }
}

/// The text for which a single word asks: the help, or the version.
pub fn about<'a>(words: &[String], help: &'a str, version: &'a str) -> Option<&'a str>
    ensures { option_map (λ text. text.now) result ≡ about words.now help.now version.now }
{
    let [word] = words else {
        return None;
    };
    match word.as_str() {
        "--help" => Some(help),
        "--version" => Some(version),
        _ => None,
    }
}

/// The bytes of a file, or how the run ends without them.
pub fn bytes_in(rt: &HostRuntime, name: &str) -> Result<Vec<u8>, ExitCode> {
    match fs::read(rt, name) {
        Ok(bytes) => Ok(bytes),
        Err(error) => Err(ended(eprintln!(rt; "{name}: {error}"), REFUSED)),
    }
}

/// What is answered by files.
#[derive(Drop)]
pub enum Answer {
    /// A text to print.
    Text(String),
    /// What is wrong with them, in lines.
    Faults(String),
}

/// Prints a text, and ends the run; if that fails, says why.
pub fn print_text(rt: &HostRuntime, text: &str) -> ExitCode {
    match rt.print(text) {
        Ok(()) => ExitCode::from(WRITTEN),
        Err(error) => ended(eprintln!(rt; "cannot write: {error}"), REFUSED),
    }
}

/// Prints an answer, or that memory ran out, and ends the run.
pub fn print_answer(rt: &HostRuntime, answer: Result<Answer, Error>) -> ExitCode {
    match answer {
        Ok(Answer::Text(text)) => print_text(rt, text.as_str()),
        Ok(Answer::Faults(reported)) => ended(eprint!(rt; "{reported}"), FAULT),
        Err(error) => ended(eprintln!(rt; "{error}"), FAULT),
    }
}

/// The status of a run that ended early, or at its end.
pub fn status_of(run: Result<ExitCode, ExitCode>) -> ExitCode {
    match run {
        Ok(status) => status,
        Err(status) => status,
    }
}
