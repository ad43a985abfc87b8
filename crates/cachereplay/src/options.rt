// What the program was started with.
use std::env::{Env, FillError};
use std::fs::File;

// The descriptors of standard output and standard error, which `io::write_all` takes.
const STDOUT_FILENO: i32 = 1;

const STDERR_FILENO: i32 = 2;

const USAGE: &str = "usage: cachereplay [FILE]
Replays a script of calls on the block cache and prints each answer. FILE is the script; without it, or where it is -, standard input is read.
  --help       these lines
  --version    the version of the project and of the replay language
The line 'help' of a script prints the language; docs/REPLAY.md teaches it. Messages about files, and at the end of a run with refused calls or bad lines a count of them, go to standard error.
";

const VERSION: &str = "cachereplay 0.2.0, replay language 2\n";

// Where the script is read from: standard input is a source as a file is, not the lack of one.
#[derive(Drop)]
pub enum Source {
    Input,
    Script(File),
}

// What is said where there is nothing to read; nobody is told of a failure to say it.
fn say(descriptor: i32, text: &str) -> Option<Source> {
    io::write_all(descriptor, text.as_bytes());
    None
}

// A path is text.
fn no_text(path: &[u8]) -> Option<Source> {
    io::write_all(STDERR_FILENO, b"cachereplay: ");
    io::write_all(STDERR_FILENO, path);
    say(STDERR_FILENO, ": the path is not UTF-8\n")
}

fn open_text(rt: HostRuntime, path: &str) -> Option<Source> {
    match File::open(&rt, path) {
        Ok(file) => Some(Source::Script(file)),
        Err(error) => {
            let _ = eprintln!(rt; "cachereplay: {path}: {error}");
            None
        }
    }
}

fn source_of(rt: HostRuntime, argument: &[u8]) -> Option<Source> {
    match argument {
        b"--help" => say(STDOUT_FILENO, USAGE),
        b"--version" => say(STDOUT_FILENO, VERSION),
        b"-" => Some(Source::Input),
        path => match str::from_utf8(path) {
            Ok(text) => open_text(rt, text),
            Err(_) => no_text(path),
        },
    }
}

// The source, if there is one. Argument 0 is the program's own name. An argument that is longer than a path can be is named by its error alone.
pub fn open_source(rt: HostRuntime, path: &mut [u8]) -> Option<Source> {
    if !matches!(rt.arg(2, path), Err(FillError::NotPresent)) {
        return say(
            STDERR_FILENO,
            "cachereplay: one FILE at most; --help says more\n",
        );
    }
    match rt.arg(1, path) {
        Ok(n) => source_of(rt, &path[..n]),
        Err(FillError::NotPresent) => Some(Source::Input),
        Err(FillError::TooLong) => say(
            STDERR_FILENO,
            "cachereplay: the argument: File name too long\n",
        ),
    }
}
