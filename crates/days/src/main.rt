// Runs the days that the file `days` names, one name a line, and prints each day's name and its answers. They go
// through the same code as in farmday. The stored answers were compared with the second planner's.
#![tactic(auto)]

ghost use Rattle.std.specs.Prelude.{◌≤◌, length};

use arrayvec::ArrayString;
use std::fmt::Write;
use std::fs::File;
use std::io::Read;
use std::rt::Files;
use std::{io, str};

// Says in a line on standard error what could not be opened, and why: the words of the error, without the number that
// the library puts behind them.
fn tell_unopened(rt: &impl Eprint, name: &str, error: io::Error) {
    let mut told = ArrayString::<512>::new();
    let _ = write!(told, "{error}");
    let _ = match told.as_str().split_once(" (os error ") {
        Some((words, _)) => eprintln!(rt; "{name}: {words}"),
        None => eprintln!(rt; "{name}: {told}"),
    };
}

// One day: its name, then its answers.
fn run_day<R: Files + Print + Eprint>(rt: &R, name: &[u8]) -> io::Result<()> {
    rt.write_all(name)?;
    println!(rt)?;
    let Ok(name) = str::from_utf8(name) else {
        let _ = eprintln!(rt; "the name of a day is not text");
        return Ok(());
    };
    match File::open(rt, name) {
        Ok(mut file) => feeding::answer_stream(rt, &mut file, &mut io::writer(rt)),
        Err(error) => tell_unopened(rt, name, error),
    }
    Ok(())
}

// Each name of the list.
fn run_all<R: Files + Print + Eprint>(rt: &R, names: &[u8]) -> io::Result<()> {
    for name in names.split_inclusive(|&b| b == b'\n') {
        run_day(rt, name.strip_suffix(b"\n").unwrap_or(name))?;
    }
    Ok(())
}

// Reads until `buf` is full, the input ends or a read fails, and returns how many bytes it put at the start of `buf`.
fn read_full<R: Read>(input: &mut R, buf: &mut [u8]) -> usize
    ensures { result ≤ length buf.new }
{
    let mut done = 0;
    while let Ok(count @ 1..) = input.read(&mut buf[done..]) {
        done += count;
    }
    done
}

fn main(rt: HostRuntime) -> io::Result<()> {
    match File::open(&rt, "days") {
        Ok(mut file) => {
            let mut names = [0u8; 4096];
            let count = read_full(&mut file, &mut names);
            run_all(&rt, &names[0..count])
        }
        Err(error) => {
            tell_unopened(&rt, "days", error);
            Ok(())
        }
    }
}
