// Replays answers of RITM's Rust, read from standard input, through the library, and says how many agree and the first that does not.

#![tactic(auto)]

mod state;

use records::{Difference, Line, Outcome};
use state::State;
use std::io;
use std::io::Read;

// The line that says how many records agree.
fn say_agreed(rt: &impl Print, agreed: u64) -> io::Result<()> {
    println!(rt; "{agreed} records agree")
}

// Begins the line about the first record that does not agree, after the line about those that do.
fn say_line(rt: &impl Print, agreed: u64) -> io::Result<()> {
    say_agreed(rt, agreed)?;
    let line = agreed.wrapping_add(1);
    print!(rt; "line {line}")
}

fn say_difference(rt: &impl Print, difference: Difference) -> io::Result<()> {
    let Difference {
        field,
        found,
        recorded,
    } = difference;
    println!(rt; " does not: field {field} is {found:#x}, recorded {recorded:#x}")
}

// A run under way: the library's state, the line that is read, and how many records agree.
#[derive(Clone, Copy)]
struct Run {
    state: State,
    line: Line,
    agreed: u64,
}

// A fresh state, and nothing read.
fn start() -> Run {
    Run {
        state: state::fresh(),
        line: Line::empty(),
        agreed: 0,
    }
}

// The run after the end of a line, if its record agrees; where it does not, says why.
fn end_line(rt: &impl Print, run: Run) -> io::Result<Option<Run>> {
    let record = run.line.record();
    let taken = state::take(run.state, record, record.call());
    match taken.compared.outcome() {
        Outcome::Agrees => Ok(Some(Run {
            state: taken.state,
            line: Line::empty(),
            agreed: run.agreed.wrapping_add(1),
        })),
        Outcome::Differs(difference) => {
            say_line(rt, run.agreed)?;
            say_difference(rt, difference)?;
            Ok(None)
        }
        Outcome::NoRecord => {
            say_line(rt, run.agreed)?;
            println!(rt; " is not a record")?;
            Ok(None)
        }
    }
}

// The run after this part of the text, unless it ends at a record that does not agree.
fn read_text(rt: &impl Print, run: Run, text: &[u8]) -> io::Result<Option<Run>> {
    let mut run = run;
    for byte in text {
        if *byte == b'\n' {
            let Some(next) = end_line(rt, run)? else {
                return Ok(None);
            };
            run = next;
        } else {
            run.line.read_byte(*byte);
        }
    }
    Ok(Some(run))
}

// How much of the text is read at once.
const PART: u64 = 65536;

// The most parts in which the text is read: a run of that many has no end.
const MAX_READS: u64 = 0x100_0000_0000;

fn main(rt: HostRuntime) -> io::Result<()> {
    let mut input = rt.reader();
    let mut text = Vec::with_capacity(rt.alloc(), PART as usize)?;
    let mut run = start();
    for _ in 0..MAX_READS {
        text.clear();
        let n = input.by_ref().take(PART).read_to_end(&mut text)?;
        if n == 0 {
            return say_agreed(&rt, run.agreed);
        }
        let Some(next) = read_text(&rt, run, &text)? else {
            return Ok(());
        };
        run = next;
    }
    println!(rt; "input too long")
}
