// The gate: judges a network and then commands, read from standard input, and prints a line for each.
#![tactic(auto)]

ghost use Rattle.std.specs.Prelude.{◌≤◌, length};
ghost use Rattle.book.specs.Answer.{check_answer_of, command_answer_of};
ghost use Rattle.streams.specs.Reading.{ReadBehind, PieceRead, Loads};
ghost use Rattle.streams.specs.Output.{installed_with, CheckIs, OutcomeIs};

use book::Commanded;
use judgement::Violation;
use refusals::Refused;
use std::io::{Print, Read, Stdin, Stdout};
use streams::input::{Later, Next, ReadFailed};
use streams::text::Line;

// The bytes of the program's work buffer.
const WORK_BYTES: usize = 65536;

// How many network records were read, and what came after them.
#[derive(Clone, Copy)]
struct Loaded {
    n: usize,
    met: Next,
}

// What a command was answered, and the count of records that it leaves.
#[derive(Clone, Copy)]
struct Answered {
    answer: Result<Commanded, Refused>,
    count: usize,
}

// Reads once, behind the first done bytes of the buffer.
fn read_at(input: &mut Stdin, buffer: &mut [u8], done: usize) -> Result<Option<usize>, ReadFailed>
    requires { done ≤ length buffer.old }
    ensures { ReadBehind done buffer.old buffer.new result }
{
    let got = input.read(&mut buffer[done..]);
    // A match: whatever the error is, the read failed. A count that fits the buffer fits an `isize`, into which a `usize` has no
    // `From`.
    match got {
        Ok(k) => streams::input::read_said(k as isize),
        Err(_) => Err(ReadFailed),
    }
}

// Reads until the buffer is full, the input ends or a read fails; answers how many bytes there were. Each read tells how far to
// go on, so that no range is gone over.
fn fill(input: &mut Stdin, buffer: &mut [u8]) -> Result<usize, ReadFailed>
    ensures { PieceRead buffer.old buffer.new result }
{
    let mut done = 0;
    while done < buffer.len() {
        let Some(k) = read_at(input, buffer, done)? else {
            return Ok(done);
        };
        done += k;
    }
    Ok(done)
}

// Reads the next piece of the input. The array is whole, so that the caller owes no proof of its length.
fn read_piece(input: &mut Stdin, rec: &mut [u8; 24]) -> Result<usize, ReadFailed>
    ensures { PieceRead rec.old rec.new result }
{
    fill(input, rec)
}

// Reads network records up to the first command, the end, a cut record, one record too many, or a read that fails.
fn load(input: &mut Stdin, store: &mut [u8; records::STORE_BYTES], rec: &mut [u8; 24]) -> Loaded
    ensures { Loads result.met result.n store.old store.new }
{
    for n in 0..records::MOST_RECORDS + 1 {
        let piece = read_piece(input, rec);
        let met = streams::input::next_of(n, rec, piece);
        match met {
            Next::Network => streams::input::keep(store, n, rec),
            Next::TooMany => {
                return Loaded { n: n + 1, met };
            }
            Next::Command | Next::CutCommand | Next::Cut | Next::End | Next::Failed => {
                return Loaded { n, met };
            }
        }
    }
    unreachable!()
}

// Reads the next piece behind a command, and tells what it is.
fn read_later(input: &mut Stdin, rec: &mut [u8; 24]) -> Later {
    let piece = read_piece(input, rec);
    streams::input::later_of(rec, piece)
}

// Writes a line, and tells whether all of it was written.
fn tell(output: &Stdout, line: &Line) -> bool {
    output.write_all(line.bytes()).is_ok()
}

// The check call on the program's store and work.
fn check(
    store: &[u8; records::STORE_BYTES],
    n: usize,
    work: &mut [u8; WORK_BYTES],
) -> Result<Option<Violation>, Refused>
    ensures { CheckIs store.now n work.old (check_answer_of result) work.new }
{
    calls::check(store, n, work)
}

// The command call on the program's store and work, and the count that it leaves.
fn answer(
    store: &mut [u8; records::STORE_BYTES],
    n: usize,
    work: &mut [u8; WORK_BYTES],
    rec: &[u8; 24],
) -> Answered
    ensures { OutcomeIs (installed_with n store.old) rec.now work.old (command_answer_of result.answer) (installed_with result.count store.new) work.new }
{
    let answer = calls::command(store, n, work, rec);
    let count = streams::count_after(n, answer);
    Answered { answer, count }
}

// Answers the command that was read and those behind it, up to the end, a cut record, or a read or write that fails. What it is
// lent is all that main has: a struct of six would serve this one call.
fn answer_all(
    input: &mut Stdin,
    output: &Stdout,
    store: &mut [u8; records::STORE_BYTES],
    n: usize,
    work: &mut [u8; WORK_BYTES],
    rec: &mut [u8; 24],
) {
    let mut count = n;
    for turn in 1..u64::MAX {
        let done = answer(store, count, work, rec);
        count = done.count;
        if !tell(output, &streams::answer_line(turn, done.answer)) {
            return;
        }
        match read_later(input, rec) {
            Later::Command => {}
            Later::Cut => {
                tell(output, &streams::short_line());
                return;
            }
            Later::End | Later::Failed => return,
        }
    }
}

fn main(rt: HostRuntime) {
    let mut input = rt.stdin();
    let output = rt.stdout();
    let mut store = [0u8; records::STORE_BYTES];
    let mut work = [0u8; WORK_BYTES];
    let mut rec = [0u8; 24];
    let loaded = load(&mut input, &mut store, &mut rec);
    if loaded.met == Next::Failed {
        return;
    }
    if loaded.met == Next::Cut {
        tell(&output, &streams::short_line());
        return;
    }
    let start = check(&store, loaded.n, &mut work);
    if !tell(&output, &streams::start_line(start)) {
        return;
    }
    let Ok(None) = start else {
        return;
    };
    if loaded.met == Next::CutCommand {
        tell(&output, &streams::short_line());
    }
    if loaded.met == Next::Command {
        answer_all(
            &mut input, &output, &mut store, loaded.n, &mut work, &mut rec,
        );
    }
}
