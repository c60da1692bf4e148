// The program's lines, and what it does with its input.
#![tactic(auto)]

pub mod input;
pub mod text;

ghost use Rattle.std.specs.Prelude.{◌≡◌};
ghost use Rattle.book.specs.Answer.{check_answer_of, command_answer_of};
ghost use Rattle.series.specs.Series.{count_after};
ghost use Rattle.streams.specs.Line.{start_line, answer_line, end_short};

use book::Commanded;
use judgement::Violation;
use refusals::Refused;
use text::Line;

// The start line: what the check call answered.
pub fn start_line(a: Result<Option<Violation>, Refused>) -> Line
    ensures { result ≡ start_line (check_answer_of a) }
{
    let line = Line::new();
    match a {
        Ok(None) => line.text(b"start holds\n"),
        Ok(Some(v)) => line.with_two(b"start violated", v.policy, v.state),
        Err(r) => line.with_two(b"start refused", r.row.number(), r.place),
    }
}

// The line of command number turn: what the command call answered.
pub fn answer_line(turn: u64, a: Result<Commanded, Refused>) -> Line
    ensures { result ≡ answer_line turn (command_answer_of a) }
{
    let line = Line::new().number(turn);
    match a {
        Ok(Commanded::Forwarded { count }) => line.with_one(b" forwarded", count),
        Ok(Commanded::Blocked(v)) => line.with_two(b" blocked", v.policy, v.state),
        Err(r) => line.with_two(b" refused", r.row.number(), r.place),
    }
}

// The line of a cut last record.
pub fn short_line() -> Line
    ensures { result ≡ end_short }
{
    Line::new().text(b"end short\n")
}

// The count last answered as forwarded.
pub fn count_after(n: usize, a: Result<Commanded, Refused>) -> usize
    ensures { result ≡ count_after n (command_answer_of a) }
{
    match a {
        Ok(Commanded::Forwarded { count }) => count,
        Ok(Commanded::Blocked(_)) | Err(_) => n,
    }
}
