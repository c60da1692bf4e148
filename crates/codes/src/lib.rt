// Each answer as one 64-bit number, and the version of the library.
#![tactic(auto)]

ghost use Rattle.std.specs.Prelude.{◌≡◌, ◌<◌};
ghost use Rattle.refusals.specs.Numbers.{row_number};
ghost use Rattle.book.specs.Answer.{check_answer_of, command_answer_of};
ghost use Rattle.book.specs.Laws.Bounds.{CheckSmall, CommandSmall};
ghost use Rattle.trails.specs.Answer.{route_answer_of};
ghost use Rattle.trails.specs.Laws.Bounds.{RouteSmall};
ghost use Rattle.codes.specs.Code.{coded, check_code, command_code, route_code};
ghost use Rattle.codes.specs.Version.{library_version};

use book::Commanded;
use judgement::Violation;
use refusals::Refused;

// The first number of the library's version.
const MAJOR: u64 = 0;

// Its second number.
const MINOR: u64 = 7;

// Its third number.
const PATCH: u64 = 4;

// A case with its two numbers. It and they are plain numbers, since C reads them; a `usize` has no `From` into a `u64`.
fn coded(tag: u64, first: usize, second: usize) -> u64
    requires { (tag < 4) × (first < 65536) × (second < 65536) }
    ensures { result ≡ coded tag first second }
{
    tag + 4 * (first as u64 + 65536 * (second as u64))
}

// The number of a refusal.
fn refused(r: Refused) -> u64
    requires { (row_number r.row < 65536) × (r.place < 65536) }
    ensures { result ≡ coded 2 (row_number r.row) r.place }
{
    coded(2, r.row.number(), r.place)
}

// The number of an answer of the check call.
pub fn check_code(a: Result<Option<Violation>, Refused>) -> u64
    requires { CheckSmall (check_answer_of a) }
    ensures { result ≡ check_code (check_answer_of a) }
{
    match a {
        Ok(None) => 0,
        Ok(Some(v)) => coded(1, v.policy, v.state),
        Err(r) => refused(r),
    }
}

// The number of an answer of the command call.
pub fn command_code(a: Result<Commanded, Refused>) -> u64
    requires { CommandSmall (command_answer_of a) }
    ensures { result ≡ command_code (command_answer_of a) }
{
    match a {
        Ok(Commanded::Forwarded { count }) => coded(0, count, 0),
        Ok(Commanded::Blocked(v)) => coded(1, v.policy, v.state),
        Err(r) => refused(r),
    }
}

// The number of an answer of the route call.
pub fn route_code(a: Result<Option<usize>, Refused>) -> u64
    requires { RouteSmall (route_answer_of a) }
    ensures { result ≡ route_code (route_answer_of a) }
{
    match a {
        Ok(Some(count)) => coded(0, count, 0),
        Ok(None) => coded(1, 0, 0),
        Err(r) => refused(r),
    }
}

// The version of the library as one number.
pub fn version() -> u64
    ensures { result ≡ library_version }
{
    1000000 * MAJOR + 1000 * MINOR + PATCH
}
