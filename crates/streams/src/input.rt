// What a piece of the input does: 24 bytes, or the fewer that are left.
ghost use Rattle.std.specs.Prelude.{◌≡◌, ◌<◌};
ghost use Rattle.format.specs.Record.{most_records};
ghost use Rattle.streams.specs.Input.{is_command_kind};
ghost use Rattle.streams.specs.Reading.{said_by, PieceWithin, next_of, next_by, later_of, later_by, with_record};

// A read failed.
#[derive(Clone, Copy, PartialEq, Eq)]
pub struct ReadFailed;

// What a piece is before any command. A failed read is one of the cases and no Err, as `next_by` says: the program does with it
// what it does with the end.
#[derive(Clone, Copy, PartialEq, Eq)]
pub enum Next {
    // A record of the network.
    Network,
    // One network record more than the largest network has: row 1 answers, without reading on.
    TooMany,
    // The first command.
    Command,
    // The start of a command.
    CutCommand,
    // The start of another record.
    Cut,
    // Nothing: the input ended.
    End,
    // A read that failed.
    Failed,
}

// What a piece is behind a command. A failed read is one of the cases, by `later_by`.
#[derive(Clone, Copy, PartialEq, Eq)]
pub enum Later {
    // The next command.
    Command,
    // The start of a record.
    Cut,
    // Nothing: the input ended.
    End,
    // A read that failed.
    Failed,
}

// What a call of read said by its answer: how many bytes there were, or that the input ended. A read that failed, which answers a
// negative number, is not its end.
pub fn read_said(got: isize) -> Result<Option<usize>, ReadFailed>
    ensures { result ≡ said_by got }
{
    match usize::try_from(got) {
        Ok(0) => Ok(None),
        Ok(k) => Ok(Some(k)),
        Err(_) => Err(ReadFailed),
    }
}

// A record of this kind is a command. By number, as the definition says.
#[tactic(auto, unfolding(crate::specs::Input::is_command_kind))]
fn is_command(kind: u8) -> bool
    ensures { result ≡ is_command_kind kind }
{
    (6..=8).contains(&kind)
}

// What bytes are behind n network records, before any command.
fn next_in(n: usize, piece: &[u8]) -> Next
    ensures { result ≡ next_of n piece.now }
{
    if piece.len() == 0 {
        return Next::End;
    }
    let command = is_command(piece[0]);
    if piece.len() < 24 {
        if command {
            return Next::CutCommand;
        }
        return Next::Cut;
    }
    if command {
        return Next::Command;
    }
    if n < records::MOST_RECORDS {
        return Next::Network;
    }
    Next::TooMany
}

// What bytes are behind a command.
fn later_in(piece: &[u8]) -> Later
    ensures { result ≡ later_of piece.now }
{
    if piece.len() == 0 {
        return Later::End;
    }
    if piece.len() < 24 {
        return Later::Cut;
    }
    Later::Command
}

// What a piece is behind n network records, before any command; its bytes are the first of the buffer.
pub fn next_of(n: usize, buffer: &[u8], piece: Result<usize, ReadFailed>) -> Next
    requires { PieceWithin piece buffer.now }
    ensures { result ≡ next_by n piece buffer.now }
{
    match piece {
        Ok(k) => next_in(n, &buffer[..k]),
        Err(ReadFailed) => Next::Failed,
    }
}

// What a piece is behind a command.
pub fn later_of(buffer: &[u8], piece: Result<usize, ReadFailed>) -> Later
    requires { PieceWithin piece buffer.now }
    ensures { result ≡ later_by piece buffer.now }
{
    match piece {
        Ok(k) => later_in(&buffer[..k]),
        Err(ReadFailed) => Later::Failed,
    }
}

// Puts record number n of the network into the store.
pub fn keep(store: &mut [u8; records::STORE_BYTES], n: usize, rec: &[u8; 24])
    requires { n < most_records }
    ensures { store.new ≡ with_record rec.now n store.old }
{
    let at = n * 24;
    store[at..at + 24].copy_from_slice(rec);
}
