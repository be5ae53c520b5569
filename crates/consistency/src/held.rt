ghost use Rattle.std.specs.Prelude.{◌≡◌};
ghost use Rattle.std.specs.Bool.{then_some};
ghost use Rattle.consistency.specs.Following.{row_with, fine_in, following};

use routine::Set;
use routine::calls::{Call, call_at};
use routine::holds::{FREE, Row, fine, mark_in, marked};

// The row after a call, where there is one of some kind, and it is no logic error where these marks are held.
fn row_with(row: Row, call: Option<Call>) -> Option<Row>
    ensures { result ≡ then_some (fine_in row call) (row_with row call) }
{
    let call = call?;
    // A byte of a file that nobody has read may be 0, which is no kind.
    if call.kind == 0 || !fine(call.kind, mark_in(row, call.base)) {
        return None;
    }
    Some(marked(row, call.kind, call.base))
}

// What the first k calls of process p leave held, from nothing on, where they are all there and none was a logic error in its turn; else what was held when the first that is not came.
pub fn follow(file: &[u8], p: usize, k: usize) -> Result<Row, Row>
    ensures { result ≡ following file.now p k }
{
    let mut row = [FREE; Set::BASES];
    for j in 0..k {
        let Some(next) = row_with(row, call_at(file, p, j)) else {
            return Err(row);
        };
        row = next;
    }
    Ok(row)
}
