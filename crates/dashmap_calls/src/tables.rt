//! Tables of calls and their answers.

use crate::calls::{Answer, Call, Numbers, make};
use lock_api_raw::RawRwLock;
use std::alloc::Allocator;
use std::hash::BuildHasher;
use std::sync::Wait;
use std::test::Fail;

/// A call, and what it is to answer.
pub type Row = (Call, Answer);

/// The number of a row of a table, the first of which is 0, and what was answered in place of its answer.
#[derive(Clone, Copy, Debug)]
struct Wrong {
    row: usize,
    answer: Answer,
}

/// Makes the calls of a table, and fails with the first row that is answered otherwise.
pub fn run<S: BuildHasher, Q: RawRwLock, A: Allocator + Clone>(
    map: &Numbers<S, Q, A>,
    rows: &[Row],
    me: &mut Q::Party,
) -> Result<(), Fail>
where
    Q::Runtime: Wait,
{
    for row in 0..rows.len() {
        let (call, wanted) = rows[row];
        let answer = make(map, call, me);
        if answer != wanted {
            return Err(Fail::from(Wrong { row, answer }));
        }
    }
    Ok(())
}
