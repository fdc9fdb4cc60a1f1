// The bytes of a file, from a source that may be longer than any file or never end.
ghost use Rattle.std.specs.Prelude.{◌≡◌, ◌+◌, take, IfOk, IfSome};
ghost use Rattle.reader.specs.Steps.{max_length};

use crate::reader::MAX_LEN;
use std::alloc::Global;
use std::io;
use std::io::Read;

// One byte more than the longest file, so that a longer one is seen to be too long.
const READ_LIMIT: u64 = MAX_LEN as u64 + 1;

// All bytes of a source, or as many as show that it is too long.
pub fn read_input<R: Read + Drop>(heap: Global, source: R) -> io::Result<Vec<u8>>
    ensures { IfOk result (λ v. IfSome (R.remaining source) (λ left. v.items ≡ take (max_length + 1) left)) }
{
    let mut input = Vec::new(heap);
    let _ = source.take(READ_LIMIT).read_to_end(&mut input)?;
    Ok(input)
}
