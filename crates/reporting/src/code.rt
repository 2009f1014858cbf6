// The code file on the input: "as long as its contents say".
ghost use Rattle.std.specs.Prelude.{◌≡◌, ◌≤◌, length, take, IfOk, OnErr};
ghost use Rattle.reporting.specs.ReadOn.{file_limit, ReadOn};

use limits::{MAX_CHECKS, MAX_EDGES};
use std::io::{self, Read};
use stream::read_full;
use table::announced;

// The longest code file.
pub(crate) const FILE_LIMIT: usize = 4 + 4 * MAX_CHECKS + 2 * MAX_EDGES;

// Reads on from the first `size` bytes to what they announce, and answers where the input ended. An
// error, too, leaves the first bytes.
fn read_on<R: Read>(input: &mut R, file: &mut [u8], size: usize) -> io::Result<usize>
    requires { (size ≤ file_limit) × (file_limit ≤ length file.old) }
    ensures read { IfOk result (λ end. ReadOn size end file.new file.old) }
    ensures err { OnErr result (take size file.new ≡ take size file.old) }
{
    let end = announced(&file[..size]);
    if end <= size {
        return Ok(size);
    }
    Ok(size + read_full(input, &mut file[size..end])?)
}

// How much of the code file is read: all, or less where the input ends or the file can't be one. No
// bytes announce the first four, these the contents, and the contents the bodies.
pub(crate) fn read_code<R: Read>(input: &mut R, file: &mut [u8]) -> io::Result<usize>
    requires { file_limit ≤ length file.old }
    ensures { IfOk result (λ size. size ≤ file_limit) }
{
    let head = read_on(input, file, 0)?;
    let contents = read_on(input, file, head)?;
    read_on(input, file, contents)
}
