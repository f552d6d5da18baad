// Standard input, standard output and the error output for the programs: a call that cannot move a byte yet is made again, and what
// failed is told in one word. What the system moves cannot be said in a contract: a contract says what was answered and handed over.
#![tactic(auto)]

ghost use Rattle.std.specs.Prelude.{◌≡◌, Ok, IfSome, IsOkUnless, length};
ghost use Rattle.stream.specs.declared.Failure.TheVariants.{Reading, Writing};
ghost use Rattle.stream.specs.Words.{Filled, Moved, word_of};

use std::io::{Error, ErrorKind, Read, Write};
use std::rt::Clock;
use std::thread;
use std::time::Duration;

// Why a program's work is not done.
#[derive(Clone, Copy)]
pub enum Failure {
    Reading,
    Writing,
    Refused,
}

// Where whoever starts a program may listen for its word on failure. Where it is not open, the word is lost and nothing else happens.
const LISTENER: i32 = 3;

// Waits a millisecond.
fn pause(clock: &impl Clock) {
    thread::sleep(clock, Duration::from_millis(1));
}

// A call has just failed: whether it may be made again. A signal came, or the descriptor is set not to wait and nothing can be moved
// yet; then the program waits itself.
fn again(clock: &impl Clock, error: Error) -> bool {
    let kind = error.kind();
    if kind == ErrorKind::Interrupted {
        return true;
    }
    if kind == ErrorKind::WouldBlock {
        pause(clock);
        return true;
    }
    false
}

// Makes a call until it moves something, or fails for good. A proved loop has to end, and nothing says that the wait does: no wait
// uses up so many turns. The call is handed what it changes, so that it is the same call each time. Clock and stream stay two parameters here, as the
// kit's own functions take them.
fn retry<S, F: Fn(&mut S, &mut [u8]) -> std::io::Result<usize>>(
    clock: &impl Clock,
    stream: &mut S,
    buffer: &mut [u8],
    call: F,
) -> Option<usize>
    requires { F.IsAlwaysCallable call }
    ensures { IfSome result (λ n. Moved (F.post call) n buffer.new) }
{
    for _ in 0..u64::MAX {
        match call(stream, buffer) {
            Ok(moved) => return Some(moved),
            Err(error) => {
                if !again(clock, error) {
                    break;
                }
            }
        }
    }
    None
}

// One read of the input, which may give one byte: how many bytes it gave at the start of the buffer, 0 at the end of the input.
pub fn read_some(
    clock: &impl Clock,
    input: &mut impl Read,
    buffer: &mut [u8],
) -> Result<usize, Failure>
    ensures filled { Filled result buffer.new }
    ensures failed { IsOkUnless result Reading }
{
    retry(clock, input, buffer, |input, buffer| input.read(buffer)).ok_or(Failure::Reading)
}

// One write, of a byte or more unless it fails. It changes no buffer.
fn write_some(clock: &impl Clock, output: &mut impl Write, text: &[u8]) -> Result<usize, Failure>
    ensures put { Filled result text.now }
    ensures failed { IsOkUnless result Writing }
{
    retry(clock, output, &mut [], |output, _| output.write(text)).ok_or(Failure::Writing)
}

// Writes all of the text: a `while`, since each write goes on after the bytes that the last one took. An empty text cannot fail.
pub fn write_whole(clock: &impl Clock, output: &mut impl Write, text: &[u8]) -> Result<(), Failure>
    ensures empty { length text.now ≡ 0 → result ≡ Ok tt }
    ensures failed { IsOkUnless result Writing }
{
    let mut rest = text;
    while !rest.is_empty() {
        let put = write_some(clock, output, rest)?;
        if put == 0 {
            return Err(Failure::Writing);
        }
        rest = &rest[put..];
    }
    Ok(())
}

// The one write to the listener: what it is given has to be the work's word. It is the kit's, which writes to a number; std has none.
fn tell(outcome: Result<(), Failure>, word: &[u8])
    requires { word.now ≡ word_of outcome }
{
    io::write_all(LISTENER, word);
}

// Tells the listener why the work is not done; where it is done, nothing is told.
pub fn say(outcome: Result<(), Failure>) {
    match outcome {
        Ok(()) => tell(outcome, b""),
        Err(Failure::Reading) => tell(outcome, b"input\n"),
        Err(Failure::Writing) => tell(outcome, b"output\n"),
        Err(Failure::Refused) => tell(outcome, b"refused\n"),
    }
}
