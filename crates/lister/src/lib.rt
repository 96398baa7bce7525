// What the listing programs share: an input read and listed, and the listing printed.
#![tactic(auto)]

ghost use Rattle.std.specs.Prelude.{◌≡◌, ◌≤◌, length, take, Some, OnOk, IfOk, Err};
ghost use Rattle.std.specs.Io.KnownBytes.{Consumes};
ghost use Rattle.listing.specs.Prefix.{IsPrefixLen};
ghost use Rattle.lister.specs.Listed.{count_of, bytes_of, length_of, text_after, to_print, Exhausts};
ghost use Rattle.lister.specs.Printed.{Printed, message};

use chips::Chip;
use std::error::Error;
use std::fmt;
use std::io::{Cursor, Read, Write};

// How many bytes were read, and how many the text has. Numbers and no slices: the promise speaks of both buffers whole.
#[derive(Clone, Copy)]
pub struct Listed {
    pub bytes: usize,
    pub length: usize,
}

// A read failed, after so many bytes.
#[derive(Clone, Copy, Debug)]
pub struct ReadFailed {
    pub bytes: usize,
}

// Why no listing was printed.
#[derive(Clone, Copy, Debug)]
pub enum Failure {
    Input,
    Output,
}

impl Error for Failure {}

impl From<ReadFailed> for Failure {
    fn from(_: ReadFailed) -> Failure {
        Failure::Input
    }
}

impl fmt::Display for Failure {
    ghost output = { λ f. Some (message f) };

    fn fmt<W: fmt::Write>(&self, f: &mut fmt::Formatter<W>) -> fmt::Result {
        match self {
            Failure::Input => f.write_str("standard input: cannot be read"),
            Failure::Output => f.write_str("standard output: cannot be written"),
        }
    }
}

// Reads until the buffer is full, the input ends or a read fails. std's `read_to_end` says little of what came before a failed read. A
// `while`, since each read says how far it came.
#[tactic(auto, using(crate::proofs::Filling::read_more))]
fn read_input<R: Read>(reader: &mut R, buf: &mut [u8]) -> Result<usize, ReadFailed>
    ensures prefix { IsPrefixLen (count_of result) buf.new }
    ensures read { Consumes (R.remaining reader.old) (R.remaining reader.new) (take (count_of result) buf.new) }
    ensures end { IfOk result (λ n. Exhausts n (length buf.new) (R.remaining reader.new)) }
{
    let mut done = 0;
    while done < buf.len() {
        match reader.read(&mut buf[done..]) {
            Ok(0) => return Ok(done),
            Ok(n) => done += n,
            Err(_) => return Err(ReadFailed { bytes: done }),
        }
    }
    Ok(done)
}

// Lists what an input, such as standard input, holds, as much as the input buffer takes, for a chip.
pub fn list_input<R: Read>(
    chip: Chip,
    reader: &mut R,
    input: &mut [u8],
    text: &mut [u8; 49152],
) -> Result<Listed, ReadFailed>
    ensures text { text.new ≡ text_after chip result input.new text.old }
    ensures length { length_of result ≡ to_print chip result input.new }
    ensures prefix { IsPrefixLen (bytes_of result) input.new × IsPrefixLen (length_of result) text.new }
    ensures read { Consumes (R.remaining reader.old) (R.remaining reader.new) (take (bytes_of result) input.new) }
    ensures end { IfOk result (λ r. Exhausts r.bytes (length input.new) (R.remaining reader.new)) }
{
    let bytes = read_input(reader, input)?;
    let length = listing::list(chip, &input[..bytes], text);
    Ok(Listed { bytes, length })
}

// Lists standard input on standard output, for a chip.
fn print<R: Read, W: Write>(chip: Chip, reader: &mut R, writer: &mut W) -> Result<(), Failure>
    ensures ok { OnOk result
        (Printed chip (R.remaining reader.old) (R.remaining reader.new) (W.contents writer.old) (W.contents writer.new)) }
    ensures unread { result ≡ Err Failure.Input → writer.new ≡ writer.old }
{
    // one byte more than the listing takes tells a longer input
    let mut input = [0u8; 4097];
    let mut text = [0u8; 49152];
    let listed = list_input(chip, reader, &mut input, &mut text)?;
    writer
        .write_all(&text[..listed.length])
        .map_err(|_| Failure::Output)
}

// Says on standard error what failed: a line in one write, so that no other writer's stands in its middle. One of more than 64 bytes goes
// out as it is made.
fn tell<E: Write>(name: &str, failure: Failure, errors: &mut E) {
    let mut line = Cursor::new([0u8; 64]);
    // where standard error fails too, nobody is left to be told
    let _ = match writeln!(line, "{name}: {failure}") {
        Ok(()) => errors.write_all(&line.get_ref()[..(line.position() as usize).min(64)]),
        Err(_) => writeln!(errors, "{name}: {failure}"),
    };
}

// A listing program of that name, for a chip. What fails is said on standard error.
pub fn run<R: Read, W: Write, E: Write>(
    name: &str,
    chip: Chip,
    reader: &mut R,
    writer: &mut W,
    errors: &mut E,
) -> Result<(), Failure>
    ensures ok { OnOk result
        (Printed chip (R.remaining reader.old) (R.remaining reader.new) (W.contents writer.old) (W.contents writer.new)) }
    ensures quiet { OnOk result (errors.new ≡ errors.old) }
    ensures unread { result ≡ Err Failure.Input → writer.new ≡ writer.old }
{
    let printed = print(chip, reader, writer);
    if let Err(failure) = printed {
        tell(name, failure, errors);
    }
    printed
}
