// Where the records and texts come from, and where they go with the answers. The input is parts: a length,
// and so many bytes. A record is a body and then texts, one before each of its answers and one after the last.
ghost use Rattle.std.specs.Prelude.{◌≤◌, IfOk, length};

use crate::body::within;
use std::fmt::Display;
use std::io;
use std::io::{BufReader, BufWriter, ErrorKind, Read, Stdin, Stdout, Write};

const TEXT_SPACE: usize = 255;

#[derive(Drop)]
pub struct Streams {
    input: BufReader<Stdin>,
    output: BufWriter<Stdout>,
}

impl Streams {
    // Standard input and standard output.
    pub fn standard(rt: &HostRuntime) -> io::Result<Self> {
        let alloc = rt.alloc();
        let input = BufReader::new(alloc, rt.stdin())?;
        let output = BufWriter::new(alloc, rt.stdout())?;
        Ok(Streams { input, output })
    }

    // Reads the next body into a space, if there is one: an empty one ends the records as the end of the input does.
    pub fn next_body<'a>(&mut self, space: &'a mut [u8]) -> io::Result<Option<&'a [u8]>> {
        let body = self.read_part(space)?;
        Ok((!body.is_empty()).then_some(body))
    }

    // Reads the next text, and prints it.
    pub fn print_text(&mut self) -> io::Result<()> {
        let mut space = [0u8; TEXT_SPACE];
        let text = self.read_part(&mut space)?;
        self.output.write_all(text)
    }

    // Prints an answer, with the next text before it.
    pub fn print<A: Display + Drop>(&mut self, answer: A) -> io::Result<()> {
        self.print_text()?;
        write!(self.output, "{answer}")
    }

    pub fn flush(&mut self) -> io::Result<()> {
        self.output.flush()
    }

    // Reads a part, which is empty where the input has ended. What there is no space for is taken for the next
    // part, and the lines are then not the expected ones.
    fn read_part<'a>(&mut self, space: &'a mut [u8]) -> io::Result<&'a [u8]>
        ensures { IfOk result (λ part. length part.now ≤ length space.old) }
    {
        let mut length = [0u8; 8];
        self.fill(&mut length)?;
        let size = within(u64::from_be_bytes(length), space.len());
        let part = &mut space[..size];
        part.fill(0);
        self.fill(part)?;
        Ok(part)
    }

    // Fills the bytes, or so many of them as the input still has, and leaves the others.
    fn fill(&mut self, bytes: &mut [u8]) -> io::Result<()> {
        match self.input.read_exact(bytes) {
            Err(error) if error.kind() == ErrorKind::UnexpectedEof => Ok(()),
            read => read,
        }
    }
}
