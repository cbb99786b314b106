// The forms in which answers are printed.
use answers::Refusal;
use std::fmt;
use std::fmt::Display;

// What a call of the boundary answered: 0 where it accepts, or its refusal.
#[derive(Clone, Copy)]
pub struct Answer(pub u64);

impl Display for Answer {
    fn fmt<W: fmt::Write>(&self, f: &mut fmt::Formatter<W>) -> fmt::Result {
        match self.0 {
            0 => f.write_str("accepted"),
            refusal => write!(f, "refused {refusal}"),
        }
    }
}

// The number of an answer of the library, or its refusal.
#[derive(Clone, Copy)]
pub struct Told(pub Result<u64, Refusal>);

impl Display for Told {
    fn fmt<W: fmt::Write>(&self, f: &mut fmt::Formatter<W>) -> fmt::Result {
        match self.0 {
            Ok(told) => write!(f, "{told}"),
            Err(refusal) => write!(f, "{}", Answer(u64::from(refusal.number))),
        }
    }
}

// Each number with a space before it.
#[derive(Clone, Copy)]
pub struct Numbers<'a>(pub &'a [u64]);

impl<'a> Display for Numbers<'a> {
    fn fmt<W: fmt::Write>(&self, f: &mut fmt::Formatter<W>) -> fmt::Result {
        for number in self.0 {
            write!(f, " {number}")?;
        }
        Ok(())
    }
}

// Bytes in their order, eight at a time.
#[derive(Clone, Copy)]
pub struct Hex<'a>(pub &'a [u8]);

impl<'a> Display for Hex<'a> {
    fn fmt<W: fmt::Write>(&self, f: &mut fmt::Formatter<W>) -> fmt::Result {
        let (eights, rest) = self.0.as_chunks::<8>();
        for eight in eights {
            let number = u64::from_be_bytes(*eight);
            write!(f, "{number:016x}")?;
        }
        for byte in rest {
            write!(f, "{byte:02x}")?;
        }
        Ok(())
    }
}

// The checksum of bytes.
#[derive(Clone, Copy)]
pub struct Checksum<'a>(pub &'a [u8]);

impl<'a> Display for Checksum<'a> {
    fn fmt<W: fmt::Write>(&self, f: &mut fmt::Formatter<W>) -> fmt::Result {
        let checksum = ondristela::ondristela_crc32(self.0);
        write!(f, "{checksum:08x}")
    }
}
