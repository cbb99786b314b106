// What a record asks for, the first number of its body.

#[derive(Clone, Copy)]
pub enum Request {
    Checksum,
    Location,
    Opening,
    WriteHeader,
    Map,
    Plain,
    Protected,
    MadeUp,
    Access(Access),
    Extent(Extent),
    Key,
    Block,
    Unit(Unit),
}

// A read or a write.
#[derive(Clone, Copy)]
pub enum Access {
    Read,
    Write,
    ReadPlaintext,
    WritePlaintext,
}

// Where a read or a write finds its bytes.
#[derive(Clone, Copy)]
pub enum Extent {
    Read,
    Write,
}

// A unit whose bytes are printed, or the checksum of one.
#[derive(Clone, Copy)]
pub enum Unit {
    Published,
    Other,
}

// Every other number is a write of plaintext.
impl From<u64> for Request {
    fn from(number: u64) -> Self {
        match number {
            0 => Request::Checksum,
            1 => Request::Location,
            2 => Request::Opening,
            3 => Request::WriteHeader,
            4 => Request::Map,
            5 => Request::Plain,
            6 => Request::Protected,
            7 => Request::MadeUp,
            8 => Request::Access(Access::Read),
            9 => Request::Access(Access::Write),
            10 => Request::Extent(Extent::Read),
            11 => Request::Extent(Extent::Write),
            12 => Request::Access(Access::ReadPlaintext),
            14 => Request::Key,
            15 => Request::Block,
            16 => Request::Unit(Unit::Published),
            17 => Request::Unit(Unit::Other),
            _ => Request::Access(Access::WritePlaintext),
        }
    }
}
