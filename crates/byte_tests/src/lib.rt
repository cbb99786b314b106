// Tests of bytes: whether two slices hold the same, and whether all are zero.
// Assumes nothing; no function has a `requires`.
#![tactic(auto)]

ghost use Rattle.std.specs.Prelude.{◌≡◌};
ghost use Rattle.byte_tests.specs.Tests.{same_bytes, all_zero};

// Whether two slices hold the same bytes. By an index, and left at the first difference: by `==` each magic is looked at
// whole, and a search over candidates that are no headers takes twice as long.
pub fn same_bytes(a: &[u8], b: &[u8]) -> bool
    ensures { result ≡ same_bytes a.now b.now }
{
    if a.len() != b.len() {
        return false;
    }
    let mut same = 0;
    while same < a.len() {
        if a[same] != b[same] {
            return false;
        }
        same += 1;
    }
    true
}

// Whether every byte is zero.
pub fn is_zero(bytes: &[u8]) -> bool
    ensures { result ≡ all_zero bytes.now }
{
    bytes.iter().all(|byte| *byte == 0)
}
