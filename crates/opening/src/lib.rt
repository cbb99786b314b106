// Opening a volume: which of the candidates is accepted.
// Assumes nothing; no public function has a `requires`.
#![tactic(auto)]

ghost use Rattle.std.specs.Prelude.{◌≡◌, true, ◌&&◌, ◌*◌, ◌≤◌, length};
ghost use Rattle.locations.specs.Locations.{code_rule};
ghost use Rattle.answers.specs.Answers.{refuse};
ghost use Rattle.opening.specs.Opening.{lengths_rule, codes_rule, further, searched, opened};

use answers::Refusal;
use header_format::SIZE;
use layout::Layout;

// At most so many candidates in one call.
pub const MAX_CANDIDATES: usize = 64;

// Opens a volume: candidates holds deciphered headers of 512 bytes, codes a location code for each.
// The first candidate that is accepted gives the layout. Without one the first header gives the
// refusal, and without a header it is 4. The two slices are those of the C call, and their lengths are refused here.
#[tactic(auto, unfolding(crate::specs::Opening::opened))]
pub fn open(candidates: &[u8], codes: &[u8], host_size: u64) -> Result<Layout, Refusal>
    ensures { result ≡ opened candidates.now codes.now host_size }
{
    if !lengths_agree(candidates, codes) {
        return Err(Refusal::new(answers::LENGTHS));
    }
    if !codes_known(codes) {
        return Err(Refusal::new(answers::CODE));
    }
    if !layout::is_host_size(host_size) {
        return Err(Refusal::new(answers::HOST_SIZE));
    }
    search_in_order(candidates, codes, host_size)
}

#[tactic(auto, unfolding(crate::specs::Opening::lengths_rule))]
fn lengths_agree(candidates: &[u8], codes: &[u8]) -> bool
    ensures { result ≡ lengths_rule candidates.now codes.now }
{
    if codes.len() < 1 {
        return false;
    }
    if MAX_CANDIDATES < codes.len() {
        return false;
    }
    candidates.len() == codes.len() * SIZE
}

// Whether every code is known. It goes by the largest code, since a loop that never leaves early runs on several
// codes at a time: by `all` a search over 64 candidates that are no headers takes a third longer.
fn codes_known(codes: &[u8]) -> bool
    ensures { result ≡ codes_rule codes.now }
{
    let mut largest: u8 = 0;
    let mut i = 0;
    while i < codes.len() {
        largest = larger(largest, codes[i]);
        i += 1;
    }
    largest <= locations::MAX_CODE
}

// The larger of two codes is known where both are.
fn larger(a: u8, b: u8) -> u8
    ensures { code_rule result ≡ (code_rule a && code_rule b) }
{
    if a < b {
        return b;
    }
    a
}

fn search_in_order(candidates: &[u8], codes: &[u8], host_size: u64) -> Result<Layout, Refusal>
    requires of_one_call { length codes.now ≤ 64 }
    requires whole_candidates { length candidates.now ≡ length codes.now * 512 }
    requires codes_kept { codes_rule codes.now ≡ true }
    ensures { result ≡ searched candidates.now host_size codes.now }
{
    let table = locations::LOCATIONS;
    let mut first = answers::NO_HEADER;
    let mut index = 0;
    // A loop left by break, as RULES.md, Forms, has it: so the index is counted here.
    loop {
        if index == codes.len() {
            break Err(Refusal::new(first));
        }
        let location = table[codes[index] as usize];
        let start = index * SIZE;
        let candidate = &candidates[start..start + SIZE];
        match header::judge(candidate, location.kind, host_size, index as u64) {
            Ok(layout) => break Ok(layout),
            Err(refusal) => first = first_refusal(first, refusal.number),
        }
        index += 1;
    }
}

// Of two refusal numbers, that of the first header; 4 is no header's. Most candidates are none, so that is asked first:
// then nothing is left to do.
fn first_refusal(first: u8, later: u8) -> u8
    ensures { refuse result ≡ further (refuse first) (refuse later) }
{
    if later == answers::NO_HEADER {
        return first;
    }
    if first == answers::NO_HEADER {
        later
    } else {
        first
    }
}
