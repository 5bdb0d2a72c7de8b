// The words of a batch: how many takes are asked for, and its own two words.
#![tactic(auto)]

ghost use Rattle.std.specs.Prelude.{◌≡◌, cond, ◌||◌, [], ◌∷◌, ltb};
ghost use Rattle.batch.specs.Batch.{most_packets};

// The most packets of a batch, and the answer where a list of results is refused.
const MOST_PACKETS: u32 = 256;

const BAD_RESULTS: u32 = 16;

// Whether a list of so many results is refused for up to `most` packets.
pub fn bad_results(results: usize, most: u32) -> bool
    ensures { result ≡ ltb results most || ltb most_packets most }
{
    results < most as usize || MOST_PACKETS < most
}

// The takes to make: none where the list of results is refused.
pub fn asked(bad: bool, most: u32) -> u32
    ensures { result ≡ cond bad 0 most }
{
    if bad { 0 } else { most }
}

// The answer's number.
fn number(bad: bool) -> u32
    ensures { result ≡ cond bad 16 0 }
{
    if bad { BAD_RESULTS } else { reporting::DONE }
}

// Both words of a batch; the answer's number.
pub fn write_batch(words: &mut [u32; 2], bad: bool, count: u32) -> u32
    ensures { (result ≡ cond bad 16 0) × (words.new ≡ cond bad 16 0 ∷ count ∷ []) }
{
    let answer = number(bad);
    *words = [answer, count];
    answer
}
