// Grant words, the pages of the guest's window, and the parts of them that slots name.
#![tactic(auto)]

ghost use Rattle.std.specs.Prelude.{◌≡◌, true, ◌+◌, ◌*◌, ◌≤◌, length};
ghost use Rattle.grant.specs.Grant.{has_word, writable, range_start, range_length, range_end, whole_page, with_page};
ghost use Rattle.grant.specs.Lookup.{read_page, write_page, source_of, LookedUp};

const WORD: usize = 8;

// Where the start and the length of the range stand in a word.
const START: usize = 4;

const LENGTH: usize = 6;

const PAGE: usize = 4096;

// Why a slot's part may not be read: its grant is not fit, or the part lies outside of the range granted.
#[derive(Clone, Copy, PartialEq, Eq, Debug)]
pub enum Unlent {
    Unfit,
    Outside,
}

// Where the range that reference g grants starts in its page.
#[tactic(auto, using(crate::proofs::Grant::word_in), unfolding(crate::specs::Grant::range_start))]
fn range_start(grants: &[u8], gref: u32) -> u16
    requires { has_word grants.now gref ≡ true }
    ensures { result ≡ range_start grants.now gref }
{
    words::u16_at(grants, WORD * (gref as usize) + START)
}

// How long it is.
#[tactic(auto, using(crate::proofs::Grant::word_in), unfolding(crate::specs::Grant::range_length))]
fn range_length(grants: &[u8], gref: u32) -> u16
    requires { has_word grants.now gref ≡ true }
    ensures { result ≡ range_length grants.now gref }
{
    words::u16_at(grants, WORD * (gref as usize) + LENGTH)
}

// Where it ends.
#[tactic(auto, unfolding(crate::specs::Grant::range_end))]
fn range_end(grants: &[u8], gref: u32) -> usize
    requires { has_word grants.now gref ≡ true }
    ensures { result ≡ range_end grants.now gref }
{
    range_start(grants, gref) as usize + range_length(grants, gref) as usize
}

// The page that reference g names, if the grant is fit for transmit. It is held against the numbers of words and of pages, which a
// loop over slots computes once.
#[tactic(auto, using(crate::proofs::Grant::no_word, crate::proofs::Grant::has_word_lem, crate::proofs::Grant::range_too_long, crate::proofs::Grant::not_usable, crate::proofs::Grant::not_granted, crate::proofs::Grant::is_fit))]
pub fn fit_to_read(grants: &[u8], window: &[u8], gref: u32) -> Option<u32>
    ensures { result ≡ read_page grants.now window.now gref }
{
    if grants.len() / WORD <= gref as usize {
        return None;
    }
    let word = words::u32_at(grants, WORD * (gref as usize));
    if !words::bit_of(word, 0) {
        return None;
    }
    if PAGE < range_end(grants, gref) {
        return None;
    }
    let page = word >> 2;
    if window.len() / PAGE <= page as usize {
        return None;
    }
    Some(page)
}

// Whether the word of reference g has its writable bit.
#[tactic(auto, using(crate::proofs::Grant::word_in), unfolding(crate::specs::Grant::writable, crate::specs::Grant::word_bits))]
fn is_writable(grants: &[u8], gref: u32) -> bool
    requires { has_word grants.now gref ≡ true }
    ensures { result ≡ writable grants.now gref }
{
    words::bit_of(words::u32_at(grants, WORD * (gref as usize)), 1)
}

// Whether reference g grants the whole of its page. A range that lies in the page and is as long starts with it.
#[tactic(auto, using(crate::proofs::Grant::whole_length))]
fn is_whole(grants: &[u8], gref: u32) -> bool
    requires { (has_word grants.now gref ≡ true) × (range_end grants.now gref ≤ 4096) }
    ensures { result ≡ whole_page grants.now gref }
{
    range_length(grants, gref) as usize == PAGE
}

// The page that reference g names, if the grant is fit for receive.
#[tactic(auto, using(crate::proofs::Grant::read_fit, crate::proofs::Grant::read_unfit, crate::proofs::Grant::fit_word, crate::proofs::Grant::fit_range), unfolding(crate::specs::Lookup::write_page, crate::specs::Grant::fit_receive))]
pub fn fit_to_write(grants: &[u8], window: &[u8], gref: u32) -> Option<u32>
    ensures { result ≡ write_page grants.now window.now gref }
{
    let page = fit_to_read(grants, window, gref)?;
    if is_writable(grants, gref) && is_whole(grants, gref) {
        Some(page)
    } else {
        None
    }
}

// The page of a slot's part, size bytes from an offset of the page that reference g grants, if the grant is fit and its range
// has the part.
#[tactic(auto, using(crate::proofs::Grant::read_fit, crate::proofs::Grant::read_unfit, crate::proofs::Grant::fit_word, crate::proofs::Grant::source_before, crate::proofs::Grant::source_behind, crate::proofs::Grant::source_at, crate::proofs::Grant::source_unfit))]
pub fn source_of(
    grants: &[u8],
    window: &[u8],
    gref: u32,
    offset: u16,
    size: u16,
) -> Result<u32, Unlent>
    ensures { result ≡ source_of grants.now window.now gref offset size }
{
    let page = fit_to_read(grants, window, gref).ok_or(Unlent::Unfit)?;
    if offset < range_start(grants, gref) {
        return Err(Unlent::Outside);
    }
    if range_end(grants, gref) < offset as usize + size as usize {
        return Err(Unlent::Outside);
    }
    Ok(page)
}

// The lookup: the part of the window itself that a slot names, size bytes from an offset of a page. It lies within every grant by
// which the page was found: between start and end of the range, and a part of what the grant covers.
#[tactic(auto, using(crate::proofs::Grant::looked_up), unfolding(crate::specs::Grant::page_part))]
pub fn lookup(window: &[u8], page: u32, offset: u16, size: u16) -> &[u8]
    requires { (4096 * page + 4096 ≤ length window.now) × (offset + size ≤ 4096) }
    ensures { LookedUp window.now page offset size result.now }
{
    let a = PAGE * (page as usize) + offset as usize;
    let b = a + size as usize;
    &window[a..b]
}

// Writes bytes at offset 0 of a page of the window.
#[tactic(auto, using(words::proofs::Word::part_written), unfolding(crate::specs::Grant::with_page))]
pub fn write(window: &mut [u8], page: u32, bytes: &[u8])
    requires { (4096 * page + 4096 ≤ length window.old) × (length bytes.now ≤ 4096) }
    ensures { window.new ≡ with_page window.old page bytes.now }
{
    let a = PAGE * (page as usize);
    let b = a + bytes.len();
    copying::copy(bytes, &mut window[a..b]);
}
