// The copy of bytes, eight a pass.
#![tactic(auto)]

ghost use Rattle.std.specs.Prelude.{◌≡◌, ◌+◌, ◌*◌, ◌/◌, ◌≤◌, ◌<◌, length, take};
ghost use Rattle.words.specs.Word.{splice};

// Copies the first bytes of src to the front of dst in passes of eight; the number of passes made, which the loop counts: it is no
// one `copy_from_slice`, since `copy` promises how many passes there are.
fn copy_passes(src: &[u8], dst: &mut [u8], passes: usize) -> usize
    requires { (8 * passes ≤ length src.now) × (8 * passes ≤ length dst.old) }
    ensures { (dst.new ≡ splice dst.old 0 (take (8 * passes) src.now)) × (result ≡ passes) }
{
    let mut made = 0;
    for k in 0..passes {
        let eight = words::bytes_at::<8>(src, 8 * k);
        words::put_bytes(dst, 8 * k, &eight);
        made += 1;
    }
    made
}

// Copies the first bytes of src, at most a page, to the front of dst in passes of eight; the number of passes. They go
// through an own array, which overlaps nothing: so the compiler makes one block move of all passes.
fn copy_eights(src: &[u8], dst: &mut [u8]) -> usize
    requires { (length src.now ≤ length dst.old) × (length src.now ≤ 4096) }
    ensures { (dst.new ≡ splice dst.old 0 (take (8 * (length src.now / 8)) src.now))
        × (result ≡ length src.now / 8) }
{
    let passes = src.len() / 8;
    let mut held = [0u8; 4096];
    copy_passes(src, &mut held, passes);
    copy_passes(&held, dst, passes)
}

// Copies all of src, fewer than eight bytes, to the front of dst one by one. The loop has as many turns as there can be bytes,
// so that the compiler unrolls it.
fn copy_short(src: &[u8], dst: &mut [u8])
    requires { (length src.now ≤ length dst.old) × (length src.now < 8) }
    ensures { dst.new ≡ splice dst.old 0 src.now }
{
    for i in 0..7 {
        if i < src.len() {
            dst[i] = src[i];
        }
    }
}

// Copies all of src, at most a page, to the front of dst, eight bytes a pass; the number of passes. A tail of fewer than
// eight bytes is copied with the last eight of src, of which the last pass writes the others again.
pub fn copy(src: &[u8], dst: &mut [u8]) -> usize
    requires { (length src.now ≤ length dst.old) × (length src.now ≤ 4096) }
    ensures { (dst.new ≡ splice dst.old 0 src.now) × (result ≡ length src.now / 8) }
{
    let n = src.len();
    if n % 8 != 0 {
        if n < 8 {
            copy_short(src, dst);
            return 0;
        }
        words::put_bytes(dst, n - 8, &words::bytes_at::<8>(src, n - 8));
    }
    copy_eights(src, dst)
}
