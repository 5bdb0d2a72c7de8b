// A packet's parts, copied from the window into the frame buffer.
#![tactic(auto)]

ghost use Rattle.std.specs.Prelude.{◌≡◌, ◌+◌, ◌*◌, ◌≤◌, length};
ghost use Rattle.words.specs.Word.{splice};
ghost use Rattle.grant.specs.Grant.{page_part};
ghost use Rattle.packet.specs.Stages.{joined, InWindow};

use grammar::Part;

// Copies one part to its position in the frame buffer.
pub fn copy_part(window: &[u8], part: Part, frame: &mut [u8], at: usize)
    requires { (4096 * part.page + 4096 ≤ length window.now)
        × (part.offset + part.size ≤ 4096)
        × (at + part.size ≤ length frame.old) }
    ensures { frame.new ≡ splice frame.old at (page_part window.now part.page part.offset part.size) }
{
    let end = at + part.size as usize;
    copying::copy(
        grant::lookup(window, part.page, part.offset, part.size),
        &mut frame[at..end],
    );
}

// Joins the parts at the front of the frame buffer.
pub fn gather(window: &[u8], parts: &[Part], frame: &mut [u8])
    requires { InWindow window.now parts.now
        × (length (joined window.now parts.now) ≤ length frame.old) }
    ensures { frame.new ≡ splice frame.old 0 (joined window.now parts.now) }
{
    let mut at = 0;
    for part in parts {
        copy_part(window, *part, frame, at);
        at += part.size as usize;
    }
}
