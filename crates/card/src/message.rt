// What the tag of a node is made of.
ghost use Rattle.std.specs.Prelude.{◌≡◌, ◌≤◌, ◌+◌, length};
ghost use Rattle.std.proofs.lemmas.List.Edits.{sets};
ghost use Rattle.words.specs.Words.{bytes, block_of};
ghost use Rattle.cmac.specs.Context.{tag_by, count_by};
ghost use Rattle.tree.specs.Labels.{form};

use cmac::Context;
use cmac::counted::Counted;
use words::{Block, Packed};

// A node's label, its parent's label and its side.
#[derive(Clone, Copy)]
pub struct Message<'a> {
    pub label: &'a [u8],
    pub parent: u64,
    pub side: u8,
    pub ghost short: { length label.now ≤ 64 },
}

impl<'a> Message<'a> {
    // Puts it at a place of a buffer.
    pub fn put(&self, buffer: &mut [u8], place: usize)
        requires { place + (length self.now.label.now + 9) ≤ length buffer.old }
        ensures { buffer.new ≡ sets buffer.old place (form self.now.label.now (bytes 8 self.now.parent) self.now.side) }
    {
        let end = place + self.label.len();
        words::put(buffer, place, self.label);
        self.parent.put(buffer, end);
        buffer[end + 8] = self.side;
    }

    // Its tag.
    pub fn tag(&self, context: &Context) -> Counted<Block>
        ensures value { block_of result.value ≡ tag_by context.now (form self.now.label.now (bytes 8 self.now.parent) self.now.side) }
        ensures count { result.count ≡ count_by context.now (form self.now.label.now (bytes 8 self.now.parent) self.now.side) }
    {
        let mut bytes = [0u8; 73];
        self.put(&mut bytes, 0);
        context.tag(&bytes[..self.label.len() + 9])
    }
}
