//! The wire format of a chain: its encoder and decoder.

ghost use Rattle.std.specs.Prelude.{◌≡◌, IfOk, Ok};
ghost use Rattle.wire_bcs.specs.Whole.{whole};
ghost use Rattle.wire_bcs.specs.Gives.{Decodes};
ghost use Rattle.light_check.specs.Chains as codecs;

use crate::chain::{Chain, Link};
use checkpoint_core::Checkpoint;
use std::alloc::Global;
use wire_bcs::{OutOfMemory, Reader, Seq, Unread, Wire, Writer, decode, encode};

#[tactic(auto, using(wire_bcs::specs::Wrote::parts), unfolding(crate::specs::Chains::link))]
impl Wire for Link {
    ghost codec = { codecs.link };

    fn write_into(&self, writer: &mut Writer) -> Result<(), OutOfMemory> {
        self.checkpoint.write_into(writer)?;
        self.seals.write_into(writer)?;
        Ok(())
    }

    fn read_from(alloc: Global, reader: &mut Reader) -> Result<Self, Unread> {
        let checkpoint = Checkpoint::read_from(alloc, reader)?;
        let seals = Seq::read_from(alloc, reader)?;
        Ok(Link { checkpoint, seals })
    }
}

#[tactic(auto, using(wire_bcs::specs::Wrote::parts), unfolding(crate::specs::Chains::chain))]
impl Wire for Chain {
    ghost codec = { codecs.chain };

    fn write_into(&self, writer: &mut Writer) -> Result<(), OutOfMemory> {
        self.links.write_into(writer)?;
        Ok(())
    }

    fn read_from(alloc: Global, reader: &mut Reader) -> Result<Self, Unread> {
        let links = Seq::read_from(alloc, reader)?;
        Ok(Chain { links })
    }
}

/// The one encoding of a chain. Its lists are at most 2147483647 long.
pub fn encode_chain(alloc: Global, chain: &Chain) -> Result<Seq<u8>, OutOfMemory>
    requires { codecs.chain.short chain.now }
    ensures { IfOk result (λ bytes. bytes ≡ codecs.chain.spell chain.now) }
{
    encode(alloc, chain)
}

/// The chain that all the bytes encode. A fault comes exactly if there is none, and is the first.
pub fn decode_chain(alloc: Global, bytes: &[u8]) -> Result<Chain, Unread>
    // What is read is encoded so, and is a value of its type.
    ensures found { IfOk result (λ x. (bytes.now ≡ codecs.chain.spell x) × codecs.chain.fits x) }
    // So it may be written again.
    ensures short { IfOk result codecs.chain.short }
    // What is encoded so is read, unless memory runs out.
    ensures only { (x : _) → codecs.chain.fits x → bytes.now ≡ codecs.chain.spell x → Decodes bytes.now result (Ok x) }
    // Which fault it is.
    ensures exact { Decodes bytes.now result (whole codecs.chain bytes.now) }
{
    decode(alloc, bytes)
}
