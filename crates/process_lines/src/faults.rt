//! Parts that several refusals share.

ghost use Rattle.std.specs.Prelude.{◌≡◌, ◌++◌, OnOk};
ghost use Rattle.process_lines.specs.Texts.{fork_text, halted_text, malformed_text, wrong_epoch_text};

use crate::pieces::{Piece, print};
use chain_types::ObjectKey;
use digest_core::Digest;
use wire_bcs::{OutOfMemory, Seq, WireFault};

/// The two certificates that stopped a member.
pub(crate) fn print_halted(
    out: &mut Seq<u8>,
    first: &Digest,
    second: &Digest,
) -> Result<(), OutOfMemory>
    ensures { OnOk result (out.new ≡ out.old ++ halted_text first.now second.now) }
{
    print(
        out,
        &[
            Piece::Text(b"refused halted "),
            Piece::Id(*first),
            Piece::Text(b" "),
            Piece::Id(*second),
        ],
    )
}

/// The place and the kind of the first fault of bytes.
pub(crate) fn print_malformed(out: &mut Seq<u8>, fault: &WireFault) -> Result<(), OutOfMemory>
    ensures { OnOk result (out.new ≡ out.old ++ malformed_text fault.now) }
{
    print(
        out,
        &[
            Piece::Text(b"refused malformed at "),
            Piece::Number(fault.at),
            Piece::Text(b" why "),
            Piece::Number(fault.why as u64),
        ],
    )
}

/// The epoch of what was handed over, and that of the member.
pub(crate) fn print_wrong_epoch(out: &mut Seq<u8>, had: u64, want: u64) -> Result<(), OutOfMemory>
    ensures { OnOk result (out.new ≡ out.old ++ wrong_epoch_text had want) }
{
    print(
        out,
        &[
            Piece::Text(b"refused wrong epoch had "),
            Piece::Number(had),
            Piece::Text(b" want "),
            Piece::Number(want),
        ],
    )
}

/// A version, and the two transactions that consume it.
pub(crate) fn print_fork(
    out: &mut Seq<u8>,
    key: &ObjectKey,
    first: &Digest,
    second: &Digest,
) -> Result<(), OutOfMemory>
    ensures { OnOk result (out.new ≡ out.old ++ fork_text key.now first.now second.now) }
{
    print(
        out,
        &[
            Piece::Text(b"fork "),
            Piece::Key(*key),
            Piece::Text(b" "),
            Piece::Id(*first),
            Piece::Text(b" "),
            Piece::Id(*second),
        ],
    )
}
