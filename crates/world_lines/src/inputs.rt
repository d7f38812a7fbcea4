//! The gas coin and inputs of a `tx` line, from words to the inputs of a transaction.

ghost use Rattle.std.specs.Prelude.{◌≡◌, Option, IfOk, OnOk, bytes_eq, find, map, true};
ghost use Rattle.digest_core.specs.declared.Digest.{Digest as Sum};
ghost use Rattle.chain_types.specs.declared.objects.ObjectKey.{ObjectKey as Key};
ghost use Rattle.world_spec.specs.Making.{spoiled_if, thing_at};
ghost use Rattle.world_spec.specs.Setting.{Thing};
ghost use Rattle.world_lines.specs.Pushed.{each_pushed};
ghost use Rattle.world_spec.specs.MadeLines.{input_by, reference_at, reference_by, turned, word_id};

use crate::Directory;
use chain_types::{Input, ObjectId, ObjectKey, ObjectRef};
use digest_core::{Digest, created_id};
use schedule_text::{InputWord, ObjWord, RefWord};
use std::alloc::Global;
use wire_bcs::{OutOfMemory, Seq};

/// A source of the digests of object versions, which a transaction's references need: for example, the members of a
/// committee.
pub trait HeldDigests {
    ghost held: { Self → Key → Option Sum };

    /// The digest of a version that is held; none exactly if none is. Takes no memory.
    fn held_digest(&self, key: &ObjectKey) -> Option<Digest>
        ensures { result ≡ held self.now key.now };
}

/// The byte with its last bit flipped. Takes no memory.
fn turned(byte: u8) -> u8
    ensures { result ≡ turned byte }
{
    if byte % 2 == 0 { byte + 1 } else { byte - 1 }
}

/// The digest with the last bit of its first byte flipped. Takes no memory.
#[tactic(auto, using(crate::proofs::LastWords::first_turned))]
fn spoil(digest: &Digest) -> Digest
    ensures { result ≡ spoiled_if true digest.now }
{
    let mut bytes = digest.0;
    bytes[0] = turned(bytes[0]);
    Digest(bytes)
}

/// The digest, spoiled if that is asked for. Takes no memory.
pub fn spoiled_if(spoiled: bool, digest: &Digest) -> Digest
    ensures { result ≡ spoiled_if spoiled digest.now }
{
    if spoiled { spoil(digest) } else { *digest }
}

/// The id of the set-up's thing of this name; zeros if there is none. Takes no memory.
fn thing_at(directory: &Directory, name: &[u8]) -> ObjectId
    ensures { result ≡ thing_at (find (λ (t : Thing). bytes_eq t.name name.now) directory.now.things) }
{
    match directory.thing_id(name) {
        Some(id) => id,
        None => ObjectId(Digest([0; 32])),
    }
}

/// The id that a word names; zeros if no set-up line has the name. Takes no memory.
fn id_of(directory: &Directory, word: &ObjWord) -> ObjectId
    ensures { result ≡ word_id directory.now word.now }
{
    match word {
        ObjWord::Setup(name) => thing_at(directory, name.as_slice()),
        ObjWord::Created { tx, number } => {
            ObjectId(created_id(&directory.digest_named(tx.as_slice()), *number))
        }
    }
}

/// A reference to a version, with the digest that is held, else zeros. Takes no memory.
fn reference_at<H: HeldDigests>(held: &H, key: ObjectKey, spoiled: bool) -> ObjectRef
    ensures { result ≡ reference_at (H.held held.now) key spoiled }
{
    let digest = match held.held_digest(&key) {
        Some(digest) => digest,
        None => Digest([0; 32]),
    };
    ObjectRef {
        id: key.id,
        version: key.version,
        digest: spoiled_if(spoiled, &digest),
    }
}

/// The reference of a word. Takes no memory.
pub(crate) fn reference_of<H: HeldDigests>(
    directory: &Directory,
    held: &H,
    word: &RefWord,
) -> ObjectRef
    ensures { result ≡ reference_by directory.now (H.held held.now) word.now }
{
    let key = ObjectKey {
        id: id_of(directory, &word.object),
        version: word.version,
    };
    reference_at(held, key, word.spoiled)
}

/// The input of a word.
fn input_of<H: HeldDigests>(
    alloc: Global,
    directory: &Directory,
    held: &H,
    word: &InputWord,
) -> Result<Input, OutOfMemory>
    ensures { IfOk result (λ input. input ≡ input_by directory.now (H.held held.now) word.now) }
{
    match word {
        InputWord::Number(number) => {
            let bytes = Seq::from_slice(alloc, number.to_le_bytes().as_slice())?;
            Ok(Input::Pure(bytes))
        }
        InputWord::Address(name) => {
            let bytes = Seq::from_slice(alloc, &directory.user_address(name.as_slice()).0)?;
            Ok(Input::Pure(bytes))
        }
        InputWord::Bytes(bytes) => {
            let bytes = Seq::from_slice(alloc, bytes.as_slice())?;
            Ok(Input::Pure(bytes))
        }
        InputWord::Owned(word) => Ok(Input::Owned(reference_of(directory, held, word))),
        InputWord::Immutable(word) => Ok(Input::Immutable(reference_of(directory, held, word))),
        InputWord::Shared {
            object,
            initial,
            mutable,
        } => Ok(Input::Shared {
            id: id_of(directory, object),
            initial: *initial,
            mutable: *mutable,
        }),
    }
}

/// Adds the inputs of words.
fn add_inputs<H: HeldDigests>(
    inputs: &mut Seq<Input>,
    alloc: Global,
    directory: &Directory,
    held: &H,
    words: &[InputWord],
) -> Result<(), OutOfMemory>
    ensures { OnOk result (inputs.new ≡ each_pushed (input_by directory.now (H.held held.now)) inputs.old words.now) }
{
    for word in words {
        let input = input_of(alloc, directory, held, word)?;
        inputs.push(input)?;
    }
    Ok(())
}

/// The inputs of words, in their order.
#[tactic(auto, using(crate::proofs::Pushed::from_none))]
pub(crate) fn inputs_of<H: HeldDigests>(
    alloc: Global,
    directory: &Directory,
    held: &H,
    words: &[InputWord],
) -> Result<Seq<Input>, OutOfMemory>
    ensures { IfOk result (λ inputs. inputs ≡ map (input_by directory.now (H.held held.now)) words.now) }
{
    let mut inputs = Seq::with_room(alloc, words.len() as u64)?;
    add_inputs(&mut inputs, alloc, directory, held, words)?;
    Ok(inputs)
}
