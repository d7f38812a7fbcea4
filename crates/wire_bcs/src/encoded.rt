//! Values that keep the bytes from which they were read.

ghost use Rattle.std.specs.Prelude.{◌≡◌, IfOk};
ghost use Rattle.wire_bcs.specs.Gives.{Ahead, GivesAs};

use crate::fault::Unread;
use crate::reader::Reader;
use crate::seq::{OutOfMemory, Seq};
use crate::wire::{Wire, encode};
use std::alloc::Global;
use std::marker::Model;

/// Reads one value as [`Wire::read_from`] does, and lends the bytes that encode it, so that nobody encodes it again.
pub fn read_encoded<'a, T: Wire>(
    alloc: Global,
    reader: &mut Reader<'a>,
) -> Result<(T, &'a [u8]), Unread>
    ensures exact { GivesAs (λ x. x.0) reader.new result (T.codec.read reader.old) }
    ensures ahead { Ahead reader.old reader.new }
    ensures bytes { IfOk result (λ x. x.1.now ≡ T.codec.spell x.0) }
{
    let front = reader.mark();
    let value = T::read_from(alloc, reader)?;
    let bytes = reader.since(&front);
    Ok((value, bytes))
}

/// A value beside its one encoding, so that nobody encodes it twice. Contracts see the value.
#[derive(Debug, Drop)]
pub struct Encoded<T: Wire> {
    value: T,
    bytes: Seq<u8>,
}

impl<T: Wire> Model for Encoded<T> {
    ghost use Rattle.std.specs.Prelude.{◌≡◌};

    ghost Value = { T };

    ghost view = { λ e. e.value };

    ghost invariant = { λ e. e.bytes ≡ T.codec.spell e.value };
}

impl<T: Wire> Encoded<T> {
    /// Encodes a value. Its lists are at most 2147483647 long.
    pub fn new(alloc: Global, value: T) -> Result<Encoded<T>, OutOfMemory>
        requires { T.codec.short value }
        ensures { IfOk result (λ e. e ≡ value) }
    {
        let bytes = encode(alloc, &value)?;
        Ok(Encoded { value, bytes })
    }

    /// A value beside these bytes, which are its encoding. Takes no memory.
    pub fn of(value: T, bytes: Seq<u8>) -> Encoded<T>
        requires { bytes ≡ T.codec.spell value }
        ensures { result ≡ value }
    {
        Encoded { value, bytes }
    }

    /// The value. Takes no memory.
    pub fn value(&self) -> &T
        ensures { result.now ≡ self.now }
    {
        &self.value
    }

    /// Its encoding. Takes no memory.
    pub fn bytes(&self) -> &[u8]
        ensures { result.now ≡ T.codec.spell self.now }
    {
        self.bytes.as_slice()
    }
}
