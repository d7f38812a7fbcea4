//! What a cut takes of a sequence. Everything else of it is shown by cases of conformance.

ghost use Rattle.std.specs.Prelude.{◌≡◌, IfOk, length};
ghost use Rattle.protocol_spec.specs.Chain.Keys.{objects_of};

use crate::objects::{ALICE, digest, reference};
use crate::same::{holds, same};
use chain_messages::Certificate;
use chain_types::{Command, Transaction};
use protocol_spec::SharedCertificate;
use std::alloc::Global;
use std::process::Abort;
use tx_check::check_shape;
use version_assign::Admission;
use wire_bcs::{OutOfMemory, Seq};

/// A certificate with only the gas coin, which no transaction of the epoch made.
fn certificate(alloc: Global) -> Result<Certificate, OutOfMemory>
    ensures { IfOk result (λ cert. length cert.origins ≡ length (objects_of cert.tx)) }
{
    let mut origins = Seq::new(alloc);
    origins.push(None)?;
    let mut commands = Seq::new(alloc);
    commands.push(Command::Call {
        native: 0,
        args: Seq::new(alloc),
    })?;
    Ok(Certificate {
        tx: Transaction {
            epoch: 0,
            sender: ALICE,
            gas: reference(1, 1),
            budget: 2000,
            inputs: Seq::new(alloc),
            commands,
        },
        origins,
        seals: Seq::new(alloc),
    })
}

/// Enters the certificate under the digest 1: whether its shape is valid, it is new, and it was admitted at once.
pub(crate) fn is_admitted(alloc: Global, admission: &mut Admission) -> Result<bool, OutOfMemory> {
    let cert = certificate(alloc)?;
    let tx = digest(1);
    if check_shape(alloc, &cert.tx).is_err() || admission.is_known(&tx) {
        return Ok(false);
    }
    let cert = SharedCertificate::new(alloc, cert)?;
    let taken = admission.push(&tx, &cert)?;
    Ok(taken.admitted.as_slice() == [tx].as_slice())
}

/// Tests that a cut takes what was admitted, once.
fn expect_cut(
    rt: &impl Abort,
    alloc: Global,
    admission: &mut Admission,
) -> Result<(), OutOfMemory> {
    holds(rt, is_admitted(alloc, admission)?);
    same(rt, admission.uncut()?.as_slice(), [digest(1)].as_slice());
    same(rt, admission.cut()?.as_slice(), [digest(1)].as_slice());
    same(rt, admission.uncut()?.as_slice(), [].as_slice());
    Ok(())
}

#[test]
fn a_cut_takes_what_was_admitted(rt: HostRuntime) {
    let alloc = rt.alloc();
    let mut admission = Admission::empty(alloc, None);
    let said = expect_cut(&rt, alloc, &mut admission);
    drop(admission);
    same(&rt, said, Ok(()));
}
