//! The lines of certificates that are rivals.

ghost use Rattle.std.specs.Prelude.{◌≡◌, ◌++◌, IfOk, OnOk, true};
ghost use Rattle.std.specs.List.{flat_map};
ghost use Rattle.chain_types.specs.Digests.{transaction_digest};
ghost use Rattle.chain_types.specs.Transactions.{transaction};
ghost use Rattle.quorum_core.specs.Committee.{is_roll, total_of, weight};
ghost use Rattle.protocol_spec.specs.Chain.Words.{Each};
ghost use Rattle.world_spec.specs.Known.{world_with};
ghost use Rattle.world_spec.specs.Names.{tx_name};
ghost use Rattle.inspect.specs.Blame.{blame_line, pair_text, pairs_text};
ghost use Rattle.inspect.specs.Found.{IsSound};

use crate::blame_line::blame_line;
use crate::suspects::suspects;
use chain_messages::Certificate;
use chain_types::tx_digest;
use light_check::blame;
use quorum_core::Committee;
use std::alloc::Global;
use wire_bcs::{OutOfMemory, Seq};
use world_lines::Directory;

/// Adds the line of two certificates that blame these members.
fn add_double(
    alloc: Global,
    names: &Directory,
    committee: &Committee,
    one: &Certificate,
    other: &Certificate,
    members: &[u32],
    text: &mut Seq<u8>,
) -> Result<(), OutOfMemory>
    requires one { transaction.short one.now.tx }
    requires other { transaction.short other.now.tx }
    requires roll { is_roll committee.now members.now ≡ true }
    ensures { OnOk result (text.new ≡ text.old ++ blame_line (tx_name (world_with names.now) (transaction_digest one.now.tx)) (tx_name (world_with names.now) (transaction_digest other.now.tx)) members.now (weight committee.now members.now) (total_of committee.now)) }
{
    let first = tx_digest(alloc, &one.tx)?;
    let second = tx_digest(alloc, &other.tx)?;
    let line = blame_line(
        alloc,
        names.tx_name(&first),
        names.tx_name(&second),
        members,
        committee.weight(members),
        committee.total(),
    )?;
    text.extend(line.as_slice())
}

/// Adds the line of two certificates, if they are rivals.
fn add_pair(
    alloc: Global,
    names: &Directory,
    committee: &Committee,
    one: &Certificate,
    other: &Certificate,
    text: &mut Seq<u8>,
) -> Result<(), OutOfMemory>
    requires one { IsSound committee.now one.now }
    requires other { IsSound committee.now other.now }
    ensures { OnOk result (text.new ≡ text.old ++ pair_text (tx_name (world_with names.now)) committee.now one.now other.now) }
{
    match blame(alloc, one, other) {
        Ok(Some(double)) => {
            let members = double.members.as_slice();
            add_double(alloc, names, committee, one, other, members, text)
        }
        Ok(None) => Ok(()),
        Err(OutOfMemory) => Err(OutOfMemory),
    }
}

/// Adds the lines of a certificate and each of the others.
fn add_rivals(
    alloc: Global,
    names: &Directory,
    committee: &Committee,
    one: &Certificate,
    others: &[Certificate],
    text: &mut Seq<u8>,
) -> Result<(), OutOfMemory>
    requires one { IsSound committee.now one.now }
    requires others { Each (IsSound committee.now) others.now }
    ensures { OnOk result (text.new ≡ text.old ++ flat_map (pair_text (tx_name (world_with names.now)) committee.now one.now) others.now) }
{
    let mut rest = others;
    while let [other, after @ ..] = rest {
        add_pair(alloc, names, committee, one, other, text)?;
        rest = after;
    }
    Ok(())
}

/// Adds the lines of each of the certificates and each after it.
fn add_pairs(
    alloc: Global,
    names: &Directory,
    committee: &Committee,
    certs: &[Certificate],
    text: &mut Seq<u8>,
) -> Result<(), OutOfMemory>
    requires { Each (IsSound committee.now) certs.now }
    ensures { OnOk result (text.new ≡ text.old ++ pairs_text (tx_name (world_with names.now)) committee.now certs.now) }
{
    let mut rest = certs;
    while let [one, others @ ..] = rest {
        add_rivals(alloc, names, committee, one, others, text)?;
        rest = others;
    }
    Ok(())
}

/// The lines of each of the certificates and each after it. Only those that share a version are compared.
pub(crate) fn pairs_text(
    alloc: Global,
    names: &Directory,
    committee: &Committee,
    certs: &[Certificate],
) -> Result<Seq<u8>, OutOfMemory>
    requires { Each (IsSound committee.now) certs.now }
    ensures { IfOk result (λ text. text ≡ pairs_text (tx_name (world_with names.now)) committee.now certs.now) }
{
    let suspects = suspects(alloc, certs)?;
    let mut text = Seq::new(alloc);
    add_pairs(alloc, names, committee, suspects.as_slice(), &mut text)?;
    Ok(text)
}
