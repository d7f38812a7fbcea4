//! The answer of `blame`: who sealed two votes of which an honest member casts at most one.

ghost use Rattle.std.specs.Prelude.{◌≡◌, None, IfOk, OnOk, fold, map};
ghost use Rattle.protocol_spec.specs.Chain.Certificates.{rules_of};
ghost use Rattle.protocol_spec.specs.Chain.Words.{Each};
ghost use Rattle.schedule_text.specs.Schedule.{schedule_of};
ghost use Rattle.world_spec.specs.Known.{world_with};
ghost use Rattle.world_spec.specs.Scene.{rules_in};
ghost use Rattle.world_spec.specs.Names.{cert_in, tx_name};
ghost use Rattle.committee_core.specs.Headline.{program_trust};
ghost use Rattle.inspect.specs.Blame.{SaysBlame, pairs_text};
ghost use Rattle.inspect.specs.Certified.{certified, with_valid};
ghost use Rattle.inspect.specs.Found.{AreFound, IsSound};
ghost use Rattle.inspect.specs.Sight.{events_in};

use crate::answer::Answer;
use crate::certified::Found;
use crate::pairs::pairs_text;
use committee_core::program_sealer;
use committee_core::status::DONE;
use quorum_core::Sealer;
use schedule_text::{Event, ScheduleRefusal, read_schedule};
use std::alloc::Global;
use wire_bcs::{OutOfMemory, Seq};
use world_core::World;

/// Adds the valid certificates that `cert` lines formed.
fn add_formed<S: Sealer>(
    alloc: Global,
    world: &World,
    sealer: &S,
    found: &mut Found,
) -> Result<(), OutOfMemory>
    requires { AreFound world.now.terms.stakes found.old.certs found.old.spelled }
    ensures certs { OnOk result (found.new.certs ≡ fold (with_valid (rules_of world.now.terms.stakes None (S.accepts sealer.now))) found.old.certs (map cert_in world.now.certs)) }
    ensures found { OnOk result (AreFound world.now.terms.stakes found.new.certs found.new.spelled) }
{
    for place in 0..usize::MAX {
        let Some(cert) = world.certificate(place) else {
            return Ok(());
        };
        let cert = cert.copy()?;
        found.add(alloc, world.committee(), sealer, &cert)?;
    }
    // no text has so many lines; it counts as running out of memory
    Err(OutOfMemory)
}

/// The valid certificates of a world and of these lines, each once.
fn certified<S: Sealer>(
    alloc: Global,
    world: &World,
    sealer: &S,
    events: &[Event],
) -> Result<Found, OutOfMemory>
    ensures certs { IfOk result (λ found. found.certs ≡ certified (rules_of world.now.terms.stakes None (S.accepts sealer.now)) (map cert_in world.now.certs) events.now) }
    ensures sound { IfOk result (λ found. Each (IsSound world.now.terms.stakes) found.certs) }
{
    let mut found = Found::new(alloc);
    add_formed(alloc, world, sealer, &mut found)?;
    found.add_handed(alloc, world.committee(), sealer, events)?;
    Ok(found)
}

/// The lines of the certificates of a world and of these lines that are rivals.
fn blame_lines<S: Sealer>(
    alloc: Global,
    world: &World,
    sealer: &S,
    events: &[Event],
) -> Result<Seq<u8>, OutOfMemory>
    ensures { IfOk result (λ text. text ≡ pairs_text (tx_name (world_with world.now.known)) world.now.terms.stakes (certified (rules_of world.now.terms.stakes None (S.accepts sealer.now)) (map cert_in world.now.certs) events.now)) }
{
    let found = certified(alloc, world, sealer, events)?;
    let text = pairs_text(
        alloc,
        world.names(),
        world.committee(),
        found.certs.as_slice(),
    );
    drop(found);
    text
}

/// The answer about the certificates of a world and of these lines.
fn blame_among(alloc: Global, world: &World, events: &[Event]) -> Result<Answer, OutOfMemory>
    ensures { IfOk result (λ a. SaysBlame (rules_in program_trust.accepts world.now) (tx_name (world_with world.now.known)) (map cert_in world.now.certs) events.now a.status a.text) }
{
    let sealer = program_sealer();
    let text = blame_lines(alloc, world, &sealer, events)?;
    Ok(Answer { status: DONE, text })
}

/// What is answered of the world after a text: who sealed two votes of which an honest member casts at most one. The text is
/// read once more, for the certificates that its lines hand over as bytes.
pub(crate) fn blame_answer(alloc: Global, world: &World, text: &[u8]) -> Result<Answer, OutOfMemory>
    ensures { IfOk result (λ a. SaysBlame (rules_in program_trust.accepts world.now) (tx_name (world_with world.now.known)) (map cert_in world.now.certs) (events_in (schedule_of text.now)) a.status a.text) }
{
    match read_schedule(alloc, text) {
        Ok(schedule) => blame_among(alloc, world, schedule.events.as_slice()),
        Err(ScheduleRefusal::Refused { .. }) => blame_among(alloc, world, &[]),
        Err(ScheduleRefusal::OutOfMemory) => Err(OutOfMemory),
    }
}
