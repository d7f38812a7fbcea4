//! Laying out the tasks and edges of a plan.

ghost use Rattle.std.specs.Prelude.{◌≡◌, ◌++◌, ◌∷◌, ◌^◌, ◌<◌, [], IfOk, OnOk, filter_map, length, map, option_copied, slice_get};
ghost use Rattle.std.specs.Option.{option_to_list};
ghost use Rattle.protocol_spec.specs.Chain.Words.{Each};
ghost use Rattle.protocol_spec.specs.Member.Rounds.{wants_of};
ghost use Rattle.version_store.specs.Stores.{held_in};
ghost use Rattle.exec_plan.specs.Books.{IsSound};
ghost use Rattle.exec_plan.specs.Drafts.{IsDraft, all_given, drafted_after, drafted_at, drafted_with, given, link_in, nothing_drafted, number_in, picked, want_in};
ghost use Rattle.exec_plan.specs.Tasks.{edge_of, link_as, origin_of, slot_as};

use crate::inputs::{Want as Need, Wants as Needs, found};
use crate::link::Link;
use crate::task::{Slot, Task, Want};
use chain_types::{HashedObject, ObjectKey, Producer};
use dag_core::{Edge, Plan, PlanRefusal};
use digest_core::Digest;
use indexmap::IndexSet;
use protocol_spec::Held;
use std::alloc::Global;
use std::marker::Model;
use version_assign::Admission;
use version_store::Store;
use wire_bcs::{OutOfMemory, Seq};

/// A plan has fewer tasks and fewer edges than this; as many or more count as running out of memory.
pub(crate) const LIMIT: usize = 2_147_483_648;

/// The number of the task that makes a version, if these are the planned transactions.
fn number_in(numbers: &IndexSet<Digest>, maker: &Option<Producer>) -> Option<u32>
    requires { length numbers.now.keys < 2 ^ 31 }
    ensures { result ≡ number_in numbers.now.keys maker.now }
{
    match maker {
        Some(Producer::Tx(tx)) => match numbers.get_index_of(tx) {
            Some(number) => Some(number as u32),
            None => None,
        },
        Some(Producer::Opening) => None,
        None => None,
    }
}

/// Where a wanted version comes from: it is held, or the task with this number makes it, or nothing does.
fn slot_of(found: Option<&HashedObject>, maker: Option<u32>) -> Slot
    ensures { result ≡ slot_as (option_copied found.entry) maker }
{
    match found {
        Some(object) => Slot::Here(*object),
        None => match maker {
            Some(_) => Slot::Edge,
            None => Slot::Lacks,
        },
    }
}

/// The link to task `to` for a wanted version: none if the version is held, or if no task makes it.
fn link_of(
    to: u32,
    key: ObjectKey,
    found: Option<&HashedObject>,
    maker: Option<u32>,
) -> Option<Link>
    ensures { result ≡ link_as to key (option_copied found.entry) maker }
{
    match found {
        Some(_) => None,
        None => match maker {
            Some(from) => Some(Link { from, to, key }),
            None => None,
        },
    }
}

/// Who makes a version: the opening, if nobody is named.
fn origin_of(maker: Option<Producer>) -> Producer
    ensures { result ≡ origin_of maker }
{
    match maker {
        Some(producer) => producer,
        None => Producer::Opening,
    }
}

/// Adds a link, if there is one.
fn add_link(links: &mut Seq<Link>, link: Option<Link>) -> Result<(), OutOfMemory>
    ensures { OnOk result (links.new ≡ links.old ++ option_to_list link) }
{
    match link {
        Some(link) => links.push(link),
        None => Ok(()),
    }
}

/// The versions that a task wants, and the links to it.
#[derive(Drop)]
struct Wanted {
    wants: Seq<Want>,
    links: Seq<Link>,
}

/// Adds a wanted version of the next task, and the link to that task, if one carries the version.
fn add_need(
    store: &Store,
    numbers: &IndexSet<Digest>,
    need: &Need,
    wants: &mut Seq<Want>,
    links: &mut Seq<Link>,
) -> Result<(), OutOfMemory>
    requires { length numbers.now.keys < 2 ^ 31 }
    ensures wants { OnOk result (wants.new ≡ wants.old ++ want_in (held_in store.now) numbers.now.keys need.now ∷ []) }
    ensures links { OnOk result (links.new ≡ links.old ++ option_to_list (link_in (held_in store.now) numbers.now.keys need.now)) }
{
    let to = numbers.len() as u32;
    let maker = need.maker();
    let there = found(store, need);
    let number = number_in(numbers, &maker);
    wants.push(Want {
        key: need.key(),
        origin: origin_of(maker),
        slot: slot_of(there, number),
    })?;
    add_link(links, link_of(to, need.key(), there, number))
}

/// The versions that a certificate's task wants, and the links to it, if it is the next task after the planned ones.
fn wanting(
    alloc: Global,
    store: &Store,
    admission: &Admission,
    numbers: &IndexSet<Digest>,
    held: &Held,
) -> Result<Wanted, OutOfMemory>
    requires { length numbers.now.keys < 2 ^ 31 }
    ensures wants { IfOk result (λ w. w.wants ≡ map (want_in (held_in store.now) numbers.now.keys) (wants_of admission.now.admission held.now)) }
    ensures links { IfOk result (λ w. w.links ≡ filter_map (link_in (held_in store.now) numbers.now.keys) (wants_of admission.now.admission held.now)) }
{
    // An origin is named for each object that is wanted.
    let mut wants = Seq::with_room(alloc, held.cert.get().origins.len())?;
    let mut links = Seq::new(alloc);
    let mut needs = Needs::of(admission, held);
    while let Some(need) = needs.take_next() {
        add_need(store, numbers, &need, &mut wants, &mut links)?;
    }
    Ok(Wanted { wants, links })
}

/// Notes at the task that a link comes from that it hands on the link's version.
fn give(tasks: &mut Vec<Task<'_>>, link: &Link) -> Result<(), OutOfMemory>
    ensures { OnOk result (tasks.new.items ≡ given tasks.old.items link.now) }
{
    match tasks.get_mut(link.from as usize) {
        Some(task) => task.give(link.key),
        None => Ok(()),
    }
}

/// [`give`] for each of these links.
fn give_all(tasks: &mut Vec<Task<'_>>, links: &[Link]) -> Result<(), OutOfMemory>
    ensures { OnOk result (tasks.new.items ≡ all_given tasks.old.items links.now) }
{
    let mut rest = links;
    while let [link, after @ ..] = rest {
        give(tasks, link)?;
        rest = after;
    }
    Ok(())
}

/// Adds the edges of these links.
fn add_edges(edges: &mut Seq<Edge>, links: &[Link]) -> Result<(), OutOfMemory>
    ensures { OnOk result (edges.new ≡ edges.old ++ map edge_of links.now) }
{
    let mut rest = links;
    while let [link, after @ ..] = rest {
        edges.push(Edge {
            from: link.from,
            to: link.to,
        })?;
        rest = after;
    }
    Ok(())
}

/// The tasks and edges laid out so far. Contracts see these, and the planned transactions in the order of their tasks.
#[derive(Drop)]
pub(crate) struct Draft<'a> {
    numbers: IndexSet<Digest>,
    tasks: Vec<Task<'a>>,
    edges: Seq<Edge>,
}

impl<'a> Model for Draft<'a> {
    ghost use Rattle.exec_plan.specs.Drafts.{Drafted};

    ghost Value = { Drafted };

    ghost view = { λ d. record { keys = d.numbers.keys; tasks = d.tasks.items; edges = d.edges } };
}

impl<'a> Draft<'a> {
    /// The empty draft, with room for so many tasks.
    pub(crate) fn with_room(alloc: Global, tasks: usize) -> Result<Draft<'a>, OutOfMemory>
        ensures { IfOk result (λ draft. draft ≡ nothing_drafted) }
    {
        Ok(Draft {
            numbers: IndexSet::with_capacity(alloc, tasks)?,
            tasks: Vec::with_capacity(alloc, tasks)?,
            edges: Seq::new(alloc),
        })
    }

    /// Adds the task of one more certificate, and the edges to it. More than 2^31 tasks count as out of memory.
    fn add(
        &mut self,
        alloc: Global,
        store: &Store,
        admission: &Admission,
        held: &'a Held,
    ) -> Result<(), OutOfMemory>
        requires { IsSound held.now }
        ensures { OnOk result (self.new ≡ drafted_with (held_in store.now) (wants_of admission.now.admission held.now) self.old held.now) }
    {
        if self.numbers.len() >= LIMIT {
            return Err(OutOfMemory);
        }
        let Wanted { wants, links } = wanting(alloc, store, admission, &self.numbers, held)?;
        give_all(&mut self.tasks, links.as_slice())?;
        add_edges(&mut self.edges, links.as_slice())?;
        self.tasks.push(Task::bare(alloc, held, wants))?;
        self.numbers.insert(held.digest)?;
        Ok(())
    }
}

impl<'a> Draft<'a> {
    /// The plan. 2^31 or more tasks or edges count as running out of memory.
    pub(crate) fn into_plan(self, alloc: Global) -> Result<Plan<Task<'a>>, OutOfMemory>
        requires { IsDraft self }
        ensures jobs { IfOk result (λ plan. plan.jobs ≡ self.entry.tasks) }
        ensures edges { IfOk result (λ plan. plan.edges ≡ self.entry.edges) }
    {
        if self.tasks.len() >= LIMIT || self.edges.len() >= LIMIT as u64 {
            drop(self);
            return Err(OutOfMemory);
        }
        let Draft {
            numbers,
            tasks,
            edges,
        } = self;
        drop(numbers);
        match Plan::new(alloc, Seq::from_vec(tasks), edges) {
            Ok(plan) => Ok(plan),
            Err(PlanRefusal::OutOfMemory) => Err(OutOfMemory),
            Err(PlanRefusal::BadEdge(_)) => unreachable!(),
        }
    }
}

/// Adds the task of the certificate at a place, if there is one.
#[tactic(auto, using(protocol_spec::proofs::ListLemmas::each_at))]
fn add_at<'a>(
    draft: &mut Draft<'a>,
    alloc: Global,
    store: &Store,
    admission: &Admission,
    held: &'a [Held],
    place: usize,
) -> Result<(), OutOfMemory>
    requires { Each IsSound held.now }
    ensures { OnOk result (draft.new ≡ drafted_at (held_in store.now) admission.now.admission draft.old (slice_get held.now place)) }
{
    match held.get(place) {
        Some(held) => draft.add(alloc, store, admission, held),
        None => Ok(()),
    }
}

/// The tasks of the certificates at these places, and the edges between them.
pub(crate) fn draft_all<'a>(
    alloc: Global,
    store: &Store,
    admission: &Admission,
    held: &'a [Held],
    places: &[usize],
) -> Result<Draft<'a>, OutOfMemory>
    requires { Each IsSound held.now }
    ensures { IfOk result (λ draft. draft ≡ drafted_after (held_in store.now) admission.now.admission nothing_drafted (picked held.now places.now)) }
{
    let mut draft = Draft::with_room(alloc, places.len())?;
    let mut rest = places;
    while let [place, after @ ..] = rest {
        let Ok(()) = add_at(&mut draft, alloc, store, admission, held, *place) else {
            drop(draft);
            return Err(OutOfMemory);
        };
        rest = after;
    }
    Ok(draft)
}
