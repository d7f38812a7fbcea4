//! How commands take their arguments.

ghost use Rattle.std.specs.Prelude.{◌≡◌, ◌≤◌, ◌<◌, ◌∷◌, ◌++◌, [], IfOk, OnOk, IsFalse, length, map};
ghost use Rattle.protocol_spec.specs.Block.Natives.{parameters_of};
ghost use Rattle.protocol_spec.specs.Block.Commands.{all_by, changes_value, is_bad_pure, is_right_kind, need_of, needs_of, paired, takes_value};
ghost use Rattle.protocol_spec.specs.Chain.Shape.{arguments_of, is_no_native};
ghost use Rattle.ptb_run.specs.Values.{value_of};
ghost use Rattle.protocol_spec.specs.Chain.Tests.{kind_eq};
ghost use Rattle.ptb_run.specs.Needs.{all_after, is_item_right, listed, need_meant, need_now, pairs_after, wanted_of};

use crate::value::Value;
use chain_types::{Argument, Command, Kind, LAST_NATIVE};
use native_calls::contents::kind_of;
use native_calls::mode;
use protocol_spec::Mode;
use std::alloc::Global;
use wire_bcs::{OutOfMemory, Seq};

/// How a command takes an argument.
#[derive(Clone, Copy)]
pub(crate) enum Need {
    Number,
    Address,
    ByValue(Option<Kind>),
    ByMut(Kind),
    ByRef(Kind),
    Coins,
}

/// An argument, with how the command takes it.
#[derive(Clone, Copy)]
pub(crate) struct Wanted {
    pub(crate) argument: Argument,
    pub(crate) need: Need,
}

/// How a native's mode takes an argument.
fn need_of(mode: Mode) -> Need
    ensures { result ≡ need_now mode }
{
    match mode {
        Mode::Number => Need::Number,
        Mode::ByValue(kind) => Need::ByValue(kind),
        Mode::ByMut(kind) => Need::ByMut(kind),
        Mode::ByRef(kind) => Need::ByRef(kind),
        Mode::Coins => Need::Coins,
    }
}

/// Whether pure bytes are not as long as the number or the address that is needed.
#[tactic(auto, using(crate::proofs::ByNeed::no_pure_object, crate::proofs::ByNeed::no_pure_vector))]
pub(crate) fn is_bad_pure(need: Need, value: &Value) -> bool
    ensures { result ≡ is_bad_pure (need_meant need) (value_of value.now) }
{
    match value {
        Value::Pure(bytes) => match need {
            Need::Number => bytes.len() != 8,
            Need::Address => bytes.len() != 32,
            Need::ByValue(_) | Need::ByMut(_) | Need::ByRef(_) | Need::Coins => false,
        },
        Value::Object(_) | Value::Vector { .. } => false,
    }
}

/// Whether two kinds are equal.
fn is_kind(a: Kind, b: Kind) -> bool
    ensures { result ≡ kind_eq a b }
{
    a == b
}

/// Whether an item is of the kind that is needed.
fn is_item_right(need: Need, kind: Kind) -> bool
    ensures { result ≡ is_item_right (need_meant need) kind }
{
    match need {
        Need::ByValue(None) => true,
        Need::ByValue(Some(wanted)) => is_kind(kind, wanted),
        Need::ByMut(wanted) => is_kind(kind, wanted),
        Need::ByRef(wanted) => is_kind(kind, wanted),
        Need::Number | Need::Address | Need::Coins => false,
    }
}

/// Whether the value is bytes, an object or a vector, as is needed, and of the kind that is needed.
#[tactic(auto, using(crate::proofs::ByNeed::right_item, crate::proofs::ByNeed::right_vector, crate::proofs::ByNeed::right_pure))]
pub(crate) fn is_right_kind(need: Need, value: &Value) -> bool
    ensures { result ≡ is_right_kind (need_meant need) (value_of value.now) }
{
    match value {
        Value::Pure(_) => match need {
            Need::Number | Need::Address => true,
            Need::ByValue(_) | Need::ByMut(_) | Need::ByRef(_) | Need::Coins => false,
        },
        Value::Object(item) => is_item_right(need, kind_of(&item.content)),
        Value::Vector { kind, .. } => match need {
            Need::Coins => is_kind(*kind, Kind::Coin),
            Need::Number | Need::Address | Need::ByValue(_) | Need::ByMut(_) | Need::ByRef(_) =>
                false,
        },
    }
}

/// Whether the value leaves its place.
pub(crate) fn takes_value(need: Need) -> bool
    ensures { result ≡ takes_value (need_meant need) }
{
    match need {
        Need::ByValue(_) | Need::Coins => true,
        Need::Number | Need::Address | Need::ByMut(_) | Need::ByRef(_) => false,
    }
}

/// Whether the value is changed in its place.
pub(crate) fn changes_value(need: Need) -> bool
    ensures { result ≡ changes_value (need_meant need) }
{
    match need {
        Need::ByMut(_) => true,
        Need::Number | Need::Address | Need::ByValue(_) | Need::ByRef(_) | Need::Coins => false,
    }
}

/// The arguments of a command, each with how it is taken. Up to three take no memory.
#[derive(Drop)]
pub(crate) enum Arguments {
    One([Wanted; 1]),
    Two([Wanted; 2]),
    Three([Wanted; 3]),
    Many(Seq<Wanted>),
}

impl Arguments {
    /// The arguments in order, lent.
    pub(crate) fn as_slice(&self) -> &[Wanted]
        ensures { result.now ≡ listed self.now }
    {
        match self {
            Arguments::One(wanted) => wanted,
            Arguments::Two(wanted) => wanted,
            Arguments::Three(wanted) => wanted,
            Arguments::Many(wanted) => wanted.as_slice(),
        }
    }
}

/// Adds arguments that are all taken in one way.
fn add_all(wanted: &mut Seq<Wanted>, need: Need, args: &[Argument]) -> Result<(), OutOfMemory>
    ensures { OnOk result (wanted.new ≡ all_after wanted.old need args.now) }
{
    let mut rest = args;
    while let [argument, after @ ..] = rest {
        wanted.push(Wanted {
            argument: *argument,
            need,
        })?;
        rest = after;
    }
    Ok(())
}

/// Pairs any number of arguments with the modes of a native, in a list that takes memory.
fn pair_each(alloc: Global, native: u8, args: &[Argument]) -> Result<Seq<Wanted>, OutOfMemory>
    requires known { native ≤ LAST_NATIVE }
    requires few { length args.now ≤ 512 }
    ensures { IfOk result (λ wanted. wanted ≡ pairs_after [] native 0 args.now) }
{
    let mut wanted = Seq::new(alloc);
    let mut place = 0;
    let mut rest = args;
    while let [argument, after @ ..] = rest {
        let Some(mode) = mode(native, place) else {
            return Ok(wanted);
        };
        wanted.push(Wanted {
            argument: *argument,
            need: need_of(mode),
        })?;
        place += 1;
        rest = after;
    }
    Ok(wanted)
}

/// [`pair_each`] as [`Arguments`].
fn pair_many(alloc: Global, native: u8, args: &[Argument]) -> Result<Arguments, OutOfMemory>
    requires known { native ≤ LAST_NATIVE }
    requires few { length args.now ≤ 512 }
    ensures { IfOk result (λ needs. listed needs ≡ pairs_after [] native 0 args.now) }
{
    Ok(Arguments::Many(pair_each(alloc, native, args)?))
}

/// An argument with the mode of a native.
fn in_mode(argument: Argument, mode: Mode) -> Wanted
    ensures { result ≡ record { argument = argument; need = need_now mode } }
{
    Wanted {
        argument,
        need: need_of(mode),
    }
}

/// Pairs arguments with the modes of a native; up to three take no memory.
fn paired(alloc: Global, native: u8, args: &[Argument]) -> Result<Arguments, OutOfMemory>
    requires known { native ≤ LAST_NATIVE }
    requires few { length args.now ≤ 512 }
    ensures { IfOk result (λ needs. listed needs ≡ pairs_after [] native 0 args.now) }
{
    let Some(first) = mode(native, 0) else {
        return pair_many(alloc, native, args);
    };
    if let [a] = args {
        return Ok(Arguments::One([in_mode(*a, first)]));
    }
    let Some(second) = mode(native, 1) else {
        return pair_many(alloc, native, args);
    };
    if let [a, b] = args {
        return Ok(Arguments::Two([in_mode(*a, first), in_mode(*b, second)]));
    }
    let Some(third) = mode(native, 2) else {
        return pair_many(alloc, native, args);
    };
    if let [a, b, c] = args {
        return Ok(Arguments::Three([in_mode(*a, first), in_mode(*b, second), in_mode(*c, third)]));
    }
    pair_many(alloc, native, args)
}

/// [`Arguments`] that are all taken in one way: MakeVec's.
fn alone(alloc: Global, need: Need, args: &[Argument]) -> Result<Arguments, OutOfMemory>
    ensures { IfOk result (λ needs. listed needs ≡ all_after [] need args.now) }
{
    match args {
        [a] => Ok(Arguments::One([Wanted { argument: *a, need }])),
        [a, b] => Ok(Arguments::Two([
            Wanted { argument: *a, need },
            Wanted { argument: *b, need },
        ])),
        _ => {
            let mut wanted = Seq::with_room(alloc, args.len() as u64)?;
            add_all(&mut wanted, need, args)?;
            Ok(Arguments::Many(wanted))
        }
    }
}

/// One argument, and then arguments that are all taken in another way: Split's and Merge's.
fn headed(
    alloc: Global,
    first: Wanted,
    need: Need,
    args: &[Argument],
) -> Result<Arguments, OutOfMemory>
    ensures { IfOk result (λ needs. listed needs ≡ all_after (first ∷ []) need args.now) }
{
    match args {
        [a] => Ok(Arguments::Two([first, Wanted { argument: *a, need }])),
        [a, b] => Ok(Arguments::Three([
            first,
            Wanted { argument: *a, need },
            Wanted { argument: *b, need },
        ])),
        _ => {
            let mut wanted = Seq::with_room(alloc, (args.len() as u64).saturating_add(1))?;
            wanted.push(first)?;
            add_all(&mut wanted, need, args)?;
            Ok(Arguments::Many(wanted))
        }
    }
}

/// Arguments that are all taken in one way, and then one in another way: Transfer's.
fn tailed(
    alloc: Global,
    need: Need,
    args: &[Argument],
    last: Wanted,
) -> Result<Arguments, OutOfMemory>
    ensures { IfOk result (λ needs. listed needs ≡ all_after [] need args.now ++ last ∷ []) }
{
    match args {
        [a] => Ok(Arguments::Two([Wanted { argument: *a, need }, last])),
        [a, b] => Ok(Arguments::Three([
            Wanted { argument: *a, need },
            Wanted { argument: *b, need },
            last,
        ])),
        _ => {
            let mut wanted = Seq::with_room(alloc, (args.len() as u64).saturating_add(1))?;
            add_all(&mut wanted, need, args)?;
            wanted.push(last)?;
            Ok(Arguments::Many(wanted))
        }
    }
}

/// The arguments of a command, each with how it is taken.
#[tactic(auto, using(crate::proofs::Gathered::all_behind, crate::proofs::Gathered::all_before, crate::proofs::Gathered::all_alone, crate::proofs::Gathered::pairs_are))]
pub(crate) fn needs_of(alloc: Global, command: &Command) -> Result<Arguments, OutOfMemory>
    requires known { IsFalse (is_no_native command.now) }
    requires few { length (arguments_of command.now) ≤ 512 }
    ensures { IfOk result (λ needs. map wanted_of (listed needs) ≡ needs_of command.now) }
{
    let changed = Need::ByMut(Kind::Coin);
    match command {
        Command::Call { native, args } => paired(alloc, *native, args.as_slice()),
        Command::Transfer { values, to } => {
            let last = Wanted {
                argument: *to,
                need: Need::Address,
            };
            tailed(alloc, Need::ByValue(None), values.as_slice(), last)
        }
        Command::Split { coin, amounts } => {
            let first = Wanted {
                argument: *coin,
                need: changed,
            };
            headed(alloc, first, Need::Number, amounts.as_slice())
        }
        Command::Merge { target, sources } => {
            let first = Wanted {
                argument: *target,
                need: changed,
            };
            let need = Need::ByValue(Some(Kind::Coin));
            headed(alloc, first, need, sources.as_slice())
        }
        Command::MakeVec { kind, values } => {
            alone(alloc, Need::ByValue(Some(*kind)), values.as_slice())
        }
    }
}
