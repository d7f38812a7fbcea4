//! The texts that end a line, after its head.

ghost use Rattle.std.specs.Prelude.{◌∷◌, [], ◌++◌, decimal, codes};
ghost use Rattle.std.specs.List.{concat};
ghost use Rattle.report_text.specs.Text.{only_if, vote_text, cert_text, send_text, order_text, order_end_text, see_text, entry_text, run_text, close_text, end_text, turn_text, restart_text, show_text, ack_text, final_text, owner_text, content_text};
ghost use Rattle.wire_bcs.specs.Wrote.{Writes};

use crate::lines::{
    AckText, CertText, CloseText, ContentText, EndText, EntryText, FinalText, OrderEndText,
    OrderText, OwnerText, RestartText, RunText, SeeText, SendText, ShowText, TurnText, VoteText,
};
use crate::pieces::{
    Piece, print, print_fork, print_halted, print_numbers, print_only_if, print_origins,
    print_part, print_taken, print_two_names, print_two_numbers, print_with_name,
    print_with_number,
};
use wire_bcs::{OutOfMemory, Seq};

#[tactic(auto, using(crate::proofs::Appends::fronts), unfolding(crate::specs::Text::vote_text))]
pub(crate) fn print_vote_text(out: &mut Seq<u8>, text: &VoteText) -> Result<(), OutOfMemory>
    ensures { Writes out.old out.new (vote_text text.now) result }
{
    match text {
        VoteText::Voted { origins } => {
            out.extend(b"voted")?;
            print_origins(out, origins)
        }
        VoteText::Again { origins } => {
            out.extend(b"again")?;
            print_origins(out, origins)
        }
        VoteText::Halted { first, second } => print_halted(out, first, second),
        VoteText::Malformed { at, why } => {
            print_two_numbers(out, b"malformed at ", *at, b" why ", *why)
        }
        VoteText::WrongEpoch { had, want } => {
            print_two_numbers(out, b"wrong epoch had ", *had, b" want ", *want)
        }
        VoteText::Closed => out.extend(b"closed"),
        VoteText::Invalid { number } => print_with_number(out, b"invalid ", *number),
        VoteText::Unsealed => out.extend(b"unsealed"),
        VoteText::Absent { key } => print_with_name(out, b"absent ", key),
        VoteText::Consumed { key, by } => print_two_names(out, b"consumed ", key, b" by ", by),
        VoteText::WrongDigest { key } => print_with_name(out, b"wrong digest ", key),
        VoteText::WrongOwner { key } => print_with_name(out, b"wrong owner ", key),
        VoteText::WrongKind { key } => print_with_name(out, b"wrong kind ", key),
        VoteText::PoorGas { had, want } => {
            print_two_numbers(out, b"poor gas had ", *had, b" want ", *want)
        }
        VoteText::Locked { key, by } => print_two_names(out, b"locked ", key, b" by ", by),
        VoteText::Down => out.extend(b"down"),
        VoteText::Full => out.extend(b"full"),
        VoteText::Stopped => out.extend(b"stopped"),
    }
}

#[tactic(auto, using(crate::proofs::Appends::fronts), unfolding(crate::specs::Text::cert_text))]
pub(crate) fn print_cert_text(out: &mut Seq<u8>, text: &CertText) -> Result<(), OutOfMemory>
    ensures { Writes out.old out.new (cert_text text.now) result }
{
    match text {
        CertText::NoVote { member } => print_with_number(out, b"no vote of ", *member),
        CertText::Short { weight, total } => {
            print_two_numbers(out, b"short ", *weight, b" of ", *total)
        }
        CertText::Differ { a, b } => print_two_numbers(out, b"differ ", *a, b" ", *b),
        CertText::Formed { members } => {
            out.extend(b"formed by")?;
            print_numbers(out, members)
        }
    }
}

#[tactic(auto, using(crate::proofs::Appends::fronts), unfolding(crate::specs::Text::send_text))]
pub(crate) fn print_send_text(out: &mut Seq<u8>, text: &SendText) -> Result<(), OutOfMemory>
    ensures { Writes out.old out.new (send_text text.now) result }
{
    match text {
        SendText::NoCertificate => out.extend(b"no certificate"),
        SendText::Held => out.extend(b"held"),
        SendText::Again => out.extend(b"again"),
        SendText::Halted { first, second } => print_halted(out, first, second),
        SendText::Malformed { at, why } => {
            print_two_numbers(out, b"malformed at ", *at, b" why ", *why)
        }
        SendText::WrongEpoch { had, want } => {
            print_two_numbers(out, b"wrong epoch had ", *had, b" want ", *want)
        }
        SendText::Closed => out.extend(b"closed"),
        SendText::Shape { number } => print_with_number(out, b"shape ", *number),
        SendText::Order => out.extend(b"order"),
        SendText::ShortStake { weight, total } => {
            print_two_numbers(out, b"short stake ", *weight, b" of ", *total)
        }
        SendText::BadSeal { member } => print_with_number(out, b"bad seal ", *member),
        SendText::Fork { key, first, second } => print_fork(out, key, first, second),
        SendText::Down => out.extend(b"down"),
        SendText::Full => out.extend(b"full"),
        SendText::Stopped => out.extend(b"stopped"),
    }
}

#[tactic(auto, using(crate::proofs::Appends::fronts), unfolding(crate::specs::Text::order_text))]
pub(crate) fn print_order_text(out: &mut Seq<u8>, text: &OrderText) -> Result<(), OutOfMemory>
    ensures { Writes out.old out.new (order_text text.now) result }
{
    match text {
        OrderText::Entry { entry } => print_with_number(out, b"entry ", *entry),
        OrderText::NoCertificate => out.extend(b"no certificate"),
        OrderText::NotTaken => out.extend(b"not taken"),
    }
}

#[tactic(auto, using(crate::proofs::Appends::fronts), unfolding(crate::specs::Text::order_end_text))]
pub(crate) fn print_order_end_text(
    out: &mut Seq<u8>,
    text: &OrderEndText,
) -> Result<(), OutOfMemory>
    ensures { Writes out.old out.new (order_end_text text.now) result }
{
    match text {
        OrderEndText::Entry { entry } => print_with_number(out, b"entry ", *entry),
        OrderEndText::NoStatement => out.extend(b"no statement"),
        OrderEndText::NotTaken => out.extend(b"not taken"),
    }
}

#[tactic(auto, using(crate::proofs::Appends::fronts), unfolding(crate::specs::Text::see_text))]
pub(crate) fn print_see_text(out: &mut Seq<u8>, text: &SeeText) -> Result<(), OutOfMemory>
    ensures { Writes out.old out.new (see_text text.now) result }
{
    match text {
        SeeText::Nothing => out.extend(b"nothing"),
        SeeText::Halted { first, second } => print_halted(out, first, second),
        SeeText::Down => out.extend(b"down"),
        SeeText::Full => out.extend(b"full"),
    }
}

/// Prints the text for an End of a member: the weight of the Ends so far, the committee's stake, and whether the epoch
/// ended.
fn print_end_of(
    out: &mut Seq<u8>,
    member: u64,
    weight: u64,
    total: u64,
    ended: bool,
) -> Result<(), OutOfMemory>
    ensures { Writes out.old out.new ((concat (codes "end of " ∷ decimal member ∷ codes " weight " ∷ decimal weight ∷ codes " of " ∷ decimal total ∷ []) ++ only_if ended (codes ", epoch ended"))) result }
{
    print(
        out,
        &[
            Piece::Text(b"end of "),
            Piece::Number(member),
            Piece::Text(b" weight "),
            Piece::Number(weight),
            Piece::Text(b" of "),
            Piece::Number(total),
        ],
    )?;
    print_only_if(out, ended, b", epoch ended")
}

#[tactic(auto, using(crate::proofs::Appends::fronts), unfolding(crate::specs::Text::entry_text))]
pub(crate) fn print_entry_text(out: &mut Seq<u8>, text: &EntryText) -> Result<(), OutOfMemory>
    ensures { Writes out.old out.new (entry_text text.now) result }
{
    match text {
        EntryText::Taken { admitted, dropped } => print_taken(out, admitted, dropped),
        EntryText::Pending { tx, origin } => print_two_names(out, b"pending ", tx, b" on ", origin),
        EntryText::Deferred { tx, object } => {
            print_two_names(out, b"deferred ", tx, b" on ", object)
        }
        EntryText::Commit { admitted, dropped } => {
            out.extend(b"commit")?;
            print_part(out, b" admitted", admitted)?;
            print_part(out, b" dropped", dropped)
        }
        EntryText::EndOf {
            member,
            weight,
            total,
            ended,
        } => print_end_of(out, *member, *weight, *total, *ended),
        EntryText::IgnoredMalformed => out.extend(b"ignored malformed"),
        EntryText::IgnoredStatement => out.extend(b"ignored statement"),
        EntryText::IgnoredEpoch => out.extend(b"ignored epoch"),
        EntryText::IgnoredCertificate => out.extend(b"ignored certificate"),
        EntryText::IgnoredSeal => out.extend(b"ignored seal"),
        EntryText::IgnoredRepeat => out.extend(b"ignored repeat"),
        EntryText::Fork { key, first, second } => print_fork(out, key, first, second),
        EntryText::Stopped => out.extend(b"stopped"),
    }
}

#[tactic(auto, using(crate::proofs::Appends::fronts), unfolding(crate::specs::Text::run_text))]
pub(crate) fn print_run_text(out: &mut Seq<u8>, text: &RunText) -> Result<(), OutOfMemory>
    ensures { Writes out.old out.new (run_text text.now) result }
{
    match text {
        RunText::Executed { count } => print_with_number(out, b"executed ", *count),
        RunText::Halted { first, second } => print_halted(out, first, second),
        RunText::Down => out.extend(b"down"),
        RunText::Full => out.extend(b"full"),
        RunText::Stopped => out.extend(b"stopped"),
    }
}

#[tactic(auto, using(crate::proofs::Appends::fronts), unfolding(crate::specs::Text::close_text))]
pub(crate) fn print_close_text(out: &mut Seq<u8>, text: &CloseText) -> Result<(), OutOfMemory>
    ensures { Writes out.old out.new (close_text text.now) result }
{
    match text {
        CloseText::Closed => out.extend(b"closed"),
        CloseText::Again => out.extend(b"again"),
        CloseText::Halted { first, second } => print_halted(out, first, second),
        CloseText::Down => out.extend(b"down"),
        CloseText::Full => out.extend(b"full"),
        CloseText::Stopped => out.extend(b"stopped"),
    }
}

#[tactic(auto, using(crate::proofs::Appends::fronts), unfolding(crate::specs::Text::end_text))]
pub(crate) fn print_end_text(out: &mut Seq<u8>, text: &EndText) -> Result<(), OutOfMemory>
    ensures { Writes out.old out.new (end_text text.now) result }
{
    match text {
        EndText::Said => out.extend(b"said"),
        EndText::NotClosed => out.extend(b"not closed"),
        EndText::Waits { tx } => print_with_name(out, b"waits ", tx),
        EndText::Halted { first, second } => print_halted(out, first, second),
        EndText::Down => out.extend(b"down"),
    }
}

#[tactic(auto, using(crate::proofs::Appends::fronts), unfolding(crate::specs::Text::turn_text))]
pub(crate) fn print_turn_text(out: &mut Seq<u8>, text: &TurnText) -> Result<(), OutOfMemory>
    ensures { Writes out.old out.new (turn_text text.now) result }
{
    match text {
        TurnText::Turned { epoch, reverted } => {
            print_two_numbers(out, b"epoch ", *epoch, b" reverted ", *reverted)
        }
        TurnText::NotEnded => out.extend(b"not ended"),
        TurnText::Waits { tx } => print_with_name(out, b"waits ", tx),
        TurnText::Halted { first, second } => print_halted(out, first, second),
        TurnText::Down => out.extend(b"down"),
        TurnText::Full => out.extend(b"full"),
        TurnText::Stopped => out.extend(b"stopped"),
    }
}

#[tactic(auto, using(crate::proofs::Appends::fronts), unfolding(crate::specs::Text::restart_text))]
pub(crate) fn print_restart_text(out: &mut Seq<u8>, text: &RestartText) -> Result<(), OutOfMemory>
    ensures { Writes out.old out.new (restart_text text.now) result }
{
    match text {
        RestartText::Records { count } => print_with_number(out, b"records ", *count),
        RestartText::BadRecord { place } => print_with_number(out, b"bad record ", *place),
    }
}

#[tactic(auto, using(crate::proofs::Appends::fronts), unfolding(crate::specs::Text::show_text))]
pub(crate) fn print_show_text(out: &mut Seq<u8>, text: &ShowText) -> Result<(), OutOfMemory>
    ensures { Writes out.old out.new (show_text text.now) result }
{
    match text {
        ShowText::Shown { epoch, objects } => {
            print_two_numbers(out, b"epoch ", *epoch, b" objects ", *objects)
        }
        ShowText::Down => out.extend(b"down"),
    }
}

#[tactic(auto, using(crate::proofs::Appends::fronts), unfolding(crate::specs::Text::ack_text))]
pub(crate) fn print_ack_text(out: &mut Seq<u8>, text: &AckText) -> Result<(), OutOfMemory>
    ensures { Writes out.old out.new (ack_text text.now) result }
{
    match text {
        AckText::Said => out.extend(b"said"),
        AckText::NotExecuted => out.extend(b"not executed"),
        AckText::Halted { first, second } => print_halted(out, first, second),
        AckText::Down => out.extend(b"down"),
    }
}

#[tactic(auto, using(crate::proofs::Appends::fronts), unfolding(crate::specs::Text::final_text))]
pub(crate) fn print_final_text(out: &mut Seq<u8>, text: &FinalText) -> Result<(), OutOfMemory>
    ensures { Writes out.old out.new (final_text text.now) result }
{
    match text {
        FinalText::NoAck { member } => print_with_number(out, b"no ack of ", *member),
        FinalText::Short { weight, total } => {
            print_two_numbers(out, b"short ", *weight, b" of ", *total)
        }
        FinalText::Differ { a, b } => print_two_numbers(out, b"differ ", *a, b" ", *b),
        FinalText::FinalBy { members } => {
            out.extend(b"final by")?;
            print_numbers(out, members)
        }
    }
}

#[tactic(auto, using(crate::proofs::Appends::fronts), unfolding(crate::specs::Text::owner_text))]
pub(crate) fn print_owner_text(out: &mut Seq<u8>, text: &OwnerText) -> Result<(), OutOfMemory>
    ensures { Writes out.old out.new (owner_text text.now) result }
{
    match text {
        OwnerText::Address { name } => print(out, &[Piece::Name(name)]),
        OwnerText::Shared { initial } => print_with_number(out, b"shared ", *initial),
        OwnerText::Frozen => out.extend(b"frozen"),
    }
}

#[tactic(auto, using(crate::proofs::Appends::fronts), unfolding(crate::specs::Text::content_text))]
pub(crate) fn print_content_text(out: &mut Seq<u8>, text: &ContentText) -> Result<(), OutOfMemory>
    ensures { Writes out.old out.new (content_text text.now) result }
{
    match text {
        ContentText::Coin { currency, balance } => {
            print_two_numbers(out, b"coin ", *currency, b" ", *balance)
        }
        ContentText::Cap { currency, supply } => {
            print_two_numbers(out, b"cap ", *currency, b" ", *supply)
        }
        ContentText::Counter { value } => print_with_number(out, b"counter ", *value),
        ContentText::Vault { currency, balance } => {
            print_two_numbers(out, b"vault ", *currency, b" ", *balance)
        }
        ContentText::Key { object } => print_with_name(out, b"key ", object),
        ContentText::Limit { value } => print_with_number(out, b"limit ", *value),
    }
}
