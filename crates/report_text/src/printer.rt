//! The printer of a report's lines.

ghost use Rattle.std.specs.Prelude.{◌∷◌, [], IsTrue, decimal, codes};
ghost use Rattle.std.specs.List.{concat};
ghost use Rattle.report_text.specs.declared.lines.Line.TheVariants as line_of;
ghost use Rattle.report_text.specs.Families.{is_vote_line, is_certificate_line, is_sequence_line, is_run_line, is_outcome_line, is_turn_line, is_member_line, is_total_line};
ghost use Rattle.report_text.specs.Text.{body_of, text_of};
ghost use Rattle.wire_bcs.specs.Wrote.{Writes};

use crate::lines::Line;
use crate::pieces::{
    Piece, print, print_kept, print_member_head, print_names, print_only_if, print_origins,
    print_pair_head, print_two_names, print_two_numbers, print_tx_head, print_with_name,
    print_with_number,
};
use crate::texts::{
    print_ack_text, print_cert_text, print_close_text, print_content_text, print_end_text,
    print_entry_text, print_final_text, print_order_end_text, print_order_text, print_owner_text,
    print_restart_text, print_run_text, print_see_text, print_send_text, print_show_text,
    print_turn_text, print_vote_text,
};
use wire_bcs::{OutOfMemory, Seq};

/// Prints a line on a transaction that is made or voted for.
#[tactic(auto, unfolding(crate::specs::Text::body_of))]
fn print_vote_line(out: &mut Seq<u8>, line: &Line) -> Result<(), OutOfMemory>
    requires { IsTrue (is_vote_line line.now) }
    ensures { Writes out.old out.new (body_of line.now) result }
{
    match line {
        Line::TxMade { tx } => print_tx_head(out, b"tx ", tx, b": made"),
        Line::Vote { member, tx, text } => {
            print_pair_head(out, b"vote ", *member, tx, b": ")?;
            print_vote_text(out, text)
        }
        Line::Fvote {
            member,
            tx,
            origins,
        } => {
            print_pair_head(out, b"fvote ", *member, tx, b": voted")?;
            print_origins(out, origins)
        }
        Line::RawVote { member, text } => {
            print_member_head(out, b"raw ", *member, b" vote: ")?;
            print_vote_text(out, text)
        }
        _ => unreachable!(),
    }
}

/// Prints a line on a certificate, or on acknowledgements.
#[tactic(auto, unfolding(crate::specs::Text::body_of))]
fn print_certificate_line(out: &mut Seq<u8>, line: &Line) -> Result<(), OutOfMemory>
    requires { IsTrue (is_certificate_line line.now) }
    ensures { Writes out.old out.new (body_of line.now) result }
{
    match line {
        Line::Cert { tx, text } => {
            print_tx_head(out, b"cert ", tx, b": ")?;
            print_cert_text(out, text)
        }
        Line::Send { member, tx, text } => {
            print_pair_head(out, b"send ", *member, tx, b": ")?;
            print_send_text(out, text)
        }
        Line::RawHold { member, text } => {
            print_member_head(out, b"raw ", *member, b" hold: ")?;
            print_send_text(out, text)
        }
        Line::Ack { member, tx, text } => {
            print_pair_head(out, b"ack ", *member, tx, b": ")?;
            print_ack_text(out, text)
        }
        Line::Final { tx, text } => {
            print_tx_head(out, b"final ", tx, b": ")?;
            print_final_text(out, text)
        }
        _ => unreachable!(),
    }
}

/// The head of a line on a member's entry.
fn print_entry_head(out: &mut Seq<u8>, member: u64, entry: u64) -> Result<(), OutOfMemory>
    ensures { Writes out.old out.new (concat (codes "see " ∷ decimal member ∷ codes " entry " ∷ decimal entry ∷ codes ": " ∷ [])) result }
{
    print(
        out,
        &[
            Piece::Text(b"see "),
            Piece::Number(member),
            Piece::Text(b" entry "),
            Piece::Number(entry),
            Piece::Text(b": "),
        ],
    )
}

/// Prints a line on the sequence.
#[tactic(auto, unfolding(crate::specs::Text::body_of))]
fn print_sequence_line(out: &mut Seq<u8>, line: &Line) -> Result<(), OutOfMemory>
    requires { IsTrue (is_sequence_line line.now) }
    ensures { Writes out.old out.new (body_of line.now) result }
{
    match line {
        Line::Order { tx, text } => {
            print_tx_head(out, b"order ", tx, b": ")?;
            print_order_text(out, text)
        }
        Line::OrderEnd { member, text } => {
            print_member_head(out, b"order end ", *member, b": ")?;
            print_order_end_text(out, text)
        }
        Line::OrderCommit { entry } => print_with_number(out, b"order commit: entry ", *entry),
        Line::See { member, text } => {
            print_member_head(out, b"see ", *member, b": ")?;
            print_see_text(out, text)
        }
        Line::SeeEntry {
            member,
            entry,
            text,
        } => {
            print_entry_head(out, *member, *entry)?;
            print_entry_text(out, text)
        }
        _ => unreachable!(),
    }
}

/// Prints a line on what a member runs, if no transaction was executed.
#[tactic(auto, unfolding(crate::specs::Text::body_of))]
fn print_run_line(out: &mut Seq<u8>, line: &Line) -> Result<(), OutOfMemory>
    requires { IsTrue (is_run_line line.now) }
    ensures { Writes out.old out.new (body_of line.now) result }
{
    match line {
        Line::Run { member, text } => {
            print_member_head(out, b"run ", *member, b": ")?;
            print_run_text(out, text)
        }
        Line::Absent { tx, key } => print_two_names(out, b"  ", tx, b" absent ", key),
        Line::Unfit { tx } => print_tx_head(out, b"  ", tx, b" unfit"),
        Line::Checkpoint { number, txs, last } => {
            print_member_head(out, b"  checkpoint ", *number, b":")?;
            print_names(out, txs)?;
            print_only_if(out, *last, b" last")
        }
        _ => unreachable!(),
    }
}

/// Prints the line of an execution that failed.
#[tactic(auto, unfolding(crate::specs::Text::body_of))]
fn print_failed(
    out: &mut Seq<u8>,
    tx: &Seq<u8>,
    command: u64,
    cause: u64,
    version: u64,
    gas: u64,
) -> Result<(), OutOfMemory>
    ensures { Writes out.old out.new (body_of (line_of.Failed tx.now command cause version gas)) result }
{
    print(
        out,
        &[
            Piece::Text(b"  "),
            Piece::Name(tx),
            Piece::Text(b" failed at "),
            Piece::Number(command),
            Piece::Text(b" cause "),
            Piece::Number(cause),
            Piece::Text(b" v"),
            Piece::Number(version),
            Piece::Text(b" gas "),
            Piece::Number(gas),
        ],
    )
}

/// Prints the line of an execution that a native aborted.
#[tactic(auto, unfolding(crate::specs::Text::body_of))]
fn print_aborted(
    out: &mut Seq<u8>,
    tx: &Seq<u8>,
    command: u64,
    code: u64,
    version: u64,
    gas: u64,
) -> Result<(), OutOfMemory>
    ensures { Writes out.old out.new (body_of (line_of.Aborted tx.now command code version gas)) result }
{
    print(
        out,
        &[
            Piece::Text(b"  "),
            Piece::Name(tx),
            Piece::Text(b" aborted at "),
            Piece::Number(command),
            Piece::Text(b" code "),
            Piece::Number(code),
            Piece::Text(b" v"),
            Piece::Number(version),
            Piece::Text(b" gas "),
            Piece::Number(gas),
        ],
    )
}

/// Prints the line of an execution.
#[tactic(auto, unfolding(crate::specs::Text::body_of))]
fn print_outcome_line(out: &mut Seq<u8>, line: &Line) -> Result<(), OutOfMemory>
    requires { IsTrue (is_outcome_line line.now) }
    ensures { Writes out.old out.new (body_of line.now) result }
{
    match line {
        Line::Done { tx, version, gas } => print(
            out,
            &[
                Piece::Text(b"  "),
                Piece::Name(tx),
                Piece::Text(b" done v"),
                Piece::Number(*version),
                Piece::Text(b" gas "),
                Piece::Number(*gas),
            ],
        ),
        Line::Failed {
            tx,
            command,
            cause,
            version,
            gas,
        } => print_failed(out, tx, *command, *cause, *version, *gas),
        Line::Aborted {
            tx,
            command,
            code,
            version,
            gas,
        } => print_aborted(out, tx, *command, *code, *version, *gas),
        _ => unreachable!(),
    }
}

/// Prints a line on the end of a member's epoch, or on its change to the next.
#[tactic(auto, unfolding(crate::specs::Text::body_of))]
fn print_turn_line(out: &mut Seq<u8>, line: &Line) -> Result<(), OutOfMemory>
    requires { IsTrue (is_turn_line line.now) }
    ensures { Writes out.old out.new (body_of line.now) result }
{
    match line {
        Line::Close { member, text } => {
            print_member_head(out, b"close ", *member, b": ")?;
            print_close_text(out, text)
        }
        Line::End { member, text } => {
            print_member_head(out, b"end ", *member, b": ")?;
            print_end_text(out, text)
        }
        Line::Turn { member, text } => {
            print_member_head(out, b"turn ", *member, b": ")?;
            print_turn_text(out, text)
        }
        Line::Reverted { tx } => print_with_name(out, b"  reverted ", tx),
        _ => unreachable!(),
    }
}

/// The head of a line on an object that is shown.
fn print_object_head(out: &mut Seq<u8>, object: &Seq<u8>, version: u64) -> Result<(), OutOfMemory>
    ensures { Writes out.old out.new (concat (codes "  " ∷ object.now ∷ codes " v" ∷ decimal version ∷ codes " " ∷ [])) result }
{
    print(
        out,
        &[
            Piece::Text(b"  "),
            Piece::Name(object),
            Piece::Text(b" v"),
            Piece::Number(version),
            Piece::Text(b" "),
        ],
    )
}

/// Prints a line on a member that stops, restarts or is shown.
#[tactic(auto, unfolding(crate::specs::Text::body_of))]
fn print_member_line(out: &mut Seq<u8>, line: &Line) -> Result<(), OutOfMemory>
    requires { IsTrue (is_member_line line.now) }
    ensures { Writes out.old out.new (body_of line.now) result }
{
    match line {
        Line::Stop { member, kept } => {
            print_member_head(out, b"stop ", *member, b": armed ")?;
            print_kept(out, *kept)
        }
        Line::Restart { member, text } => {
            print_member_head(out, b"restart ", *member, b": ")?;
            print_restart_text(out, text)
        }
        Line::Show { member, text } => {
            print_member_head(out, b"show ", *member, b": ")?;
            print_show_text(out, text)
        }
        Line::Object {
            object,
            version,
            owner,
            content,
        } => {
            print_object_head(out, object, *version)?;
            print_owner_text(out, owner)?;
            out.extend(b" ")?;
            print_content_text(out, content)
        }
        _ => unreachable!(),
    }
}

/// Prints the line on a whole run, or the refusal of a schedule.
#[tactic(auto, unfolding(crate::specs::Text::body_of))]
fn print_total_line(out: &mut Seq<u8>, line: &Line) -> Result<(), OutOfMemory>
    requires { IsTrue (is_total_line line.now) }
    ensures { Writes out.old out.new (body_of line.now) result }
{
    match line {
        Line::Make {
            number,
            transactions,
            checkpoints,
            objects,
            sum,
        } => print(
            out,
            &[
                Piece::Text(b"make "),
                Piece::Number(*number),
                Piece::Text(b": transactions "),
                Piece::Number(*transactions),
                Piece::Text(b" checkpoints "),
                Piece::Number(*checkpoints),
                Piece::Text(b" objects "),
                Piece::Number(*objects),
                Piece::Text(b" sum "),
                Piece::Wide(*sum),
            ],
        ),
        Line::Refused { line, cause } => {
            print_two_numbers(out, b"refused line ", *line, b" cause ", *cause)
        }
        _ => unreachable!(),
    }
}

fn print_body(out: &mut Seq<u8>, line: &Line) -> Result<(), OutOfMemory>
    ensures { Writes out.old out.new (body_of line.now) result }
{
    match line {
        Line::TxMade { .. } | Line::Vote { .. } | Line::Fvote { .. } | Line::RawVote { .. } =>
            print_vote_line(out, line),
        Line::Cert { .. }
        | Line::Send { .. }
        | Line::RawHold { .. }
        | Line::Ack { .. }
        | Line::Final { .. } => print_certificate_line(out, line),
        Line::Order { .. }
        | Line::OrderEnd { .. }
        | Line::OrderCommit { .. }
        | Line::See { .. }
        | Line::SeeEntry { .. } => print_sequence_line(out, line),
        Line::Run { .. } | Line::Absent { .. } | Line::Unfit { .. } | Line::Checkpoint { .. } =>
            print_run_line(out, line),
        Line::Done { .. } | Line::Failed { .. } | Line::Aborted { .. } => print_outcome_line(
            out, line,
        ),
        Line::Close { .. } | Line::End { .. } | Line::Turn { .. } | Line::Reverted { .. } =>
            print_turn_line(out, line),
        Line::Stop { .. } | Line::Restart { .. } | Line::Show { .. } | Line::Object { .. } =>
            print_member_line(out, line),
        Line::Make { .. } | Line::Refused { .. } => print_total_line(out, line),
    }
}

/// Appends the bytes of the line. After a refusal `out` holds what stood in it and a prefix of the line.
#[tactic(auto, using(crate::proofs::Appends::fronts), unfolding(crate::specs::Text::text_of))]
pub fn print_line(line: &Line, out: &mut Seq<u8>) -> Result<(), OutOfMemory>
    ensures { Writes out.old out.new (text_of line.now) result }
{
    print_body(out, line)?;
    out.push(b'\n')
}
