//! The text of a schedule, line by line.

ghost use Rattle.std.specs.Prelude.{◌≡◌, ◌++◌, ◌<◌, ◌≤◌, OnOk, IfOk};
ghost use Rattle.schedule_make.specs.Make.{coin_text, split_text, spend_text, write_text, read_text, tx_text, votes_text, sends_text, certified_text, order_text, late_text, end_text, for_each, make_text_of};

use crate::parts::{Part, print};
use std::alloc::Global;
use wire_bcs::{OutOfMemory, Seq};

#[tactic(auto, unfolding(crate::specs::Make::coin_text))]
fn print_coin(out: &mut Seq<u8>, k: u32) -> Result<(), OutOfMemory>
    ensures { OnOk result (out.new ≡ out.old ++ coin_text k) }
{
    if k % 4 == 1 {
        print(
            out,
            &[
                Part::Text(b"coin g"),
                Part::Number(k),
                Part::Text(b" u1 1000000\n"),
            ],
        )
    } else {
        print(
            out,
            &[
                Part::Text(b"coin g"),
                Part::Number(k),
                Part::Text(b" u0 1000000\n"),
            ],
        )
    }
}

/// Prints transaction `k` of the first shape: it splits a coin off the gas coin and sends it.
#[tactic(auto, unfolding(crate::specs::Make::split_text))]
fn print_split(out: &mut Seq<u8>, k: u32) -> Result<(), OutOfMemory>
    ensures { OnOk result (out.new ≡ out.old ++ split_text k) }
{
    print(
        out,
        &[
            Part::Text(b"tx t"),
            Part::Number(k),
            Part::Text(b" u0 0 g"),
            Part::Number(k),
            Part::Text(b"@1 2000 n:5 a:u1 split(gas,i0) transfer(r0,i1)\n"),
        ],
    )
}

/// Prints transaction `k` of the second shape: it sends back the coin that transaction `k - 1` created.
#[tactic(auto, unfolding(crate::specs::Make::spend_text))]
fn print_spend(out: &mut Seq<u8>, k: u32) -> Result<(), OutOfMemory>
    requires { 0 < k }
    ensures { OnOk result (out.new ≡ out.old ++ spend_text k) }
{
    print(
        out,
        &[
            Part::Text(b"tx t"),
            Part::Number(k),
            Part::Text(b" u1 0 g"),
            Part::Number(k),
            Part::Text(b"@1 2000 o:t"),
            Part::Number(k - 1),
            Part::Text(b".0@2 a:u0 transfer(i0,i1)\n"),
        ],
    )
}

/// Prints transaction `k` of the third shape: it raises the counter.
#[tactic(auto, unfolding(crate::specs::Make::write_text))]
fn print_write(out: &mut Seq<u8>, k: u32) -> Result<(), OutOfMemory>
    ensures { OnOk result (out.new ≡ out.old ++ write_text k) }
{
    print(
        out,
        &[
            Part::Text(b"tx t"),
            Part::Number(k),
            Part::Text(b" u0 0 g"),
            Part::Number(k),
            Part::Text(b"@1 2000 n:1 s:c0@1 counter_add(i1,i0)\n"),
        ],
    )
}

/// Prints transaction `k` of the fourth shape: it reads the counter.
#[tactic(auto, unfolding(crate::specs::Make::read_text))]
fn print_read(out: &mut Seq<u8>, k: u32) -> Result<(), OutOfMemory>
    ensures { OnOk result (out.new ≡ out.old ++ read_text k) }
{
    print(
        out,
        &[
            Part::Text(b"tx t"),
            Part::Number(k),
            Part::Text(b" u0 0 g"),
            Part::Number(k),
            Part::Text(b"@1 2000 n:0 r:c0@1 counter_require(i1,i0)\n"),
        ],
    )
}

/// Prints the line of transaction `k`: one of the four shapes in turn.
fn print_tx(out: &mut Seq<u8>, k: u32) -> Result<(), OutOfMemory>
    ensures { OnOk result (out.new ≡ out.old ++ tx_text k) }
{
    if k % 4 == 0 {
        return print_split(out, k);
    }
    if k % 4 == 1 {
        return print_spend(out, k);
    }
    if k % 4 == 2 {
        return print_write(out, k);
    }
    print_read(out, k)
}

/// Prints the lines by which members 0 to 2 vote for transaction `k`, and its certificate is formed.
#[tactic(auto, unfolding(crate::specs::Make::votes_text))]
fn print_votes(out: &mut Seq<u8>, k: u32) -> Result<(), OutOfMemory>
    ensures { OnOk result (out.new ≡ out.old ++ votes_text k) }
{
    print(
        out,
        &[
            Part::Text(b"vote 0 t"),
            Part::Number(k),
            Part::Text(b"\nvote 1 t"),
            Part::Number(k),
            Part::Text(b"\nvote 2 t"),
            Part::Number(k),
            Part::Text(b"\ncert t"),
            Part::Number(k),
            Part::Text(b" 0 1 2\n"),
        ],
    )
}

/// Prints the lines by which members 0 to 2 take the certificate of transaction `k`, and execute it before it is in
/// the sequence.
#[tactic(auto, unfolding(crate::specs::Make::sends_text))]
fn print_sends(out: &mut Seq<u8>, k: u32) -> Result<(), OutOfMemory>
    ensures { OnOk result (out.new ≡ out.old ++ sends_text k) }
{
    print(
        out,
        &[
            Part::Text(b"send 0 t"),
            Part::Number(k),
            Part::Text(b"\nrun 0 1\nsend 1 t"),
            Part::Number(k),
            Part::Text(b"\nrun 1 1\nsend 2 t"),
            Part::Number(k),
            Part::Text(b"\nrun 2 1\n"),
        ],
    )
}

/// Prints transaction `k`, its votes and its certificate; and its early execution, if it is a split.
#[tactic(auto, unfolding(crate::specs::Make::certified_text))]
fn print_certified(out: &mut Seq<u8>, k: u32) -> Result<(), OutOfMemory>
    ensures { OnOk result (out.new ≡ out.old ++ certified_text k) }
{
    print_tx(out, k)?;
    print_votes(out, k)?;
    if k % 4 == 0 {
        print_sends(out, k)
    } else {
        Ok(())
    }
}

/// Prints the line that orders transaction `k`, and a mark after each 64 of them.
#[tactic(auto, unfolding(crate::specs::Make::order_text))]
fn print_order(out: &mut Seq<u8>, k: u32) -> Result<(), OutOfMemory>
    requires { k < 4294967295 }
    ensures { OnOk result (out.new ≡ out.old ++ order_text k) }
{
    if (k + 1) % 64 == 0 {
        print(
            out,
            &[
                Part::Text(b"order t"),
                Part::Number(k),
                Part::Text(b"\norder commit\n"),
            ],
        )
    } else {
        print(
            out,
            &[Part::Text(b"order t"), Part::Number(k), Part::Text(b"\n")],
        )
    }
}

fn print_coins(out: &mut Seq<u8>, number: u32) -> Result<(), OutOfMemory>
    ensures { OnOk result (out.new ≡ out.old ++ for_each coin_text number) }
{
    for k in 0..number {
        print_coin(out, k)?;
    }
    Ok(())
}

fn print_certificates(out: &mut Seq<u8>, number: u32) -> Result<(), OutOfMemory>
    ensures { OnOk result (out.new ≡ out.old ++ for_each certified_text number) }
{
    for k in 0..number {
        print_certified(out, k)?;
    }
    Ok(())
}

fn print_orders(out: &mut Seq<u8>, number: u32) -> Result<(), OutOfMemory>
    ensures { OnOk result (out.new ≡ out.old ++ for_each order_text number) }
{
    for k in 0..number {
        print_order(out, k)?;
    }
    Ok(())
}

#[tactic(auto, unfolding(crate::specs::Make::late_text))]
fn print_late(out: &mut Seq<u8>, workers: u32) -> Result<(), OutOfMemory>
    ensures { OnOk result (out.new ≡ out.old ++ late_text workers) }
{
    print(
        out,
        &[
            Part::Text(b"see 3 65535\nrun 3 "),
            Part::Number(workers),
            Part::Text(b"\n"),
        ],
    )
}

#[tactic(auto, unfolding(crate::specs::Make::end_text))]
fn print_end(out: &mut Seq<u8>) -> Result<(), OutOfMemory>
    ensures { OnOk result (out.new ≡ out.old ++ end_text) }
{
    out.extend(b"see 0 65535\nrun 0 1\nsee 1 65535\nrun 1 1\nsee 2 65535\nrun 2 1\n")?;
    out.extend(
        b"close 0\nend 0\norder end 0\nclose 1\nend 1\norder end 1\nclose 2\nend 2\norder end 2\n",
    )?;
    out.extend(b"see 0 3\nturn 0\nsee 1 3\nturn 1\nsee 2 3\nturn 2\nsee 3 3\nturn 3\nshow 0\n")
}

/// The text of the schedule: 1 to 10,000 transactions, 1 to 16 workers of the late member.
#[tactic(auto, unfolding(crate::specs::Make::make_text_of))]
pub fn make_text(alloc: Global, number: u32, workers: u32) -> Result<Seq<u8>, OutOfMemory>
    requires number_low { 1 ≤ number }
    requires number_high { number ≤ 10000 }
    requires workers_low { 1 ≤ workers }
    requires workers_high { workers ≤ 16 }
    ensures { IfOk result (λ text. text ≡ make_text_of number workers) }
{
    let mut out = Seq::new(alloc);
    out.extend(b"member 1 honest\nmember 1 honest\nmember 1 honest\nmember 1 honest\n")?;
    print_coins(&mut out, number)?;
    out.extend(b"counter c0 0\n")?;
    print_certificates(&mut out, number)?;
    print_orders(&mut out, number)?;
    print_late(&mut out, workers)?;
    print_end(&mut out)?;
    Ok(out)
}
