//! The lines of a report.

use wire_bcs::Seq;

/// A line of the report.
#[derive(Drop)]
pub enum Line {
    /// `tx T: made`
    TxMade {
        tx: Seq<u8>,
    },
    /// `vote M T: ` and a text
    Vote {
        member: u64,
        tx: Seq<u8>,
        text: VoteText,
    },
    /// `fvote M T: voted` and the origins, `-` if there is none
    Fvote {
        member: u64,
        tx: Seq<u8>,
        origins: Seq<Option<Seq<u8>>>,
    },
    /// `cert T: ` and a text
    Cert {
        tx: Seq<u8>,
        text: CertText,
    },
    /// `send M T: ` and a text
    Send {
        member: u64,
        tx: Seq<u8>,
        text: SendText,
    },
    /// `order T: ` and a text
    Order {
        tx: Seq<u8>,
        text: OrderText,
    },
    /// `order end M: ` and a text
    OrderEnd {
        member: u64,
        text: OrderEndText,
    },
    /// `order commit: entry N`
    OrderCommit {
        entry: u64,
    },
    /// `see M: ` and a text
    See {
        member: u64,
        text: SeeText,
    },
    /// `see M entry N: ` and a text
    SeeEntry {
        member: u64,
        entry: u64,
        text: EntryText,
    },
    /// `run M: ` and a text
    Run {
        member: u64,
        text: RunText,
    },
    /// `  T done vV gas G`
    Done {
        tx: Seq<u8>,
        version: u64,
        gas: u64,
    },
    /// `  T failed at C cause N vV gas G`
    Failed {
        tx: Seq<u8>,
        command: u64,
        cause: u64,
        version: u64,
        gas: u64,
    },
    /// `  T aborted at C code N vV gas G`
    Aborted {
        tx: Seq<u8>,
        command: u64,
        code: u64,
        version: u64,
        gas: u64,
    },
    /// `  T absent K`
    Absent {
        tx: Seq<u8>,
        key: Seq<u8>,
    },
    /// `  T unfit`
    Unfit {
        tx: Seq<u8>,
    },
    /// `  checkpoint N:` and the transactions, then ` last` if it is the last
    Checkpoint {
        number: u64,
        txs: Seq<Seq<u8>>,
        last: bool,
    },
    /// `close M: ` and a text
    Close {
        member: u64,
        text: CloseText,
    },
    /// `end M: ` and a text
    End {
        member: u64,
        text: EndText,
    },
    /// `turn M: ` and a text
    Turn {
        member: u64,
        text: TurnText,
    },
    /// `  reverted T`
    Reverted {
        tx: Seq<u8>,
    },
    /// `stop M: armed kept` or `stop M: armed lost`
    Stop {
        member: u64,
        kept: bool,
    },
    /// `restart M: ` and a text
    Restart {
        member: u64,
        text: RestartText,
    },
    /// `raw M vote: ` and a text
    RawVote {
        member: u64,
        text: VoteText,
    },
    /// `raw M hold: ` and a text
    RawHold {
        member: u64,
        text: SendText,
    },
    /// `show M: ` and a text
    Show {
        member: u64,
        text: ShowText,
    },
    /// `  OBJ vV OWNER CONTENT`
    Object {
        object: Seq<u8>,
        version: u64,
        owner: OwnerText,
        content: ContentText,
    },
    /// `ack M T: ` and a text
    Ack {
        member: u64,
        tx: Seq<u8>,
        text: AckText,
    },
    /// `final T: ` and a text
    Final {
        tx: Seq<u8>,
        text: FinalText,
    },
    /// `make N: transactions A checkpoints B objects C sum D`
    Make {
        number: u64,
        transactions: u64,
        checkpoints: u64,
        objects: u64,
        sum: u128,
    },
    /// `refused line L cause C`
    Refused {
        line: u64,
        cause: u64,
    },
}

/// What a member answers to a signed transaction.
#[derive(Drop)]
pub enum VoteText {
    /// `voted` and the origins, `-` if there is none
    Voted { origins: Seq<Option<Seq<u8>>> },
    /// `again` and the origins
    Again { origins: Seq<Option<Seq<u8>>> },
    /// `halted T1 T2`
    Halted { first: Seq<u8>, second: Seq<u8> },
    /// `malformed at A why W`
    Malformed { at: u64, why: u64 },
    /// `wrong epoch had H want W`
    WrongEpoch { had: u64, want: u64 },
    /// `closed`
    Closed,
    /// `invalid N`
    Invalid { number: u64 },
    /// `unsealed`
    Unsealed,
    /// `absent K`
    Absent { key: Seq<u8> },
    /// `consumed K by T2`
    Consumed { key: Seq<u8>, by: Seq<u8> },
    /// `wrong digest K`
    WrongDigest { key: Seq<u8> },
    /// `wrong owner K`
    WrongOwner { key: Seq<u8> },
    /// `wrong kind K`
    WrongKind { key: Seq<u8> },
    /// `poor gas had H want W`
    PoorGas { had: u64, want: u64 },
    /// `locked K by T2`
    Locked { key: Seq<u8>, by: Seq<u8> },
    /// `down`
    Down,
    /// `full`
    Full,
    /// `stopped`
    Stopped,
}

/// What collecting votes gives.
#[derive(Drop)]
pub enum CertText {
    /// `no vote of M`
    NoVote { member: u64 },
    /// `short W of TOTAL`
    Short { weight: u64, total: u64 },
    /// `differ A B`
    Differ { a: u64, b: u64 },
    /// `formed by` and all members
    Formed { members: Seq<u64> },
}

/// What a member answers to a certificate.
#[derive(Drop)]
pub enum SendText {
    /// `no certificate`
    NoCertificate,
    /// `held`
    Held,
    /// `again`
    Again,
    /// `halted T1 T2`
    Halted {
        first: Seq<u8>,
        second: Seq<u8>,
    },
    /// `malformed at A why W`
    Malformed {
        at: u64,
        why: u64,
    },
    /// `wrong epoch had H want W`
    WrongEpoch {
        had: u64,
        want: u64,
    },
    /// `closed`
    Closed,
    /// `shape N`
    Shape {
        number: u64,
    },
    /// `order`
    Order,
    /// `short stake W of TOTAL`
    ShortStake {
        weight: u64,
        total: u64,
    },
    /// `bad seal M`
    BadSeal {
        member: u64,
    },
    /// `fork K T1 T2`
    Fork {
        key: Seq<u8>,
        first: Seq<u8>,
        second: Seq<u8>,
    },
    /// `down`
    Down,
    /// `full`
    Full,
    /// `stopped`
    Stopped,
}

/// What ordering a transaction gives.
#[derive(Drop)]
pub enum OrderText {
    /// `entry N`
    Entry { entry: u64 },
    /// `no certificate`
    NoCertificate,
    /// `not taken`
    NotTaken,
}

/// What ordering an End statement gives.
#[derive(Drop)]
pub enum OrderEndText {
    /// `entry N`
    Entry { entry: u64 },
    /// `no statement`
    NoStatement,
    /// `not taken`
    NotTaken,
}

/// What a `see` event prints if it takes no entry.
#[derive(Drop)]
pub enum SeeText {
    /// `nothing`
    Nothing,
    /// `halted T1 T2`
    Halted { first: Seq<u8>, second: Seq<u8> },
    /// `down`
    Down,
    /// `full`
    Full,
}

/// What a member makes of an entry.
#[derive(Drop)]
pub enum EntryText {
    /// `admitted` with the transactions, if there are any; `dropped` with the dropped ones,
    /// if there are any
    Taken {
        admitted: Seq<Seq<u8>>,
        dropped: Seq<Seq<u8>>,
    },
    /// `pending T on T2`
    Pending {
        tx: Seq<u8>,
        origin: Seq<u8>,
    },
    /// `deferred T on OBJ`
    Deferred {
        tx: Seq<u8>,
        object: Seq<u8>,
    },
    /// `commit`, then ` admitted` and ` dropped` as in `Taken`
    Commit {
        admitted: Seq<Seq<u8>>,
        dropped: Seq<Seq<u8>>,
    },
    /// `end of M2 weight W of TOTAL`, then `, epoch ended` if it has
    EndOf {
        member: u64,
        weight: u64,
        total: u64,
        ended: bool,
    },
    /// `ignored malformed`
    IgnoredMalformed,
    /// `ignored statement`
    IgnoredStatement,
    /// `ignored epoch`
    IgnoredEpoch,
    /// `ignored certificate`
    IgnoredCertificate,
    /// `ignored seal`
    IgnoredSeal,
    /// `ignored repeat`
    IgnoredRepeat,
    /// `fork K T1 T2`
    Fork {
        key: Seq<u8>,
        first: Seq<u8>,
        second: Seq<u8>,
    },
    /// `stopped`
    Stopped,
}

/// What a `run` event prints first.
#[derive(Drop)]
pub enum RunText {
    /// `executed N`
    Executed { count: u64 },
    /// `halted T1 T2`
    Halted { first: Seq<u8>, second: Seq<u8> },
    /// `down`
    Down,
    /// `full`
    Full,
    /// `stopped`
    Stopped,
}

/// What a member answers to `close`.
#[derive(Drop)]
pub enum CloseText {
    /// `closed`
    Closed,
    /// `again`
    Again,
    /// `halted T1 T2`
    Halted { first: Seq<u8>, second: Seq<u8> },
    /// `down`
    Down,
    /// `full`
    Full,
    /// `stopped`
    Stopped,
}

/// What a member answers to `end`.
#[derive(Drop)]
pub enum EndText {
    /// `said`
    Said,
    /// `not closed`
    NotClosed,
    /// `waits T`
    Waits { tx: Seq<u8> },
    /// `halted T1 T2`
    Halted { first: Seq<u8>, second: Seq<u8> },
    /// `down`
    Down,
}

/// What a `turn` event prints first.
#[derive(Drop)]
pub enum TurnText {
    /// `epoch E reverted N`
    Turned { epoch: u64, reverted: u64 },
    /// `not ended`
    NotEnded,
    /// `waits T`
    Waits { tx: Seq<u8> },
    /// `halted T1 T2`
    Halted { first: Seq<u8>, second: Seq<u8> },
    /// `down`
    Down,
    /// `full`
    Full,
    /// `stopped`
    Stopped,
}

/// What a restart gives.
#[derive(Drop)]
pub enum RestartText {
    /// `records N`
    Records { count: u64 },
    /// `bad record PLACE`
    BadRecord { place: u64 },
}

/// What a `show` event prints first.
#[derive(Drop)]
pub enum ShowText {
    /// `epoch E objects N`
    Shown { epoch: u64, objects: u64 },
    /// `down`
    Down,
}

/// What a member answers to `ack`.
#[derive(Drop)]
pub enum AckText {
    /// `said`
    Said,
    /// `not executed`
    NotExecuted,
    /// `halted T1 T2`
    Halted { first: Seq<u8>, second: Seq<u8> },
    /// `down`
    Down,
}

/// What collecting acknowledgements gives.
#[derive(Drop)]
pub enum FinalText {
    /// `no ack of M`
    NoAck { member: u64 },
    /// `short W of TOTAL`
    Short { weight: u64, total: u64 },
    /// `differ A B`
    Differ { a: u64, b: u64 },
    /// `final by` and all members
    FinalBy { members: Seq<u64> },
}

/// The owner of a shown object.
#[derive(Drop)]
pub enum OwnerText {
    /// The name of an address, or `?`
    Address { name: Seq<u8> },
    /// `shared INITIAL`
    Shared { initial: u64 },
    /// `frozen`
    Frozen,
}

/// The content of a shown object.
#[derive(Drop)]
pub enum ContentText {
    /// `coin CURRENCY BALANCE`
    Coin { currency: u64, balance: u64 },
    /// `cap CURRENCY SUPPLY`
    Cap { currency: u64, supply: u64 },
    /// `counter VALUE`
    Counter { value: u64 },
    /// `vault CURRENCY BALANCE`
    Vault { currency: u64, balance: u64 },
    /// `key OBJ`
    Key { object: Seq<u8> },
    /// `limit VALUE`
    Limit { value: u64 },
}
