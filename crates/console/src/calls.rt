// Which call a line is. A call has a name, and then words of the kinds that it asks, a letter each: a number of 16 bits (s),
// one of 32 bits (l), the length of what is lent (r), the kind of a record (1 to 5), bytes in hex (h), those of a feed sheet (f), a
// list of a record (c, t, p, d).
use console_lines::{numbers, parts, words};

// What is done to a record that the console holds.
#[derive(Clone, Copy)]
pub enum Step {
    Open,
    Set,
    Enter,
    Turn,
}

// What is asked for of what the console holds; nothing changes.
#[derive(Clone, Copy)]
pub enum Ask {
    Record,
    Gaps,
    FeedRecord,
    FeedGaps,
    SmallRecord,
}

// What is worked out from the line alone.
#[derive(Clone, Copy)]
pub enum Work {
    Highest,
    Sheet,
    View,
    Read,
    Write,
    Schedule,
    Panel,
    Help,
    Unknown,
}

#[derive(Clone, Copy)]
pub enum Call {
    Run(Step),
    Feed(Step),
    Small(Step),
    Poll,
    Lend,
    Ask(Ask),
    Work(Work),
}

// The call of a line; a line that is none is Unknown.
pub fn call_of(line: &[u8]) -> Call {
    let table: [(&[u8], Call); 31] = [
        (b"open ss", Call::Run(Step::Open)),
        (b"set sslctp", Call::Run(Step::Set)),
        (b"enter ss", Call::Run(Step::Enter)),
        (b"turn s", Call::Run(Step::Turn)),
        (b"fopen ss", Call::Feed(Step::Open)),
        (b"fset sslctp", Call::Feed(Step::Set)),
        (b"fenter ss", Call::Feed(Step::Enter)),
        (b"fturn s", Call::Feed(Step::Turn)),
        (b"dopen ss", Call::Small(Step::Open)),
        (b"dset sslctpd", Call::Small(Step::Set)),
        (b"denter ss", Call::Small(Step::Enter)),
        (b"dturn s", Call::Small(Step::Turn)),
        (b"poll s", Call::Poll),
        (b"feed f", Call::Lend),
        (b"record ", Call::Ask(Ask::Record)),
        (b"gaps r", Call::Ask(Ask::Gaps)),
        (b"frecord ", Call::Ask(Ask::FeedRecord)),
        (b"fgaps r", Call::Ask(Ask::FeedGaps)),
        (b"drecord ", Call::Ask(Ask::SmallRecord)),
        (b"highest sc", Call::Work(Work::Highest)),
        (b"sheet ssr", Call::Work(Work::Sheet)),
        (b"view sssrr", Call::Work(Work::View)),
        (b"read h", Call::Work(Work::Read)),
        (b"write r1ss", Call::Work(Work::Write)),
        (b"write r2ss", Call::Work(Work::Write)),
        (b"write r3s", Call::Work(Work::Write)),
        (b"write r4l", Call::Work(Work::Write)),
        (b"write r5ssl", Call::Work(Work::Write)),
        (b"run rh", Call::Work(Work::Schedule)),
        (b"panel rh", Call::Work(Work::Panel)),
        (b"help ", Call::Work(Work::Help)),
    ];
    for (written, call) in &table {
        if is(line, written) {
            return *call;
        }
    }
    Call::Work(Work::Unknown)
}

// Is the word of this kind, a letter of the table?
fn fits(word: &[u8], kind: u8) -> bool {
    match kind {
        b's' => numbers::is_decimal(word, 65_535),
        b'l' => numbers::is_decimal(word, 4_294_967_295),
        b'r' => numbers::is_decimal(word, 65_536),
        b'h' => numbers::is_hex(word),
        b'f' => numbers::is_hex(word) && word.len() <= 131_072,
        b'c' | b't' | b'p' | b'd' => console_lists::is_list(kind, word),
        digit => numbers::decimal(word, 5) == Some(u64::from(digit.wrapping_sub(b'0'))),
    }
}

// Is the line this call, written as in the table?
fn is(line: &[u8], written: &[u8]) -> bool {
    let kinds = words::word(written, 1);
    words::word(line, 0) == words::word(written, 0)
        && words::count(line) == kinds.len() + 1
        && kinds
            .iter()
            .enumerate()
            .all(|(i, kind)| fits(words::word(line, i + 1), *kind))
}
