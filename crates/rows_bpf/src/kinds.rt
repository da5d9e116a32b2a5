//! The kinds of rows.

/// What is asked by a row.
#[derive(Clone, Copy, Debug, PartialEq, Eq)]
pub enum RowKind {
    Assemble,
    Reassemble,
    Decode,
    Verify,
    Fault,
    Domains,
    Steps,
    Budget,
    Interval,
    Known,
    State,
    Step,
    Walk,
    Trace,
    Compute,
    Run,
    RunWithPeer,
    Report,
    Order,
    Explain,
    Cost,
    Parsed,
    Refused,
}

/// The word of each kind.
static WORDS: [(&str, RowKind); 23] = [
    ("assemble", RowKind::Assemble),
    ("reassemble", RowKind::Reassemble),
    ("decode", RowKind::Decode),
    ("verify", RowKind::Verify),
    ("fault", RowKind::Fault),
    ("domains", RowKind::Domains),
    ("steps", RowKind::Steps),
    ("budget", RowKind::Budget),
    ("interval", RowKind::Interval),
    ("known", RowKind::Known),
    ("state", RowKind::State),
    ("step", RowKind::Step),
    ("walk", RowKind::Walk),
    ("trace", RowKind::Trace),
    ("compute", RowKind::Compute),
    ("run", RowKind::Run),
    ("run_with_peer", RowKind::RunWithPeer),
    ("report", RowKind::Report),
    ("order", RowKind::Order),
    ("explain", RowKind::Explain),
    ("cost", RowKind::Cost),
    ("parsed", RowKind::Parsed),
    ("refused", RowKind::Refused),
];

impl RowKind {
    /// Returns the kind of a word, if it is one.
    pub fn of(word: &str) -> Option<RowKind> {
        for (name, kind) in WORDS.iter() {
            if *name == word {
                return Some(*kind);
            }
        }
        None
    }
}
