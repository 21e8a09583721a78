// The head of a row.
use swarm_objects::FailedPut;

// What is made of the script.
#[derive(Clone, Copy)]
pub(crate) enum Kind {
    Run,
    Lines,
    Entries,
    Entry,
    Constraints,
}

impl Kind {
    fn named(word: &str) -> Option<Kind> {
        match word {
            "lines" => Some(Kind::Lines),
            "entries" => Some(Kind::Entries),
            "entry" => Some(Kind::Entry),
            "constraints" => Some(Kind::Constraints),
            _ => None,
        }
    }
}

// The call of a sink that fails, and behind a `+` how many bytes of its piece it takes all the same.
fn failed_put(value: &str) -> Option<FailedPut> {
    let (call, taken) = value.split_once('+').unwrap_or((value, "0"));
    Some(FailedPut {
        call: call.parse().ok()?,
        taken: taken.parse().ok()?,
    })
}

// How a row is run: the words of the command line with commas between them, the most bytes that the source gives at
// once, and the calls of the source, the output and the journal that fail.
#[derive(Clone, Copy)]
pub(crate) struct Head<'a> {
    pub(crate) kind: Kind,
    pub(crate) words: &'a str,
    pub(crate) piece: usize,
    pub(crate) take: Option<u64>,
    pub(crate) out: Option<FailedPut>,
    pub(crate) put: Option<FailedPut>,
}

impl<'a> Head<'a> {
    // The head of the line, if all of its options are known.
    pub(crate) fn read(line: &'a str) -> Option<Head<'a>> {
        let mut head = Head {
            kind: Kind::Run,
            words: "run,--workers,0",
            piece: 4_096,
            take: None,
            out: None,
            put: None,
        };
        for option in line.split(' ').skip(1) {
            head.set(option)?;
        }
        Some(head)
    }

    fn set(&mut self, option: &'a str) -> Option<()> {
        match option.split_once('=') {
            Some((key, value)) => self.set_value(key, value),
            None => {
                self.kind = Kind::named(option)?;
                Some(())
            }
        }
    }

    fn set_value(&mut self, key: &str, value: &'a str) -> Option<()> {
        match key {
            "words" => self.words = value,
            "piece" => self.piece = value.parse().ok()?,
            "take" => self.take = Some(value.parse().ok()?),
            "out" => self.out = Some(failed_put(value)?),
            "put" => self.put = Some(failed_put(value)?),
            _ => return None,
        }
        Some(())
    }
}
