use crate::cases::assert_page;
use crate::samples::lits_text;
use pb_words::{EncodeArgs, ProbeArgs, Request, WcnfArgs, WordsFault, parse};
use std::alloc::Global;

// The words of a line that is parted at blanks.
fn words_of(alloc: Global, line: &str) -> Option<Vec<String>> {
    let mut words = Vec::new(alloc);
    for word in line.split(' ') {
        words.push(word.to_string(alloc).ok()?).ok()?;
    }
    Some(words)
}

fn encoding_text(alloc: Global, asked: &EncodeArgs<'_>) -> Option<String> {
    let options = &asked.options;
    format!(in alloc;
        "{} {} {} {:?} {:?} {:?} {}",
        asked.opb,
        asked.cnf,
        asked.proof.unwrap_or("none"),
        options.amo,
        options.card,
        options.general,
        options.budget
    )
    .ok()
}

fn probing_text(alloc: Global, asked: &ProbeArgs<'_>) -> Option<String> {
    let lits = lits_text(alloc, asked.lits.as_slice())?;
    format!(in alloc; "{}{lits}", asked.cnf).ok()
}

fn weighing_text(alloc: Global, asked: &WcnfArgs<'_>) -> Option<String> {
    let budget = asked.options.budget;
    format!(in alloc; "{} {} {budget} {:?}", asked.opb, asked.wcnf, asked.bound).ok()
}

fn request_text(alloc: Global, request: &Request<'_>) -> Option<String> {
    match request {
        Request::Encode(encoding) => encoding_text(alloc, encoding),
        Request::Probe(probing) => probing_text(alloc, probing),
        Request::Wcnf(weighing) => weighing_text(alloc, weighing),
        _ => None,
    }
}

// What words ask for.
fn asked_by(alloc: Global, words: &[String]) -> Option<String> {
    match parse(alloc, words) {
        Ok(request) => request_text(alloc, &request),
        Err(WordsFault::Usage) => "usage".to_string(alloc).ok(),
        Err(_) => None,
    }
}

// The same of the words of a line.
fn asked(alloc: Global, line: &str) -> Option<String> {
    let words = words_of(alloc, line)?;
    asked_by(alloc, &words)
}

// Each line requests what follows `=>`.
const LINES: &str = "\
pbcnf probe c => c
pbcnf probe c x1 ~x02 x2147483647 => c x1 ~x2 x2147483647
pbcnf encode a b => a b none Auto Auto Diagram 50000
pbcnf encode a b c --budget 9 => a b c Auto Auto Diagram 9
pbcnf encode --amo ladder x.opb --card=totalizer x.cnf --budget=007 --general adder => x.opb x.cnf none Ladder Totalizer Adder 7
pbcnf wcnf a b => a b 50000 None
pbcnf wcnf a b --budget 9 --at-most=007 => a b 9 Some(7)
pbcnf wcnf --at-most-minus 2 a b => a b 50000 Some(-2)
pbcnf wcnf a b --at-most-minus=0 => a b 50000 Some(0)
pbcnf wcnf a b --at-most-minus=1267650600228229401496703205375 => a b 50000 Some(-1267650600228229401496703205375)
pbcnf => usage
pbcnf encode a => usage
pbcnf encode a a => usage
pbcnf encode a b c d => usage
pbcnf encode a b b => usage
pbcnf encode a b --budget=9 --budget=9 => usage
pbcnf encode a b --budget 0 => usage
pbcnf encode a b --budget +5 => usage
pbcnf encode a b --amo counter => usage
pbcnf encode a b --at-most => usage
pbcnf encode a b --at-most= => usage
pbcnf encode a b --at-most=+1 => usage
pbcnf encode a b --at-most -1 => usage
pbcnf encode a b --at-most=1 --at-most=1 => usage
pbcnf encode -h a b => usage
pbcnf help => usage
pbcnf --version => usage
pbcnf probe => usage
pbcnf probe c --at-most=1 => usage
pbcnf probe c x0 => usage
pbcnf probe c y1 => usage
pbcnf probe c x2147483648 => usage
pbcnf wcnf a => usage
pbcnf wcnf a a => usage
pbcnf wcnf a b c => usage
pbcnf wcnf a b --at-most=1 --at-most-minus=1 => usage
pbcnf wcnf a b --at-most-minus=1267650600228229401496703205376 => usage";

#[test]
fn what_is_asked_for(rt: HostRuntime) {
    assert_page(&rt, asked, "\n", LINES);
}
