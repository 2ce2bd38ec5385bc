//! Balances worked by hand.
use crate::first_unbalanced;
use stark_fields::S12289;
use stark_lookup_trace::TupleEntry;
use stark_support::PrimeField64;
use std::alloc::{AllocError, Global};
use std::test::Fail;

/// What rows send and receive, an entry a word: the tuple's numbers, then `x` and how often it is
/// sent, or `-` and how often it is received; after `=` the place of the first entry whose tuple
/// doesn't balance.
const BALANCES: &str = "\
= none
7x1 = 0
7x1 7-1 = none
7x0 = none
7x2 7-1 8x1 8-1 = 0
8x1 8-1 7x2 7-1 = 2
7x1 7x1 7-2 = none
7,8x1 8,7-1 = 0
7,8x1 7,8-1 8,7x1 = 2
7x1 7,0-1 = 0
7x1 7,0-1 7-1 = 1
5x1 6x1 6-1 5-1 9x3 9-2 9-1 = none
5x1 6x1 6-2 5-1 = 1";

fn entry_of(alloc: Global, word: &str) -> Result<TupleEntry<S12289>, Fail> {
    let (tuple, times, is_sent) = match word.split_once('x') {
        Some((tuple, times)) => (tuple, times, true),
        None => {
            let (tuple, times) = word.split_once('-').ok_or("no count")?;
            (tuple, times, false)
        }
    };
    let times = S12289::from_u8(times.parse::<u8>().ok().ok_or("no number")?);
    let mut numbers = Vec::new(alloc);
    for number in tuple.split(',') {
        numbers.push(S12289::from_u8(number.parse::<u8>().ok().ok_or("no number")?))?;
    }
    Ok(TupleEntry {
        tuple: numbers,
        multiplicity: if is_sent { times } else { -times },
    })
}

fn answer(alloc: Global, entries: &[TupleEntry<S12289>]) -> Result<String, AllocError> {
    match first_unbalanced(alloc, entries)? {
        Some(place) => format!(in alloc; "{place}"),
        None => String::from_str(alloc, "none"),
    }
}

#[test]
fn balances(rt: HostRuntime) -> Result<(), Fail> {
    let alloc = rt.alloc();
    for line in BALANCES.lines() {
        let (given, asked) = line.split_once("= ").ok_or("no answer")?;
        let mut entries = Vec::new(alloc);
        for word in given.split_ascii_whitespace() {
            entries.push(entry_of(alloc, word)?)?;
        }
        assert_eq!(rt; answer(alloc, &entries)?.as_str(), asked, "{line}");
    }
    Ok(())
}
