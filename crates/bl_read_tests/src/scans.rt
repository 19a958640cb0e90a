//! The pairs of a version and its memories, one after the other.

use crate::damage::{Change, damaged};
use crate::folders::text_of;
use crate::samples::{
    COUNTS, KEYS, Random, Sample, WRITES, Write, made_of, map_at, some_writes, value_of,
};
use bl_cache::Files;
use bl_code::Octets;
use bl_entry::RunErr;
use bl_read::{Bound, Memories, Pair, Pairs, next_pair};
use std::alloc::Global;
use std::str;
use std::test::Fail;

// A bound by a sign and a key: `-` is in front of all, `=` at the key, `>` behind it.
type Sign = (char, &'static str);

const BOUNDS: [Sign; 11] = [
    ('-', ""),
    ('=', ""),
    ('>', ""),
    ('=', "a"),
    ('>', "a"),
    ('=', "ab"),
    ('>', "b"),
    ('=', "b\u{0}"),
    ('>', "c"),
    ('=', "d"),
    ('>', "d"),
];

fn bound_of(alloc: Global, sign: Sign) -> Result<Bound, Fail> {
    let (sign, key) = sign;
    let key = Octets::from_slice(alloc, key.as_bytes())?;
    match sign {
        '-' => Ok(Bound::First),
        '=' => Ok(Bound::From(key)),
        _ => Ok(Bound::After(key)),
    }
}

fn is_reached(sign: Sign, key: &str) -> bool {
    match sign.0 {
        '-' => true,
        '=' => key >= sign.1,
        _ => key > sign.1,
    }
}

// Values after each other, each as `a=6 `, of the keys from a bound on, as the writes say.
fn wanted(alloc: Global, writes: &[Write], sign: Sign, seq: u64) -> Result<String, Fail> {
    let map = map_at(alloc, writes, seq)?;
    let mut text = String::new(alloc);
    for key in KEYS {
        if let (true, Some(at)) = (is_reached(sign, key), map.get(&key)) {
            text.push_str(value_of(alloc, key, *at)?.as_str())?;
            text.push_str(" ")?;
        }
    }
    Ok(text)
}

// The same of a pair: its value, which begins with its key.
fn put_pair(text: &mut String, pair: &Pair) -> Result<(), Fail> {
    let value = str::from_utf8(pair.value.as_slice())?;
    let key = str::from_utf8(pair.key.as_slice())?;
    match value.strip_prefix(key) {
        Some(rest) if rest.starts_with("=") => {}
        _ => return Err(Fail::from("the value of another key")),
    }
    text.push_str(value)?;
    text.push_str(" ")?;
    Ok(())
}

// A refusal in brackets.
fn put_refusal(alloc: Global, text: &mut String, error: &RunErr) -> Result<(), Fail> {
    let refusal = text_of(alloc, error)?;
    text.push_str(format!(in alloc; "[{refusal}] ")?.as_str())?;
    Ok(())
}

// What is told from a bound on: values, and refusals, of which each but the third is followed by one call more.
fn told(alloc: Global, sample: &mut Sample, sign: Sign, seq: u64) -> Result<String, Fail> {
    let Ok(mut files) = Files::start(alloc) else {
        return Err(Fail::from("no memory"));
    };
    let mut text = String::new(alloc);
    let bound = bound_of(alloc, sign)?;
    let mut pairs = match Pairs::open(alloc, &mut sample.site, &sample.version, bound, seq) {
        Ok(pairs) => pairs,
        Err(error) => {
            put_refusal(alloc, &mut text, &error)?;
            return Ok(text);
        }
    };
    let mut refusals = 0u8;
    for _ in 0..20 {
        let memories = Memories {
            in_use: &sample.in_use,
            waiting: Some(&sample.waiting),
        };
        match pairs.next(&mut sample.site, &mut files, memories) {
            Ok(Some(pair)) => put_pair(&mut text, &pair)?,
            Ok(None) => return Ok(text),
            Err(error) => {
                put_refusal(alloc, &mut text, &error)?;
                if refusals == 2 {
                    return Ok(text);
                }
                refusals = refusals.wrapping_add(1);
            }
        }
    }
    Err(Fail::from("no end"))
}

#[test]
fn pairs_from_each_bound(rt: HostRuntime) -> Result<(), Fail> {
    let alloc = rt.alloc();
    let mut sample = made_of(alloc, &WRITES, COUNTS)?;
    for seq in 0..24u64 {
        for sign in BOUNDS {
            let got = told(alloc, &mut sample, sign, seq)?;
            let want = wanted(alloc, &WRITES, sign, seq)?;
            assert_eq!(rt; got, want, "{sign:?} {seq}");
        }
    }
    Ok(())
}

#[test]
fn pairs_of_random_writes(rt: HostRuntime) -> Result<(), Fail> {
    let alloc = rt.alloc();
    let mut random = Random::from(2);
    for round in 0..20u64 {
        let (writes, counts) = some_writes(alloc, &mut random)?;
        let mut sample = made_of(alloc, &writes, counts)?;
        for seq in [4, 9, 14, 19, 24, u64::MAX] {
            for sign in [('-', ""), ('>', "aa")] {
                let got = told(alloc, &mut sample, sign, seq)?;
                let want = wanted(alloc, &writes, sign, seq)?;
                assert_eq!(rt; got, want, "{round} {sign:?} {seq}");
            }
        }
    }
    Ok(())
}

// Bounds that are no keys.
#[test]
fn bounds_that_are_no_keys(rt: HostRuntime) -> Result<(), Fail> {
    let alloc = rt.alloc();
    let mut sample = made_of(alloc, &WRITES, COUNTS)?;
    let Ok(mut files) = Files::start(alloc) else {
        return Err(Fail::from("no memory"));
    };
    // More bytes than a key has; the first of them stand before the key c, and behind b.
    let mut long = Vec::new(alloc);
    for _ in 0..66_000 {
        long.push(b'b')?;
    }
    for (bound, want) in [
        (Bound::From(Octets::from_slice(alloc, &long)?), "c=14"),
        (Bound::After(Octets::from_slice(alloc, &long)?), "c=14"),
        (Bound::From(Octets::from_slice(alloc, b"")?), "aa=17"),
        (Bound::After(Octets::from_slice(alloc, b"")?), "aa=17"),
    ] {
        let memories = Memories {
            in_use: &sample.in_use,
            waiting: Some(&sample.waiting),
        };
        let answer = next_pair(
            alloc,
            &mut sample.site,
            &mut files,
            &sample.version,
            memories,
            &bound,
            17,
        );
        match answer {
            Ok(Some(pair)) => assert_eq!(rt; str::from_utf8(pair.value.as_slice())?, want),
            _ => return Err(Fail::from("no pair")),
        }
    }
    Ok(())
}

// A file and its change, and what is told of all keys at a sequence.
const SCANS: [(&str, Change, u64, &str); 6] = [
    (
        "000009.blob",
        Change::Turned(171),
        5,
        "a=1 aa=5 b=2 c=3 d=4 ",
    ),
    // The value of the first key at this sequence is damaged: each call tells so.
    (
        "000009.blob",
        Change::Turned(171),
        8,
        "[corrupt 000009.blob 166] [corrupt 000009.blob 166] [corrupt 000009.blob 166] ",
    ),
    (
        "000009.blob",
        Change::Absent,
        8,
        "[corrupt 000009.blob 0] [corrupt 000009.blob 0] [corrupt 000009.blob 0] ",
    ),
    // The value of `b` is the fifth record, from 174 on.
    (
        "000009.blob",
        Change::Turned(207),
        14,
        "a=6 [corrupt 000009.blob 202] [corrupt 000009.blob 202] [corrupt 000009.blob 202] ",
    ),
    ("000002.sst", Change::Absent, 22, "[corrupt 000002.sst 0] "),
    (
        "000006.sst",
        Change::Turned(44),
        22,
        "[corrupt 000006.sst 54] ",
    ),
];

#[test]
fn pairs_in_damaged_folders(rt: HostRuntime) -> Result<(), Fail> {
    let alloc = rt.alloc();
    for (name, change, seq, want) in SCANS {
        let mut sample = damaged(alloc, &[], name, change)?;
        let got = told(alloc, &mut sample, ('-', ""), seq)?;
        assert_eq!(rt; got.as_str(), want, "{name} {seq}");
    }
    Ok(())
}

// At this sequence four of the values stand in the blob file: a refused reading of one is told in the place of its pair,
// and the next call tells the pair.
#[test]
fn pairs_where_a_call_fails(rt: HostRuntime) -> Result<(), Fail> {
    let alloc = rt.alloc();
    let mut whole = damaged(alloc, &[], "", Change::Absent)?;
    let all = "a=6 b=11 b\u{0}=10 c=14 d=8 ";
    assert_eq!(rt; told(alloc, &mut whole, ('-', ""), 14)?.as_str(), all);
    let mut opened = 0u64;
    let mut refused = 0u64;
    for call in 0..whole.site.calls() {
        let mut sample = damaged(alloc, &[call.wrapping_add(1)], "", Change::Absent)?;
        let got = told(alloc, &mut sample, ('-', ""), 14)?;
        if got.as_str() == "[disk] " {
            opened = opened.wrapping_add(1);
        } else {
            let rest = got.replace(alloc, "[disk] ", "")?;
            assert_eq!(rt; rest.as_str(), all, "call {call}");
            assert_eq!(rt; got.len(), rest.len().wrapping_add(7), "call {call}");
            refused = refused.wrapping_add(1);
        }
    }
    // Each table is opened by two calls; and there are four values in the blob file.
    assert_eq!(rt; opened, 12);
    assert!(rt; refused >= 4);
    Ok(())
}
