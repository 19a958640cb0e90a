//! The value of a key, from the memories and the tables of a version.

use crate::folders::text_of;
use crate::samples::{
    COUNTS, Counts, KEYS, Random, Sample, WRITES, Write, made_of, map_at, some_writes, value_of,
};
use bl_cache::Files;
use bl_read::{Memories, find};
use std::alloc::Global;
use std::str;
use std::test::Fail;

/// A value, `none`, or what the refusal says.
pub(crate) fn found(
    alloc: Global,
    sample: &mut Sample,
    key: &str,
    seq: u64,
) -> Result<String, Fail> {
    let Ok(mut files) = Files::start(alloc) else {
        return Err(Fail::from("no memory"));
    };
    let memories = Memories {
        in_use: &sample.in_use,
        waiting: Some(&sample.waiting),
    };
    let answer = find(
        alloc,
        &mut sample.site,
        &mut files,
        &sample.version,
        memories,
        key.as_bytes(),
        seq,
    );
    match answer {
        Ok(Some(value)) => Ok(String::from_str(alloc, str::from_utf8(value.as_slice())?)?),
        Ok(None) => Ok(String::from_str(alloc, "none")?),
        Err(error) => text_of(alloc, &error),
    }
}

// The same, as the writes say.
fn wanted(alloc: Global, writes: &[Write], key: &'static str, seq: u64) -> Result<String, Fail> {
    match map_at(alloc, writes, seq)?.get(&key) {
        Some(at) => value_of(alloc, key, *at),
        None => Ok(String::from_str(alloc, "none")?),
    }
}

// Each key at each sequence. Those of the list that are never written have no value.
fn check_all(
    alloc: Global,
    writes: &[Write],
    sample: &mut Sample,
    seqs: &[u64],
) -> Result<Option<String>, Fail> {
    for seq in seqs {
        for key in KEYS {
            let got = found(alloc, sample, key, *seq)?;
            let want = wanted(alloc, writes, key, *seq)?;
            if got != want {
                let text = format!(in alloc; "{key} at {seq}: {got}, and not {want}")?;
                return Ok(Some(text));
            }
        }
    }
    Ok(None)
}

#[test]
fn each_key_at_each_sequence(rt: HostRuntime) -> Result<(), Fail> {
    let alloc = rt.alloc();
    let mut sample = made_of(alloc, &WRITES, COUNTS)?;
    for seq in 0..24u64 {
        let wrong = check_all(alloc, &WRITES, &mut sample, &[seq])?;
        assert_eq!(rt; wrong, None);
        for key in ["", "aaa", "b\u{0}\u{0}", "e"] {
            assert_eq!(rt; found(alloc, &mut sample, key, seq)?.as_str(), "none");
        }
    }
    let wrong = check_all(alloc, &WRITES, &mut sample, &[u64::MAX])?;
    assert_eq!(rt; wrong, None);
    Ok(())
}

#[test]
fn random_writes(rt: HostRuntime) -> Result<(), Fail> {
    let alloc = rt.alloc();
    let mut random = Random::from(1);
    for round in 0..12u64 {
        let (writes, counts) = some_writes(alloc, &mut random)?;
        let mut sample = made_of(alloc, &writes, counts)?;
        let wrong = check_all(alloc, &writes, &mut sample, &[4, 9, 14, 19, 24])?;
        assert_eq!(rt; wrong, None, "round {round}");
    }
    Ok(())
}
