use crate::shared::words_of;
use mw_cli::{Status, generate, mw_main};
use mw_io::{SureHost, SureSink};
use std::alloc::{AllocError, Global};
use std::test::Fail;

/// The words of a run from a seed, and its summary.
struct Seeded(&'static str, &'static str);

#[rattlefmt::skip]
static SEEDED: [Seeded; 5] = [
    Seeded(
        "gen 0 --cycles 0",
        "gen 0\ncycles 0\nretired 0\ntrapped 0\ninterrupted 0\nend ran 0\nsum 0000000000000000\n",
    ),
    Seeded(
        "gen 0 --cycles 21",
        "gen 0\ncycles 21\nretired 21\ntrapped 0\ninterrupted 0\nend ran 21\nsum 9000000000156d48\n",
    ),
    Seeded(
        "gen 5 --cycles 200000",
        "gen 5\ncycles 200000\nretired 199888\ntrapped 0\ninterrupted 112\nend ran 200000\nsum a45a3d7a6a38f92c\n",
    ),
    Seeded(
        "gen --cycles=200000 5",
        "gen 5\ncycles 200000\nretired 199888\ntrapped 0\ninterrupted 112\nend ran 200000\nsum a45a3d7a6a38f92c\n",
    ),
    Seeded(
        "gen --cycles=4000000 18446744073709551615",
        "gen 18446744073709551615\ncycles 4000000\nretired 3997031\ntrapped 0\ninterrupted 2969\nend ran 4000000\nsum e81c935fa6e77ffd\n",
    ),
];

#[test]
fn a_run_from_a_seed_is_summed_up(rt: HostRuntime) -> Result<(), Fail> {
    let alloc = rt.alloc();
    for Seeded(line, summary) in &SEEDED {
        let mut host = SureHost::new(alloc);
        let mut out = SureSink::new(alloc);
        let mut err = SureSink::new(alloc);
        let words = words_of(alloc, *line)?;
        let status = mw_main(alloc, words.as_slice(), &mut host, &mut out, &mut err);
        assert_eq!(rt; status, Status::Done, "{line}");
        assert_eq!(rt; out.as_slice(), summary.as_bytes(), "{line}");
        assert_eq!(rt; err.as_slice(), b"".as_slice(), "{line}");
    }
    Ok(())
}

/// What is written of a run of an image with these words.
fn written(alloc: Global, image: &[u8], line: &str) -> Result<SureSink, AllocError> {
    let mut host = SureHost::new(alloc);
    host.put("img", image)?;
    let mut out = SureSink::new(alloc);
    let mut err = SureSink::new(alloc);
    let words = words_of(alloc, line)?;
    mw_main(alloc, words.as_slice(), &mut host, &mut out, &mut err);
    Ok(out)
}

/// The number of a text's lines that begin with a letter and a blank.
fn count_of(text: &[u8], letter: u8) -> usize {
    let mut count = 0usize;
    for line in text.split(|byte| *byte == b'\n') {
        if line.len() > 1 && line[0] == letter && line[1] == b' ' {
            count = count.wrapping_add(1);
        }
    }
    count
}

/// A run of the image of a seed, as `run` prints it, has as many events of each kind as the summary says.
#[test]
fn an_image_of_a_seed_runs_as_its_summary_says(rt: HostRuntime) -> Result<(), Fail> {
    let alloc = rt.alloc();
    let image = generate(alloc, 5)?;
    let text = written(alloc, image.as_slice(), "run img --cycles 200000")?;
    assert_eq!(rt; count_of(text.as_slice(), b'R'), 199888);
    assert_eq!(rt; count_of(text.as_slice(), b'T'), 0);
    assert_eq!(rt; count_of(text.as_slice(), b'I'), 112);
    Ok(())
}
