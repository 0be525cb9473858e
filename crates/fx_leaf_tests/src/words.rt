//! Words that ask for a run, and others that ask for none; line_cases has more of both.
use fx_words::{Frames, Size, Source, accept};
use std::alloc::{AllocError, Global};

fn words_in(alloc: Global, line: &str) -> Result<Vec<String>, AllocError> {
    let mut words = Vec::new(alloc);
    for word in line.split(' ') {
        words.push(String::from_str(alloc, word)?)?;
    }
    Ok(words)
}

/// Whether the words ask for the demo of this number, with this size and a summary.
fn asks_for_demo(alloc: Global, line: &str, number: u32, size: Size) -> bool {
    let Ok(words) = words_in(alloc, line) else {
        return false;
    };
    let Ok(Some(run)) = accept(alloc, words.as_slice()) else {
        return false;
    };
    let is_demo = match run.source {
        Source::Demo(asked) => asked == number,
        Source::Files(_, _, _) => false,
    };
    is_demo && run.size == Some(size) && run.frames == Frames::Delta && run.summary
}

fn asks_for_nothing(alloc: Global, line: &str) -> bool {
    let Ok(words) = words_in(alloc, line) else {
        return false;
    };
    match accept(alloc, words.as_slice()) {
        Ok(run) => run.is_none(),
        Err(_) => false,
    }
}

#[test]
fn words_ask_for_a_demo(rt: HostRuntime) {
    let size = Size {
        width: 4,
        height: 2,
    };
    let line = "demo:7 --size 4x2 --frames=delta --summary";
    assert!(rt; asks_for_demo(rt.alloc(), line, 7, size));
}

#[test]
fn words_ask_for_nothing(rt: HostRuntime) {
    assert!(rt; asks_for_nothing(rt.alloc(), "a b --size 2049x2"));
}
