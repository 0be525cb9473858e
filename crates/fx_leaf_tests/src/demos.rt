//! The script of the least demo; line_cases has others by their checksums.
use std::alloc::Global;

const START: &str = "listen change n0.prefWidth\nset n0.prefWidth 7\nclass h0 hot\npulse\n";

fn makes_the_least(alloc: Global) -> bool {
    let Ok((_, sheet, script)) = fx_gen::make(alloc, 1) else {
        return false;
    };
    sheet
        .as_slice()
        .starts_with(b".label{-fx-background-color:skyblue}\n")
        && script.as_slice().starts_with(START.as_bytes())
}

#[test]
fn makes_the_least_demo(rt: HostRuntime) {
    assert!(rt; makes_the_least(rt.alloc()));
}
