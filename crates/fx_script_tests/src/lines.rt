//! A line of a form, and one of none; line_cases and script_cases have more of both.
use fx_script_lines::read_instruction;
use std::alloc::Global;

fn is_read(alloc: Global, line: &str) -> bool {
    match read_instruction(alloc, line) {
        Ok(found) => found.is_some(),
        Err(_) => false,
    }
}

#[test]
fn tells_forms(rt: HostRuntime) {
    assert!(rt; is_read(rt.alloc(), "watch invalid a act"));
    assert!(rt; !is_read(rt.alloc(), "set\ta 5"));
}
