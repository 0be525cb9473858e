//! One script with lines of each kind.
use fx_script_commands::{Command, Line, read_script};
use std::test::Fail;

/// What a line is, in a letter.
fn letter(line: &Line) -> char {
    match &line.command {
        Command::Plain(_) => 'p',
        Command::Bind(_, _) => 'b',
        Command::Action(_, _) => 'a',
        Command::Bad => '!',
    }
}

#[test]
fn reads_a_script(rt: HostRuntime) -> Result<(), Fail> {
    let script =
        b"# a script\nprop n int 1\r\n\t\nbind m.width  ${ n + '}' } \nbind m ${n} x\naction go\n\nsay hi\npulse\nend\nend\naction\nconsume\naction rest\nsay x";
    let lines = read_script(rt.alloc(), script)?;
    let mut seen = String::new(rt.alloc());
    for line in lines.as_slice() {
        let letter = letter(line);
        let number = line.number;
        let word = format!(in rt.alloc(); "{number}{letter} ")?;
        seen.push_str(word.as_str())?;
    }
    assert_eq!(rt; seen.as_str(), "2p 4b 5! 6a 11! 12! 13! 14! ");
    Ok(())
}
