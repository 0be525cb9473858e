//! Worked runs over a shelf and a sink in memory, with ample memory.
ghost use Rattle.std.specs.Prelude.{◌≡◌};

use fx_base::{Ledgers, Work};
use fx_play::{Status, play};
use fx_port::{MemoryShelf, MemorySink};
use std::alloc::{AllocError, Global};
use std::marker::Brand;
use std::sync::ledger::Blank;
use std::test::Fail;

const SCENE: &str = "<?import javafx.scene.layout.*?>\n<Pane prefWidth=\"4\" prefHeight=\"2\"/>";

const FILES: &str = "s.fxml s.txt";

/// A run beside a scene and a script, with the calls of the shelf and the sink that fail.
#[derive(Drop)]
struct Trial<'a> {
    words: &'a str,
    script: &'a str,
    failing_fetches: &'a [u64],
    failing_puts: &'a [(u64, usize)],
}

fn played<L: Ledgers>(
    alloc: Global,
    trial: &Trial<'_>,
    evaluated: Blank,
    styled: Blank,
    laid: Blank,
    painted: Blank,
) -> Result<(Status, Vec<u8>), AllocError>
    requires evaluated { (evaluated.name ≡ L.evaluated_name) × (evaluated.parts ≡ 1) }
    requires styled { (styled.name ≡ L.styled_name) × (styled.parts ≡ 1) }
    requires laid { (laid.name ≡ L.laid_name) × (laid.parts ≡ 1) }
    requires painted { (painted.name ≡ L.painted_name) × (painted.parts ≡ 1) }
{
    let mut words = Vec::new(alloc);
    for word in trial.words.split(' ') {
        words.push(String::from_str(alloc, word)?)?;
    }
    let mut files = Vec::new(alloc);
    files.push((
        String::from_str(alloc, "s.fxml")?,
        Vec::from_slice(alloc, SCENE.as_bytes())?,
    ))?;
    files.push((
        String::from_str(alloc, "s.txt")?,
        Vec::from_slice(alloc, trial.script.as_bytes())?,
    ))?;
    let mut shelf = MemoryShelf::new(files, Vec::from_slice(alloc, trial.failing_fetches)?);
    let mut sink = MemorySink::new(alloc, Vec::from_slice(alloc, trial.failing_puts)?);
    let mut work: Work<L> = Work::new(evaluated, styled, laid, painted);
    let status = play(alloc, words.as_slice(), &mut shelf, &mut sink, &mut work);
    Ok((status, Vec::from_slice(alloc, sink.written())?))
}

#[test]
fn plays_worked_runs(rt: HostRuntime) -> Result<(), Fail> {
    let alloc = rt.alloc();
    let rows: [(&str, &str, &[u64], &[(u64, usize)], Status, &str); 5] = [
        (
            FILES,
            "get root.x\n",
            &[],
            &[],
            Status::Done,
            "refused 1 unknown\n",
        ),
        // A third fetch would fail: the script and the scene are fetched once.
        (FILES, "", &[3], &[], Status::Done, ""),
        (FILES, "pulse", &[1], &[], Status::ReadFault, ""),
        // A first fetch would fail: a demo fetches nothing.
        (
            "demo:1 --summary",
            "pulse",
            &[1],
            &[],
            Status::Done,
            "summary 20 78348 17 25754767047204\n",
        ),
        (
            FILES,
            "say one\nsay two\n",
            &[],
            &[(3, 3)],
            Status::WriteFault,
            "say one\nsay",
        ),
    ];
    for (words, script, failing_fetches, failing_puts, status, written) in rows {
        let trial = Trial {
            words,
            script,
            failing_fetches,
            failing_puts,
        };
        let (answer, bytes) = played::<Brand>(
            alloc,
            &trial,
            Blank::new(1),
            Blank::new(1),
            Blank::new(1),
            Blank::new(1),
        )?;
        assert_eq!(rt; bytes.as_slice(), written.as_bytes(), "{words} {script}");
        assert!(rt; answer == status, "{words} {script}");
    }
    Ok(())
}
