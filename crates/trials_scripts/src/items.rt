// Scripts that are read as items; each is spelled by the lines that it was read from.

use hk_script::{ParseError, lines_spell_their_items, parse};
use hk_text::lines;
use std::alloc::Global;
use std::test::Fail;

/// What reading a source of at most a million bytes answers: the number of items.
#[tactic(auto, using(hk_text::proofs::LineCount::lines_few))]
fn count(alloc: Global, source: &[u8]) -> Option<Result<usize, ParseError>> {
    if source.len() > 1_000_000 {
        return None;
    }
    let Ok(lines) = lines(alloc, source) else {
        return None;
    };
    match parse(alloc, lines.as_slice(), source) {
        Ok(syntax) => {
            lines_spell_their_items(source, lines.as_slice(), syntax.items());
            Some(Ok(syntax.items().len()))
        }
        Err(error) => Some(Err(error)),
    }
}

#[test]
fn reads_the_items(rt: HostRuntime) -> Result<(), Fail> {
    let alloc = rt.alloc();
    assert_eq!(rt; count(alloc, b"hydra 1"), Some(Ok(0)));
    let object = b"hydra 1\nobject d DATA\nwords 007\nend";
    assert_eq!(rt; count(alloc, object), Some(Ok(1)));
    let code = b"hydra 1\ncode c\nlabel l\nset r3 9\ncall 0.r1.65535 1 2 3\ngoto l\nend\n";
    assert_eq!(rt; count(alloc, code), Some(Ok(1)));
    let forward = b"hydra 1\nprocess p c\ncap d GETDATA+PUTDATA\nempty\nend\ntype t\nlimit 9\n";
    assert_eq!(rt; count(alloc, forward), Some(Ok(3)));
    Ok(())
}
