// Audit lines by their texts.

use hk_audit::{line_is_read_again, line_text, read_line};
use hk_model::Text;
use std::alloc::Global;
use std::test::Fail;

/// The line that a text spells, written again. None where it spells none.
fn again(alloc: Global, text: &[u8]) -> Result<Option<Text>, Fail> {
    let Some(line) = read_line(text) else {
        return Ok(None);
    };
    line_is_read_again(text, &line);
    match line_text(alloc, &line) {
        Ok(text) => Ok(Some(text)),
        Err(_) => Err("a text".into()),
    }
}

/// Each kind of event, and each reply.
const LINES: [&str; 32] = [
    "0 0 0 dispatch -> done\n",
    "0 0 0 halt -> done\n",
    "0 0 0 getdata 5 4294967295 -> word 4294967295\n",
    "0 0 0 putdata 5.0.65535 0 7 -> notcap 1\n",
    "0 0 0 adddata 5 9 -> full words\n",
    "0 0 0 length 5.0.65535 -> word 0\n",
    "0 0 0 load 5.1.2 255 -> range 255\n",
    "0 0 0 store 5 3 4 -> empty 3\n",
    "0 0 0 append 5 6 -> full entries\n",
    "0 0 0 erase 5 8 -> wrongtype 1\n",
    "0 0 0 drop 255 -> range 1\n",
    "0 0 0 restrict 2 PUTDATA+MODIFY -> done\n",
    "0 0 0 restrict 0 - -> done\n",
    "0 0 0 restrict 0 GETDATA+A7 -> done\n",
    "0 0 0 look 0.1.2.3.4.5.6.7 -> deep\n",
    "0 0 0 template 5 amplify - ALL 7 -> denied 2 MODIFY\n",
    "0 0 0 template 5 create GETDATA 7 -> badtemplate 1\n",
    "0 0 0 create 5 1 -> full objects\n",
    "0 0 0 merge 5 1 2 -> full slots\n",
    "0 0 0 copy 5 1 -> done\n",
    "0 0 0 call 5 9 -> count\n",
    "0 0 0 call 5.0.65535 0 255 9 -> done\n",
    "0 0 0 call 0 1 2 3 4 5 6 7 8 9 -> done\n",
    "0 0 0 return -> done\n",
    "0 0 0 return 3 -> done\n",
    "0 0 0 p 5 -> waits\n",
    "0 0 0 v 5 -> full tokens\n",
    "0 0 0 yield -> done\n",
    "15 255 18446744073709551615 yield -> done\n",
    "1 10 256 halt -> waits\n",
    "9 100 1000 yield -> empty 0\n",
    "0 0 0 yield -> denied 255 A0\n",
];

#[test]
fn lines_are_read_and_written_again(rt: HostRuntime) -> Result<(), Fail> {
    for text in LINES {
        let written = again(rt.alloc(), text.as_bytes())?.ok_or(text)?;
        assert_eq!(rt; written.as_str(), text);
    }
    Ok(())
}

#[test]
fn other_texts_are_no_lines(rt: HostRuntime) -> Result<(), Fail> {
    let texts: [&[u8]; 4] = [
        b"0 0 0 yield -> done",
        b"0 0 0 yield ->done\n",
        b"0 0 0 drop r0 -> done\n",
        b"0 0 0 look 0.01 -> done\n",
    ];
    for text in texts {
        assert!(rt; again(rt.alloc(), text)?.is_none());
    }
    Ok(())
}
