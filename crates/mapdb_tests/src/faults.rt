//! What the faults of scripts are called.

use mapdb_script::{LineFault, ScriptFault};
use std::test::Fail;

#[test]
fn faults_have_texts(rt: HostRuntime) -> Result<(), Fail> {
    let line = ScriptFault::Line {
        number: 3,
        fault: LineFault::Unknown,
    };
    let texts = format!(in rt.alloc();
        "{}, {}, {}, {}",
        line,
        ScriptFault::Read,
        ScriptFault::Write,
        ScriptFault::Memory
    )?;
    assert_eq!(rt;
        texts.as_str(),
        "a line is at fault, read failed, write failed, out of memory"
    );
    Ok(())
}
