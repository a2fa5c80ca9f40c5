//! A script through the library, as a program that lives on runs it.

use mapdb_script::{FromRead, ToWrite, run};
use std::test::Fail;

const SCRIPT: &[u8] = b"processors 1\nmap 0 0 10000/12:rw- 0 1 40000/12\nrights 0 1 40000\n";

const REPLIES: &[u8] = b"records 1.0\nrights 00010:rw-\n";

#[test]
fn script_is_run(rt: HostRuntime) -> Result<(), Fail> {
    let mut written = Vec::new(rt.alloc());
    let mut reader = FromRead::new(SCRIPT);
    let mut writer = ToWrite::new(&mut written);
    let commands = match run(rt.alloc(), &mut reader, &mut writer) {
        Ok(summary) => summary.commands,
        Err(_) => 0,
    };
    assert_eq!(rt; commands, 3);
    assert_eq!(rt; written.as_slice(), REPLIES);
    Ok(())
}
