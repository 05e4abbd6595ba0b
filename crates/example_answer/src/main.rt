//! One connection of a client, answered from bytes: a server without variables gets a Hello and answers with its
//! Acknowledge (OPC UA Part 6, 7.1.2).
#![tactic(auto)]

use archive::ListArchive;
use ua_server::{ConstantClock, Server, answer_hex};
use ua_settings::Settings;

/// A Hello: version 0, both buffers of 65,536 bytes, no limits, and `opc.tcp://localhost:4840`.
const HELLO: &str = "48454C46 38000000 00000000 00000100 00000100 00000000 00000000
                     18000000 6F70632E7463703A2F2F6C6F63616C686F73743A34383430";

fn main(rt: HostRuntime) -> anyhow::Result<()> {
    let settings = Settings::bare(rt.alloc())?;
    let archive = ListArchive::new(rt.alloc(), settings.archive(), settings.replica());
    let mut server = Server::new(rt.alloc(), settings, archive);
    let mut answer = Vec::new(rt.alloc());
    let mut clock = ConstantClock(134_168_832_000_000_000);
    let ending = answer_hex(&mut server, HELLO, &mut answer, &mut clock)?;
    for piece in answer.chunks(8) {
        println!(&rt; "{}", std::str::from_utf8(piece)?)?;
    }
    println!(&rt; "{ending:?}")?;
    Ok(())
}
