//! A store that breaks ends what is served where the settings say so, and nowhere else.

use crate::shared::{Shared, Talk, shared_over};
use archive::{Archive, Failure, ScriptedArchive};
use multiplex::Handler;
use std::alloc::Global;
use std::test::Fail;
use ua_settings::Settings;

/// A plant whose server ends once its store is broken, one that opens it anew, and one that goes on.
const ENDS: &str =
    "[archive]\nid = '00000000000000000000000000000000'\nreplica = 1\nbroken = 'stop'\n[server]\nlisten = ''\nurl = ''\napplication = ''\nnamespace = ''\nanonymous = true\n";

const IS_OPENED_ANEW: &str =
    "[archive]\nid = '00000000000000000000000000000000'\nreplica = 1\nbroken = 'reopen'\n[server]\nlisten = ''\nurl = ''\napplication = ''\nnamespace = ''\nanonymous = true\n";

const GOES_ON: &str =
    "[archive]\nid = '00000000000000000000000000000000'\nreplica = 1\n[server]\nlisten = ''\nurl = ''\napplication = ''\nnamespace = ''\nanonymous = true\n";

/// Whether nobody is served any more, before a call of the archive, and behind it.
fn over_around_a_call<A: Archive>(world: &mut Shared<A>) -> (bool, bool) {
    let before = Talk::is_over(world);
    let _ = world.server.replica.archive.top();
    (before, Talk::is_over(world))
}

/// The same over a plant of these settings, and a call that fails so.
fn over_around(alloc: Global, text: &str, failure: Failure) -> Result<(bool, bool), Fail> {
    let settings = Settings::read(alloc, text)?;
    let archive = ScriptedArchive::new(alloc, settings.archive(), settings.replica(), 1, failure);
    let mut world = shared_over(alloc, settings, archive);
    Ok(over_around_a_call(&mut world))
}

#[test]
fn a_broken_store_ends_all_where_the_settings_say_so(rt: HostRuntime) -> Result<(), Fail> {
    let alloc = rt.alloc();
    assert_eq!(rt;
        over_around(alloc, ENDS, Failure::BrokenBefore)?,
        (false, true)
    );
    assert_eq!(rt;
        over_around(alloc, IS_OPENED_ANEW, Failure::BrokenBefore)?,
        (false, true)
    );
    assert_eq!(rt; over_around(alloc, ENDS, Failure::Refused)?, (false, false));
    assert_eq!(rt;
        over_around(alloc, GOES_ON, Failure::BrokenBefore)?,
        (false, false)
    );
    Ok(())
}
