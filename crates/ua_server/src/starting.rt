//! What the program tells of a server that begins.

ghost use Rattle.std.specs.Prelude.{◌≡◌, option_copied, IfOk};
ghost use Rattle.stamp.specs.Limits.{IsReplica};
ghost use Rattle.stamp.specs.Numbers.{number_of};
ghost use Rattle.event_lines.specs.Lines.{IsEventLine};
ghost use Rattle.ua_server.specs.Listening.{listen_at};
ghost use Rattle.ua_server.specs.Starting.{browsers_at, begin_text, records_of, CountsRecords};

use crate::log::ErrorLog;
use archive::Archive;
use command_line::VERSION;
use event_lines::{Start, start_line};
use stamp::{ReplicaNo, Vector};
use std::alloc::{AllocError, Global};
use std::io::Write;
use ua_connection::Clock;
use ua_settings::Settings;
use uuid::Uuid;

/// The address where peers alone come to, as the settings spell it.
fn peers_at(settings: &Settings) -> Option<&str>
    ensures { option_copied result ≡ listen_at settings.now }
{
    match settings.door() {
        None => None,
        Some(door) => Some(door.listen.as_str()),
    }
}

/// The address where browsers come to, as the settings spell it.
fn browsers_at(settings: &Settings) -> Option<&str>
    ensures { option_copied result ≡ browsers_at settings.now }
{
    match settings.web() {
        None => None,
        Some(web) => Some(web.listen.as_str()),
    }
}

/// The number of the replica of this number.
fn number_at(numbers: &Vector, replica: u8) -> u64
    requires { IsReplica replica }
    ensures { result ≡ number_of numbers.now replica }
{
    match ReplicaNo::new(replica) {
        None => 0,
        Some(replica) => numbers.get(replica),
    }
}

/// How many records these numbers are of, of all replicas together.
fn records_of(numbers: &Vector) -> u64
    ensures { result ≡ records_of 64 (number_of numbers.now) }
{
    let mut count = 0u64;
    for replicas in 0..64u8 {
        count = count.saturating_add(number_at(numbers, replicas + 1));
    }
    count
}

/// How many records an archive holds, where that is asked; none where it isn't, or can't be told.
pub(crate) fn count_records<A: Archive>(archive: &mut A, asked: bool) -> Option<u64>
    ensures { CountsRecords A.state asked archive.old archive.new result }
{
    if !asked {
        return None;
    }
    match archive.vector() {
        Ok(numbers) => Some(records_of(&numbers)),
        Err(_) => None,
    }
}

/// The line of a server of these settings that begins, where so many records are held.
fn begin_line(
    alloc: Global,
    at: i64,
    settings: &Settings,
    records: Option<u64>,
) -> Result<Vec<u8>, AllocError>
    ensures { IfOk result
        (λ line. IsEventLine at (begin_text settings.now records) line.items) }
{
    let mut buffer = Uuid::encode_buffer();
    let start = Start {
        version: VERSION,
        archive: settings.archive().hyphenated().encode_lower(&mut buffer),
        replica: settings.replica().get(),
        clients: settings.listen(),
        peers: peers_at(settings),
        browsers: browsers_at(settings),
        records,
    };
    start_line(alloc, at, &start)
}

impl<E: Write, C: Clock> ErrorLog<E, C> {
    ghost use Rattle.ua_server.specs.Logging.{LogsTimed};
    ghost use Rattle.ua_server.specs.Starting.{LogsStart, begin_text};

    /// Tells that a server of these settings begins, where so many records are held.
    fn log_begin(&mut self, settings: &Settings, records: Option<u64>)
        ensures { LogsTimed E.contents C.gave (begin_text settings.now records) self.old self.new }
    {
        let at = self.clock.now();
        let line = begin_line(self.alloc, at, settings, records);
        self.tell_line(0, line);
    }

    /// Tells that a server of these settings begins, where events are told, and so many records are held.
    pub(crate) fn log_start(&mut self, settings: &Settings, records: Option<u64>)
        ensures { LogsStart E.contents C.gave settings.now records self.old self.new }
    {
        if self.events {
            self.log_begin(settings, records);
        }
    }
}
