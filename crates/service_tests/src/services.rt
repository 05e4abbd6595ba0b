//! Requests to the services, one after the other, each with its response.

use archive::ListArchive;
use historian::{ClientMessage, Server, answer_message};
use server_rows::plant::{archive_of, plant};
use std::alloc::{AllocError, Global};
use std::test::Fail;
use ua_binary::Ticks;
use ua_session::Sessions;
use ua_settings::Settings;

/// 1970-01-01, the moment of every request here.
const NOW: i64 = 116_444_736_000_000_000;

/// What stands behind the token of a request: timestamp 0, handle 2, and nothing else.
const HEADER: &str = "0000000000000000 02000000 00000000 FFFFFFFF 00000000 000000";

/// A client between requests, and the server that it asks.
#[derive(Drop)]
pub struct Client {
    server: Server<ListArchive>,
    sessions: Sessions,
}

impl Client {
    fn new(alloc: Global) -> Result<Client, Fail> {
        Ok(Client::of(alloc, plant(alloc)?))
    }

    /// One of a server of these settings, which holds nothing.
    pub fn of(alloc: Global, settings: Settings) -> Client {
        let archive = archive_of(alloc, &settings);
        Client {
            server: Server::new(alloc, settings, archive),
            sessions: Sessions::new(alloc),
        }
    }

    /// The response to a request, both in hex digits without spaces: a type id, a token, and what stands behind the header.
    pub fn ask(
        &mut self,
        alloc: Global,
        type_id: &str,
        token: &str,
        body: &str,
    ) -> Result<String, Fail> {
        let message = message_of(alloc, &[type_id, token, HEADER, body])?;
        let mut out = Vec::new(alloc);
        answer_message(
            &mut self.server,
            &mut self.sessions,
            Ticks(NOW),
            ClientMessage::read(message.as_slice()),
            &mut out,
        )?;
        Ok(hex::encode_upper(alloc, out.as_slice())?)
    }
}

/// The bytes that texts in a row spell in hex digits, with spaces between them.
fn message_of(alloc: Global, texts: &[&str]) -> Result<Vec<u8>, Fail> {
    let digits = digits_of(alloc, texts)?;
    Ok(hex::decode(alloc, digits.as_slice())?)
}

/// The digits of texts in a row, without spaces.
fn digits_of(alloc: Global, texts: &[&str]) -> Result<Vec<u8>, AllocError> {
    let mut digits = Vec::new(alloc);
    for text in texts {
        for byte in text.as_bytes() {
            if *byte != b' ' {
                digits.push(*byte)?;
            }
        }
    }
    Ok(digits)
}

/// Whether a response is this one: a type id, the head with this status, and what stands behind it; spaces aside.
fn is_response(
    alloc: Global,
    found: &String,
    type_id: &str,
    status: &str,
    body: &str,
) -> Result<bool, AllocError> {
    let head = "00803ED5DEB19D01 02000000";
    let tail = "00 FFFFFFFF 000000";
    let wanted = digits_of(alloc, &[type_id, head, status, tail, body])?;
    Ok(found.as_bytes() == wanted.as_slice())
}

/// The token of the first session.
pub const TOKEN: &str = "01010300";

/// A request, by its type id, its token and what stands behind its header, and its response, by its type id, its status
/// and what stands behind its head.
pub type Row = (
    &'static str,
    &'static str,
    &'static str,
    &'static str,
    &'static str,
    &'static str,
);

/// Whether a row is answered so.
pub fn is_answered(alloc: Global, client: &mut Client, row: &Row) -> Result<bool, Fail> {
    let (type_id, token, body, told, status, rest) = *row;
    let found = client.ask(alloc, type_id, token, body)?;
    Ok(is_response(alloc, &found, told, status, rest)?)
}

/// The number of the first row that is answered otherwise; none where there is no such row.
pub fn first_other(
    alloc: Global,
    client: &mut Client,
    rows: &[Row],
) -> Result<Option<usize>, Fail> {
    for (number, row) in rows.iter().enumerate() {
        if !is_answered(alloc, client, row)? {
            return Ok(Some(number));
        }
    }
    Ok(None)
}

/// What CreateSession asks for: no limit, and nothing by name.
const CREATE: &str =
    "FFFFFFFF FFFFFFFF 00 00000000 FFFFFFFF FFFFFFFF FFFFFFFF FFFFFFFF FFFFFFFF FFFFFFFF FFFFFFFF FFFFFFFF 0000000000000000 00000000";

/// Activates as nobody.
pub const ACTIVATE: &str = "FFFFFFFF FFFFFFFF FFFFFFFF FFFFFFFF 000000 FFFFFFFF FFFFFFFF";

/// Makes a session, whose token is `ns=1;i=3`.
pub fn create_session(alloc: Global, client: &mut Client) -> Result<bool, Fail> {
    let created = client.ask(alloc, "0100CD01", "0000", CREATE)?;
    Ok(
        created.as_bytes().starts_with(
            b"0100D00100803ED5DEB19D01020000000000000000FFFFFFFF000000010102000101030000",
        ),
    )
}

/// Whether one more session is made.
pub fn is_session_made(alloc: Global, client: &mut Client) -> Result<bool, Fail> {
    let told = client.ask(alloc, "0100CD01", "0000", CREATE)?;
    Ok(told.as_bytes().starts_with(b"0100D001"))
}

/// Whether sixteen sessions are made.
fn are_sixteen_made(alloc: Global, client: &mut Client) -> Result<bool, Fail> {
    for _ in 0..16 {
        if !is_session_made(alloc, client)? {
            return Ok(false);
        }
    }
    Ok(true)
}

/// One session too many is refused (Bad_TooManySessions), and the first one is closed.
static REFUSED_AND_CLOSED: [Row; 2] = [
    ("0100CD01", "0000", CREATE, "01008D01", "00005680", ""),
    ("0100D901", TOKEN, "00", "0100DC01", "00000000", ""),
];

/// Whether sixteen are made and no more, until one is closed.
fn are_sixteen(alloc: Global, client: &mut Client) -> Result<bool, Fail> {
    Ok(
        are_sixteen_made(alloc, client)?
            && first_other(alloc, client, &REFUSED_AND_CLOSED)?.is_none()
            && is_session_made(alloc, client)?,
    )
}

/// The same at a server of its own.
fn are_sixteen_at_a_server(alloc: Global) -> Result<bool, Fail> {
    let mut client = Client::new(alloc)?;
    are_sixteen(alloc, &mut client)
}

/// The 17th is refused, and made once another one is closed.
#[test]
fn sixteen_sessions_and_no_more(rt: HostRuntime) -> Result<(), Fail> {
    assert!(rt; are_sixteen_at_a_server(rt.alloc())?);
    Ok(())
}

/// A request with a list: its type id, what stands before the list, an item, the type id of its response, and how
/// many items may be asked for.
struct Listing {
    type_id: &'static str,
    front: &'static str,
    item: &'static str,
    response: &'static str,
    most: u32,
}

impl Listing {
    /// What stands behind the header with so many items.
    fn body(&self, alloc: Global, count: u32) -> Result<String, Fail> {
        let number = hex::encode_upper(alloc, &count.to_le_bytes())?;
        let mut text = format!(in alloc; "{}{number}", self.front)?;
        for _ in 0..count {
            text.push_str(self.item)?;
        }
        Ok(text)
    }
}

static LISTINGS: [Listing; 4] = [
    Listing {
        type_id: "01000F02",
        front: "0000 0000000000000000 00000000 00000000",
        item: "0055 00000000 0021 01 00000000 3F000000",
        response: "01001202",
        most: 1000,
    },
    Listing {
        type_id: "01007702",
        front: "0000000000000000 02000000",
        item: "0301000100000054 0D000000 FFFFFFFF 0000 FFFFFFFF",
        response: "01007A02",
        most: 1000,
    },
    Listing {
        type_id: "0100BC02",
        front: "",
        item: "0100B302 01 14000000 0301000100000054 01000000 0A00000000000000",
        response: "0100BF02",
        most: 100,
    },
    Listing {
        type_id: "01009802",
        front: "01008902 01 16000000 00 0100000000000000 6400000000000000 00000000 00 00000000 00",
        item: "0301000100000054 FFFFFFFF 0000 FFFFFFFF FFFFFFFF",
        response: "01009B02",
        most: 100,
    },
];

/// The response to a list of so many items.
fn told_of(
    alloc: Global,
    client: &mut Client,
    listing: &Listing,
    count: u32,
) -> Result<String, Fail> {
    let body = listing.body(alloc, count)?;
    client.ask(alloc, listing.type_id, TOKEN, body.as_str())
}

/// Whether a response begins with this type and this status.
fn has_head(
    alloc: Global,
    found: &String,
    type_id: &str,
    status: &str,
) -> Result<bool, AllocError> {
    let head = digits_of(alloc, &[type_id, "00803ED5DEB19D01 02000000", status])?;
    Ok(found.as_bytes().starts_with(head.as_slice()))
}

/// The first count of items that is answered otherwise than it has to be: a list of no item is refused
/// (Bad_NothingToDo), and one of one too many (Bad_TooManyOperations).
fn first_other_count(
    alloc: Global,
    client: &mut Client,
    listing: &Listing,
) -> Result<Option<u32>, Fail> {
    for (count, response, status) in [
        (0, "01008D01", "00000F80"),
        (1, listing.response, "00000000"),
        (listing.most, listing.response, "00000000"),
        (listing.most.saturating_add(1), "01008D01", "00001080"),
    ] {
        let told = told_of(alloc, client, listing, count)?;
        if !has_head(alloc, &told, response, status)? {
            return Ok(Some(count));
        }
    }
    Ok(None)
}

/// The same of all lists, behind an activation, with the type of the request.
fn first_other_list(
    alloc: Global,
    client: &mut Client,
) -> Result<Option<(&'static str, u32)>, Fail> {
    if !create_session(alloc, client)? {
        return Err(Fail::from("no session"));
    }
    let _ = client.ask(alloc, "0100D301", TOKEN, ACTIVATE)?;
    for listing in &LISTINGS {
        if let Some(count) = first_other_count(alloc, client, listing)? {
            return Ok(Some((listing.type_id, count)));
        }
    }
    Ok(None)
}

/// The same at a server of its own.
fn first_other_list_at_a_server(alloc: Global) -> Result<Option<(&'static str, u32)>, Fail> {
    let mut client = Client::new(alloc)?;
    first_other_list(alloc, &mut client)
}

#[test]
fn lists_have_a_greatest_count(rt: HostRuntime) -> Result<(), Fail> {
    assert_eq!(rt; first_other_list_at_a_server(rt.alloc())?, None);
    Ok(())
}

/// Behind an activation: 10,000 picoseconds are kept as 9,999, and a matrix is refused with its whole request
/// (Bad_DecodingError).
static VALUES: &[Row] = &[
    (
        "0100D301",
        TOKEN,
        ACTIVATE,
        "0100D601",
        "00000000",
        "FFFFFFFF FFFFFFFF FFFFFFFF",
    ),
    (
        "0100BC02",
        TOKEN,
        "01000000 0100AA02 01 20000000 0301000100000054 01000000 01000000 15 0607000000 1400000000000000 1027",
        "0100BF02",
        "00000000",
        "01000000 00000000 01000000 0000A200 FFFFFFFF FFFFFFFF",
    ),
    (
        "0100BC02",
        TOKEN,
        "01000000 0100AA02 01 32000000 0301000100000054 01000000 01000000 05 C6 02000000 07000000 08000000 02000000 01000000 02000000 1E00000000000000",
        "01008D01",
        "00000780",
        "",
    ),
    (
        "01009802",
        TOKEN,
        "01008902 01 16000000 00 0100000000000000 6400000000000000 00000000 00 00000000 00 01000000 0301000100000054 FFFFFFFF 0000 FFFFFFFF FFFFFFFF",
        "01009B02",
        "00000000",
        "01000000 00000000 FFFFFFFF 01009202 01 14000000 01000000 15 0607000000 1400000000000000 0F27 FFFFFFFF",
    ),
];

/// The first of these rows that is answered otherwise, once a session is made.
fn first_other_value(alloc: Global, client: &mut Client) -> Result<Option<usize>, Fail> {
    if !create_session(alloc, client)? {
        return Err(Fail::from("no session"));
    }
    first_other(alloc, client, VALUES)
}

/// The same at a server of its own.
fn first_other_value_at_a_server(alloc: Global) -> Result<Option<usize>, Fail> {
    let mut client = Client::new(alloc)?;
    first_other_value(alloc, &mut client)
}

#[test]
fn values_are_kept_or_refused_whole(rt: HostRuntime) -> Result<(), Fail> {
    assert_eq!(rt; first_other_value_at_a_server(rt.alloc())?, None);
    Ok(())
}
