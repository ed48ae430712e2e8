//! What a line says.
ghost use Rattle.std.specs.Prelude.{◌≡◌, ◌-◌, ◌^◌, Some, option_map};
ghost use Rattle.mm_connections.specs.Line.{asked_by, asks, asks_further, hung_up_by, is_plain, nameless, number_in, said_line, said_of, said_of_parts};
ghost use Rattle.mm_connections.specs.private.Request.{asked_of};

use crate::forms::further_of;
use crate::request::{ClientAsked, ClientRequest, client_asked};
use mm_lines::{number32, split_once, without_carriage_return};
use mm_service::{Line, MAX_REQUEST, request_line};

/// The longest line that says something, in bytes: the longest request, a number of five digits and a space.
const MAX_SAID: usize = 1_054;

/// The same, as `Limits` of mm_lines counts it: with a carriage return.
pub const MAX_LINE: usize = MAX_SAID + 1;

/// What a line says.
#[derive(Clone, Copy)]
pub enum Said {
    /// It names no connection that there is, or is too long.
    Nobody,
    /// What this connection asks for is not in the language.
    Malformed(u32),
    /// This connection has hung up.
    HangsUp(u32),
    /// This connection makes a request; the bytes that it is about stand beside it.
    Asks(u32, ClientRequest),
}

/// What a line says, and the bytes that its request is about: its one name, or the whole request if it is about several.
#[derive(Clone, Copy)]
pub struct NamedSaid<'a> {
    pub said: Said,
    pub name: &'a [u8],
}

/// Returns what a line without its newline says, if there are this many connections.
pub fn said_of(connections: u32, line: &[u8]) -> NamedSaid<'_>
    ensures said { result.said ≡ (said_of connections line.now).said }
    ensures name { result.name.now ≡ (said_of connections line.now).name }
{
    said_line(connections, without_carriage_return(line))
}

/// The same of a line without its carriage return.
fn said_line(connections: u32, line: &[u8]) -> NamedSaid<'_>
    ensures said { result.said ≡ (said_line connections line.now).said }
    ensures name { result.name.now ≡ (said_line connections line.now).name }
{
    if line.len() > MAX_SAID {
        return nameless(Said::Nobody);
    }
    match split_once(b' ', line) {
        Some((head, rest)) => said_of_parts(connections, head, rest),
        None => nameless(Said::Nobody),
    }
}

/// Returns what is said by the bytes before the first space and those after it.
fn said_of_parts<'a>(connections: u32, head: &[u8], rest: &'a [u8]) -> NamedSaid<'a>
    ensures said { result.said ≡ (said_of_parts connections head.now rest.entry.now).said }
    ensures name { result.name.now ≡ (said_of_parts connections head.now rest.entry.now).name }
{
    if head == b"-".as_slice() {
        return nameless(hung_up(number_in(connections, rest)));
    }
    match number_in(connections, head) {
        Some(connection) => asked(connection, rest),
        None => nameless(Said::Nobody),
    }
}

/// Returns what is said by a line that says who has hung up.
fn hung_up(connection: Option<u32>) -> Said
    ensures { result ≡ (hung_up_by connection).said }
{
    match connection {
        Some(connection) => Said::HangsUp(connection),
        None => Said::Nobody,
    }
}

/// Returns what a connection asks for.
fn asked(connection: u32, rest: &[u8]) -> NamedSaid<'_>
    ensures said { result.said ≡ (asked_by (Some connection) rest.now).said }
    ensures name { result.name.now ≡ (asked_by (Some connection) rest.now).name }
{
    let named = request_line(rest);
    match named.line {
        Line::Silent => nameless(Said::Malformed(connection)),
        Line::Malformed => {
            let further = if rest.len() > MAX_REQUEST {
                None
            } else {
                further_of(rest)
            };
            asks_further(connection, further)
        }
        Line::Request(request) => asks(connection, client_asked(request, named.name)),
    }
}

/// A connection asks for something.
fn asks(connection: u32, asked: ClientAsked<'_>) -> NamedSaid<'_>
    ensures said { result.said ≡ (asks connection (asked_of asked.entry)).said }
    ensures name { result.name.now ≡ (asks connection (asked_of asked.entry)).name }
{
    NamedSaid {
        said: Said::Asks(connection, asked.request),
        name: asked.about,
    }
}

/// A connection asks for something that only connections ask for, or its line is malformed.
fn asks_further(connection: u32, asked: Option<ClientAsked<'_>>) -> NamedSaid<'_>
    ensures said { result.said ≡ (asks_further connection (option_map asked_of asked.entry)).said }
    ensures name { result.name.now ≡ (asks_further connection (option_map asked_of asked.entry)).name }
{
    match asked {
        Some(asked) => asks(connection, asked),
        None => nameless(Said::Malformed(connection)),
    }
}

/// Returns the number of a connection that these bytes spell, without zeros in front.
fn number_in(connections: u32, word: &[u8]) -> Option<u32>
    ensures { result ≡ number_in connections word.now }
{
    if !is_plain(word) {
        return None;
    }
    match number32(word) {
        Some(number) if number < connections => Some(number),
        Some(_) | None => None,
    }
}

/// Returns whether no zero stands in front.
fn is_plain(word: &[u8]) -> bool
    ensures { result ≡ is_plain word.now }
{
    match word {
        [_] => true,
        [first, ..] => *first != b'0',
        [] => true,
    }
}

fn nameless(said: Said) -> NamedSaid<'static>
    ensures said { result.said ≡ (nameless said).said }
    ensures name { result.name.now ≡ (nameless said).name }
{
    NamedSaid { said, name: &[] }
}
